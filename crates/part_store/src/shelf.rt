//! What is kept of one level.
ghost use Rattle.std.specs.Prelude.{◌≡◌, ◌+◌, ◌-◌, ◌<◌, ◌≤◌, IfOk, OnErr};
ghost use Rattle.part_store.specs.Shelves.{Shelved};

use crate::kept::Kept;
use query_laws::NoMemory;
use std::alloc::Global;
use std::marker::Model;

/// What is kept for one level, with a place for all that is lent.
#[derive(Drop)]
pub(crate) struct Shelf<T: Kept> {
    level: u32,
    kept: Vec<T>,
    lent: usize,
}

impl<T: Kept> Model for Shelf<T> {
    ghost use Rattle.std.specs.Prelude.{◌≡◌, ◌+◌, ◌<◌, ◌≤◌, All, length, vec_capacity};
    ghost use Rattle.part_store.specs.Shelves.{Shelved};

    ghost Value = { Shelved };

    ghost view = { λ s. record { level = s.level; kept = length s.kept.items; lent = s.lent } };

    ghost invariant = { λ s. (s.level < 32) × All (λ t. T.level_of t ≡ s.level) s.kept.items
        × (length s.kept.items + s.lent ≤ vec_capacity s.kept) };
}

impl<T: Kept> Shelf<T> {
    /// The shelf of a level, with nothing on it.
    pub(crate) fn new(alloc: Global, level: u32) -> Shelf<T>
        requires { level < 32 }
        ensures { result ≡ record { level = level; kept = 0; lent = 0 } }
    {
        Shelf {
            level,
            kept: Vec::new(alloc),
            lent: 0,
        }
    }

    /// Lends one.
    pub(crate) fn lend(&mut self) -> T
        requires { 0 < self.old.kept }
        ensures lent { self.new ≡ record self.old { kept = self.old.kept - 1; lent = self.old.lent + 1 } }
        ensures of_level { T.level_of result ≡ self.old.level }
    {
        match self.kept.pop() {
            Some(lent) => {
                self.lent += 1;
                lent
            }
            None => unreachable!(),
        }
    }

    /// Takes back one that was lent, or another one in its place.
    pub(crate) fn take_back(&mut self, back: T)
        requires lent { 0 < self.old.lent }
        requires of_level { T.level_of back ≡ self.old.level }
        ensures { self.new ≡ record self.old { kept = self.old.kept + 1; lent = self.old.lent - 1 } }
    {
        self.lent -= 1;
        self.kept.push_reserved(back);
    }

    /// Keeps one more.
    fn add(&mut self, alloc: Global) -> Result<(), NoMemory>
        requires { T.lowest ≤ self.old.level }
        ensures added { IfOk result (λ _. self.new ≡ record self.old { kept = self.old.kept + 1 }) }
        ensures refused { OnErr result (self.new ≡ self.old) }
    {
        self.kept.reserve(self.lent.saturating_add(1))?;
        let more = T::room(alloc, self.level)?;
        self.kept.push_reserved(more);
        Ok(())
    }

    /// Keeps so many at least.
    pub(crate) fn stock(&mut self, wanted: usize, alloc: Global) -> Result<(), NoMemory>
        requires { T.lowest ≤ self.old.level }
        ensures stocked { IfOk result (λ _. wanted ≤ self.new.kept) }
        ensures same { self.new ≡ record self.old { kept = self.new.kept } }
        ensures no_less { self.old.kept ≤ self.new.kept }
        ensures no_more { self.new.kept ≤ self.old.kept + (wanted - self.old.kept) }
    {
        let missing = wanted.saturating_sub(self.kept.len());
        for _added in 0..missing {
            self.add(alloc)?;
        }
        Ok(())
    }

    /// How many are kept.
    pub(crate) fn kept(&self) -> usize
        ensures { result ≡ self.now.kept }
    {
        self.kept.len()
    }

    /// Frees one that is kept.
    pub(crate) fn give_up(&mut self)
        requires { 0 < self.old.kept }
        ensures { self.new ≡ record self.old { kept = self.old.kept - 1 } }
    {
        self.kept.pop();
    }
}
