//! What is kept of all levels.
ghost use Rattle.std.specs.Prelude.{◌≡◌, ℕ, ◌+◌, ◌-◌, ◌<◌, ◌≤◌, List, [], IfOk, length};
ghost use Rattle.part_store.specs.Shelves.{Shelved, kept_at, lent_at, Lends, TakesBack, TakesUpTo, GivesUp};

use crate::kept::Kept;
use crate::shelf::Shelf;
use query_laws::NoMemory;
use std::alloc::Global;
use std::marker::Model;

/// What is kept, by level. It takes no memory before `stock`.
#[derive(Drop)]
pub(crate) struct Shelves<T: Kept> {
    shelves: Vec<Shelf<T>>,
}

impl<T: Kept> Model for Shelves<T> {
    ghost use Rattle.std.specs.Prelude.{◌≤◌, List, length};
    ghost use Rattle.part_store.specs.Shelves.{Shelved, AreInPlace};

    ghost Value = { List Shelved };

    ghost view = { λ s. s.shelves.items };

    ghost invariant = { λ s. AreInPlace s.shelves.items × (length s.shelves.items ≤ 32) };
}

impl<T: Kept> Shelves<T> {
    /// Shelves with nothing on them.
    pub(crate) fn new(alloc: Global) -> Shelves<T>
        ensures { result ≡ [] }
    {
        Shelves {
            shelves: Vec::new(alloc),
        }
    }

    /// Lends one of a level. It takes no memory.
    #[tactic(auto, using(crate::proofs::Shelving::in_place_set, crate::proofs::Shelving::lends_set))]
    pub(crate) fn lend(&mut self, level: u32) -> T
        requires { 0 < kept_at level self.old }
        ensures lent { Lends level self.old self.new }
        ensures of_level { T.level_of result ≡ level }
    {
        self.shelves[level as usize].lend()
    }

    /// Takes back one of a level that was lent, or another one in its place. It frees no memory.
    #[tactic(auto, using(crate::proofs::Shelving::in_place_set, crate::proofs::Shelving::takes_back_set))]
    pub(crate) fn take_back(&mut self, level: u32, back: T)
        requires lent { 0 < lent_at level self.old }
        requires of_level { T.level_of back ≡ level }
        ensures { TakesBack level self.old self.new }
    {
        self.shelves[level as usize].take_back(back);
    }

    /// Keeps so many of a level at least. Memory is taken here alone.
    ///
    /// `NoMemory` where some isn't given; what was taken is kept.
    #[tactic(auto, using(crate::proofs::Shelving::in_place_set, crate::proofs::Shelving::takes_set))]
    pub(crate) fn stock(&mut self, level: u32, wanted: usize, alloc: Global) -> Result<(), NoMemory>
        requires least { T.lowest ≤ level }
        requires most { level < 32 }
        ensures stocked { IfOk result (λ _. wanted ≤ kept_at level self.new) }
        ensures takes { TakesUpTo level wanted self.old self.new }
    {
        self.reach(level, alloc)?;
        self.shelves[level as usize].stock(wanted, alloc)
    }

    /// Has shelves up to a level.
    fn reach(&mut self, level: u32, alloc: Global) -> Result<(), NoMemory>
        requires { level < 32 }
        ensures reached { IfOk result (λ _. level < length self.new) }
        ensures kept { (k : ℕ) → kept_at k self.new ≡ kept_at k self.old }
        ensures lent { (k : ℕ) → lent_at k self.new ≡ lent_at k self.old }
    {
        if self.shelves.len() > level as usize {
            return Ok(());
        }
        self.add_shelf(alloc)?;
        self.reach(level, alloc)
    }

    /// Has one shelf more.
    #[tactic(auto, using(crate::proofs::Shelving::in_place_push, crate::proofs::Shelving::kept_push, crate::proofs::Shelving::lent_push))]
    fn add_shelf(&mut self, alloc: Global) -> Result<(), NoMemory>
        requires { length self.old < 32 }
        ensures more { IfOk result (λ _. length self.new ≡ length self.old + 1) }
        ensures kept { (k : ℕ) → kept_at k self.new ≡ kept_at k self.old }
        ensures lent { (k : ℕ) → lent_at k self.new ≡ lent_at k self.old }
    {
        self.shelves.reserve(1)?;
        let next = self.shelves.len() as u32;
        self.shelves.push_reserved(Shelf::new(alloc, next));
        Ok(())
    }

    /// How many levels have a shelf.
    pub(crate) fn len(&self) -> u32
        ensures value { result ≡ length self.now }
        ensures few { result ≤ 32 }
    {
        self.shelves.len() as u32
    }

    /// How many of a level are kept.
    pub(crate) fn kept(&self, level: u32) -> usize
        ensures { result ≡ kept_at level self.now }
    {
        match self.shelves.get(level as usize) {
            Some(shelf) => shelf.kept(),
            None => 0,
        }
    }

    /// Frees one that is kept of a level, where one is. Memory is freed here alone.
    #[tactic(auto, using(crate::proofs::Shelving::in_place_set, crate::proofs::Shelving::frees_set))]
    pub(crate) fn give_up(&mut self, level: u32)
        ensures { GivesUp level self.old self.new }
    {
        let Some(shelf) = self.shelves.get_mut(level as usize) else {
            return;
        };
        if shelf.kept() > 0 {
            shelf.give_up();
        }
    }
}
