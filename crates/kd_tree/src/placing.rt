//! Places in an order of their own.
ghost use Rattle.std.specs.Prelude.{◌≡◌, ℕ, ◌+◌, ◌<◌, ◌≤◌, ◌^◌, [], ◌∷◌, ◌++◌, IfOk, length, Some, slice_get};
ghost use Rattle.std.specs.List.{range_with_len};
ghost use Rattle.query_laws.specs.StepLedger.{Spends};
ghost use Rattle.query_laws.specs.Permuted.{Permuted};

use query_laws::NoMemory;
use query_laws::step_ledger::{Row, Steps};
use std::alloc::Global;
use std::marker::Model;
use std::sync::ledger::Ledger;

/// The places from 0 on, each once, in an order of their own: the place at each position, and the position of each place.
///
/// Contracts see it as the places in their order, and how many it takes.
#[derive(Drop)]
pub(crate) struct Placing {
    order: Row<u32>,
    at: Row<u32>,
}

impl Model for Placing {
    ghost use Rattle.std.specs.Prelude.{ℕ};
    ghost use Rattle.query_laws.specs.StepLedger.{Entries};
    ghost use Rattle.kd_tree.specs.Placings.{IsPlacing};

    ghost Value = { Entries ℕ };

    ghost view = { λ p. p.order };

    ghost invariant = { λ p. IsPlacing p.order p.at };
}

impl Placing {
    /// No places, with room for so many.
    pub(crate) fn room(alloc: Global, cap: usize) -> Result<Placing, NoMemory>
        ensures { IfOk result (λ places. places ≡ record { items = []; capacity = cap }) }
    {
        Ok(Placing {
            order: Row::room(alloc, cap)?,
            at: Row::room(alloc, cap)?,
        })
    }

    /// How many places there are. It counts nothing.
    #[inline]
    pub(crate) fn len(&self) -> usize
        ensures value { result ≡ length self.now.items }
        ensures within { result ≤ self.now.capacity }
        ensures each_place { Permuted self.now.items (range_with_len 0 (length self.now.items)) }
    {
        self.order.len()
    }

    /// Puts the next place behind the others: two touches.
    #[inline]
    pub(crate) fn put<L: Ledger>(&mut self, steps: &mut Steps<L>)
        requires room { length self.old.items < self.old.capacity }
        requires small { length self.old.items < 2 ^ 31 }
        ensures put { self.new ≡ record self.old { items = self.old.items ++ length self.old.items ∷ [] } }
        ensures cost { Spends steps.old steps.new 0 0 2 }
    {
        let place = self.order.len() as u32;
        self.order.push(place, steps);
        self.at.push(place, steps);
    }

    /// The place at a position: one touch.
    #[inline]
    pub(crate) fn place_at<L: Ledger>(&self, position: usize, steps: &mut Steps<L>) -> usize
        requires { position < length self.now.items }
        ensures value { slice_get self.now.items position ≡ Some result }
        ensures within { result < length self.now.items }
        ensures cost { Spends steps.old steps.new 0 0 1 }
    {
        self.order.at(position, steps) as usize
    }

    /// The position of a place: one touch.
    #[inline]
    pub(crate) fn position_of<L: Ledger>(&self, place: usize, steps: &mut Steps<L>) -> usize
        requires { place < length self.now.items }
        ensures value { slice_get self.now.items result ≡ Some place }
        ensures only { (other : ℕ) → slice_get self.now.items other ≡ Some place → other ≡ result }
        ensures within { result < length self.now.items }
        ensures cost { Spends steps.old steps.new 0 0 1 }
    {
        self.at.at(place, steps) as usize
    }

    /// Exchanges the places at two positions: six touches.
    #[inline]
    pub(crate) fn exchange<L: Ledger>(&mut self, from: usize, to: usize, steps: &mut Steps<L>)
        requires from { from < length self.old.items }
        requires to { to < length self.old.items }
        ensures room { self.new.capacity ≡ self.old.capacity }
        ensures as_many { length self.new.items ≡ length self.old.items }
        ensures cost { Spends steps.old steps.new 0 0 6 }
    {
        let place = self.order.at(from, steps);
        let other = self.order.at(to, steps);
        self.order.set(from, other, steps);
        self.order.set(to, place, steps);
        self.at.set(place as usize, to as u32, steps);
        self.at.set(other as usize, from as u32, steps);
    }

    /// Takes all out, and keeps the memory. It counts nothing.
    pub(crate) fn clear(&mut self)
        ensures { self.new ≡ record { items = []; capacity = self.old.capacity } }
    {
        self.order.clear();
        self.at.clear();
    }
}
