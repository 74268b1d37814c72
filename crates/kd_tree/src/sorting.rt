//! Places are sorted into blocks, cut at one coordinate and then at the other in turn.
//!
//! At first the places stand by x. A pass goes through them in one of the two orders that the builder was handed, and puts
//! each, where it stands in a block of a level, behind those of that block that it met before: a count for each block says
//! how many these are. So the blocks keep their places and have them in that order afterwards; the next pass does the same with
//! blocks a quarter as long and the other order, so that each block is cut into four at a coordinate. Nothing is sorted but
//! by these passes, and each step exchanges two places.
ghost use Rattle.std.specs.Prelude.{◌≡◌, ◌+◌, ◌-◌, ◌*◌, ◌/◌, ◌^◌, ◌<◌, ◌≤◌, [], ◌∷◌, ◌++◌, ℕ, IfOk, length};
ghost use Rattle.query_laws.specs.StepLedger.{Spends};

use crate::height::{LEAF, block_bits};
use crate::placing::Placing;
use query_laws::NoMemory;
use query_laws::step_ledger::{Row, Steps};
use row_blocks::block_start;
use std::alloc::Global;
use std::sync::ledger::Ledger;

/// The passes over some places: their second order, and the counts of the blocks.
///
/// The next step is that of the place at `next` of one of the orders, the first one while `by_first`; blocks are of `level`, and
/// their counts stand from `counted` on. At level zero no step is left.
#[derive(Drop)]
pub(crate) struct Sorting {
    pub(crate) by_y: Row<u32>,
    pub(crate) counts: Row<u32>,
    pub(crate) level: u32,
    pub(crate) next: usize,
    pub(crate) counted: usize,
    pub(crate) by_first: bool,
}

impl Sorting {
    ghost use Rattle.kd_tree.specs.Sorting.{HasSortingRoom, IsUnsorted, IsSorting, turns_left};

    /// Room for so many places.
    pub(crate) fn room(alloc: Global, cap: usize) -> Result<Sorting, NoMemory>
        requires { cap ≤ 2 ^ 31 }
        ensures room { IfOk result (λ sorting. HasSortingRoom cap sorting) }
        ensures none { IfOk result (λ sorting. IsUnsorted 0 [] sorting) }
    {
        Ok(Sorting {
            by_y: Row::room(alloc, cap)?,
            counts: Row::room(alloc, cap / LEAF + 1)?,
            level: 0,
            next: 0,
            counted: 0,
            by_first: false,
        })
    }

    /// Takes one more place: at most one touch.
    pub(crate) fn put_first<L: Ledger>(&mut self, place: usize, steps: &mut Steps<L>)
        requires counts { length self.old.counts.items ≡ (place + 7) / 8 }
        requires room { place / 8 < self.old.counts.capacity }
        ensures counts { length self.new.counts.items ≡ (place + 8) / 8 }
        ensures kept { self.new ≡ record self.old { counts = record self.old.counts { items = self.new.counts.items } } }
        ensures cost { Spends steps.old steps.new 0 0 1 }
    {
        if place % LEAF == 0 {
            self.counts.push(0, steps);
        }
    }

    /// Takes the next place of the second order: one touch.
    pub(crate) fn put_second<L: Ledger>(&mut self, place: usize, steps: &mut Steps<L>)
        requires small { place < 2 ^ 31 }
        requires room { length self.old.by_y.items < self.old.by_y.capacity }
        ensures put { self.new ≡ record self.old { by_y = record self.old.by_y { items = self.old.by_y.items ++ place ∷ [] } } }
        ensures cost { Spends steps.old steps.new 0 0 1 }
    {
        self.by_y.push(place as u32, steps);
    }

    /// Begins the passes over so many places for a tree of so many levels, of which the lowest has leaves for its blocks and takes none.
    /// Gives how many turns they take.
    pub(crate) fn begin(&mut self, depth: u32, len: usize) -> u64
        requires some { 1 ≤ depth }
        requires few { len ≤ 2 ^ 31 }
        ensures begun { self.new ≡ record self.old { level = depth - 1; next = 0; counted = 0; by_first = self.new.by_first } }
        ensures turns { result ≡ self.new.level * len }
    {
        self.level = depth - 1;
        self.next = 0;
        self.counted = 0;
        self.by_first = false;
        u64::from(self.level) * len as u64
    }

    /// The place whose step is next: one touch at most.
    fn next_place<L: Ledger>(&self, steps: &mut Steps<L>) -> usize
        requires sorting { (n : ℕ) × IsSorting n self.now }
        requires more { 0 < self.now.level }
        ensures within { (n : ℕ) → IsSorting n self.now → result < n }
        ensures cost { Spends steps.old steps.new 0 0 1 }
    {
        if self.by_first {
            self.next
        } else {
            self.by_y.at(self.next, steps) as usize
        }
    }

    /// Where a place goes that stands at a position: behind those of its block that were met before. Two touches.
    fn target<L: Ledger>(&mut self, from: usize, steps: &mut Steps<L>) -> usize
        requires low { self.old.level ≤ 15 }
        requires small { from < 2 ^ 31 }
        requires counts { 0 < length self.old.counts.items }
        ensures kept { self.new ≡ record self.old { counts = self.new.counts } }
        ensures as_many { length self.new.counts.items ≡ length self.old.counts.items }
        ensures same_room { self.new.counts.capacity ≡ self.old.counts.capacity }
        ensures cost { Spends steps.old steps.new 0 0 2 }
    {
        let bits = block_bits(self.level);
        let block = from >> bits;
        // Each level's counts stand behind those of the level above; there are enough.
        let k = self
            .counted
            .saturating_add(block)
            .min(self.counts.len() - 1);
        let count = self.counts.at(k, steps);
        self.counts.set(k, count.wrapping_add(1), steps);
        block_start(from, bits) + count as usize
    }

    /// Goes on to the next place, or to the next level.
    fn advance(&mut self, len: usize)
        requires sorting { IsSorting len self.old }
        requires more { 0 < self.old.level }
        ensures sorting { IsSorting len self.new }
        ensures kept { self.new ≡ record self.old { level = self.new.level; next = self.new.next; counted = self.new.counted; by_first = self.new.by_first } }
        ensures left { turns_left len self.new + 1 ≡ turns_left len self.old }
    {
        self.next += 1;
        if self.next == len {
            self.counted = self
                .counted
                .saturating_add(len >> block_bits(self.level))
                .saturating_add(1);
            self.level -= 1;
            self.next = 0;
            self.by_first = !self.by_first;
        }
    }

    /// One step of a pass: at most ten touches.
    pub(crate) fn step<L: Ledger>(&mut self, places: &mut Placing, steps: &mut Steps<L>)
        requires sorting { IsSorting (length places.old.items) self.old }
        requires more { 0 < self.old.level }
        ensures sorting { IsSorting (length places.old.items) self.new }
        ensures left { turns_left (length places.old.items) self.new + 1 ≡ turns_left (length places.old.items) self.old }
        ensures same_room { places.new.capacity ≡ places.old.capacity }
        ensures as_many { length places.new.items ≡ length places.old.items }
        ensures by_y_room { self.new.by_y.capacity ≡ self.old.by_y.capacity }
        ensures counts_room { self.new.counts.capacity ≡ self.old.counts.capacity }
        ensures cost { Spends steps.old steps.new 0 0 10 }
    {
        let len = places.len();
        let place = self.next_place(steps);
        let from = places.position_of(place, steps);
        let to = self.target(from, steps);
        // Where a place goes is a matter of speed alone, and so is that there is such a position.
        places.exchange(from, to.min(len - 1), steps);
        self.advance(len);
    }

    /// Takes all places out, and keeps the memory. It counts nothing.
    pub(crate) fn clear(&mut self)
        ensures none { IsUnsorted 0 [] self.new }
        ensures by_y_room { self.new.by_y.capacity ≡ self.old.by_y.capacity }
        ensures counts_room { self.new.counts.capacity ≡ self.old.counts.capacity }
    {
        self.by_y.clear();
        self.counts.clear();
        self.level = 0;
        self.next = 0;
        self.counted = 0;
        self.by_first = false;
    }
}
