//! y in the first order, sixteen an entry, with a mask of the live ones.
ghost use Rattle.std.specs.Prelude.{◌≡◌, ◌≢◌, ◌+◌, ◌/◌, ◌%◌, ◌<◌, ℕ, length, slice_index, slice_set};
ghost use Rattle.std.specs.Int.{bit_at};
ghost use Rattle.query_laws.specs.StepLedger.{Spends};
ghost use Rattle.range_tree.specs.Tree.{y_at, live_bit};

use crate::rows::RangeTree;
use query_laws::step_ledger::Steps;
use std::sync::ledger::Ledger;

/// How many places a leaf has.
pub(crate) const LEAF_LEN: usize = 16;

/// Sixteen neighbouring places: their y, and a set bit for each at which there is a live point, from the lowest on. A dead point's y stays.
#[derive(Clone, Copy)]
pub(crate) struct Leaf {
    pub(crate) ys: [u32; LEAF_LEN],
    pub(crate) live: u16,
}

/// The leaf without points.
const NO_POINTS: Leaf = Leaf {
    ys: [0; LEAF_LEN],
    live: 0,
};

impl Leaf {
    /// Puts a live point at a place, by its y.
    fn put(&mut self, slot: usize, y: u32)
        requires { slot < 16 }
        ensures own { slice_index self.new.ys slot ≡ y }
        ensures ys { self.new.ys ≡ slice_set self.old.ys slot y }
        ensures set { bit_at self.new.live slot ≡ 1 }
        ensures others { (k : ℕ) → k ≢ slot → bit_at self.new.live k ≡ bit_at self.old.live k }
    {
        self.ys[slot] = y;
        self.live |= 1 << slot;
    }

    /// Clears the bit of a place whose point died.
    fn strike(&mut self, slot: usize)
        requires { slot < 16 }
        ensures ys { self.new.ys ≡ self.old.ys }
        ensures cleared { bit_at self.new.live slot ≡ 0 }
        ensures others { (k : ℕ) → k < 16 → k ≢ slot → bit_at self.new.live k ≡ bit_at self.old.live k }
    {
        self.live &= !(1 << slot);
    }
}

impl RangeTree {
    /// Puts the y of the next point, which is live.
    pub(crate) fn put_leaf<L: Ledger>(&mut self, place: usize, y: u32, steps: &mut Steps<L>)
        requires next { length self.old.leaves.items ≡ (place + 15) / 16 }
        requires room { place % 16 ≡ 0 → length self.old.leaves.items < self.old.leaves.capacity }
        ensures own { y_at self.new.leaves.items place ≡ y }
        ensures live { live_bit self.new.leaves.items place ≡ 1 }
        ensures others { (k : ℕ) → k ≢ place → y_at self.new.leaves.items k ≡ y_at self.old.leaves.items k }
        ensures bits { (k : ℕ) → k ≢ place → live_bit self.new.leaves.items k ≡ live_bit self.old.leaves.items k }
        ensures many { length self.new.leaves.items ≡ (place + 16) / 16 }
        ensures kept { self.new ≡ record self.old { leaves = self.new.leaves } }
        ensures room { self.new.leaves.capacity ≡ self.old.leaves.capacity }
        ensures cost { Spends steps.old steps.new 0 0 2 }
    {
        if place % LEAF_LEN == 0 {
            let mut leaf = NO_POINTS;
            leaf.put(0, y);
            self.leaves.push(leaf, steps);
        } else {
            self.leaves
                .entry_mut(place / LEAF_LEN, steps)
                .put(place % LEAF_LEN, y);
        }
    }

    /// The point at a place died: its bit is cleared.
    pub(crate) fn strike_leaf<L: Ledger>(&mut self, place: usize, steps: &mut Steps<L>)
        requires { place / 16 < length self.old.leaves.items }
        ensures own { live_bit self.new.leaves.items place ≡ 0 }
        ensures ys { (k : ℕ) → y_at self.new.leaves.items k ≡ y_at self.old.leaves.items k }
        ensures bits { (k : ℕ) → k ≢ place → live_bit self.new.leaves.items k ≡ live_bit self.old.leaves.items k }
        ensures many { length self.new.leaves.items ≡ length self.old.leaves.items }
        ensures kept { self.new ≡ record self.old { leaves = self.new.leaves } }
        ensures room { self.new.leaves.capacity ≡ self.old.leaves.capacity }
        ensures cost { Spends steps.old steps.new 0 0 2 }
    {
        self.leaves
            .entry_mut(place / LEAF_LEN, steps)
            .strike(place % LEAF_LEN);
    }
}
