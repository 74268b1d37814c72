//! One count of a ledger, with its lap.
ghost use Rattle.std.specs.Prelude.{◌≡◌, ◌+◌, ◌-◌, ◌^◌, ◌≤◌, min};

use std::marker::Model;
use std::mem;
use std::sync::ledger::{Book, Ledger, Share};

/// The amount counted before the lap and the amount counted in it, of which only the lap is kept at run time.
#[derive(Drop)]
pub(super) struct Meter<L: Ledger> {
    before: Share<L>,
    within: Share<L>,
    lap: u64,
}

impl<L: Ledger> Model for Meter<L> {
    ghost use Rattle.std.specs.Prelude.{◌≡◌, ℕ, ◌-◌, ◌^◌, ◌≤◌, min};

    ghost Value = { ℕ × ℕ };

    ghost view = { λ m. (m.before.amount, m.within.amount) };

    // A part moves from `before` at each new lap, and comes back with the amount of the old one.
    ghost invariant = { λ m. (2 ≤ m.before.parts) × (1 ≤ m.within.parts) × (m.lap ≡ min m.within.amount (2 ^ 64 - 1)) };
}

impl<L: Ledger> Meter<L> {
    /// A meter at zero, which takes three parts of the share.
    pub(super) fn new(all: &mut Share<L>) -> Meter<L>
        requires parts { 3 ≤ all.old.parts }
        requires amount { all.old.amount ≡ 0 }
        ensures value { result ≡ (0, 0) }
        ensures parts { all.new.parts + 3 ≡ all.old.parts }
        ensures amount { all.new.amount ≡ 0 }
    {
        let before = all.split_off(2, 0);
        let within = all.split_off(1, 0);
        Meter {
            before,
            within,
            lap: 0,
        }
    }

    /// Counts one, in the lap.
    #[inline]
    pub(super) fn count_one(&mut self, book: &mut Book<L>)
        ensures { self.new ≡ (self.old.0, self.old.1 + 1) }
    {
        book.add(&mut self.within, 1);
        self.lap = self.lap.saturating_add(1);
    }

    /// Begins a lap, at what was counted so far.
    #[inline]
    pub(super) fn start_lap(&mut self)
        ensures { self.new ≡ (self.old.0 + self.old.1, 0) }
    {
        let fresh = self.before.split_off(1, 0);
        let ended = mem::replace(&mut self.within, fresh);
        self.before.merge(ended);
        self.lap = 0;
    }

    /// The amount counted in the lap, or 2^64 - 1 where it is more.
    #[inline]
    pub(super) fn lap(&self) -> u64
        ensures { result ≡ min self.now.1 (2 ^ 64 - 1) }
    {
        self.lap
    }
}
