//! The tally of a question for a number.
ghost use Rattle.std.specs.Prelude.{◌≡◌, false};
ghost use Rattle.query_laws.specs.Sums.{capped_add};

use crate::question::Tally;
use crate::step_ledger::NoMemory;
use std::marker::Model;

/// A sum that stays at 2^64 - 1. It takes no memory, and never refuses.
#[derive(Drop)]
pub struct Total {
    sum: u64,
}

impl Model for Total {
    ghost use Rattle.std.specs.Prelude.{ℕ};

    ghost Value = { ℕ };

    ghost view = { λ total. total.sum };
}

impl Total {
    /// Nothing yet.
    pub fn new() -> Total
        ensures { result ≡ 0 }
    {
        Total { sum: 0 }
    }

    /// Adds a number.
    #[inline]
    pub fn add(&mut self, n: u64)
        ensures { self.new ≡ capped_add self.old n }
    {
        self.sum = self.sum.saturating_add(n);
    }
}

impl Tally for Total {
    type Answer = u64;

    ghost so_far = { λ total. total };

    ghost can_refuse = { λ _. false };

    fn can_refuse(&self) -> bool {
        false
    }

    fn finish(self) -> Result<u64, NoMemory> {
        Ok(self.sum)
    }
}
