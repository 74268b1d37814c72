// The numbers of the calls that are to fail.
ghost use Rattle.std.specs.Prelude.{◌≡◌, ◌↔◌, ◌+◌, ◌<◌, All, Contains, IsTrue};
ghost use Rattle.std.specs.List.Sorted.{IsStrictlyIncreasing};
ghost use Rattle.map_io.specs.Calls.{counted, numbers_after};

use std::marker::Model;

// Counts calls from 1, and knows which of them fail.
#[derive(Drop)]
pub(crate) struct Plan {
    failing: Vec<u64>,
    passed: usize,
    calls: u64,
}

impl Model for Plan {
    ghost use Rattle.std.specs.Prelude.{◌≤◌, drop, vec_len};
    ghost use Rattle.map_io.specs.Calls.{Calls, RisesAfter};

    ghost Value = { Calls };

    ghost view = { λ p. record { failing = drop p.passed p.failing.items; made = p.calls } };

    ghost invariant = { λ p. (p.passed ≤ vec_len p.failing) × RisesAfter p.calls (drop p.passed p.failing.items) };
}

impl Plan {
    pub(crate) fn new(failing: Vec<u64>) -> Plan
        requires rising { IsStrictlyIncreasing failing.items }
        requires numbered { All (λ n. 0 < n) failing.items }
        ensures { result ≡ record { failing = failing.items; made = 0 } }
    {
        Plan {
            failing,
            passed: 0,
            calls: 0,
        }
    }

    // Counts a call and says whether it fails. A call after call 2^64 - 1 has no number: no failing
    // one is left by then.
    pub(crate) fn count(&mut self) -> bool
        ensures fails { IsTrue result ↔ Contains self.old.failing (self.old.made + 1) }
        ensures counts { self.new ≡ record {
          failing = numbers_after (self.old.made + 1) self.old.failing;
          made = counted self.old.made;
        } }
    {
        let number = self.calls.saturating_add(1);
        self.calls = number;
        if self.passed == self.failing.len() {
            return false;
        }
        let next = self.failing[self.passed];
        if next != number {
            return false;
        }
        self.passed += 1;
        true
    }
}
