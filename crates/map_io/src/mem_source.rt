// A source over memory.
ghost use Rattle.std.specs.Prelude.{◌≡◌, ◌==◌, ◌↔◌, ℕ, ◌+◌, ◌-◌, ◌^◌, ◌<◌, ◌≤◌, List, [], min, ◌++◌, take, drop, length, All, Contains, Some, IfOk, IsErr, OnOk, OnErr, if◌then◌else◌};
ghost use Rattle.std.specs.List.Sorted.{IsStrictlyIncreasing};
ghost use Rattle.std.specs.Io.KnownBytes.{ReadConsumes};
ghost use Rattle.map_io.specs.Calls.{counted};
ghost use Rattle.map_io.specs.SinkTold.{CountsMore};
ghost use Rattle.map_io.specs.MemSource.{Gives, GivesNone};

use super::plan::Plan;
use super::source::{Failed, Source, count_fault};
use std::marker::Model;

/// A source over bytes in memory, for tests: it gives them in pieces, and fails where it is told to.
///
/// Contracts see it as a `MemSourceState`: the bytes that are left, the piece, the numbers of the failing
/// calls that are still to come, the calls so far, the failing calls so far, and how many filled what they were handed.
#[derive(Drop)]
pub struct MemSource {
    bytes: Vec<u8>,
    taken: usize,
    piece: usize,
    plan: Plan,
    faults: u64,
    filled: usize,
}

impl Model for MemSource {
    ghost use Rattle.std.specs.Prelude.{◌≤◌, drop, vec_len};
    ghost use Rattle.map_io.specs.MemSource.{MemSourceState};

    ghost Value = { MemSourceState };

    ghost view = { λ s. record {
      rest = drop s.taken s.bytes.items;
      piece = s.piece;
      failing = s.plan.failing;
      calls = s.plan.made;
      faults = s.faults;
      filled = s.filled;
    } };

    ghost invariant = { λ s. (s.taken ≤ vec_len s.bytes) × (1 ≤ s.piece) × (s.filled ≤ s.taken) };
}

impl MemSource {
    /// A source that gives `bytes` in pieces of at most `piece` bytes.
    ///
    /// `failing` has the numbers of the calls that fail, counted from 1. A call after call
    /// 2^64 - 1 has no number.
    pub fn new(bytes: Vec<u8>, piece: usize, failing: Vec<u64>) -> MemSource
        requires some { 1 ≤ piece }
        requires rising { IsStrictlyIncreasing failing.items }
        requires numbered { All (λ n. 0 < n) failing.items }
        ensures { result ≡ record {
          rest = bytes.items;
          piece = piece;
          failing = failing.items;
          calls = 0;
          faults = 0;
          filled = 0;
        } }
    {
        MemSource {
            bytes,
            taken: 0,
            piece,
            plan: Plan::new(failing),
            faults: 0,
            filled: 0,
        }
    }

    /// The number of bytes that are left.
    pub fn left(&self) -> usize
        ensures { result ≡ length self.now.rest }
    {
        self.bytes.len() - self.taken
    }
}

impl Source for MemSource {
    ghost rest = { λ s. Some s.rest };

    ghost faults = { λ s. s.faults };

    ghost filled = { λ s. Some s.filled };

    /// Copies the bytes that it gives; the rest of the call takes a fixed number of steps.
    fn read(&mut self, into: &mut [u8]) -> Result<usize, Failed>
        requires { 0 < length into.old }
        ensures bound { IfOk result (λ n. n ≤ length into.old) }
        ensures taken { ReadConsumes (Some self.old.rest) (Some self.new.rest) result into.new }
        ensures bounded { self.new.faults ≤ 2 ^ 64 - 1 }
        ensures failed { OnErr result (self.new.faults ≡ counted self.old.faults) }
        ensures succeeded { OnOk result (self.new.faults ≡ self.old.faults) }
        ensures filled { IfOk result (λ n. CountsMore (Some self.old.filled) (Some self.new.filled) (if n == length into.old then 1 else 0)) }
        ensures unfilled { OnErr result (CountsMore (Some self.old.filled) (Some self.new.filled) 0) }

        ensures fails { IsErr result ↔ Contains self.old.failing (self.old.calls + 1) }
        ensures refused { OnErr result (GivesNone self.old self.new into.old into.new) }
        ensures given { IfOk result (λ n. Gives self.old self.new into.old into.new n) }
    {
        if self.plan.count() {
            return Err(count_fault(&mut self.faults));
        }
        let left = self.bytes.len() - self.taken;
        let given = into.len().min(self.piece).min(left);
        let end = self.taken + given;
        into[..given].copy_from_slice(&self.bytes[self.taken..end]);
        self.taken = end;
        self.filled += usize::from(given == into.len());
        Ok(given)
    }
}
