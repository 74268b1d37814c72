// A sink over memory.
ghost use Rattle.std.specs.Prelude.{◌≡◌, ◌↔◌, ◌⊎◌, ◌+◌, ◌-◌, ◌^◌, ◌<◌, ◌≤◌, [], min, length, vec_len, All, Contains, IfOk, IsErr, OnErr};
ghost use Rattle.std.specs.List.Sorted.{IsStrictlyIncreasing};
ghost use Rattle.map_io.specs.SinkTold.{TakesFront, TakesNone};
ghost use Rattle.map_io.specs.MemSink.{sink_after_failing, sink_after_taking, told_in};

use super::plan::Plan;
use super::sink::Sink;
use super::source::{Failed, count_fault};
use std::marker::Model;

/// A sink over memory that it is given, for tests: it takes pieces, and fails where it is told to
/// or has no place left.
///
/// Contracts see it as a `MemSinkState`: the bytes taken, how many calls took all that they were
/// handed, the places left, the piece, the numbers of the failing calls that are still to come, the calls so far and the
/// failed calls so far.
#[derive(Drop)]
pub struct MemSink {
    space: Vec<u8>,
    filled: usize,
    pieces: usize,
    piece: usize,
    plan: Plan,
    faults: u64,
}

impl Model for MemSink {
    ghost use Rattle.std.specs.Prelude.{◌-◌, ◌≤◌, take, vec_len};
    ghost use Rattle.map_io.specs.MemSink.{MemSinkState};

    ghost Value = { MemSinkState };

    ghost view = { λ s. record {
      written = take s.filled s.space.items;
      pieces = s.pieces;
      room = vec_len s.space - s.filled;
      piece = s.piece;
      failing = s.plan.failing;
      calls = s.plan.made;
      faults = s.faults;
    } };

    ghost invariant = { λ s. (s.filled ≤ vec_len s.space) × (s.pieces ≤ s.filled) × (1 ≤ s.piece) };
}

impl MemSink {
    /// A sink that puts bytes over those of `space`, from its front, at most `piece` in a call.
    ///
    /// `failing` has the numbers of the calls that fail, counted from 1. A call after call
    /// 2^64 - 1 has no number. No call takes memory.
    pub fn new(space: Vec<u8>, piece: usize, failing: Vec<u64>) -> MemSink
        requires some { 1 ≤ piece }
        requires rising { IsStrictlyIncreasing failing.items }
        requires numbered { All (λ n. 0 < n) failing.items }
        ensures { result ≡ record {
          written = [];
          pieces = 0;
          room = vec_len space;
          piece = piece;
          failing = failing.items;
          calls = 0;
          faults = 0;
        } }
    {
        MemSink {
            space,
            filled: 0,
            pieces: 0,
            piece,
            plan: Plan::new(failing),
            faults: 0,
        }
    }

    /// The bytes taken so far.
    pub fn written(&self) -> &[u8]
        ensures { result.now ≡ self.now.written }
    {
        &self.space[..self.filled]
    }
}

impl Sink for MemSink {
    ghost told = { told_in };

    /// Copies the bytes that it takes; the rest of the call takes a fixed number of steps.
    fn write(&mut self, piece: &[u8]) -> Result<usize, Failed>
        requires { 0 < length piece.now }
        ensures bound { IfOk result (λ n. (1 ≤ n) × (n ≤ length piece.now)) }
        ensures taken { IfOk result (TakesFront (told_in self.old) (told_in self.new) piece.now) }
        ensures failed { OnErr result (TakesNone (told_in self.old) (told_in self.new)) }
        ensures bounded { self.new.faults ≤ 2 ^ 64 - 1 }

        ensures fails { IsErr result ↔ (Contains self.old.failing (self.old.calls + 1) ⊎ (self.old.room ≡ 0)) }
        ensures refused { OnErr result (self.new ≡ sink_after_failing self.old) }

        ensures given { IfOk result (λ n. self.new ≡ sink_after_taking n piece.now self.old) }
        ensures count { IfOk result (λ n. n ≡ min (length piece.now) (min self.old.piece self.old.room)) }
    {
        let fails = self.plan.count();
        let room = self.space.len() - self.filled;
        if fails || room == 0 {
            return Err(count_fault(&mut self.faults));
        }
        let taken = piece.len().min(self.piece).min(room);
        let end = self.filled + taken;
        self.space[self.filled..end].copy_from_slice(&piece[..taken]);
        self.filled = end;
        self.pieces += usize::from(taken == piece.len());
        Ok(taken)
    }
}
