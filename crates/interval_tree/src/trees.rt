//! The three trees over segments, from when they are made until they are read.
ghost use Rattle.std.specs.Prelude.{◌≡◌, ◌+◌, ◌-◌, ◌*◌, ◌^◌, ◌<◌, ◌≤◌, ℕ, List, length, IfOk};
ghost use Rattle.query_laws.specs.StepLedger.{Spends};
ghost use Rattle.weak_delete.specs.Places.{IsBuilt, IsLive, cleared};
ghost use Rattle.map_shapes.specs.declared.segment.Segment.{Segment};
ghost use Rattle.interval_tree.specs.Rows.{HaveRoom};
ghost use Rattle.interval_tree.specs.Growing.{AreEmpty, AreFilling, turns_left};

use crate::growing::{are_counts_built, are_ends_built, grow_counts, grow_ends};
use builder_trait::flat::FlatBuilder;
use map_shapes::Segment;
use query_laws::NoMemory;
use query_laws::step_ledger::Steps;
use std::alloc::Global;
use std::sync::ledger::Ledger;
use weak_delete::{LiveCounts, LiveMax};

/// What stands over segments: a tournament of their upper ends and live counts in the first order, and live counts in the second.
#[derive(Drop)]
pub(crate) struct Trees {
    pub(crate) ends: LiveMax,
    pub(crate) by_lower: LiveCounts,
    pub(crate) by_upper: LiveCounts,
}

impl Trees {
    /// Room for `cap` segments.
    ///
    /// `NoMemory` where memory for them isn't given.
    pub(crate) fn room(alloc: Global, cap: usize) -> Result<Trees, NoMemory>
        requires { cap ≤ 2 ^ 31 }
        ensures { IfOk result (λ trees. AreEmpty cap trees) }
    {
        Ok(Trees {
            ends: LiveMax::room(alloc, cap)?,
            by_lower: LiveCounts::room(alloc, cap)?,
            by_upper: LiveCounts::room(alloc, cap)?,
        })
    }

    /// Takes all segments out, and keeps the memory. It counts nothing.
    pub(crate) fn reset(&mut self)
        ensures { (cap : ℕ) → HaveRoom cap self.old → AreEmpty cap self.new }
    {
        self.ends.reset();
        self.by_lower.reset();
        self.by_upper.reset();
    }

    /// Begins to grow over n segments, and gives how many turns that takes. It counts nothing.
    pub(crate) fn begin(&mut self, n: usize) -> u64
        requires empty { (cap : ℕ) × AreEmpty cap self.old }
        requires few { n ≤ 2 ^ 31 }
        ensures filling { (segments : List Segment) → length segments ≡ n → AreFilling segments self.new }
        ensures left { result ≡ turns_left n self.new }
        ensures turns { result ≡ 6 * n - 1 }
        ensures room { (cap : ℕ) → AreEmpty cap self.old → HaveRoom cap self.new }
    {
        if n > 0 {
            return 6 * n as u64 - 1;
        }
        self.ends.seal();
        self.by_lower.seal();
        self.by_upper.seal();
        0
    }

    /// Puts a place of the first tree that isn't built yet, or a node of it where all places are put: nine touches at most.
    pub(crate) fn grow<L: Ledger>(&mut self, segments: &FlatBuilder<Segment>, steps: &mut Steps<L>)
        requires filling { AreFilling segments.now.items self.old }
        requires room { (cap : ℕ) × (length segments.now.items ≤ cap) × HaveRoom cap self.old }
        requires more { 0 < turns_left (length segments.now.items) self.old }
        ensures filling { AreFilling segments.now.items self.new }
        ensures left { turns_left (length segments.now.items) self.new + 1 ≡ turns_left (length segments.now.items) self.old }
        ensures room { (cap : ℕ) → HaveRoom cap self.old → HaveRoom cap self.new }
        ensures cost { Spends steps.old steps.new 1 0 9 }
    {
        let len = segments.len();
        if !are_ends_built(&self.ends) {
            grow_ends(&mut self.ends, segments, steps);
        } else if !are_counts_built(&self.by_lower) {
            grow_counts(&mut self.by_lower, len, steps);
        } else {
            grow_counts(&mut self.by_upper, len, steps);
        }
    }

    /// Clears the segment at a place of the first order and at an index of the second.
    pub(crate) fn clear_at<L: Ledger>(&mut self, place: usize, index: usize, steps: &mut Steps<L>)
        requires ends_built { IsBuilt self.old.ends }
        requires by_lower_built { IsBuilt self.old.by_lower }
        requires by_upper_built { IsBuilt self.old.by_upper }
        requires live { IsLive self.old.ends.places place }
        requires live_by_lower { IsLive self.old.by_lower.places place }
        requires live_by_upper { IsLive self.old.by_upper.places index }
        ensures ends { self.new.ends ≡ record self.old.ends { places = cleared self.old.ends.places place } }
        ensures by_lower { self.new.by_lower ≡ record self.old.by_lower { places = cleared self.old.by_lower.places place } }
        ensures by_upper { self.new.by_upper ≡ record self.old.by_upper { places = cleared self.old.by_upper.places index } }
        ensures cost { (h : ℕ) → length self.old.ends.places ≤ 2 ^ h → length self.old.by_lower.places ≤ 2 ^ h
            → length self.old.by_upper.places ≤ 2 ^ h → Spends steps.old steps.new 0 0 (12 * (h + 2)) }
    {
        self.ends.clear(place, steps);
        self.by_lower.clear(place, steps);
        self.by_upper.clear(index, steps);
    }
}
