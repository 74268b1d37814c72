//! The rows grow: the tournament and the counts are filled and then built, a place or a node a turn.
ghost use Rattle.std.specs.Prelude.{◌≡◌, ◌+◌, ◌-◌, ◌<◌, ◌≤◌, ◌↔◌, IsTrue, length};
ghost use Rattle.query_laws.specs.StepLedger.{Spends};
ghost use Rattle.weak_delete.specs.Places.{IsBuilt};
ghost use Rattle.interval_tree.specs.Growing.{IsFilling, all_ends, all_counted, turns_to};

use builder_trait::flat::FlatBuilder;
use map_shapes::Segment;
use query_laws::step_ledger::Steps;
use std::sync::ledger::Ledger;
use weak_delete::{LiveCounts, LiveMax};

/// Whether the tournament is sealed and has no turn left. It counts nothing.
pub(crate) fn are_ends_built(ends: &LiveMax) -> bool
    ensures { IsTrue result ↔ IsBuilt ends.now }
{
    ends.is_sealed() && ends.left() == 0
}

/// Whether counts are sealed and have no turn left. It counts nothing.
pub(crate) fn are_counts_built(counts: &LiveCounts) -> bool
    ensures { IsTrue result ↔ IsBuilt counts.now }
{
    counts.is_sealed() && counts.left() == 0
}

/// Puts the upper end of the next segment, or lets two winners meet where all are put: nine touches at most.
pub(crate) fn grow_ends<L: Ledger>(
    ends: &mut LiveMax,
    segments: &FlatBuilder<Segment>,
    steps: &mut Steps<L>,
)
    requires filling { IsFilling (all_ends segments.now.items) ends.old }
    requires room { length segments.now.items ≤ ends.old.capacity }
    requires more { 0 < turns_to (length segments.now.items - 1) (length segments.now.items) ends.old }
    ensures filling { IsFilling (all_ends segments.now.items) ends.new }
    ensures left { turns_to (length segments.now.items - 1) (length segments.now.items) ends.new + 1
        ≡ turns_to (length segments.now.items - 1) (length segments.now.items) ends.old }
    ensures room { ends.new.capacity ≡ ends.old.capacity }
    ensures cost { Spends steps.old steps.new 1 0 9 }
{
    if ends.is_sealed() {
        ends.turn(steps);
        return;
    }
    let segment = segments.at(ends.len(), steps);
    ends.put(segment.hi, steps);
    if ends.len() == segments.len() {
        ends.seal();
    }
}

/// Puts the place of the next of n segments, or builds a node where all are put: eight touches at most.
pub(crate) fn grow_counts<L: Ledger>(counts: &mut LiveCounts, n: usize, steps: &mut Steps<L>)
    requires filling { IsFilling (all_counted n) counts.old }
    requires room { n ≤ counts.old.capacity }
    requires more { 0 < turns_to n n counts.old }
    ensures filling { IsFilling (all_counted n) counts.new }
    ensures left { turns_to n n counts.new + 1 ≡ turns_to n n counts.old }
    ensures room { counts.new.capacity ≡ counts.old.capacity }
    ensures cost { Spends steps.old steps.new 1 0 8 }
{
    if counts.is_sealed() {
        counts.turn(steps);
        return;
    }
    counts.put(0, steps);
    if counts.len() == n {
        counts.seal();
    }
}
