//! Binary searches in both orders.
ghost use Rattle.std.specs.Prelude.{◌≡◌, ◌+◌, ◌-◌, ◌*◌, ◌^◌, ◌<◌, ◌≤◌, ℕ, Some, false, IsTrue, length, slice_get, slice_index_or};
ghost use Rattle.query_laws.specs.StepLedger.{Spends};
ghost use Rattle.query_laws.specs.declared.item.Order.TheVariants.{Second};
ghost use Rattle.builder_trait.specs.Search.{PassesUpTo};
ghost use Rattle.interval_tree.specs.Rows.{before, IsIndexOf};
ghost use Rattle.interval_tree.specs.Queries.{has_begun, has_ended, IsCut};

use builder_trait::flat::FlatPart;
use builder_trait::{EntryTest, Part, partition_point};
use map_shapes::Segment;
use query_laws::step_ledger::Steps;
use query_laws::{Item, Order};
use std::sync::ledger::Ledger;

/// The segments that begin at a place or before it.
#[derive(Clone, Copy, Debug)]
struct HasBegun(u32);

impl EntryTest<Segment> for HasBegun {
    ghost passes = { λ test segment. has_begun test.0 segment };

    fn passes(&self, segment: &Segment) -> bool {
        segment.lo <= self.0
    }
}

/// The segments that end before a place.
#[derive(Clone, Copy, Debug)]
struct HasEnded(u32);

impl EntryTest<Segment> for HasEnded {
    ghost passes = { λ test segment. has_ended test.0 segment };

    fn passes(&self, segment: &Segment) -> bool {
        segment.hi < self.0
    }
}

/// The segments that stand before one in the second order.
#[derive(Clone, Copy, Debug)]
struct StandsBefore(Segment);

impl EntryTest<Segment> for StandsBefore {
    ghost passes = { λ test segment. before Second segment test.0 };

    fn passes(&self, segment: &Segment) -> bool {
        segment.before(Order::Second, &self.0)
    }
}

/// The first index of the second order from `low` on and below `high` whose segment fails a test, or `high` where none does, as
/// [`partition_point`] finds it in a row: two touches a step.
fn partition_reordered<P: EntryTest<Segment>, L: Ledger>(
    segments: &FlatPart<Segment>,
    test: &P,
    low: usize,
    high: usize,
    steps: &mut Steps<L>,
) -> usize
    requires ordered { low ≤ high }
    requires within { high ≤ length segments.now.items }
    requires up_to_some { PassesUpTo (P.passes test.now) segments.now.reordered low high }
    ensures from_low { low ≤ result }
    ensures to_high { result ≤ high }
    ensures before { (k : ℕ) (d : Segment) → low ≤ k → k < result → IsTrue (P.passes test.now (slice_index_or segments.now.reordered k d)) }
    ensures after { (k : ℕ) (d : Segment) → result ≤ k → k < high → P.passes test.now (slice_index_or segments.now.reordered k d) ≡ false }
    ensures cost { (h : ℕ) → high - low < 2 ^ h → Spends steps.old steps.new 0 0 (2 * h) }
{
    if low == high {
        return low;
    }
    let middle = low + (high - low) / 2;
    let segment = segments.item(Order::Second, middle, steps);
    if test.passes(&segment) {
        partition_reordered(segments, test, middle + 1, high, steps)
    } else {
        partition_reordered(segments, test, low, middle, steps)
    }
}

/// How many of the first order begin at x or before it.
pub(crate) fn begun<L: Ledger>(segments: &FlatPart<Segment>, x: u32, steps: &mut Steps<L>) -> usize
    ensures cut { IsCut (has_begun x) segments.now.items result }
    ensures read { 0 < length segments.now.items → steps.old.touches < steps.new.touches }
    ensures cost { (h : ℕ) → length segments.now.items ≤ 2 ^ h → Spends steps.old steps.new 0 0 (h + 1) }
{
    let row = segments.items();
    partition_point(row, &HasBegun(x), 0, row.len(), steps)
}

/// How many of the second order end before x.
pub(crate) fn ended<L: Ledger>(segments: &FlatPart<Segment>, x: u32, steps: &mut Steps<L>) -> usize
    ensures cut { IsCut (has_ended x) segments.now.reordered result }
    ensures cost { (h : ℕ) → length segments.now.items ≤ 2 ^ h → Spends steps.old steps.new 0 0 (2 * (h + 1)) }
{
    partition_reordered(segments, &HasEnded(x), 0, segments.len(), steps)
}

/// The index in the second order of a segment that is there.
pub(crate) fn index_of<L: Ledger>(
    segments: &FlatPart<Segment>,
    segment: &Segment,
    steps: &mut Steps<L>,
) -> usize
    requires { (place : ℕ) × (slice_get segments.now.items place ≡ Some segment.now) }
    ensures index { (place : ℕ) → slice_get segments.now.items place ≡ Some segment.now → IsIndexOf segments.now.places place result }
    ensures cost { (h : ℕ) → length segments.now.items ≤ 2 ^ h → Spends steps.old steps.new 0 0 (2 * (h + 1)) }
{
    partition_reordered(segments, &StandsBefore(*segment), 0, segments.len(), steps)
}
