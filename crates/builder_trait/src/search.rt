//! A binary search in a row.
ghost use Rattle.std.specs.Prelude.{◌≡◌, ◌-◌, ◌^◌, ◌≤◌, ◌<◌, ℕ, Bool, false, IsTrue, length, slice_index_or};
ghost use Rattle.query_laws.specs.StepLedger.{Spends};
ghost use Rattle.builder_trait.specs.Search.{PassesUpTo};

use query_laws::step_ledger::{Row, Steps};
use std::sync::ledger::Ledger;

/// A test of the entries of a row.
pub trait EntryTest<T> {
    ghost passes: { Self → T → Bool };

    fn passes(&self, entry: &T) -> bool
        ensures { result ≡ passes self.now entry.now };
}

/// The first index from `low` on and below `high` whose entry fails a test, or `high` where none does. Before an entry that
/// passes all pass. One touch a step, and each step halves what is left.
pub fn partition_point<T: Copy, P: EntryTest<T>, L: Ledger>(
    row: &Row<T>,
    test: &P,
    low: usize,
    high: usize,
    steps: &mut Steps<L>,
) -> usize
    requires ordered { low ≤ high }
    requires within { high ≤ length row.now.items }
    requires up_to_some { PassesUpTo (P.passes test.now) row.now.items low high }
    ensures from_low { low ≤ result }
    ensures to_high { result ≤ high }
    ensures before { (k : ℕ) (d : T) → low ≤ k → k < result → IsTrue (P.passes test.now (slice_index_or row.now.items k d)) }
    ensures after { (k : ℕ) (d : T) → result ≤ k → k < high → P.passes test.now (slice_index_or row.now.items k d) ≡ false }
    ensures read { low < high → steps.old.touches < steps.new.touches }
    ensures cost { (h : ℕ) → high - low < 2 ^ h → Spends steps.old steps.new 0 0 h }
{
    if low == high {
        return low;
    }
    let middle = low + (high - low) / 2;
    let entry = row.at(middle, steps);
    if test.passes(&entry) {
        partition_point(row, test, middle + 1, high, steps)
    } else {
        partition_point(row, test, low, middle, steps)
    }
}
