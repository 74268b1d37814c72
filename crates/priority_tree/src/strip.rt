//! Strips: the places whose points have x between two.
ghost use Rattle.std.specs.Prelude.{◌≡◌, ◌+◌, ◌*◌, ◌^◌, ◌≤◌, ◌<◌, ℕ, length};
ghost use Rattle.query_laws.specs.StepLedger.{Spends};
ghost use Rattle.priority_tree.specs.Strips.{is_at, is_missed, IsStrip};

use crate::leaf::LEAF_LEN;
use builder_trait::flat::FlatPart;
use builder_trait::partition_point;
use map_shapes::Point;
use map_structures::Reach;
use query_laws::step_ledger::Steps;
use row_blocks::block_len;
use std::sync::ledger::Ledger;

/// Neighbouring places of the first order: those from `from` on and below `to`.
#[derive(Clone, Copy)]
pub(crate) struct Strip {
    pub(crate) from: usize,
    pub(crate) to: usize,
}

impl Strip {
    /// Whether it has a place.
    #[inline]
    pub(crate) fn has(&self, place: u32) -> bool
        ensures { result ≡ is_at self.now place }
    {
        self.from <= place as usize && (place as usize) < self.to
    }

    /// Whether it has no place of a block.
    #[inline]
    pub(crate) fn misses(&self, height: u32, start: usize) -> bool
        requires low { height ≤ 27 }
        requires small { start + 2 ^ height ≤ 2 ^ 27 }
        ensures { result ≡ is_missed self.now height start }
    {
        self.to <= LEAF_LEN * start || LEAF_LEN * (start + block_len(height)) <= self.from
    }
}

/// The places whose points have x from `x1` to `x2`: two binary searches.
pub(crate) fn strip_of<L: Ledger>(
    points: &FlatPart<Point>,
    x1: u32,
    x2: u32,
    steps: &mut Steps<L>,
) -> Strip
    ensures strip { IsStrip points.now.items x1 x2 result }
    ensures read { 0 < length points.now.items → steps.old.touches < steps.new.touches }
    ensures cost { (h : ℕ) → length points.now.items ≤ 2 ^ h → Spends steps.old steps.new 0 0 (2 * (h + 1)) }
{
    let row = points.items();
    let from = partition_point(row, &Reach::Below(x1), 0, row.len(), steps);
    let to = partition_point(row, &Reach::UpTo(x2), from, row.len(), steps);
    Strip { from, to }
}
