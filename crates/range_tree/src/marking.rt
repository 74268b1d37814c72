//! Marks: a point that dies is taken out of each row.
ghost use Rattle.std.specs.Prelude.{◌≡◌, ◌+◌, ◌*◌, ◌^◌, ◌<◌, ◌≤◌, ℕ, false, List, length, slice_set};
ghost use Rattle.query_laws.specs.StepLedger.{Spends};
ghost use Rattle.builder_trait.specs.Parts.{Contents};
ghost use Rattle.map_shapes.specs.declared.point.Point.{Point};
ghost use Rattle.range_tree.specs.Heights.{rows_to};
ghost use Rattle.range_tree.specs.Tree.{AreRows};
ghost use Rattle.range_tree.specs.declared.growing.Carried.{Carried};
ghost use Rattle.range_tree.specs.Marks.{IsDying, IsFalling};

use crate::entry::Entry;
use crate::rows::{RangeTree, rows_for};
use crate::search::Preceding;
use builder_trait::partition_point;
use map_shapes::Point;
use query_laws::step_ledger::Steps;
use rank_rows::RankRows;
use std::sync::ledger::Ledger;

/// Takes the point at k of the first row out of each row: it is followed down.
fn mark_down<L: Ledger>(
    ranks: &mut RankRows,
    height: u32,
    k: usize,
    weight: u32,
    steps: &mut Steps<L>,
)
    requires low { height ≤ 31 }
    requires falling { (part : Contents Point) × (place : ℕ) × (carried : List Carried) × IsFalling part place height weight k ranks.old carried }
    ensures marked { (part : Contents Point) (place : ℕ) (carried : List Carried) → IsFalling part place height weight k ranks.old carried
        → AreRows (record part { flags = slice_set part.flags place false }) height (rows_to height) ranks.new carried }
    ensures same { ranks.new ≡ record ranks.old { live = ranks.new.live; weights = ranks.new.weights } }
    ensures cost { Spends steps.old steps.new 0 0 (rows_to height * (2 * height + 2)) }
{
    let mut k = k;
    for row in 0..rows_for(height) {
        ranks.mark(row, k, weight, steps);
        k = ranks.next(row, k, steps);
    }
}

impl RangeTree {
    /// Takes a point out of each row: it is found in the first one, and then followed down.
    pub(crate) fn mark_rows<L: Ledger>(&mut self, place: usize, item: &Point, steps: &mut Steps<L>)
        requires some { 0 < rows_to self.old.height }
        requires there { (part : Contents Point) × IsDying part place item.now self.old }
        ensures marked { (part : Contents Point) → IsDying part place item.now self.old
            → AreRows (record part { flags = slice_set part.flags place false }) self.new.height (rows_to self.new.height) self.new.ranks self.new.source.items }
        ensures kept { self.new ≡ record self.old { ranks = self.new.ranks } }
        ensures room { self.new.ranks.room ≡ self.old.ranks.room }
        ensures cost { (part : Contents Point) (h : ℕ) → IsDying part place item.now self.old → length part.items ≤ 2 ^ h → self.old.height ≤ h
            → Spends steps.old steps.new 0 0 (h + 1 + rows_to h * (2 * h + 2)) }
    {
        let entry = Entry {
            y: item.y,
            place: place as u32,
        };
        let k = partition_point(&self.top, &Preceding(entry), 0, self.top.len(), steps);
        mark_down(&mut self.ranks, self.height, k, item.w, steps);
    }
}
