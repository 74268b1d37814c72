//! The live points of spans, one after another.
ghost use Rattle.std.specs.Prelude.{◌≡◌, ◌+◌, ◌-◌, ◌*◌, ◌<◌, ◌≤◌, ◌++◌, ℕ, true, Some, OnOk, List, length, map, slice_get};
ghost use Rattle.query_laws.specs.Permuted.{Permuted};
ghost use Rattle.query_laws.specs.StepLedger.{Spends};
ghost use Rattle.builder_trait.specs.Parts.{Contents, IsPart};
ghost use Rattle.map_shapes.specs.declared.point.Point.{Point};
ghost use Rattle.rank_rows.specs.Ranked.{IsFront, how_many, place_at, slice_of};
ghost use Rattle.range_tree.specs.Costs.{blocks_touches, list_touches_each};
ghost use Rattle.range_tree.specs.Heights.{rows_to};
ghost use Rattle.range_tree.specs.Marks.{IsStanding};
ghost use Rattle.range_tree.specs.Queries.{AreWhole, IsCut, IsSpan, ends_inside, live_in_span};
ghost use Rattle.range_tree.specs.Tree.{IsTree, before};
ghost use Rattle.range_tree.specs.declared.growing.Carried.{Carried};
ghost use Rattle.range_tree.specs.declared.scanning.Places.{Places};
ghost use Rattle.range_tree.specs.declared.descending.Cut.TheVariants.{Whole};

use crate::descending::{Cut, Span};
use crate::rows::{RangeTree, rows_for};
use crate::scanning::Places;
use builder_trait::flat::FlatPart;
use map_shapes::{IdTally, Point};
use query_laws::NoMemory;
use query_laws::step_ledger::Steps;
use rank_rows::RankRows;
use std::sync::ledger::Ledger;

/// Where the point at k of a row stands behind the last row: two touches for each row from this one on.
fn fall<L: Ledger>(ranks: &RankRows, height: u32, row: u32, k: usize, steps: &mut Steps<L>) -> usize
    requires low { height ≤ 31 }
    requires standing { (part : Contents Point) × (place : ℕ) × (carried : List Carried) × IsStanding part place height row k ranks.now carried }
    ensures there { (part : Contents Point) (place : ℕ) (carried : List Carried) → IsStanding part place height row k ranks.now carried
        → IsStanding part place height (rows_to height) result ranks.now carried }
    ensures cost { Spends steps.old steps.new 0 0 (2 * (rows_to height - row)) }
{
    let mut k = k;
    for below in row..rows_for(height) {
        k = ranks.next(below, k, steps);
    }
    k
}

/// The next live place of a block from k on, of which there is one below `to`. So many live ones stand before k in the block.
fn next_live<L: Ledger>(
    ranks: &RankRows,
    row: u32,
    start: usize,
    to: usize,
    k: usize,
    rank: usize,
    steps: &mut Steps<L>,
) -> usize
    requires front { IsFront ranks.now row start to }
    requires from { start ≤ k }
    requires inside { k < to }
    requires ranked { how_many (slice_of ranks.now ranks.now.live row start k) ≡ rank }
    requires some { rank < how_many (slice_of ranks.now ranks.now.live row start to) }
    ensures from { k ≤ result }
    ensures within { result < to }
    ensures live { slice_get ranks.now.live (place_at ranks.now row result) ≡ Some true }
    ensures ranked { how_many (slice_of ranks.now ranks.now.live row start result) ≡ rank }
    ensures cost { Spends steps.old steps.new 0 0 (ranks.now.height - row + 1) }
{
    if ranks.is_live(row, k, steps) {
        return k;
    }
    ranks.nth_live(row, start, to, rank, steps)
}

impl RangeTree {
    /// The place in the first order of the point at k of a row.
    fn place_of<L: Ledger>(&self, row: u32, k: usize, steps: &mut Steps<L>) -> usize
        requires low { self.now.height ≤ 31 }
        requires standing { (part : Contents Point) × (place : ℕ) × IsStanding part place self.now.height row k self.now.ranks self.now.source.items }
        ensures place { (part : Contents Point) (place : ℕ) → IsStanding part place self.now.height row k self.now.ranks self.now.source.items
            → result ≡ place }
        ensures cost { Spends steps.old steps.new 0 0 (2 * (rows_to self.now.height - row) + 1) }
    {
        let k = fall(&self.ranks, self.height, row, k, steps);
        self.source.at(k, steps).place as usize
    }

    /// Pushes the identifiers of the live points of a span: for each a look at the next place, a search by its rank where that one is dead, and
    /// the way down to its place in the first order.
    fn list_span<L: Ledger>(
        &self,
        points: &FlatPart<Point>,
        span: Span,
        tally: &mut IdTally,
        steps: &mut Steps<L>,
    ) -> Result<(), NoMemory>
        requires valid { IsPart before points.now }
        requires over { IsTree points.now self.now }
        requires span { (low high : ℕ) × IsSpan points.now self.now low high span }
        requires some { span.start < length points.now.items }
        ensures listed { OnOk result ((low high : ℕ) (places : Places) → IsSpan points.now self.now low high span → IsCut points.now self.now low high places span Whole
            → tally.new ≡ tally.old ++ map (λ p. p.id) (live_in_span points.now self.now low high places span)) }
        ensures cost { (low high : ℕ) (places : Places) → IsSpan points.now self.now low high span → IsCut points.now self.now low high places span Whole
            → Spends steps.old steps.new 0 0
            (2 * (self.now.height - span.row) + length (live_in_span points.now self.now low high places span) * list_touches_each self.now.height) }
    {
        let Span {
            row,
            start,
            from,
            to,
        } = span;
        let first = self.ranks.live_before(row, start, from, steps);
        let last = self.ranks.live_before(row, start, to, steps);
        let mut k = from;
        for rank in first..last {
            let found = next_live(&self.ranks, row, start, to, k, rank, steps);
            let place = self.place_of(row, found, steps);
            let item = points.items().at(place, steps);
            tally.push(item.id)?;
            k = found + 1;
        }
        Ok(())
    }

    /// Pushes the identifiers of the live points of a span at whole blocks of the lowest height. It goes down into blocks that are cut by an end of
    /// these places, at most two of each row.
    pub(crate) fn list_blocks<L: Ledger>(
        &self,
        points: &FlatPart<Point>,
        span: Span,
        places: Places,
        tally: &mut IdTally,
        steps: &mut Steps<L>,
    ) -> Result<(), NoMemory>
        requires valid { IsPart before points.now }
        requires over { IsTree points.now self.now }
        requires span { (low high : ℕ) × IsSpan points.now self.now low high span }
        requires whole { AreWhole points.now places }
        ensures listed { OnOk result ((low high : ℕ) → IsSpan points.now self.now low high span
            → Permuted tally.new (tally.old ++ map (λ p. p.id) (live_in_span points.now self.now low high places span))) }
        ensures cost { (low high : ℕ) → IsSpan points.now self.now low high span
            → Spends steps.old steps.new 0 0
            (blocks_touches 0 (rows_to self.now.height - span.row) (ends_inside self.now.height places span)
            + length (live_in_span points.now self.now low high places span) * list_touches_each self.now.height) }
    {
        match self.cut(points, span, places, steps) {
            Cut::Outside => Ok(()),
            Cut::Whole => self.list_span(points, span, tally, steps),
            Cut::Halves(first, second) => {
                self.list_blocks(points, first, places, tally, steps)?;
                self.list_blocks(points, second, places, tally, steps)
            }
        }
    }
}
