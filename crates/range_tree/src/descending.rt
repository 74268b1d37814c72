//! Down the rows by ranks, to the blocks that a rectangle takes whole.
ghost use Rattle.std.specs.Prelude.{◌≡◌, ◌+◌, ◌-◌, ◌*◌, ◌^◌, ◌<◌, ◌≤◌, ℕ, length, sum_by};
ghost use Rattle.query_laws.specs.StepLedger.{Spends};
ghost use Rattle.builder_trait.specs.Parts.{IsPart};
ghost use Rattle.range_tree.specs.Measures.{measure_of, word_touches};
ghost use Rattle.range_tree.specs.Heights.{rows_to};
ghost use Rattle.range_tree.specs.Tree.{IsTree, before};
ghost use Rattle.range_tree.specs.declared.scanning.Places.{Places};
ghost use Rattle.range_tree.specs.declared.descending.Cut.TheVariants.{Whole};
ghost use Rattle.range_tree.specs.Queries.{AreWithinY, AreWhole, IsSpan, IsCut, AreHalves, ends_inside, live_in_span};
ghost use Rattle.range_tree.specs.Costs.{blocks_touches};

use crate::measure::Measure;
use crate::rows::RangeTree;
use crate::scanning::Places;
use builder_trait::flat::FlatPart;
use builder_trait::{Part, partition_point};
use map_shapes::{Point, Rect};
use map_structures::Reach;
use query_laws::step_ledger::Steps;
use row_blocks::block_len;
use std::sync::ledger::Ledger;

/// Neighbouring positions of a block of a row, whose y are in the rectangle.
#[derive(Clone, Copy)]
pub(crate) struct Span {
    pub(crate) row: u32,
    pub(crate) start: usize,
    pub(crate) from: usize,
    pub(crate) to: usize,
}

/// How a block stands to the places of a rectangle.
pub(crate) enum Cut {
    Outside,
    Whole,
    Halves(Span, Span),
}

impl RangeTree {
    /// The positions of the first row whose y are in the rectangle: two binary searches.
    pub(crate) fn span_in<L: Ledger>(
        &self,
        points: &FlatPart<Point>,
        rect: &Rect,
        steps: &mut Steps<L>,
    ) -> Span
        requires valid { IsPart before points.now }
        requires over { IsTree points.now self.now }
        requires some { 0 < rows_to self.now.height }
        ensures span { IsSpan points.now self.now result.from result.to result }
        ensures row { result.row ≡ 0 }
        ensures start { result.start ≡ 0 }
        ensures ys { AreWithinY points.now result.from result.to rect.now }
        ensures cost { (h : ℕ) → length points.now.items ≤ 2 ^ h → Spends steps.old steps.new 0 0 (2 * (h + 1)) }
    {
        let top = &self.top;
        let from = partition_point(top, &Reach::Below(rect.y1), 0, top.len(), steps);
        let to = partition_point(top, &Reach::UpTo(rect.y2), from, top.len(), steps);
        Span {
            row: 0,
            start: 0,
            from,
            to,
        }
    }

    /// The halves of a span, in the next row: two touches.
    fn halve<L: Ledger>(
        &self,
        points: &FlatPart<Point>,
        span: Span,
        steps: &mut Steps<L>,
    ) -> (Span, Span)
        requires valid { IsPart before points.now }
        requires over { IsTree points.now self.now }
        requires span { (low high : ℕ) × IsSpan points.now self.now low high span }
        requires some { span.start < length points.now.items }
        requires below { span.row + 1 < rows_to self.now.height }
        ensures halves { (low high : ℕ) → IsSpan points.now self.now low high span
            → AreHalves points.now self.now low high span result.0 result.1 }
        ensures cost { Spends steps.old steps.new 0 0 2 }
    {
        let middle = span.start + block_len(self.height - span.row - 1);
        let from = self.ranks.halves(span.row, span.start, span.from, steps);
        let to = self.ranks.halves(span.row, span.start, span.to, steps);
        let row = span.row + 1;
        let first = Span {
            row,
            start: span.start,
            from: from.first,
            to: to.first,
        };
        let second = Span {
            row,
            start: middle,
            from: from.second,
            to: to.second,
        };
        (first, second)
    }

    /// How the block of a span stands to whole blocks of the lowest height: two touches at most.
    pub(crate) fn cut<L: Ledger>(
        &self,
        points: &FlatPart<Point>,
        span: Span,
        places: Places,
        steps: &mut Steps<L>,
    ) -> Cut
        requires valid { IsPart before points.now }
        requires over { IsTree points.now self.now }
        requires span { (low high : ℕ) × IsSpan points.now self.now low high span }
        requires whole { AreWhole points.now places }
        ensures cut { (low high : ℕ) → IsSpan points.now self.now low high span → IsCut points.now self.now low high places span result }
        ensures cost { Spends steps.old steps.new 0 0 2 }
    {
        let all = points.len();
        if span.from == span.to {
            return Cut::Outside;
        }
        let len = block_len(self.height - span.row);
        let end = (span.start + len).min(all);
        if end <= places.from {
            return Cut::Outside;
        }
        if places.to <= span.start {
            return Cut::Outside;
        }
        let whole = places.have(span.start, end);
        if whole {
            return Cut::Whole;
        }
        let (first, second) = self.halve(points, span, steps);
        Cut::Halves(first, second)
    }

    /// What the live points of a span count for.
    fn measure_span<L: Ledger>(
        &self,
        points: &FlatPart<Point>,
        span: Span,
        measure: Measure,
        steps: &mut Steps<L>,
    ) -> u64
        requires valid { IsPart before points.now }
        requires over { IsTree points.now self.now }
        requires span { (low high : ℕ) × IsSpan points.now self.now low high span }
        requires some { span.start < length points.now.items }
        ensures sum { (low high : ℕ) (places : Places) → IsSpan points.now self.now low high span → IsCut points.now self.now low high places span Whole
            → result ≡ sum_by (measure_of measure) (live_in_span points.now self.now low high places span) }
        ensures cost { Spends steps.old steps.new 0 0 (2 * (self.now.height - span.row) + word_touches measure) }
    {
        let Span {
            row,
            start,
            from,
            to,
        } = span;
        match measure {
            Measure::Count => (self.ranks.live_before(row, start, to, steps)
                - self.ranks.live_before(row, start, from, steps)) as u64,
            Measure::Weight => {
                self.ranks.weight_before(row, start, to, steps)
                    - self.ranks.weight_before(row, start, from, steps)
            }
        }
    }

    /// What the live points of a span at whole blocks of the lowest height count for. It goes down into blocks that are cut by an end of
    /// these places, at most two of each row.
    pub(crate) fn measure_blocks<L: Ledger>(
        &self,
        points: &FlatPart<Point>,
        span: Span,
        places: Places,
        measure: Measure,
        steps: &mut Steps<L>,
    ) -> u64
        requires valid { IsPart before points.now }
        requires over { IsTree points.now self.now }
        requires span { (low high : ℕ) × IsSpan points.now self.now low high span }
        requires whole { AreWhole points.now places }
        ensures sum { (low high : ℕ) → IsSpan points.now self.now low high span
            → result ≡ sum_by (measure_of measure) (live_in_span points.now self.now low high places span) }
        ensures cost { Spends steps.old steps.new 0 0
            (blocks_touches (word_touches measure) (rows_to self.now.height - span.row) (ends_inside self.now.height places span)) }
    {
        match self.cut(points, span, places, steps) {
            Cut::Outside => 0,
            Cut::Whole => self.measure_span(points, span, measure, steps),
            Cut::Halves(first, second) => {
                self.measure_blocks(points, first, places, measure, steps)
                    + self.measure_blocks(points, second, places, measure, steps)
            }
        }
    }
}
