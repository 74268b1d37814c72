//! Answers to questions.
ghost use Rattle.std.specs.Prelude.{◌≡◌, ◌≢◌, ◌+◌, ◌-◌, ◌<◌, ◌≤◌, true, false, OnOk, length};
ghost use Rattle.query_laws.specs.StepLedger.{Spends};
ghost use Rattle.query_laws.specs.Sums.{capped_add};
ghost use Rattle.builder_trait.specs.Parts.{IsPart, live_of};
ghost use Rattle.map_shapes.specs.Ascending.{sorted_ids, sorted_union};
ghost use Rattle.map_shapes.specs.Questions.{ids_in};
ghost use Rattle.range_tree.specs.Costs.{measure_touches, list_touches};
ghost use Rattle.range_tree.specs.Measures.{measure_in, most_scanned};
ghost use Rattle.range_tree.specs.Tree.{IsTree, before};

use crate::measure::Measure;
use crate::rows::{LOWEST, RangeTree};
use crate::scanning::Places;
use builder_trait::flat::FlatPart;
use map_shapes::{IdTally, Point, Rect};
use query_laws::step_ledger::Steps;
use query_laws::{NoMemory, Total};
use std::sync::ledger::Ledger;

/// The most places that are scanned for a number rather than counted by rows.
fn most_scanned(measure: Measure) -> usize
    ensures { result ≡ most_scanned measure }
{
    match measure {
        Measure::Count => 1024,
        Measure::Weight => 2048,
    }
}

/// The most places that are scanned for a list rather than followed down the rows.
const MOST_LISTED: usize = 8192;

/// Whether places are scanned: where they are few, or have no whole block.
fn are_scanned(most: usize, places: Places, whole: Places) -> bool
    requires { places.from ≤ places.to }
    ensures few { result ≡ true → whole.from ≢ whole.to → places.to - places.from ≤ most }
    ensures some { result ≡ false → whole.from ≢ whole.to }
{
    places.to - places.from <= most || whole.from == whole.to
}

impl RangeTree {
    /// Adds what the live points in a rectangle count for.
    pub(crate) fn add_measure<L: Ledger>(
        &self,
        points: &FlatPart<Point>,
        rect: &Rect,
        measure: Measure,
        tally: &mut Total,
        steps: &mut Steps<L>,
    )
        requires valid { IsPart before points.now }
        requires over { IsTree points.now self.now }
        ensures added { tally.new ≡ capped_add tally.old (measure_in measure rect.now (live_of points.now)) }
        ensures cost { Spends steps.old steps.new 0 0 (measure_touches measure points.now.items) }
        ensures read { 0 < length points.now.items → steps.old.touches < steps.new.touches }
    {
        let places = self.places_in(points, rect, steps);
        let whole = places.whole_blocks(LOWEST);
        let most = most_scanned(measure);
        let scan = are_scanned(most, places, whole);
        if scan {
            let sum = self.measure_places(points, rect, places, measure, steps);
            tally.add(sum);
            return;
        }
        let front = Places {
            from: places.from,
            to: whole.from,
        };
        let back = Places {
            from: whole.to,
            to: places.to,
        };
        let span = self.span_in(points, rect, steps);
        let first = self.measure_places(points, rect, front, measure, steps);
        let last = self.measure_places(points, rect, back, measure, steps);
        let inner = self.measure_blocks(points, span, whole, measure, steps);
        tally.add(first + last + inner);
    }

    /// Pushes the identifiers of the live points in a rectangle.
    ///
    /// `NoMemory` where the tally wanted memory that wasn't given.
    pub(crate) fn list_points<L: Ledger>(
        &self,
        points: &FlatPart<Point>,
        rect: &Rect,
        tally: &mut IdTally,
        steps: &mut Steps<L>,
    ) -> Result<(), NoMemory>
        requires valid { IsPart before points.now }
        requires over { IsTree points.now self.now }
        ensures joined { OnOk result (sorted_ids tally.new
            ≡ sorted_union (sorted_ids tally.old) (ids_in rect.now (live_of points.now))) }
        ensures cost { Spends steps.old steps.new 0 0 (list_touches rect.now points.now) }
        ensures read { 0 < length points.now.items → steps.old.touches < steps.new.touches }
    {
        let places = self.places_in(points, rect, steps);
        let whole = places.whole_blocks(LOWEST);
        let scan = are_scanned(MOST_LISTED, places, whole);
        if scan {
            return self.list_places(points, rect, places, tally, steps);
        }
        let front = Places {
            from: places.from,
            to: whole.from,
        };
        let back = Places {
            from: whole.to,
            to: places.to,
        };
        let span = self.span_in(points, rect, steps);
        self.list_places(points, rect, front, tally, steps)?;
        self.list_places(points, rect, back, tally, steps)?;
        self.list_blocks(points, span, whole, tally, steps)
    }
}
