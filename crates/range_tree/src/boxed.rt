//! The structure: its rows are a tree in a box.
ghost use Rattle.std.specs.Prelude.{◌≡◌};

use crate::measure::Measure;
use crate::rows::RangeTree;
use builder_trait::flat::{FlatBuilder, FlatPart};
use builder_trait::{AnsweringRows, Rows, RowsBuilder, RowsPart};
use map_shapes::{CountIn, IdTally, ListIn, Point, SumIn};
use query_laws::step_ledger::Steps;
use query_laws::{NoMemory, Total};
use row_blocks::Boxed;
use std::alloc::Global;
use std::sync::ledger::Ledger;

/// Points of which any rectangle can be counted, weighed and listed, and which are marked as dead (weak deletion, Overmars 1983). Only a
/// [`RangeBuilder`] makes one.
///
/// Let h be the least number such that there are at most `2^h` points. A [`CountIn`](map_shapes::CountIn) touches at most
/// `2 * (h + 2)^2` entries, from `2^13` points on fewer than the leaves are, a [`SumIn`](map_shapes::SumIn) at most `16 * (h + 2)^2`, a
/// [`ListIn`](map_shapes::ListIn) at most `4 * (h + 2)^2` and `8 * (h + 2)` for each point that it lists, and a mark at most
/// `16 * (h + 2)^2`. Nothing takes memory but the tally of a `ListIn`.
pub type RangePart = RowsPart<RangeRows>;

/// A [`RangePart`] under construction: a turn carries one point of one row into its half of its block, h - 8 turns for each of `2^h`
/// points, and at most 63 more a row, which fill its last word. `room` takes all the memory, and the part keeps it.
pub type RangeBuilder = RowsBuilder<RangeRows>;

/// A tree over points that stand beside it.
///
/// The tree, 240 bytes of it, lies in a box that lends no allocator, since parts and builders are moved often. Each call is the tree's
/// own, and counts what that counts.
#[derive(Drop)]
pub struct RangeRows {
    tree: Boxed<RangeTree>,
}

impl Rows for RangeRows {
    ghost use Rattle.std.specs.Prelude.{◌≡◌, ◌*◌, ◌+◌, refl};
    ghost use Rattle.std.proofs.Common.{arith};
    ghost use Rattle.range_tree.specs.Costs.{mark_touches-rise};
    ghost use Rattle.range_tree.specs.Heights.{rows_for, words_for};
    ghost use Rattle.range_tree.specs.Growing.{HasRoom, IsPutting, IsGrowing, IsKept, IsKept-grown};

    type Item = Point;

    const SLOPE: u64 = RangeTree::SLOPE;

    const BASE: u64 = RangeTree::BASE;

    ghost SLOPE = { 4 };

    ghost BASE = { 12 };

    ghost mark_touches = { λ h. 16 * ((h + 2) * (h + 2)) };

    ghost left = { λ rows. rows.tree.left };

    ghost turns_for = { λ n. rows_for n * (64 * words_for n) };

    ghost HasRoom = { λ level rows. HasRoom level rows.tree };

    ghost IsPutting = { λ b rows. IsPutting b rows.tree };

    ghost IsGrowing = { λ part rows. IsGrowing part rows.tree };

    ghost IsDone = { λ part rows. IsKept part rows.tree };

    /// The box is taken last.
    fn room(alloc: Global, level: u32) -> Result<RangeRows, NoMemory> {
        let tree = RangeTree::room(alloc, level)?;
        Ok(RangeRows {
            tree: Boxed::new(alloc, tree)?,
        })
    }

    fn put_first<L: Ledger>(
        &mut self,
        points: &FlatBuilder<Point>,
        item: &Point,
        place: usize,
        steps: &mut Steps<L>,
    ) {
        self.tree.put_first(points, item, place, steps);
    }

    fn put_second<L: Ledger>(
        &mut self,
        points: &FlatBuilder<Point>,
        item: &Point,
        place: usize,
        steps: &mut Steps<L>,
    ) {
        self.tree.put_second(points, item, place, steps);
    }

    fn begin(&mut self, points: &FlatBuilder<Point>) {
        self.tree.begin(points);
    }

    fn left(&self) -> u64 {
        self.tree.left()
    }

    /// Five touches at most.
    fn turn<L: Ledger>(&mut self, points: &FlatBuilder<Point>, steps: &mut Steps<L>) {
        self.tree.turn(points, steps);
    }

    fn mark<L: Ledger>(
        &mut self,
        points: &FlatPart<Point>,
        place: usize,
        item: &Point,
        steps: &mut Steps<L>,
    ) {
        self.tree.mark(points, place, item, steps);
    }

    fn clear(&mut self) {
        self.tree.clear();
    }

    ghost none_left = { λ b rows putting. putting.none_left };

    ghost room_putting = { λ b rows putting. putting.room };

    ghost room_growing = { λ part rows growing. growing.room };

    ghost room_done = { λ part rows kept. kept.room };

    ghost done = { λ b rows. IsKept-grown b rows.tree };

    ghost mark_touches_enough = { λ h. Prim.omega arith };

    ghost mark_touches_rise = { mark_touches-rise };

    ghost base_even = { refl };

    ghost small = { (Prim.omega arith, Prim.omega arith) };
}

impl AnsweringRows<CountIn> for RangeRows {
    ghost use Rattle.range_tree.specs.declared.measure.Measure.TheVariants.{Count};
    ghost use Rattle.range_tree.specs.Costs.{measure_touches};

    ghost ask_touches = { λ q part. measure_touches Count part.items };

    fn ask<L: Ledger>(
        &self,
        points: &FlatPart<Point>,
        question: &CountIn,
        tally: &mut Total,
        steps: &mut Steps<L>,
    ) -> Result<(), NoMemory> {
        self.tree
            .add_measure(points, &question.0, Measure::Count, tally, steps);
        Ok(())
    }
}

impl AnsweringRows<SumIn> for RangeRows {
    ghost use Rattle.range_tree.specs.declared.measure.Measure.TheVariants.{Weight};
    ghost use Rattle.range_tree.specs.Costs.{measure_touches};

    ghost ask_touches = { λ q part. measure_touches Weight part.items };

    fn ask<L: Ledger>(
        &self,
        points: &FlatPart<Point>,
        question: &SumIn,
        tally: &mut Total,
        steps: &mut Steps<L>,
    ) -> Result<(), NoMemory> {
        self.tree
            .add_measure(points, &question.0, Measure::Weight, tally, steps);
        Ok(())
    }
}

impl AnsweringRows<ListIn> for RangeRows {
    ghost use Rattle.range_tree.specs.Costs.{list_touches};

    ghost ask_touches = { λ q part. list_touches q.0 part };

    fn ask<L: Ledger>(
        &self,
        points: &FlatPart<Point>,
        question: &ListIn,
        tally: &mut IdTally,
        steps: &mut Steps<L>,
    ) -> Result<(), NoMemory> {
        self.tree.list_points(points, &question.0, tally, steps)
    }
}
