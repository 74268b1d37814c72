//! The tree of rows, from when the points are put until they are read.
ghost use Rattle.std.specs.Prelude.{◌≡◌, ◌≤◌};
ghost use Rattle.range_tree.specs.Heights.{rows_to};

use crate::entry::Entry;
use crate::growing::Carried;
use crate::leaves::{LEAF_LEN, Leaf};
use builder_trait::Rows;
use builder_trait::flat::{FlatBuilder, FlatPart};
use map_shapes::Point;
use query_laws::NoMemory;
use query_laws::step_ledger::{Row, Steps};
use rank_rows::RankRows;
use row_blocks::height_of;
use std::alloc::Global;
use std::mem::size_of;
use std::sync::ledger::Ledger;

/// The lowest blocks that have a row have `2^9` places.
pub(crate) const LOWEST: u32 = 9;

/// The rows of a tree over points that stand beside it: x and y in the first order, the second order, and the ranks.
///
/// While it grows, the row that is made is carried from `source` into `target`, as far as `at`. In the end `source` has the points of the
/// lowest row's halves.
#[derive(Drop)]
pub(crate) struct RangeTree {
    pub(crate) xs: Row<u32>,
    pub(crate) leaves: Row<Leaf>,
    pub(crate) top: Row<Entry>,
    pub(crate) ranks: RankRows,
    pub(crate) source: Row<Carried>,
    pub(crate) target: Row<Carried>,
    pub(crate) height: u32,
    pub(crate) at: usize,
    pub(crate) left: u64,
}

// A touch reads or writes one entry, of at most 64 bytes, or a leaf of 68.
const _: () = prove!(size_of::<Point>() <= 64);

const _: () = prove!(size_of::<Leaf>() <= 68);

const _: () = prove!(size_of::<Entry>() <= 64);

const _: () = prove!(size_of::<Carried>() <= 64);

/// How many rows a tree of a height has.
pub(crate) fn rows_for(height: u32) -> u32
    requires { height ≤ 32 }
    ensures { result ≡ rows_to height }
{
    (height + 1).saturating_sub(LOWEST)
}

impl Rows for RangeTree {
    ghost use Rattle.std.specs.Prelude.{◌≡◌, ◌*◌, ◌+◌, refl};
    ghost use Rattle.std.proofs.Common.{arith};
    ghost use Rattle.range_tree.specs.Costs.{mark_touches-rise};
    ghost use Rattle.range_tree.specs.Heights.{rows_for, words_for};
    ghost use Rattle.range_tree.specs.Growing.{HasRoom, IsPutting, IsGrowing, IsKept, IsKept-grown};

    type Item = Point;

    const SLOPE: u64 = 4;

    const BASE: u64 = 12;

    ghost SLOPE = { 4 };

    ghost BASE = { 12 };

    ghost mark_touches = { λ h. 16 * ((h + 2) * (h + 2)) };

    ghost left = { λ rows. rows.left };

    ghost turns_for = { λ n. rows_for n * (64 * words_for n) };

    ghost HasRoom = { HasRoom };

    ghost IsPutting = { IsPutting };

    ghost IsGrowing = { IsGrowing };

    ghost IsDone = { IsKept };

    fn room(alloc: Global, level: u32) -> Result<RangeTree, NoMemory> {
        let cap = 2usize.pow(level);
        let rows = rows_for(level);
        let moved = if rows > 0 { cap } else { 0 };
        Ok(RangeTree {
            xs: Row::room(alloc, cap)?,
            leaves: Row::room(alloc, cap.div_ceil(LEAF_LEN))?,
            top: Row::room(alloc, moved)?,
            ranks: RankRows::room(alloc, rows as usize * moved)?,
            source: Row::room(alloc, moved)?,
            target: Row::room(alloc, moved)?,
            height: 0,
            at: 0,
            left: 0,
        })
    }

    fn put_first<L: Ledger>(
        &mut self,
        points: &FlatBuilder<Point>,
        item: &Point,
        place: usize,
        steps: &mut Steps<L>,
    ) {
        self.xs.push(item.x, steps);
        self.put_leaf(place, item.y, steps);
    }

    fn put_second<L: Ledger>(
        &mut self,
        points: &FlatBuilder<Point>,
        item: &Point,
        place: usize,
        steps: &mut Steps<L>,
    ) {
        if self.top.cap() > 0 {
            let place = place as u32;
            let carried = Carried {
                place,
                weight: item.w,
            };
            self.top.push(Entry { y: item.y, place }, steps);
            self.source.push(carried, steps);
            self.target.push(carried, steps);
        }
    }

    fn begin(&mut self, points: &FlatBuilder<Point>) {
        let len = points.len();
        self.height = height_of(len);
        self.at = 0;
        let rows = rows_for(self.height);
        if rows > 0 {
            let words = len.div_ceil(64);
            self.ranks.begin(words, self.height);
            self.left = rows as u64 * (64 * words as u64);
        }
    }

    fn left(&self) -> u64 {
        self.left
    }

    /// Five touches at most.
    fn turn<L: Ledger>(&mut self, _points: &FlatBuilder<Point>, steps: &mut Steps<L>) {
        steps.turn();
        self.carry_next(steps);
    }

    fn mark<L: Ledger>(
        &mut self,
        points: &FlatPart<Point>,
        place: usize,
        item: &Point,
        steps: &mut Steps<L>,
    ) {
        self.strike_leaf(place, steps);
        let rows = rows_for(self.height);
        if rows == 0 {
            return;
        }
        self.mark_rows(place, item, steps);
    }

    fn clear(&mut self) {
        self.xs.clear();
        self.leaves.clear();
        self.top.clear();
        self.source.clear();
        self.target.clear();
        self.height = 0;
        self.at = 0;
        self.left = 0;
    }

    ghost none_left = { λ b rows putting. putting.none_left };

    ghost room_putting = { λ b rows putting. putting.room };

    ghost room_growing = { λ part rows growing. growing.room };

    ghost room_done = { λ part rows kept. kept.room };

    ghost done = { IsKept-grown };

    ghost mark_touches_enough = { λ h. Prim.omega arith };

    ghost mark_touches_rise = { mark_touches-rise };

    ghost base_even = { refl };

    ghost small = { (Prim.omega arith, Prim.omega arith) };
}
