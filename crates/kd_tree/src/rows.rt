//! The rows of the structure: a k-d tree, from when it is put until it is read.
ghost use Rattle.std.specs.Prelude.{◌≡◌};

use crate::area::Area;
use crate::height::{depth_for, nodes_in};
use crate::leaves::Leaves;
use crate::placing::Placing;
use crate::sorting::Sorting;
use builder_trait::flat::{FlatBuilder, FlatPart};
use builder_trait::{Rows, RowsBuilder, RowsPart};
use map_shapes::Point;
use query_laws::NoMemory;
use query_laws::step_ledger::{Row, Steps};
use std::alloc::Global;
use std::mem::size_of;
use std::sync::ledger::Ledger;

/// Points of which the nearest to any place can be found: a k-d tree (Bentley 1975), in which points are marked as dead (weak
/// deletion, Overmars 1983). Only a [`KdBuilder`] makes one.
///
/// A question touches at most `16 * (n + 1)` entries of a part of n points, and mostly few: it walks the nearest block
/// first and leaves out those that are farther than what it has. Let h be the least number such that there are at most `2^h`
/// points: a mark touches at most `16 * (h + 2)`, and goes up only while a box changes. Nothing takes memory.
///
/// For each of the `2^level` points that there is room for, the rows take 8 bytes for the places in their order and where each stands,
/// 4 1/2 for the second order and the counts of the passes, 9 for the leaves and, from 16 points on, at most 5 1/3 for the nodes.
/// The points themselves, with the places of the second order and flags, take 37 more. The largest entry that a touch reads or writes is
/// the 64 bytes of a leaf's spots, or of a node's four boxes.
pub type KdPart = RowsPart<KdRows>;

/// A [`KdPart`] under construction.
///
/// The points become a flat part. Then the places are sorted into blocks by passes of a turn for each, cut at one coordinate and then at
/// the other; a pass cuts each block into four. Then each leaf is filled, a point a turn, and each node made, from the leaves
/// up. At level i that takes at most half of `2^i * (4 * i + 12)` turns after the seal. `room` takes all the memory.
pub type KdBuilder = RowsBuilder<KdRows>;

/// A k-d tree (Bentley 1975) over points that stand beside it.
///
/// It has `depth` levels of nodes. While it grows, `sorting` has the passes that are left, then the leaves have the first `filled`
/// positions, and then the next node is the one at `place` of those over the blocks of `level`.
#[derive(Drop)]
pub struct KdRows {
    pub(crate) places: Placing,
    pub(crate) sorting: Sorting,
    pub(crate) leaves: Leaves,
    pub(crate) nodes: Row<[Area; 4]>,
    pub(crate) depth: u32,
    pub(crate) filled: usize,
    pub(crate) level: u32,
    pub(crate) place: usize,
    pub(crate) left: u64,
}

// A touch reads or writes one entry, of at most 64 bytes.
const _: () = prove!(size_of::<Point>() <= 64);

const _: () = prove!(size_of::<[Area; 4]>() <= 64);

impl Rows for KdRows {
    ghost use Rattle.std.specs.Prelude.{◌≡◌, ◌*◌, ◌+◌, refl};
    ghost use Rattle.std.proofs.Common.{arith};
    ghost use Rattle.kd_tree.specs.Heights.{depth_for, nodes_in};
    ghost use Rattle.kd_tree.specs.Growing.{HasRoom, IsPutting, IsGrowing, IsTree};
    ghost use Rattle.kd_tree.specs.GrowingLaws.{IsTree-grown};

    type Item = Point;

    const SLOPE: u64 = 4;

    const BASE: u64 = 12;

    ghost SLOPE = { 4 };

    ghost BASE = { 12 };

    ghost mark_touches = { λ h. 16 * (h + 2) };

    ghost left = { λ rows. rows.left };

    ghost turns_for = { λ n. depth_for n * n + nodes_in (depth_for n) };

    ghost HasRoom = { HasRoom };

    ghost IsPutting = { IsPutting };

    ghost IsGrowing = { IsGrowing };

    ghost IsDone = { IsTree };

    fn room(alloc: Global, level: u32) -> Result<KdRows, NoMemory> {
        let cap = 2usize.pow(level);
        Ok(KdRows {
            places: Placing::room(alloc, cap)?,
            sorting: Sorting::room(alloc, cap)?,
            leaves: Leaves::room(alloc, cap)?,
            nodes: Row::room(alloc, nodes_in(depth_for(cap)))?,
            depth: 1,
            filled: 0,
            level: 0,
            place: 0,
            left: 0,
        })
    }

    /// Three touches at most.
    fn put_first<L: Ledger>(
        &mut self,
        points: &FlatBuilder<Point>,
        _item: &Point,
        place: usize,
        steps: &mut Steps<L>,
    ) {
        self.places.put(steps);
        self.sorting.put_first(place, steps);
    }

    /// One touch.
    fn put_second<L: Ledger>(
        &mut self,
        points: &FlatBuilder<Point>,
        _item: &Point,
        place: usize,
        steps: &mut Steps<L>,
    ) {
        self.sorting.put_second(place, steps);
    }

    fn begin(&mut self, points: &FlatBuilder<Point>) {
        let len = points.len();
        let depth = depth_for(len);
        self.depth = depth;
        self.filled = 0;
        self.level = 0;
        self.place = 0;
        self.left = self.sorting.begin(depth, len) + len as u64 + nodes_in(depth) as u64;
    }

    fn left(&self) -> u64 {
        self.left
    }

    /// Ten touches at most.
    fn turn<L: Ledger>(&mut self, points: &FlatBuilder<Point>, steps: &mut Steps<L>) {
        self.grow(points, steps);
        self.left -= 1;
        steps.turn();
    }

    fn mark<L: Ledger>(
        &mut self,
        _points: &FlatPart<Point>,
        place: usize,
        _item: &Point,
        steps: &mut Steps<L>,
    ) {
        self.kill(place, steps);
    }

    fn clear(&mut self) {
        self.places.clear();
        self.sorting.clear();
        self.leaves.clear();
        self.nodes.clear();
        self.left = 0;
    }

    ghost none_left = { λ b rows putting. putting.left };

    ghost room_putting = { λ b rows putting. putting.room };

    ghost room_growing = { λ part rows growing. growing.0.room };

    ghost room_done = { λ part rows tree. tree.room };

    ghost done = { IsTree-grown };

    ghost mark_touches_enough = { λ h. Prim.omega arith };

    ghost mark_touches_rise = { λ g h le. Prim.omega arith };

    ghost base_even = { refl };

    ghost small = { (Prim.omega arith, Prim.omega arith) };
}
