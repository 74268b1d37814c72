//! The rows of the structure: the tree, from when the points are put until it is read.
ghost use Rattle.std.specs.Prelude.{◌≡◌};

use crate::entry::Entry;
use crate::heap::Heap;
use builder_trait::flat::{FlatBuilder, FlatPart};
use builder_trait::{Rows, RowsBuilder, RowsPart};
use map_shapes::Point;
use query_laws::NoMemory;
use query_laws::step_ledger::Steps;
use row_blocks::height_of;
use std::alloc::Global;
use std::mem::size_of;
use std::sync::ledger::Ledger;

/// Points of which the highest of any strip can be found, and those listed that are high: a priority search tree (McCreight 1985), in
/// which points are marked as dead (weak deletion, Overmars 1983). Only a [`TopBuilder`] makes one.
///
/// Let h be the least number such that there are at most `2^h` points. A [`Top`](map_questions::Top) touches at most
/// `16 * (h + 2)` entries, whatever the ties, an [`Above`](map_questions::Above) that lists k points at most `16 * (h + 2 + k)`, and a mark at most
/// `16 * (h + 2)`. Nothing takes memory but the tally of an `Above`.
///
/// An entry of a leaf has sixteen places, of 16 bytes each, and an entry above the leaves takes 24. The points themselves, with the
/// places of the second order and flags, take 37 bytes.
pub type TopPart = RowsPart<TopRows>;

/// A [`TopPart`] under construction.
///
/// The puts fill the leaves. After the seal the points become a flat part; and then the places above the leaves are filled, the lowest first, each by
/// pulls, one a turn: as many turns as the place is high. That is less than two turns for each leaf that the tree has room for, at
/// most four for each leaf. `room` takes all the memory, in two rows, and the part keeps it, so that `recycle` has it for the next
/// builder.
pub type TopBuilder = RowsBuilder<TopRows>;

/// A priority search tree over points that stand beside it, `height` above its leaves.
///
/// While it grows, the blocks of height `at` before the one at `block` are heaps. In that one a hole goes down: it is now in the place of the
/// block of height `low` that begins at leaf `hole`.
#[derive(Drop)]
pub struct TopRows {
    pub(crate) heap: Heap,
    pub(crate) height: u32,
    pub(crate) at: u32,
    pub(crate) block: usize,
    pub(crate) low: u32,
    pub(crate) hole: usize,
    pub(crate) left: u64,
}

// A touch of the points beside it reads or writes one of them, of at most 64 bytes.
const _: () = prove!(size_of::<Point>() <= 64);

impl Rows for TopRows {
    ghost use Rattle.std.specs.Prelude.{◌≡◌, ◌*◌, ◌+◌, ◌<◌, refl};
    ghost use Rattle.std.proofs.Common.{arith};
    ghost use Rattle.priority_tree.specs.Growing.{turns_for};
    ghost use Rattle.priority_tree.specs.Live.{HasRoom, IsTree};
    ghost use Rattle.priority_tree.specs.Growing.{IsFilling, IsGrowing};
    ghost use Rattle.priority_tree.specs.GrowingLaws.{IsTree-grown};

    type Item = Point;

    const SLOPE: u64 = 4;

    const BASE: u64 = 12;

    ghost SLOPE = { 4 };

    ghost BASE = { 12 };

    ghost mark_touches = { λ h. 16 * (h + 2) };

    ghost left = { λ rows. rows.left };

    ghost turns_for = { turns_for };

    ghost HasRoom = { λ level rows. (level < 32) × HasRoom level rows.heap };

    ghost IsPutting = { λ b rows. IsFilling b.at_level b.items rows.heap × (rows.left ≡ 0) };

    ghost IsGrowing = { IsGrowing };

    ghost IsDone = { λ part rows. IsTree part rows.heap rows.height };

    fn room(alloc: Global, level: u32) -> Result<TopRows, NoMemory> {
        let cap = 2usize.pow(level.saturating_sub(4));
        Ok(TopRows {
            heap: Heap::room(alloc, cap)?,
            height: 0,
            at: 0,
            block: 0,
            low: 0,
            hole: 0,
            left: 0,
        })
    }

    fn put_first<L: Ledger>(
        &mut self,
        points: &FlatBuilder<Point>,
        item: &Point,
        place: usize,
        steps: &mut Steps<L>,
    ) {
        self.heap.put(points, item, place, steps);
    }

    fn put_second<L: Ledger>(
        &mut self,
        _points: &FlatBuilder<Point>,
        _item: &Point,
        _place: usize,
        _steps: &mut Steps<L>,
    ) {}

    fn begin(&mut self, points: &FlatBuilder<Point>) {
        self.height = height_of(self.heap.leaves.len());
        self.left = 2 * 2u64.pow(self.height) - (self.height as u64 + 2);
        self.at = 1;
        self.block = 0;
        self.low = 1;
        self.hole = 0;
    }

    fn left(&self) -> u64 {
        self.left
    }

    /// Five touches at most.
    fn turn<L: Ledger>(&mut self, _points: &FlatBuilder<Point>, steps: &mut Steps<L>) {
        steps.turn();
        self.pull_next(steps);
        if self.low == 0 {
            self.next_block();
        }
    }

    fn mark<L: Ledger>(
        &mut self,
        points: &FlatPart<Point>,
        place: usize,
        item: &Point,
        steps: &mut Steps<L>,
    ) {
        let entry = Entry {
            y: item.y,
            place: place as u32,
            id: item.id,
        };
        self.heap.remove(self.height, 0, &entry, steps);
    }

    fn clear(&mut self) {
        self.heap.clear();
        self.height = 0;
        self.at = 0;
        self.block = 0;
        self.low = 0;
        self.hole = 0;
        self.left = 0;
    }

    ghost none_left = { λ b rows putting. putting.1 };

    ghost room_putting = { λ b rows putting. (putting.0.small, putting.0.room) };

    ghost room_growing = { λ part rows growing. (growing.0.small, growing.0.room) };

    ghost room_done = { λ part rows tree. (tree.small, tree.room) };

    ghost done = { IsTree-grown };

    ghost mark_touches_enough = { λ h. Prim.omega arith };

    ghost mark_touches_rise = { λ g h le. Prim.omega arith };

    ghost base_even = { refl };

    ghost small = { (Prim.omega arith, Prim.omega arith) };
}
