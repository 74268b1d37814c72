//! The rows of the structure: the three trees, and how far they have grown.
ghost use Rattle.std.specs.Prelude.{◌≡◌};

use crate::search::index_of;
use crate::trees::Trees;
use builder_trait::flat::{FlatBuilder, FlatPart};
use builder_trait::{Rows, RowsBuilder, RowsPart};
use map_shapes::Segment;
use query_laws::NoMemory;
use query_laws::step_ledger::Steps;
use row_blocks::Boxed;
use std::alloc::Global;
use std::mem::size_of;
use std::sync::ledger::Ledger;

/// Segments of which those over any place can be counted and listed, and in which segments are marked as dead (weak deletion,
/// Overmars 1983). Only a [`StabBuilder`] makes one.
///
/// Let h be the least number such that there are at most `2^h` segments. A [`StabCount`](map_questions::StabCount) touches at most
/// `16 * (h + 2)` entries, a [`Stab`](map_questions::Stab) as many and as many more for each segment that it lists, and a mark at
/// most `16 * (h + 2)`. Nothing takes memory but the tally of a `Stab`.
///
/// Its rows take 26 1/4 bytes for each segment that there is room for: 16 of the tournament, and 5 1/8 of each of the counts. The
/// segments themselves, with the places of the second order and flags, take 37 more. The largest entry that a touch reads or writes
/// is the 64 bytes of sixteen places' weights.
pub type StabPart = RowsPart<StabRows>;

/// A [`StabPart`] under construction.
///
/// The segments become a flat part, and then the tournament and both counts are filled and built, one after another: in all that are
/// `7 * n - 1` turns after the seal for n segments, and none for none. `room` takes all the memory, as much at level i as `2^i`
/// segments need, for eight rows beside those of the flat part; and `recycle` keeps it for the next builder.
pub type StabBuilder = RowsBuilder<StabRows>;

/// The three trees over segments that stand beside them. While they grow, `left` turns are left.
///
/// The trees, 312 bytes of them, lie in a box, since builders are moved often; it lends no allocator.
#[derive(Drop)]
pub struct StabRows {
    pub(crate) trees: Boxed<Trees>,
    pub(crate) left: u64,
}

// A touch of the segments beside them reads or writes one of them, of at most 64 bytes.
const _: () = prove!(size_of::<Segment>() <= 64);

impl Rows for StabRows {
    ghost use Rattle.std.specs.Prelude.{◌≡◌, ◌*◌, ◌+◌, ◌-◌, refl};
    ghost use Rattle.std.proofs.Common.{arith};
    ghost use Rattle.interval_tree.specs.Rows.{HasRoom, AreKept};
    ghost use Rattle.interval_tree.specs.Costs.{walk_touches};
    ghost use Rattle.interval_tree.specs.Growing.{IsPutting, IsGrowing};
    ghost use Rattle.interval_tree.specs.GrowingLaws.{HasRoom-empty, AreKept-grown};

    type Item = Segment;

    const SLOPE: u64 = 4;

    const BASE: u64 = 12;

    ghost SLOPE = { 4 };

    ghost BASE = { 12 };

    ghost mark_touches = { walk_touches };

    ghost left = { λ rows. rows.left };

    ghost turns_for = { λ n. 6 * n - 1 };

    ghost HasRoom = { HasRoom };

    ghost IsPutting = { IsPutting };

    ghost IsGrowing = { IsGrowing };

    ghost IsDone = { AreKept };

    fn room(alloc: Global, level: u32) -> Result<StabRows, NoMemory> {
        let trees = Trees::room(alloc, 2usize.pow(level))?;
        Ok(StabRows {
            trees: Boxed::new(alloc, trees)?,
            left: 0,
        })
    }

    /// Nothing: the puts are turns after the seal.
    fn put_first<L: Ledger>(
        &mut self,
        _segments: &FlatBuilder<Segment>,
        _segment: &Segment,
        _place: usize,
        _steps: &mut Steps<L>,
    ) {}

    /// Nothing, as well.
    fn put_second<L: Ledger>(
        &mut self,
        _segments: &FlatBuilder<Segment>,
        _segment: &Segment,
        _place: usize,
        _steps: &mut Steps<L>,
    ) {}

    fn begin(&mut self, segments: &FlatBuilder<Segment>) {
        let len = segments.len();
        self.left = self.trees.begin(len);
    }

    fn left(&self) -> u64 {
        self.left
    }

    /// Nine touches at most.
    fn turn<L: Ledger>(&mut self, segments: &FlatBuilder<Segment>, steps: &mut Steps<L>) {
        self.trees.grow(segments, steps);
        self.left -= 1;
    }

    fn mark<L: Ledger>(
        &mut self,
        segments: &FlatPart<Segment>,
        place: usize,
        segment: &Segment,
        steps: &mut Steps<L>,
    ) {
        let index = index_of(segments, segment, steps);
        self.trees.clear_at(place, index, steps);
    }

    fn clear(&mut self) {
        self.trees.reset();
        self.left = 0;
    }

    ghost none_left = { λ b rows putting. putting.none_left };

    ghost room_putting = { λ b rows putting. HasRoom-empty putting.small putting.empty };

    ghost room_growing = { λ part rows growing. record { small = growing.small; trees = growing.room } };

    ghost room_done = { λ part rows kept. record { small = kept.small; trees = kept.room } };

    ghost done = { AreKept-grown };

    ghost mark_touches_enough = { λ h. Prim.omega arith };

    ghost mark_touches_rise = { λ g h le. Prim.omega arith };

    ghost base_even = { refl };

    ghost small = { (Prim.omega arith, Prim.omega arith) };
}
