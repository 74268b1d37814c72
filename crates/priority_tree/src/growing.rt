//! The tree grows: its leaves as the points are put, and then the places above them, a pull a turn.
ghost use Rattle.std.specs.Prelude.{◌≡◌, ◌+◌, ◌-◌, ◌*◌, ◌/◌, ◌%◌, ◌^◌, ◌<◌, ◌≤◌, ◌++◌, ◌∷◌, [], length};
ghost use Rattle.query_laws.specs.StepLedger.{Spends};
ghost use Rattle.builder_trait.specs.Parts.{Contents};
ghost use Rattle.map_shapes.specs.declared.point.Point.{Point};
ghost use Rattle.priority_tree.specs.Tree.{leaf_at};
ghost use Rattle.priority_tree.specs.Growing.{IsFilling, IsWidened, IsPut, IsOpened, IsSameShape, IsGrown, IsGrowing};

use crate::entry::Entry;
use crate::heap::Heap;
use crate::leaf::{LEAF_LEN, Leaf, Slot};
use crate::rows::TopRows;
use builder_trait::flat::FlatBuilder;
use map_shapes::Point;
use query_laws::step_ledger::{Row, Steps};
use row_blocks::block_len;
use std::sync::ledger::Ledger;

/// One more place that holds nothing, where there is room.
fn widen<L: Ledger>(nodes: &mut Row<Option<Entry>>, steps: &mut Steps<L>)
    ensures widened { IsWidened nodes.old nodes.new }
    ensures cost { Spends steps.old steps.new 0 0 1 }
{
    if nodes.len() < nodes.cap() {
        nodes.push(None, steps);
    }
}

impl Heap {
    /// Puts the next point into a new leaf, and makes two places above the leaves, where there is room.
    fn open_leaf<L: Ledger>(&mut self, slot: Slot, steps: &mut Steps<L>)
        requires { length self.old.leaves.items < self.old.leaves.capacity }
        ensures put { IsPut self.old self.new (length self.old.leaves.items) 0 slot }
        ensures opened { IsOpened self.old self.new }
        ensures cost { Spends steps.old steps.new 0 0 3 }
    {
        let mut leaf = Leaf::empty();
        leaf.put(0, slot);
        self.leaves.push(leaf, steps);
        widen(&mut self.nodes, steps);
        widen(&mut self.nodes, steps);
    }

    /// Puts a point into a leaf that is there.
    fn put_in<L: Ledger>(&mut self, place: usize, slot: Slot, steps: &mut Steps<L>)
        requires { place / 16 < length self.old.leaves.items }
        ensures put { IsPut self.old self.new (place / 16) (place % 16) slot }
        ensures same { IsSameShape self.old self.new }
        ensures cost { Spends steps.old steps.new 0 0 2 }
    {
        self.leaves
            .entry_mut(place / LEAF_LEN, steps)
            .put(place % LEAF_LEN, slot);
    }

    /// Puts the next point into its leaf.
    pub(crate) fn put<L: Ledger>(
        &mut self,
        points: &FlatBuilder<Point>,
        item: &Point,
        place: usize,
        steps: &mut Steps<L>,
    )
        requires filling { IsFilling points.now.at_level points.now.items self.old }
        requires room { length points.now.items < 2 ^ points.now.at_level }
        requires next_place { place ≡ length points.now.items }
        ensures filling { IsFilling points.now.at_level (points.now.items ++ item.now ∷ []) self.new }
        ensures cost { Spends steps.old steps.new 0 0 3 }
    {
        let slot = Slot {
            y: item.y,
            stands: true,
            id: item.id,
        };
        if place % LEAF_LEN == 0 {
            self.open_leaf(slot, steps);
        } else {
            self.put_in(place, slot, steps);
        }
    }
}

impl TopRows {
    /// Fills the hole at hand, which leaves one below it.
    pub(crate) fn pull_next<L: Ledger>(&mut self, steps: &mut Steps<L>)
        requires growing { (part : Contents Point) × IsGrowing part self.old }
        requires more { 0 < self.old.left }
        ensures grown { (part : Contents Point) → IsGrowing part self.old → IsGrown part self.new }
        ensures under_way { self.new.at ≤ self.new.height }
        ensures left { self.new.left + 1 ≡ self.old.left }
        ensures cost { Spends steps.old steps.new 0 0 5 }
    {
        self.hole = self.heap.pull(self.low, self.hole, steps);
        self.low -= 1;
        self.left -= 1;
    }

    /// Goes on to the next block of the same height, or to the first of the next height.
    pub(crate) fn next_block(&mut self)
        requires grown { (part : Contents Point) × IsGrown part self.old }
        requires under_way { self.old.at ≤ self.old.height }
        requires in_leaf { self.old.low ≡ 0 }
        ensures growing { (part : Contents Point) → IsGrown part self.old → IsGrowing part self.new }
        ensures left { self.new.left ≡ self.old.left }
    {
        let next = self.block + 1;
        if next < block_len(self.height - self.at) {
            self.start_block(self.at, next);
        } else {
            self.start_block(self.at + 1, 0);
        }
    }

    /// Begins with a block: there is a hole in its place.
    fn start_block(&mut self, at: u32, block: usize)
        requires low { at < 64 }
        requires small { block * 2 ^ at < 2 ^ 64 }
        ensures { self.new ≡ record self.old { at = at; block = block; low = at; hole = block * 2 ^ at } }
    {
        self.at = at;
        self.block = block;
        self.low = at;
        self.hole = block * block_len(at);
    }
}
