//! The tree grows: places are sorted, leaves are filled, and nodes are made, an entry a turn.
ghost use Rattle.std.specs.Prelude.{◌≡◌, ℕ, ◌+◌, ◌-◌, ◌*◌, ◌^◌, ◌<◌, ◌≤◌, length};
ghost use Rattle.query_laws.specs.StepLedger.{Spends};
ghost use Rattle.builder_trait.specs.Parts.{Contents};
ghost use Rattle.builder_trait.specs.Builders.{all_live};
ghost use Rattle.map_shapes.specs.declared.point.Point.{Point};
ghost use Rattle.kd_tree.specs.Heights.{span, nodes_in};
ghost use Rattle.kd_tree.specs.Blocks.{IsLeastBox};
ghost use Rattle.kd_tree.specs.Growing.{IsShaping, to_go};

use crate::area::Area;
use crate::height::{LEAF, index, nodes_over};
use crate::node::whole;
use crate::rows::KdRows;
use crate::spot::Spot;
use builder_trait::flat::FlatBuilder;
use map_shapes::Point;
use query_laws::step_ledger::Steps;
use std::sync::ledger::Ledger;

impl KdRows {
    /// Does the next step: at most ten touches.
    pub(crate) fn grow<L: Ledger>(&mut self, points: &FlatBuilder<Point>, steps: &mut Steps<L>)
        requires shaping { IsShaping (all_live points.now) self.old }
        requires more { 0 < to_go (all_live points.now) self.old }
        ensures shaping { IsShaping (all_live points.now) self.new }
        ensures less { to_go (all_live points.now) self.new + 1 ≡ to_go (all_live points.now) self.old }
        ensures same_left { self.new.left ≡ self.old.left }
        ensures cost { Spends steps.old steps.new 0 0 10 }
    {
        if self.sorting.level > 0 {
            self.sort_next(steps);
        } else if self.filled < points.len() {
            self.fill_next(points, steps);
        } else {
            self.node_next(steps);
        }
    }

    /// One step of a pass.
    fn sort_next<L: Ledger>(&mut self, steps: &mut Steps<L>)
        requires shaping { (part : Contents Point) × IsShaping part self.old }
        requires more { 0 < self.old.sorting.level }
        ensures shaping { (part : Contents Point) → IsShaping part self.old → IsShaping part self.new × (to_go part self.new + 1 ≡ to_go part self.old) }
        ensures same_left { self.new.left ≡ self.old.left }
        ensures cost { Spends steps.old steps.new 0 0 10 }
    {
        self.sorting.step(&mut self.places, steps);
    }

    /// Puts the spot of the next position into its leaf.
    fn fill_next<L: Ledger>(&mut self, points: &FlatBuilder<Point>, steps: &mut Steps<L>)
        requires shaping { IsShaping (all_live points.now) self.old }
        requires sorted { self.old.sorting.level ≡ 0 }
        requires more { self.old.filled < length points.now.items }
        ensures shaping { IsShaping (all_live points.now) self.new }
        ensures less { to_go (all_live points.now) self.new + 1 ≡ to_go (all_live points.now) self.old }
        ensures same_left { self.new.left ≡ self.old.left }
        ensures cost { Spends steps.old steps.new 0 0 4 }
    {
        let place = self.places.place_at(self.filled, steps);
        let point = points.at(place, steps);
        self.leaves.put(self.filled, Spot::of(&point), steps);
        self.filled += 1;
    }

    /// The least box of a block: two touches at most.
    fn block_area<L: Ledger>(&self, level: u32, place: usize, steps: &mut Steps<L>) -> Area
        requires shaping { (part : Contents Point) × IsShaping part self.now }
        requires filled { self.now.filled ≡ length self.now.places.items }
        requires level { level ≤ self.now.level }
        requires within { level ≤ self.now.depth }
        requires place { place < 4 ^ (self.now.depth - level) }
        ensures least { (part : Contents Point) → IsShaping part self.now
            → IsLeastBox part self.now.places.items result (place * span level) ((place + 1) * span level) }
        ensures cost { Spends steps.old steps.new 0 0 2 }
    {
        if level > 0 {
            let areas = self.nodes.at(index(self.depth, level - 1, place), steps);
            return whole(&areas);
        }
        let len = self.places.len();
        if LEAF * place < len {
            self.leaves.area(place, len, steps)
        } else {
            Area::nothing()
        }
    }

    /// Makes the next node.
    fn node_next<L: Ledger>(&mut self, steps: &mut Steps<L>)
        requires shaping { (part : Contents Point) × IsShaping part self.old }
        requires filled { self.old.filled ≡ length self.old.places.items }
        requires more { length self.old.nodes.items < nodes_in self.old.depth }
        ensures shaping { (part : Contents Point) → IsShaping part self.old → IsShaping part self.new × (to_go part self.new + 1 ≡ to_go part self.old) }
        ensures same_left { self.new.left ≡ self.old.left }
        ensures cost { Spends steps.old steps.new 0 0 10 }
    {
        let first = 4 * self.place;
        let areas = [
            self.block_area(self.level, first, steps),
            self.block_area(self.level, first + 1, steps),
            self.block_area(self.level, first + 2, steps),
            self.block_area(self.level, first + 3, steps),
        ];
        self.nodes.push(areas, steps);
        self.place += 1;
        if self.place == nodes_over(self.depth, self.level) {
            self.place = 0;
            self.level += 1;
        }
    }
}
