//! Marks: a point that dies is taken out of its leaf, and the boxes over it shrink.
ghost use Rattle.std.specs.Prelude.{◌≡◌, ◌+◌, ◌*◌, ◌/◌, ◌^◌, ◌<◌, ◌≤◌, ◌-◌, IfSome, IfNone, length};
ghost use Rattle.query_laws.specs.StepLedger.{Spends};
ghost use Rattle.builder_trait.specs.Parts.{Contents};
ghost use Rattle.map_shapes.specs.declared.point.Point.{Point};
ghost use Rattle.kd_tree.specs.Blocks.{AreNodes};
ghost use Rattle.kd_tree.specs.Shrinking.{Death, IsShrinking, died, rest};
ghost use Rattle.kd_tree.specs.Growing.{IsTree};

use crate::area::Area;
use crate::height::{LEAF, index};
use crate::node::whole;
use crate::rows::KdRows;
use query_laws::step_ledger::Steps;
use std::sync::ledger::Ledger;

impl KdRows {
    /// Writes the box of a block into its node, and gives that of the node's blocks; `None` where the box is there already. Two touches.
    fn set_area<L: Ledger>(
        &mut self,
        level: u32,
        block: usize,
        area: Area,
        steps: &mut Steps<L>,
    ) -> Option<Area>
        requires shrinking { (death : Death) × IsShrinking death self.old.depth level block area self.old.nodes.items }
        requires small { self.old.depth ≤ 15 }
        requires level { level < self.old.depth }
        requires block { block < 4 ^ (self.old.depth - level) }
        ensures above { IfSome result (λ above. (death : Death) → IsShrinking death self.old.depth level block area self.old.nodes.items
            → IsShrinking death self.old.depth (level + 1) (block / 4) above self.new.nodes.items) }
        ensures there { IfNone result ((death : Death) → IsShrinking death self.old.depth level block area self.old.nodes.items
            → AreNodes (rest death) death.order self.old.depth self.old.depth 0 self.new.nodes.items) }
        ensures kept { self.new ≡ record self.old { nodes = record self.old.nodes { items = self.new.nodes.items } } }
        ensures cost { Spends steps.old steps.new 0 0 2 }
    {
        let node = index(self.depth, level, block / 4);
        let mut areas = self.nodes.at(node, steps);
        if areas[block % 4] == area {
            return None;
        }
        areas[block % 4] = area;
        self.nodes.set(node, areas, steps);
        Some(whole(&areas))
    }

    /// Writes the box of a leaf, and of each block over it, while they change.
    fn raise<L: Ledger>(&mut self, leaf: usize, area: Area, steps: &mut Steps<L>)
        requires shrinking { (death : Death) × IsShrinking death self.old.depth 0 leaf area self.old.nodes.items }
        requires small { self.old.depth ≤ 15 }
        requires leaf { leaf < 4 ^ self.old.depth }
        ensures nodes { (death : Death) → IsShrinking death self.old.depth 0 leaf area self.old.nodes.items
            → AreNodes (rest death) death.order self.old.depth self.old.depth 0 self.new.nodes.items }
        ensures kept { self.new ≡ record self.old { nodes = record self.old.nodes { items = self.new.nodes.items } } }
        ensures cost { Spends steps.old steps.new 0 0 (2 * self.old.depth) }
    {
        let mut block = leaf;
        let mut area = area;
        for level in 0..self.depth {
            let Some(above) = self.set_area(level, block, area, steps) else {
                return;
            };
            block /= 4;
            area = above;
        }
    }

    /// Takes out the point at a place, which has just died.
    pub(crate) fn kill<L: Ledger>(&mut self, place: usize, steps: &mut Steps<L>)
        requires tree { (part : Contents Point) × IsTree part self.old }
        requires within { place < length self.old.places.items }
        ensures tree { (part : Contents Point) → IsTree part self.old → IsTree (died part place) self.new }
        ensures cost { Spends steps.old steps.new 0 0 (2 * self.old.depth + 5) }
    {
        let position = self.places.position_of(place, steps);
        self.leaves.kill(position, steps);
        let leaf = position / LEAF;
        let area = self.leaves.area(leaf, self.places.len(), steps);
        self.raise(leaf, area, steps);
    }
}
