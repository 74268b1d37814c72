//! The rows grow, a place a turn.
ghost use Rattle.std.specs.Prelude.{◌≡◌, ◌+◌, ◌-◌, ◌*◌, ◌<◌, ◌≤◌, length};
ghost use Rattle.query_laws.specs.StepLedger.{Spends};
ghost use Rattle.builder_trait.specs.Parts.{Contents};
ghost use Rattle.map_shapes.specs.declared.point.Point.{Point};
ghost use Rattle.range_tree.specs.Heights.{words_for};
ghost use Rattle.range_tree.specs.Growing.{AreGrown, IsGrowing};

use crate::rows::RangeTree;
use query_laws::step_ledger::Steps;
use row_blocks::block_len;
use std::mem;
use std::sync::ledger::Ledger;

/// A point on the way from row to row: its place in the first order, and its weight.
#[derive(Clone, Copy)]
pub(crate) struct Carried {
    pub(crate) place: u32,
    pub(crate) weight: u32,
}

impl RangeTree {
    /// Carries the next point of a row into its half of its block, or fills the last word of the row: five touches at most.
    pub(crate) fn carry_next<L: Ledger>(&mut self, steps: &mut Steps<L>)
        requires growing { (part : Contents Point) × IsGrowing part self.old }
        requires more { 0 < self.old.left }
        ensures growing { (part : Contents Point) → IsGrowing part self.old → IsGrowing part self.new }
        ensures left { self.new.left + 1 ≡ self.old.left }
        ensures cost { Spends steps.old steps.new 0 0 5 }
    {
        self.put_place(steps);
        self.at += 1;
        self.left -= 1;
        if self.at == self.source.len().div_ceil(64) * 64 {
            mem::swap(&mut self.source, &mut self.target);
            self.at = 0;
        }
    }

    /// Puts the next place of a row: that of a point, which goes into its half of its block in the row below, or one that fills the last word.
    fn put_place<L: Ledger>(&mut self, steps: &mut Steps<L>)
        requires grown { (part : Contents Point) × AreGrown part self.old }
        requires unended { self.old.at < 64 * words_for (length self.old.source.items) }
        requires room { length self.old.ranks.second < self.old.ranks.room }
        requires low { self.old.height ≤ 31 }
        ensures grown { (part : Contents Point) → AreGrown part self.old
            → AreGrown part (record self.new { at = self.old.at + 1; left = self.old.left - 1 }) }
        ensures kept { self.new ≡ record self.old { ranks = self.new.ranks; target = self.new.target } }
        ensures room { self.new.ranks.room ≡ self.old.ranks.room }
        ensures capacity { self.new.target.capacity ≡ self.old.target.capacity }
        ensures cost { Spends steps.old steps.new 0 0 5 }
    {
        if self.at < self.source.len() {
            let carried = self.source.at(self.at, steps);
            let half = block_len(self.ranks.next_height() - 1);
            let second = carried.place as usize / half % 2 == 1;
            let target = self.ranks.push(second, carried.weight, steps);
            self.target.set(target, carried, steps);
        } else {
            self.ranks.push(false, 0, steps);
        }
    }
}
