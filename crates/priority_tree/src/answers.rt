//! Answers to questions, from the points of a strip.
ghost use Rattle.std.specs.Prelude.{◌≡◌, ◌<◌, OnOk, length};
ghost use Rattle.query_laws.specs.StepLedger.{Spends};
ghost use Rattle.builder_trait.specs.Parts.{live_of};
ghost use Rattle.map_shapes.specs.Found.{higher_le};
ghost use Rattle.map_shapes.specs.Ascending.{sorted_ids, sorted_union};
ghost use Rattle.map_questions.specs.FirstFew.{first_of_both};
ghost use Rattle.map_questions.specs.Questions.{above, top};
ghost use Rattle.priority_tree.specs.Costs.{top_touches, above_touches};
ghost use Rattle.priority_tree.specs.Live.{IsTree};

use crate::offering::beats;
use crate::rows::TopRows;
use crate::strip::strip_of;
use builder_trait::AnsweringRows;
use builder_trait::flat::FlatPart;
use map_questions::{Above, Top, TopTally};
use map_shapes::{IdTally, Point};
use query_laws::NoMemory;
use query_laws::step_ledger::Steps;
use std::sync::ledger::Ledger;

impl TopRows {
    /// Takes in the highest live point of a strip. Where no point is better than the best so far, only the first is read.
    fn offer_highest<L: Ledger>(
        &self,
        points: &FlatPart<Point>,
        question: &Top,
        tally: &mut TopTally,
        steps: &mut Steps<L>,
    )
        requires tree { IsTree points.now self.now.heap self.now.height }
        ensures joined { tally.new ≡ first_of_both higher_le tally.old (top question.now.x1 question.now.x2 (live_of points.now)) }
        ensures cost { Spends steps.old steps.new 0 0 (top_touches points.now.items) }
        ensures read { 0 < length points.now.items → steps.old.touches < steps.new.touches }
    {
        let Some(entry) = self.heap.front(self.height, 0, steps) else {
            return;
        };
        if beats(&entry, tally) {
            let strip = strip_of(points, question.x1, question.x2, steps);
            self.heap.offer(self.height, 0, &strip, tally, steps);
        }
    }

    /// Pushes the identifiers of the live points of a strip that are at least so high.
    ///
    /// `NoMemory` where the tally wanted memory that wasn't given.
    fn list_high<L: Ledger>(
        &self,
        points: &FlatPart<Point>,
        question: &Above,
        tally: &mut IdTally,
        steps: &mut Steps<L>,
    ) -> Result<(), NoMemory>
        requires tree { IsTree points.now self.now.heap self.now.height }
        ensures joined { OnOk result (sorted_ids tally.new
            ≡ sorted_union (sorted_ids tally.old) (above question.now.x1 question.now.x2 question.now.y (live_of points.now))) }
        ensures cost { Spends steps.old steps.new 0 0 (above_touches question.now.x1 question.now.x2 question.now.y points.now) }
        ensures read { 0 < length points.now.items → steps.old.touches < steps.new.touches }
    {
        let strip = strip_of(points, question.x1, question.x2, steps);
        self.heap
            .list(self.height, 0, &strip, question.y, tally, steps)
    }
}

impl AnsweringRows<Top> for TopRows {
    ghost use Rattle.priority_tree.specs.Costs.{top_touches};

    ghost ask_touches = { λ q part. top_touches part.items };

    fn ask<L: Ledger>(
        &self,
        points: &FlatPart<Point>,
        question: &Top,
        tally: &mut TopTally,
        steps: &mut Steps<L>,
    ) -> Result<(), NoMemory> {
        self.offer_highest(points, question, tally, steps);
        Ok(())
    }
}

impl AnsweringRows<Above> for TopRows {
    ghost use Rattle.priority_tree.specs.Costs.{above_touches};

    ghost ask_touches = { λ q part. above_touches q.x1 q.x2 q.y part };

    fn ask<L: Ledger>(
        &self,
        points: &FlatPart<Point>,
        question: &Above,
        tally: &mut IdTally,
        steps: &mut Steps<L>,
    ) -> Result<(), NoMemory> {
        self.list_high(points, question, tally, steps)
    }
}
