//! A question to the layer of a name.
ghost use Rattle.std.specs.Prelude.{◌≡◌, IfOk};
ghost use Rattle.query_laws.specs.StepLedger.{lap_begun};
ghost use Rattle.map_model.specs.State.{layer_named};
ghost use Rattle.map_model.specs.Answer.{index_of};
ghost use Rattle.map_model.specs.Command.{Ask};
ghost use Rattle.map_model.specs.Reply as replies;
ghost use Rattle.map_layers.specs.Layers.{map_of, named};
ghost use Rattle.map_layers.specs.Costs.{IsAskingIn, IsEveryPartIn, IsTouchingIn};
ghost use Rattle.map_questions.specs.Any.{question_of};
ghost use Rattle.map_layers.specs.Questions.{touches_for, most_for};
ghost use Rattle.layer_kinds.specs.Asking.{IsReading};
ghost use Rattle.map_layers.specs.Replies.{questioned, IsAnswered};

use crate::{Answered, AskFault, Layers, OverPoints, OverSegments};
use map_questions::AnyQuestion;
use map_shapes::{Name, QuestionCost};
use query_laws::step_ledger::Steps;
use std::sync::ledger::Ledger;

impl<P: OverPoints, S: OverSegments> Layers<P, S> {
    /// Puts a question to the items of a layer.
    ///
    /// `WrongKind` where the question is about the other kind, `NoIndex` where the layer lacks the index for it, `Building` where that waits for
    /// items, and `NoMemory` where a list wanted memory that wasn't given.
    pub fn ask<L: Ledger>(
        &self,
        name: &Name,
        question: &AnyQuestion,
        steps: &mut Steps<L>,
    ) -> Result<(Answered, QuestionCost), AskFault>
        ensures answered { IsAnswered (map_of self.now) (Ask name.now (question_of question.now)) (map_of self.now)
            (questioned (λ given. replies.Answered given.0.answer) result) }
        ensures question { IfOk result (λ given. given.0.question ≡ question_of question.now) }
        ensures consulted { IfOk result (λ given. given.1.parts ≡ given.0.parts) }
        ensures every_part { IfOk result (λ given. IsEveryPartIn (named name.now self.now.layers) (index_of (question_of question.now)) given.1.parts given.0.live) }
        ensures cost { IfOk result (λ given. IsAskingIn (layer_named name.now (map_of self.now).layers)
            (λ level n. most_for level given.1.parts n given.0.answer) given.1 (lap_begun steps.old) steps.new) }
        ensures touches { IsTouchingIn (layer_named name.now (map_of self.now).layers) (touches_for (question_of question.now)) result (lap_begun steps.old) steps.new }
        ensures reads { IsReading (lap_begun steps.old) steps.new }
    {
        steps.start_lap();
        match self.layer(name) {
            Some(layer) => layer.ask(self.alloc, question, steps),
            None => Err(AskFault::NoLayer),
        }
    }
}
