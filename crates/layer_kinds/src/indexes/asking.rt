//! A question to one index of a layer.
ghost use Rattle.std.specs.Prelude.{◌≡◌, ℕ, ◌+◌, ◌*◌, List, None, IfOk, IfSome, length, map};
ghost use Rattle.query_laws.specs.StepLedger.{Consults};
ghost use Rattle.id_chain.specs.Chain.{Entry};
ghost use Rattle.log_levels.specs.Levels.{parts_of, touches_of};
ghost use Rattle.log_method.specs.Height.{AreFew};
ghost use Rattle.chain_walk.specs.Walk.{live_in};
ghost use Rattle.layer_kinds.specs.Indexing.{answering, IsOf};
ghost use Rattle.layer_kinds.specs.Layered.{IsAskRefusal};

use super::Place;
use crate::{AskFault, LayerIndex};
use builder_trait::{Answers, Asking, Builder, Given, Part};
use map_structures::MapStructure;
use query_laws::step_ledger::Steps;
use query_laws::{Item, Question};
use std::alloc::Global;
use std::sync::ledger::Ledger;

impl<B: MapStructure> LayerIndex<B> {
    /// Puts a question to the items, where the index is there and waits for none.
    ///
    /// `NoIndex` where it isn't there, `Building` where it waits for items, and `NoMemory` where the answer wanted memory that wasn't given.
    pub fn ask<Q: Question<Item = B::Item>, L: Ledger>(
        &self,
        alloc: Global,
        question: &Q,
        steps: &mut Steps<L>,
    ) -> Result<Given<B::Part, Q>, AskFault>
    where
        B::Part: Answers<Q>,
        requires of { (es : List (Entry B.Item)) × (stamps : ℕ) × IsOf B.Part.Part.contents B.Item.stamp self.now es stamps }
        ensures question { IfOk result (λ given. given.question ≡ question.now) }
        ensures answer { (es : List (Entry B.Item)) (stamps : ℕ) → IsOf B.Part.Part.contents B.Item.stamp self.now es stamps
            → IfOk result (λ given. (given.answer ≡ Q.value question.now (map (λ e. e.item) es)) × (given.live ≡ length es)) }
        ensures refused { IsAskRefusal self.now Q.refusable result }
        ensures parts { IfOk result (λ given. IfSome (answering self.now) (λ i. given.parts ≡ parts_of i.main.levels)) }
        ensures few { IfSome (answering self.now) (λ i. AreFew B.Part.Part.contents (2 * live_in B.Part.Part.contents i.main + 9) i.main.levels) }
        ensures consulted { IfOk result (λ given. steps.new.consulted ≡ steps.old.consulted + given.parts) }
        ensures cost { IfSome (answering self.now) (λ i. Consults steps.old steps.new (parts_of i.main.levels) (touches_of (B.Part.ask_touches question.now) i.main.levels)) }
        ensures nothing { answering self.now ≡ None → steps.new ≡ steps.old }
    {
        let index = match &self.place {
            Place::Absent => return Err(AskFault::NoIndex),
            Place::Whole(index) => index,
            Place::Late(late) => return Err(AskFault::Building(late.waiting())),
        };
        let mut asking = Asking::<B::Part, Q>::new(alloc, question);
        index.ask::<Q, L>(&mut asking, steps)?;
        Ok(asking.finish()?)
    }
}
