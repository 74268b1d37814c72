//! A question put to the parts of levels.
ghost use Rattle.std.specs.Prelude.{◌≡◌, ◌+◌, ◌^◌, ◌<◌, true, false, IsTrue, IfOk, IsErr, OnErr, length};
ghost use Rattle.query_laws.specs.StepLedger.{Consults};
ghost use Rattle.binary_stack.specs.Levels.{parts_in, parts_of, touches_in, touches_of, live_in, live_items};

use builder_trait::{Answers, Asking, Part};
use query_laws::step_ledger::Steps;
use query_laws::{NoMemory, Question};
use std::sync::ledger::Ledger;

/// Puts a question to the part of each level, once each.
pub(crate) fn ask_levels<P: Answers<Q>, Q: Question<Item = P::Item>, L: Ledger>(
    levels: &[Option<P>],
    asking: &mut Asking<P, Q>,
    steps: &mut Steps<L>,
) -> Result<(), NoMemory>
    requires going { asking.old.is_given_up ≡ false }
    requires lawful { Q.lawful asking.old.question asking.old.so_far }
    requires room { asking.old.parts + parts_of levels.now < 2 ^ 32 }
    ensures joined { IfOk result (λ _. asking.new ≡ record asking.old {
      so_far = Q.join asking.old.question asking.old.so_far (Q.value asking.old.question (live_items P.Part.contents levels.now));
      parts = asking.old.parts + parts_of levels.now;
      live = asking.old.live + length (live_items P.Part.contents levels.now);
    }) }
    ensures given_up { OnErr result (asking.new
        ≡ record asking.old { so_far = asking.new.so_far; parts = asking.new.parts; live = asking.new.live; is_given_up = true }) }
    ensures refused { IsErr result → IsTrue asking.old.refusable }
    ensures consulted { IfOk result (λ _. steps.new.consulted ≡ steps.old.consulted + parts_of levels.now) }
    ensures cost { Consults steps.old steps.new (parts_of levels.now) (touches_of (P.ask_touches asking.old.question) levels.now) }
{
    match levels.split_first() {
        Some((level, above)) => {
            ask_level(level, asking, steps)?;
            ask_levels(above, asking, steps)
        }
        None => Ok(()),
    }
}

/// Puts a question to the part of a level, if it has one.
fn ask_level<P: Answers<Q>, Q: Question<Item = P::Item>, L: Ledger>(
    level: &Option<P>,
    asking: &mut Asking<P, Q>,
    steps: &mut Steps<L>,
) -> Result<(), NoMemory>
    requires going { asking.old.is_given_up ≡ false }
    requires lawful { Q.lawful asking.old.question asking.old.so_far }
    requires room { asking.old.parts + parts_in level.now < 2 ^ 32 }
    ensures joined { IfOk result (λ _. asking.new ≡ record asking.old {
      so_far = Q.join asking.old.question asking.old.so_far (Q.value asking.old.question (live_in P.Part.contents level.now));
      parts = asking.old.parts + parts_in level.now;
      live = asking.old.live + length (live_in P.Part.contents level.now);
    }) }
    ensures given_up { OnErr result (asking.new ≡ record asking.old { so_far = asking.new.so_far; is_given_up = true }) }
    ensures refused { IsErr result → IsTrue asking.old.refusable }
    ensures lawful { Q.lawful asking.old.question asking.new.so_far }
    ensures consulted { steps.new.consulted ≡ steps.old.consulted + parts_in level.now }
    ensures cost { Consults steps.old steps.new (parts_in level.now) (touches_in (P.ask_touches asking.old.question) level.now) }
{
    match level {
        Some(part) => asking.part(part, steps),
        None => Ok(()),
    }
}
