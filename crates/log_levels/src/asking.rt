//! A question put to the complete parts of levels.
ghost use Rattle.std.specs.Prelude.{◌≡◌, ◌+◌, ◌^◌, ◌<◌, true, false, IsTrue, IfOk, IsErr, OnErr, length, sum_by};
ghost use Rattle.std.specs.List.{flat_map};
ghost use Rattle.query_laws.specs.StepLedger.{Consults};
ghost use Rattle.builder_trait.specs.Parts.{live_of};
ghost use Rattle.log_levels.specs.Levels.{parts_of, touches_of};
ghost use Rattle.log_levels.specs.Asking.{AreThreeAtMost, HasAsked};

use crate::level::Level;
use builder_trait::{Answers, Asking, Builder, Part};
use query_laws::step_ledger::Steps;
use query_laws::{NoMemory, Question};
use std::sync::ledger::Ledger;

/// Puts a question to all complete parts of levels, once each, those of the highest level first.
pub fn ask_levels<B: Builder, Q: Question<Item = B::Item>, L: Ledger>(
    levels: &[Level<B>],
    asking: &mut Asking<B::Part, Q>,
    steps: &mut Steps<L>,
) -> Result<(), NoMemory>
where
    B::Part: Answers<Q>,
    requires going { asking.old.is_given_up ≡ false }
    requires lawful { Q.lawful asking.old.question asking.old.so_far }
    requires room { asking.old.parts + parts_of levels.now < 2 ^ 32 }
    ensures joined { HasAsked B.Part.Part.contents Q.join Q.value levels.now result asking.old asking.new }
    ensures given_up { OnErr result (asking.new
        ≡ record asking.old { so_far = asking.new.so_far; parts = asking.new.parts; live = asking.new.live; is_given_up = true }) }
    ensures refused { IsErr result → IsTrue asking.old.refusable }
    ensures lawful { Q.lawful asking.old.question asking.new.so_far }
    ensures consulted { IfOk result (λ _. steps.new.consulted ≡ steps.old.consulted + parts_of levels.now) }
    ensures cost { Consults steps.old steps.new (parts_of levels.now) (touches_of (B.Part.ask_touches asking.old.question) levels.now) }
    ensures three { AreThreeAtMost B.Part.Part.contents levels.now }
{
    match levels.split_first() {
        Some((lowest, above)) => {
            let parts = lowest.parts();
            ask_levels::<B, Q, L>(above, asking, steps)?;
            ask_parts::<B::Part, Q, L>(parts, asking, steps)
        }
        None => Ok(()),
    }
}

/// Puts a question to some parts, once each, in their order.
fn ask_parts<P: Answers<Q>, Q: Question<Item = P::Item>, L: Ledger>(
    parts: &[P],
    asking: &mut Asking<P, Q>,
    steps: &mut Steps<L>,
) -> Result<(), NoMemory>
    requires going { asking.old.is_given_up ≡ false }
    requires lawful { Q.lawful asking.old.question asking.old.so_far }
    requires room { asking.old.parts + length parts.now < 2 ^ 32 }
    ensures joined { IfOk result (λ _. asking.new ≡ record asking.old {
      so_far = Q.join asking.old.question asking.old.so_far
          (Q.value asking.old.question (flat_map (λ p. live_of (P.Part.contents p)) parts.now));
      parts = asking.old.parts + length parts.now;
      live = asking.old.live + length (flat_map (λ p. live_of (P.Part.contents p)) parts.now);
    }) }
    ensures given_up { OnErr result (asking.new
        ≡ record asking.old { so_far = asking.new.so_far; parts = asking.new.parts; live = asking.new.live; is_given_up = true }) }
    ensures refused { IsErr result → IsTrue asking.old.refusable }
    ensures lawful { Q.lawful asking.old.question asking.new.so_far }
    ensures consulted { IfOk result (λ _. steps.new.consulted ≡ steps.old.consulted + length parts.now) }
    ensures cost { Consults steps.old steps.new (length parts.now) (sum_by (P.ask_touches asking.old.question) parts.now) }
{
    for part in parts {
        asking.part(part, steps)?;
    }
    Ok(())
}
