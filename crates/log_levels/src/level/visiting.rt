//! What one tick does at a level.
ghost use Rattle.std.specs.Prelude.{◌≡◌, ◌+◌, ◌^◌, ◌<◌, true, [], ◌∷◌, length};
ghost use Rattle.query_laws.specs.Orders.{AllStampsDiffer};
ghost use Rattle.log_levels.specs.Slots.{ticks_of, items_in};
ghost use Rattle.log_levels.specs.Trades.{will_begin, AreLent, HasRoom, Visits};
ghost use Rattle.log_levels.specs.Neighbours.{IsBelow, IsVisited, IsPunctual};
ghost use Rattle.log_levels.specs.Cost.{IsCostOfVisit, IsPaid};

use crate::level::Level;
use builder_trait::{Builder, Part, Profiled};
use part_store::Store;
use query_laws::Item;
use query_laws::step_ledger::Steps;
use std::sync::ledger::Ledger;

impl<B: Builder> Level<B> {
    /// Visits the level, above one that has taken its tick: where that one has two parts or more, a construction of the two oldest begins,
    /// takes its tick, or ends.
    pub fn visit<L: Ledger>(
        &mut self,
        lower: &mut Level<B>,
        store: &mut Store<B>,
        steps: &mut Steps<L>,
    )
        requires below { IsBelow B.Part.Part.contents ⟦<B as Profiled>⟧.profile 0 lower.old self.old }
        requires kept { will_begin lower.old self.old ≡ true → HasRoom self.old.level store.old }
        requires lent { AreLent (lower.old ∷ self.old ∷ []) store.old }
        requires place { ticks_of self.old + 1 ≡ 2 ^ self.old.level → length self.old.parts < 3 }
        requires apart { AllStampsDiffer B.Item.stamp (items_in B.Part.Part.contents lower.old) }
        ensures visited { IsVisited B.Part.Part.contents ⟦<B as Profiled>⟧.profile self.old lower.old self.new lower.new }
        ensures punctual { IsPunctual ⟦<B as Profiled>⟧.profile self.new }
        ensures same_below { lower.new ≡ record lower.old { parts = lower.new.parts } }
        ensures trades { Visits lower.old self.old store.old lower.new self.new store.new }

        // No turn of a construction whose part is built, and no mark where none waits.
        ensures cost { IsCostOfVisit ⟦<B as Profiled>⟧.profile B.Part.Part.mark_touches lower.old self.old self.new steps.old steps.new }
        ensures paid { IsPaid ⟦<B as Profiled>⟧.profile self.old self.new steps.old steps.new }
    {
        let [a, b, ..] = lower.parts() else {
            return;
        };
        self.begin(a, b, store);
        self.tick(a, b, steps);
        self.publish(lower, store);
    }
}
