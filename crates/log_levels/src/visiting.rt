//! One tick: the levels are visited from the lowest one up.
ghost use Rattle.std.specs.Prelude.{◌≡◌, ℕ, ◌+◌, ◌-◌, ◌*◌, ◌^◌, ◌<◌, ◌≤◌, ◌∷◌, All};
ghost use Rattle.query_laws.specs.Orders.{AllStampsDiffer};
ghost use Rattle.query_laws.specs.Permuted.{Permuted};
ghost use Rattle.log_levels.specs.Slots.{IsPartOf};
ghost use Rattle.log_levels.specs.Levels.{waiting_of, weight_of, live_items, all_items};
ghost use Rattle.log_levels.specs.Neighbours.{IsPunctual};
ghost use Rattle.log_levels.specs.Towers.{IsTower, IsHalfway, AreAllLevels, AreHalfway, AreOnTime, AreTicked, Arrives, TakeTicks};
ghost use Rattle.log_levels.specs.Trades.{AreLent, IsStocked, IsQuiet, Ticks, AreReady, AreAllReady, Walks, WalkAll};
ghost use Rattle.log_levels.specs.Level.{IsOfLevel};
ghost use Rattle.log_levels.specs.Cost.{IsWithin, IsCostOfInsert, ArePaid, quotas};

use crate::level::Level;
use builder_trait::{Builder, Part, Profiled, part_of_one};
use part_store::Store;
use query_laws::Item;
use query_laws::step_ledger::Steps;
use std::sync::ledger::Ledger;

/// Visits the levels above one that has taken its tick, in rising order.
fn walk<B: Builder, L: Ledger>(
    lower: &mut Level<B>,
    above: &mut [Level<B>],
    store: &mut Store<B>,
    steps: &mut Steps<L>,
)
    requires halfway { IsHalfway B.Part.Part.contents ⟦<B as Profiled>⟧.profile lower.old above.old }
    requires ready { AreReady lower.old above.old store.old }
    requires apart { AllStampsDiffer B.Item.stamp (all_items B.Part.Part.contents (lower.old ∷ above.old)) }
    ensures tower { IsTower B.Part.Part.contents ⟦<B as Profiled>⟧.profile lower.new above.new }
    ensures punctual { All (IsPunctual ⟦<B as Profiled>⟧.profile) above.new }
    ensures ticked { AreTicked B.Part.Part.contents (lower.old ∷ above.old) (lower.new ∷ above.new) }
    ensures each { TakeTicks above.old above.new }
    ensures same { lower.new ≡ record lower.old { parts = lower.new.parts } }
    ensures walks { Walks lower.old above.old store.old lower.new above.new store.new }
    ensures waiting { waiting_of above.new + steps.new.marks ≡ waiting_of above.old + steps.old.marks }
    ensures paid { ArePaid ⟦<B as Profiled>⟧.profile above.old above.new steps.old steps.new }
    ensures cost { (g : ℕ) → weight_of (lower.old ∷ above.old) < 2 ^ (g + 1)
        → IsWithin (quotas B.SLOPE B.BASE (lower.old.level + 1) g) (2 * (g - lower.old.level)) (B.Part.Part.mark_touches g) steps.old steps.new }
{
    if let Some((level, above)) = above.split_first_mut() {
        level.visit(lower, store, steps);
        walk(level, above, store, steps);
    }
}

/// Takes in a part of level 0: level 0 has then taken its tick.
fn arrive<B: Builder>(levels: &mut [Level<B>], part: B::Part)
    requires levels { AreAllLevels B.Part.Part.contents ⟦<B as Profiled>⟧.profile levels.old }
    requires quiet { IsQuiet 1 levels.old }
    requires of_level { IsOfLevel 0 (B.Part.Part.contents part) }
    ensures { Arrives part levels.old levels.new }
{
    match levels.split_first_mut() {
        Some((lowest, _above)) => lowest.arrive(part),
        None => unreachable!(),
    }
}

/// The rest of a tick that level 0 has taken: all levels above are visited.
pub(crate) fn take_tick<B: Builder, L: Ledger>(
    levels: &mut [Level<B>],
    store: &mut Store<B>,
    steps: &mut Steps<L>,
)
    requires halfway { AreHalfway B.Part.Part.contents ⟦<B as Profiled>⟧.profile levels.old }
    requires ready { AreAllReady levels.old store.old }
    requires apart { AllStampsDiffer B.Item.stamp (all_items B.Part.Part.contents levels.old) }
    ensures on_time { AreOnTime B.Part.Part.contents ⟦<B as Profiled>⟧.profile levels.new }
    ensures ticked { AreTicked B.Part.Part.contents levels.old levels.new }
    ensures each { TakeTicks levels.old levels.new }
    ensures walk { WalkAll levels.old store.old levels.new store.new }
    ensures waiting { waiting_of levels.new + steps.new.marks ≡ waiting_of levels.old + steps.old.marks }
    ensures paid { ArePaid ⟦<B as Profiled>⟧.profile levels.old levels.new steps.old steps.new }
    ensures cost { (g : ℕ) → weight_of levels.old < 2 ^ (g + 1)
        → IsWithin (quotas B.SLOPE B.BASE 1 g) (2 * g) (B.Part.Part.mark_touches g) steps.old steps.new }
{
    match levels.split_first_mut() {
        Some((lowest, above)) => walk(lowest, above, store, steps),
        None => unreachable!(),
    }
}

/// One tick in which an item comes: a part is made of it at level 0, in a builder that the store lends.
pub fn take_in<B: Builder, L: Ledger>(
    levels: &mut [Level<B>],
    item: B::Item,
    store: &mut Store<B>,
    steps: &mut Steps<L>,
)
    requires levels { AreAllLevels B.Part.Part.contents ⟦<B as Profiled>⟧.profile levels.old }
    requires stocked { IsStocked levels.old store.old 1 }
    requires lent { AreLent levels.old store.old }
    requires apart { AllStampsDiffer B.Item.stamp (item ∷ all_items B.Part.Part.contents levels.old) }
    ensures on_time { AreOnTime B.Part.Part.contents ⟦<B as Profiled>⟧.profile levels.new }
    ensures live { Permuted (live_items B.Part.Part.contents levels.new) (item ∷ live_items B.Part.Part.contents levels.old) }
    ensures items { IsPartOf (all_items B.Part.Part.contents levels.new) (item ∷ all_items B.Part.Part.contents levels.old) }
    ensures weight { weight_of levels.new ≡ weight_of levels.old + 1 }
    ensures each { TakeTicks levels.old levels.new }
    ensures trades { Ticks levels.old store.old levels.new store.new }

    // A part is made of the item.
    ensures some_turns { steps.old.turns + 3 ≤ steps.new.turns }
    ensures cost { IsCostOfInsert B.SLOPE B.BASE B.Part.Part.mark_touches levels.old levels.new steps.old steps.new }
    ensures paid { ArePaid ⟦<B as Profiled>⟧.profile levels.old levels.new steps.old steps.new }
{
    let builder = store.lend_builder(0);
    let part = part_of_one(builder, item, steps);
    arrive(levels, part);
    take_tick(levels, store, steps);
}
