//! The item of a delete: it is marked as dead, and a construction that reads its part takes note.
ghost use Rattle.std.specs.Prelude.{◌≡◌, ℕ, ◌+◌, ◌-◌, ◌*◌, ◌^◌, ◌<◌, ◌≤◌, false, List, ◌∷◌, All, Contains};
ghost use Rattle.query_laws.specs.Orders.{AllStampsDiffer};
ghost use Rattle.query_laws.specs.Permuted.{Permuted};
ghost use Rattle.query_laws.specs.StepLedger.{Spends};
ghost use Rattle.query_laws.specs.declared.item.Order.TheVariants.{First};
ghost use Rattle.builder_trait.specs.Parts.{OwnsStamp, has_stamp, without, marked};
ghost use Rattle.log_levels.specs.Slots.{Slots, IsPartOf, ticks_of, live_in, items_in, asked_in};
ghost use Rattle.log_levels.specs.Levels.{weight_of, waiting_of, live_items, all_items, parts_asked};
ghost use Rattle.log_levels.specs.Neighbours.{IsConstructionOf, IsPunctual};
ghost use Rattle.log_levels.specs.Towers.{IsTower, AreLevels, AreOnTime, TakeTicks};
ghost use Rattle.log_levels.specs.Trades.{AreLent, IsStocked, Ticks};
ghost use Rattle.log_levels.specs.Cost.{IsCostOfDelete, ArePaid};
ghost use Rattle.log_levels.specs.Marking.{IsLiveIn, AreNoted, IsMarked, IsSameBelow, AreMarked, read_into, noted_above, noted};

use crate::level::Level;
use crate::visiting::take_tick;
use builder_trait::{Builder, Part, Profiled};
use part_store::Store;
use query_laws::Item;
use query_laws::step_ledger::Steps;
use std::sync::ledger::Ledger;

/// Has an item noted that has just died in a part of the level below, where a construction is made of that part.
fn note_above<B: Builder>(above: &mut [Level<B>], place: usize, item: &B::Item)
    requires early { (l : Slots B.Part B.Item) (rest : List (Slots B.Part B.Item)) → above.old ≡ l ∷ rest
        → (ticks_of l < 2 ^ l.level) × IsPunctual ⟦<B as Profiled>⟧.profile l }
    ensures noted { AreNoted above.old above.new }
    ensures waiting { place < 2 → waiting_of above.new ≡ waiting_of above.old + read_into (B.Item.before First) item.now above.old }
    ensures third { 2 ≤ place → above.new ≡ above.old }
    ensures of_a { place < 2 → (l l' : Slots B.Part B.Item) (rest : List (Slots B.Part B.Item)) → above.old ≡ l ∷ rest → above.new ≡ l' ∷ rest
        → (a b a' : B.Part) → IsLiveIn (B.Part.Part.contents a) item.now
        → B.Part.Part.contents a' ≡ marked B.Item.stamp (B.Item.stamp item.now) (B.Part.Part.contents a)
        → IsConstructionOf B.Part.Part.contents ⟦<B as Profiled>⟧.profile a b l
        → IsConstructionOf B.Part.Part.contents ⟦<B as Profiled>⟧.profile a' b l' }
    ensures of_b { place < 2 → (l l' : Slots B.Part B.Item) (rest : List (Slots B.Part B.Item)) → above.old ≡ l ∷ rest → above.new ≡ l' ∷ rest
        → (a b b' : B.Part) → IsLiveIn (B.Part.Part.contents b) item.now
        → B.Part.Part.contents b' ≡ marked B.Item.stamp (B.Item.stamp item.now) (B.Part.Part.contents b)
        → IsConstructionOf B.Part.Part.contents ⟦<B as Profiled>⟧.profile a b l
        → IsConstructionOf B.Part.Part.contents ⟦<B as Profiled>⟧.profile a b' l' }
{
    if place >= 2 {
        return;
    }
    match above.split_first_mut() {
        Some((next, _above)) => next.note(item),
        None => {}
    }
}

/// Marks an item as dead in the part of a level that has it, and has it noted; and says whether a part has it.
fn mark_and_note<B: Builder, L: Ledger>(
    level: &mut Level<B>,
    above: &mut [Level<B>],
    item: &B::Item,
    steps: &mut Steps<L>,
) -> bool
    requires tower { IsTower B.Part.Part.contents ⟦<B as Profiled>⟧.profile level.old above.old }
    requires punctual { All (IsPunctual ⟦<B as Profiled>⟧.profile) above.old }
    requires apart { AllStampsDiffer B.Item.stamp (items_in B.Part.Part.contents level.old) }
    requires owner { OwnsStamp B.Item.stamp item.now (items_in B.Part.Part.contents level.old) }
    ensures tower { IsTower B.Part.Part.contents ⟦<B as Profiled>⟧.profile level.new above.new }
    ensures found { result ≡ has_stamp B.Item.stamp (B.Item.stamp item.now) (live_in B.Part.Part.contents level.old) }
    ensures noted { AreNoted above.old above.new }
    ensures waiting { waiting_of above.new ≡ waiting_of above.old
        + noted_above (B.Item.before First) item.now B.Part.Part.contents B.Item.stamp level.old above.old }
    ensures unfound { result ≡ false → above.new ≡ above.old }
    ensures marked { IsMarked B.Part.Part.contents B.Item.stamp (B.Item.stamp item.now) level.old level.new }
    ensures cost { (h : ℕ) → level.old.level ≤ h
        → let marks = asked_in B.Part.Part.contents B.Item.stamp (B.Item.stamp item.now) level.old.parts in
        Spends steps.old steps.new 0 marks (marks * B.Part.Part.mark_touches h) }
{
    match level.mark(item, steps) {
        Some(place) => {
            note_above(above, place, item);
            true
        }
        None => false,
    }
}

/// Marks an item as dead in the part that has it, and says whether one has. Parts are asked up to that one, those of the highest
/// level first.
fn mark_in<B: Builder, L: Ledger>(
    levels: &mut [Level<B>],
    item: &B::Item,
    steps: &mut Steps<L>,
) -> bool
    requires levels { AreLevels B.Part.Part.contents ⟦<B as Profiled>⟧.profile levels.old }
    requires punctual { All (IsPunctual ⟦<B as Profiled>⟧.profile) levels.old }
    requires apart { AllStampsDiffer B.Item.stamp (all_items B.Part.Part.contents levels.old) }
    requires owner { OwnsStamp B.Item.stamp item.now (all_items B.Part.Part.contents levels.old) }
    ensures levels { AreLevels B.Part.Part.contents ⟦<B as Profiled>⟧.profile levels.new }
    ensures found { result ≡ has_stamp B.Item.stamp (B.Item.stamp item.now) (live_items B.Part.Part.contents levels.old) }
    ensures unfound { result ≡ false → All (IsPunctual ⟦<B as Profiled>⟧.profile) levels.new }
    ensures same { IsSameBelow levels.old levels.new }
    ensures marked { AreMarked B.Part.Part.contents B.Item.stamp (B.Item.stamp item.now)
        (noted (B.Item.before First) item.now B.Part.Part.contents B.Item.stamp levels.old) levels.old levels.new }
    ensures cost { (g : ℕ) → weight_of levels.old < 2 ^ (g + 1)
        → let marks = parts_asked B.Part.Part.contents B.Item.stamp (B.Item.stamp item.now) levels.old in
        Spends steps.old steps.new 0 marks (marks * B.Part.Part.mark_touches g) }
{
    match levels.split_first_mut() {
        Some((level, above)) => {
            if mark_in(above, item, steps) {
                return true;
            }
            mark_and_note(level, above, item, steps)
        }
        None => false,
    }
}

/// One tick in which an item is marked as dead.
pub fn take_out<B: Builder, L: Ledger>(
    levels: &mut [Level<B>],
    item: &B::Item,
    store: &mut Store<B>,
    steps: &mut Steps<L>,
)
    requires on_time { AreOnTime B.Part.Part.contents ⟦<B as Profiled>⟧.profile levels.old }
    requires stocked { IsStocked levels.old store.old 1 }
    requires lent { AreLent levels.old store.old }
    requires apart { AllStampsDiffer B.Item.stamp (all_items B.Part.Part.contents levels.old) }
    requires live { Contains (live_items B.Part.Part.contents levels.old) item.now }
    ensures on_time { AreOnTime B.Part.Part.contents ⟦<B as Profiled>⟧.profile levels.new }
    ensures live { Permuted (live_items B.Part.Part.contents levels.new)
        (without B.Item.stamp (B.Item.stamp item.now) (live_items B.Part.Part.contents levels.old)) }
    ensures items { IsPartOf (all_items B.Part.Part.contents levels.new) (all_items B.Part.Part.contents levels.old) }
    ensures weight { weight_of levels.new ≡ weight_of levels.old }
    ensures each { TakeTicks levels.old levels.new }
    ensures trades { Ticks levels.old store.old levels.new store.new }
    ensures cost { IsCostOfDelete B.SLOPE B.BASE B.Part.Part.mark_touches
        (parts_asked B.Part.Part.contents B.Item.stamp (B.Item.stamp item.now) levels.old)
        (noted (B.Item.before First) item.now B.Part.Part.contents B.Item.stamp levels.old) levels.old levels.new steps.old steps.new }
    ensures paid { ArePaid ⟦<B as Profiled>⟧.profile levels.old levels.new steps.old steps.new }
{
    mark_in(levels, item, steps);
    take_tick(levels, store, steps);
}
