//! One item of a merge: which is next, and what is done with it.
ghost use Rattle.std.specs.Prelude.{◌≡◌, ◌+◌, ◌<◌, ◌≤◌, ◌^◌, ℕ, None, [], ◌∷◌, ◌++◌, IsTrue, Some, true, false, if◌then◌else◌, length, slice_get, slice_index_or, slice_index};
ghost use Rattle.query_laws.specs.StepLedger.{Spends};
ghost use Rattle.query_laws.specs.declared.item.Order.TheVariants.{First, Second};
ghost use Rattle.builder_trait.specs.Parts.{in_order};
ghost use Rattle.builder_trait.specs.Builders.{FitsFirst, FitsSecond, with_put};
ghost use Rattle.ordered_merge.specs.Merging.{IsNext, StampsDiffer, new_place, is_passed};

use crate::new_place::NewPlace;
use builder_trait::{Builder, Part};
use query_laws::step_ledger::{Row, Steps};
use query_laws::{Item, Order};
use std::sync::ledger::Ledger;

/// The next item of an order, of two that are read as far as `i` and `j`, and whether it is the first part's.
pub fn next_item<P: Part, L: Ledger>(
    order: Order,
    a: &P,
    i: usize,
    b: &P,
    j: usize,
    steps: &mut Steps<L>,
) -> (bool, P::Item)
    requires within { i ≤ length (P.contents a.now).items }
    requires within_other { j ≤ length (P.contents b.now).items }
    requires more { i + j < length (P.contents a.now).items + length (P.contents b.now).items }
    requires stamps { StampsDiffer P.Item.stamp (in_order order (P.contents a.now)) (in_order order (P.contents b.now)) }
    ensures first { result.0 ≡ true → IsNext (P.Item.before order) i (in_order order (P.contents a.now))
        j (in_order order (P.contents b.now)) result.1 }
    ensures second { result.0 ≡ false → IsNext (P.Item.before order) j (in_order order (P.contents b.now))
        i (in_order order (P.contents a.now)) result.1 }
    ensures cost { Spends steps.old steps.new 0 0 4 }
{
    if i == a.len() {
        return (false, b.item(order, j, steps));
    }
    let from_a = a.item(order, i, steps);
    if j == b.len() {
        return (true, from_a);
    }
    let from_b = b.item(order, j, steps);
    if from_a.before(order, &from_b) {
        (true, from_a)
    } else {
        (false, from_b)
    }
}

/// Puts the next item of a part in the first order, where it is live, and notes its new place; else notes that it is skipped. It
/// gives the number of items taken so far.
pub fn take_or_skip<B: Builder, L: Ledger>(
    table: &mut Row<NewPlace>,
    part: &B::Part,
    item: B::Item,
    taken: usize,
    builder: &mut B,
    steps: &mut Steps<L>,
) -> usize
    requires index { length table.old.items < length (B.Part.Part.contents part.now).items }
    requires room { length table.old.items < table.old.capacity }
    requires unsealed { (B.progress builder.old).is_sealed ≡ false }
    requires fits { FitsFirst (B.Item.before First) (B.progress builder.old) item taken }
    requires small { taken + 1 < 2 ^ 32 }
    ensures noted { let live = slice_index_or (B.Part.Part.contents part.now).flags (length table.old.items) false in
        table.new ≡ record table.old { items = table.old.items ++ new_place live taken ∷ [] } }
    ensures put { let live = slice_index_or (B.Part.Part.contents part.now).flags (length table.old.items) false in
        B.progress builder.new ≡ (if live then with_put First item taken (B.progress builder.old) else B.progress builder.old) }
    ensures counted { let live = slice_index_or (B.Part.Part.contents part.now).flags (length table.old.items) false in
        result ≡ (if live then taken + 1 else taken) }
    ensures cost { Spends steps.old steps.new 1 0 11 }
{
    if part.alive(table.len(), steps) {
        builder.put(Order::First, item, taken, steps);
        table.push(NewPlace::taken(taken), steps);
        taken + 1
    } else {
        steps.turn();
        table.push(NewPlace::skipped(), steps);
        taken
    }
}

/// Puts an item in the second order, with the new place that was noted for it, or skips it where the first order did.
pub fn put_again<B: Builder, L: Ledger>(
    table: &Row<NewPlace>,
    part: &B::Part,
    k: usize,
    item: B::Item,
    builder: &mut B,
    steps: &mut Steps<L>,
)
    requires index { k < length (B.Part.Part.contents part.now).items }
    requires noted { slice_index (B.Part.Part.contents part.now).places k < length table.now.items }
    requires unsealed { (B.progress builder.old).is_sealed ≡ false }
    requires fits { (n : ℕ) → slice_get table.now.items (slice_index (B.Part.Part.contents part.now).places k) ≡ Some (Some n)
        → FitsSecond (B.Item.before Second) (B.progress builder.old) item n }
    ensures put { (n : ℕ) → slice_get table.now.items (slice_index (B.Part.Part.contents part.now).places k) ≡ Some (Some n)
        → B.progress builder.new ≡ with_put Second item n (B.progress builder.old) }
    ensures skipped { slice_get table.now.items (slice_index (B.Part.Part.contents part.now).places k) ≡ Some None
        → B.progress builder.new ≡ B.progress builder.old }
    ensures cost { Spends steps.old steps.new 1 0 11 }
{
    let place = part.place(Order::Second, k, steps);
    match table.at(place, steps).get() {
        Some(new_place) => builder.put(Order::Second, item, new_place, steps),
        None => steps.turn(),
    }
}

/// Whether an item doesn't stand after the one that the first order read last.
pub fn is_within<I: Item>(reached: &Option<I>, item: &I) -> bool
    ensures { result ≡ is_passed (I.before First) reached.now item.now }
{
    match reached {
        Some(last) => !last.before(Order::First, item),
        None => false,
    }
}
