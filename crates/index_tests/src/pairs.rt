//! A part of two items, and parts of one on its memory and on that of a builder.
ghost use Rattle.std.specs.Prelude.{◌≡◌, ◌≢◌, [], ◌∷◌, true, false, IsTrue, IfOk, length};
ghost use Rattle.query_laws.specs.declared.item.Order.TheVariants.{First, Second};
ghost use Rattle.builder_trait.specs.Builders.{all_live};

use builder_trait::{Builder, Part, part_of_one};
use query_laws::step_ledger::Steps;
use query_laws::{Item, NoMemory, Order};
use std::alloc::Global;
use std::sync::ledger::Ledger;

/// A builder to which two items are put in the first order.
fn put_first<B: Builder, L: Ledger>(
    alloc: Global,
    low: B::Item,
    high: B::Item,
    steps: &mut Steps<L>,
) -> Result<B, NoMemory>
    requires rising { IsTrue (B.Item.before First low high) }
    ensures { IfOk result (λ builder. B.progress builder ≡ record {
      items = low ∷ high ∷ [];
      reordered = [];
      places = [];
      at_level = 1;
      is_sealed = false;
      left = 0;
    }) }
{
    let mut builder = B::room(alloc, 1)?;
    builder.put(Order::First, low, 0, steps);
    builder.put(Order::First, high, 1, steps);
    Ok(builder)
}

/// The part of what was put, and how many turns were left after the seal.
pub fn sealed<B: Builder, L: Ledger>(mut builder: B, steps: &mut Steps<L>) -> (u64, B::Part)
    requires open { (B.progress builder).is_sealed ≡ false }
    requires complete { length (B.progress builder).reordered ≡ length (B.progress builder).items }
    ensures { B.Part.Part.contents result.1 ≡ all_live (B.progress builder) }
{
    builder.seal();
    let left = builder.left();
    builder.turns(left, steps);
    (left, builder.finish())
}

/// A part of two items that rise in both orders, and how many turns were left after the seal.
fn pair<B: Builder, L: Ledger>(
    alloc: Global,
    low: B::Item,
    high: B::Item,
    steps: &mut Steps<L>,
) -> Result<(u64, B::Part), NoMemory>
    requires rising { IsTrue (B.Item.before First low high) }
    requires rising_reordered { IsTrue (B.Item.before Second low high) }
    ensures { IfOk result (λ made. B.Part.Part.contents made.1 ≡ record {
      items = low ∷ high ∷ [];
      flags = true ∷ true ∷ [];
      reordered = low ∷ high ∷ [];
      places = 0 ∷ 1 ∷ [];
      at_level = 1;
    }) }
{
    let mut builder = put_first::<B, L>(alloc, low, high, steps)?;
    builder.put(Order::Second, low, 0, steps);
    builder.put(Order::Second, high, 1, steps);
    Ok(sealed(builder, steps))
}

/// A part of two items that rise in both orders.
pub fn rising_pair<B: Builder, L: Ledger>(
    alloc: Global,
    low: B::Item,
    high: B::Item,
    steps: &mut Steps<L>,
) -> Result<B::Part, NoMemory>
    requires rising { IsTrue (B.Item.before First low high) }
    requires rising_reordered { IsTrue (B.Item.before Second low high) }
    ensures { IfOk result (λ part. B.Part.Part.contents part ≡ record {
      items = low ∷ high ∷ [];
      flags = true ∷ true ∷ [];
      reordered = low ∷ high ∷ [];
      places = 0 ∷ 1 ∷ [];
      at_level = 1;
    }) }
{
    let mut builder = put_first::<B, L>(alloc, low, high, steps)?;
    builder.put(Order::Second, low, 0, steps);
    builder.put(Order::Second, high, 1, steps);
    Ok(sealed(builder, steps).1)
}

/// A part of two items, the first of which is marked twice: the turns left after the seal, all turns and marks, whether it was live at each mark, how
/// many items are live, and how many a part of the second has, on the same memory, and on that of a builder that had both.
pub fn marked<B: Builder, L: Ledger>(
    alloc: Global,
    low: B::Item,
    high: B::Item,
    steps: &mut Steps<L>,
) -> Result<([u64; 3], [bool; 2], [usize; 3]), NoMemory>
    requires rising { IsTrue (B.Item.before First low high) }
    requires rising_reordered { IsTrue (B.Item.before Second low high) }
    requires apart { B.Item.stamp low ≢ B.Item.stamp high }
{
    steps.start_lap();
    let (left, mut part) = pair::<B, L>(alloc, low, high, steps)?;
    let was_live = [part.mark(&low, steps), part.mark(&low, steps)];
    let counted = [left, steps.lap_turns(), steps.lap_marks()];
    let live = part.live();
    let recycled = part_of_one(B::recycle(part), high, steps).len();
    let builder: B = put_first(alloc, low, high, steps)?;
    let restarted = part_of_one(builder.restart(), high, steps).len();
    Ok((counted, was_live, [live, recycled, restarted]))
}
