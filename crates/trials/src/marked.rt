//! A part that is built at once, and whose items are marked.
ghost use Rattle.std.specs.Prelude.{◌≡◌, ◌<◌, ◌≤◌, ◌^◌, true, false, IfOk, OnOk, IsTrue, length};
ghost use Rattle.std.specs.List.Sorted.{IsPermutation};
ghost use Rattle.builder_trait.specs.Builders.{begun};
ghost use Rattle.trials.specs.Filling.{comes_after};

use crate::bench::Bench;
use crate::tried::Tried;
use builder_trait::{Answers, Asking, Builder, Part};
use query_laws::step_ledger::Steps;
use query_laws::{Item, NoMemory, Order, Question};
use samples::{Failure, Outcome};
use std::alloc::{AllocError, Global};
use std::cmp::Ordering;
use std::marker::Model;
use std::sync::ledger::Ledger;

/// Items in order of insert, and once they are all there the part that is built of them.
#[derive(Drop)]
pub struct Marked<B: Builder> {
    alloc: Global,
    items: Vec<B::Item>,
    part: Option<B::Part>,
}

impl<B: Builder> Model for Marked<B> {
    ghost use Rattle.std.specs.Prelude.{List};
    ghost use Rattle.trials.specs.Marked.{IsMarked};

    ghost Value = { List B.Item };

    ghost view = { λ m. m.items.items };

    ghost invariant = { λ m. IsMarked B.Part.Part.contents B.Item.stamp m.part m.items.items };
}

impl<B: Builder> Tried<B> for Marked<B> {
    const WORD: &'static str = "part";

    const UPDATES: (&'static str, usize) = ("mark", 256);

    /// A part takes no items once it is built.
    const DELETES: u32 = 8;

    fn new(alloc: Global, most: usize) -> Result<Marked<B>, NoMemory> {
        Ok(Marked {
            alloc,
            items: Vec::with_capacity(alloc, most)?,
            part: None,
        })
    }

    fn insert<L: Ledger>(&mut self, item: B::Item, _steps: &mut Steps<L>) -> Outcome {
        if self.part.is_some() || item.stamp() != self.items.len() as u64 {
            return Err(Failure::Unfit);
        }
        Ok(self.items.push(item)?)
    }

    /// Builds the part.
    fn settle<L: Ledger>(&mut self, steps: &mut Steps<L>) -> Outcome {
        self.part = Some(built::<B, L>(self.alloc, &self.items, steps)?);
        Ok(())
    }

    /// Marks the item, which may be marked already.
    fn delete<L: Ledger>(&mut self, pick: usize, steps: &mut Steps<L>) -> Outcome<Option<B::Item>> {
        let Some(part) = &mut self.part else {
            return Ok(None);
        };
        if self.items.is_empty() {
            return Ok(None);
        }
        let item = self.items[pick % self.items.len()];
        Ok(part.mark(&item, steps).then_some(item))
    }

    fn answer<Q: Question<Item = B::Item>, L: Ledger>(
        &self,
        question: &Q,
        bench: &mut Bench<L>,
    ) -> Outcome<Q::Answer>
    where
        B::Part: Answers<Q>,
    {
        let mut asking = Asking::<B::Part, Q>::new(bench.alloc, question);
        if let Some(part) = &self.part {
            asking.part(part, &mut bench.steps)?;
        }
        Ok(asking.finish()?.into_answer())
    }
}

/// The part of all items, which may come in any order.
fn built<B: Builder, L: Ledger>(
    alloc: Global,
    items: &[B::Item],
    steps: &mut Steps<L>,
) -> Outcome<B::Part>
    ensures { IfOk result (λ part. IsPermutation items.now (B.Part.Part.contents part).items) }
{
    let mut items = Vec::from_slice(alloc, items)?;
    items.sort_unstable_by(|a, b| compare(Order::First, a, b));
    let places = reordered(alloc, &items)?;
    if places.len() != items.len() {
        return Err(Failure::Unfit);
    }
    let mut builder = room_for::<B>(alloc, items.len())?;
    put_in_first(&mut builder, &items, steps)?;
    put_in_second(&mut builder, &items, &places, steps)?;
    builder.seal();
    let left = builder.left();
    builder.turns(left, steps);
    Ok(builder.finish())
}

/// The places of sorted items, in the second order.
fn reordered<I: Item>(alloc: Global, items: &[I]) -> Result<Vec<usize>, AllocError> {
    let entries = items.iter().enumerate();
    let mut entries: Vec<(usize, I)> = entries.map(|(place, item)| (place, *item)).collect(alloc)?;
    entries.sort_unstable_by(|a, b| compare(Order::Second, &a.1, &b.1));
    entries.iter().map(|entry| entry.0).collect(alloc)
}

/// How two items stand in an order.
fn compare<I: Item>(order: Order, a: &I, b: &I) -> Ordering {
    b.before(order, a).cmp(&a.before(order, b))
}

/// Whether an item may be put after the last one that was put in an order.
fn is_after<I: Item>(order: Order, last: Option<I>, item: &I) -> bool
    ensures { result ≡ comes_after (I.before order) last item.now }
{
    match last {
        Some(last) => last.before(order, item),
        None => true,
    }
}

/// A builder of the least level with room for so many items.
///
/// `Unfit` where no builder has it.
fn room_for<B: Builder>(alloc: Global, n: usize) -> Outcome<B>
    ensures begun { IfOk result (λ builder. B.progress builder ≡ begun (B.progress builder).at_level) }
    ensures room { IfOk result (λ builder. n ≤ 2 ^ (B.progress builder).at_level) }
{
    for level in 0..32 {
        if n <= 1 << level {
            return Ok(B::room(alloc, level)?);
        }
    }
    Err(Failure::Unfit)
}

/// Puts sorted items in the first order.
fn put_in_first<B: Builder, L: Ledger>(
    builder: &mut B,
    items: &[B::Item],
    steps: &mut Steps<L>,
) -> Outcome
    requires begun { B.progress builder.old ≡ begun (B.progress builder.old).at_level }
    requires room { length items.now ≤ 2 ^ (B.progress builder.old).at_level }
    ensures put { OnOk result (B.progress builder.new ≡ record (B.progress builder.old) { items = items.now }) }
{
    let mut last = None;
    for (place, item) in items.iter().enumerate() {
        if !is_after(Order::First, last, item) {
            return Err(Failure::Unfit);
        }
        builder.put(Order::First, *item, place, steps);
        last = Some(*item);
    }
    Ok(())
}

/// Puts the items at some places in the second order.
fn put_in_second<B: Builder, L: Ledger>(
    builder: &mut B,
    items: &[B::Item],
    places: &[usize],
    steps: &mut Steps<L>,
) -> Outcome
    requires begun { B.progress builder.old ≡ record (begun (B.progress builder.old).at_level) { items = items.now } }
    ensures open { OnOk result ((B.progress builder.new).is_sealed ≡ false) }
    ensures same { OnOk result ((B.progress builder.new).items ≡ items.now) }
    ensures count { OnOk result (length (B.progress builder.new).reordered ≡ length places.now) }
{
    let mut last = None;
    for place in places {
        let Some(item) = items.get(*place) else {
            return Err(Failure::Unfit);
        };
        if !is_after(Order::Second, last, item) {
            return Err(Failure::Unfit);
        }
        builder.put(Order::Second, *item, *place, steps);
        last = Some(*item);
    }
    Ok(())
}
