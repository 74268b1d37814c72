//! The flat structure: rows, and a binary search.
//!
//! It keeps each item once, in the first order, with a flag, and the second order as places; and it answers no question. It stands for
//! any other structure where only the contract of parts and builders matters.
ghost use Rattle.std.specs.Prelude.{◌≡◌, ◌+◌, ◌-◌, ◌*◌, ◌<◌, ◌≤◌, ◌^◌, ℕ, IfOk, IfSome, IsNone, IsTrue, ◌↔◌, All, ◌≢◌, length, Some, slice_get, slice_set, refl, true, false};
ghost use Rattle.std.specs.Option.{is_some};
ghost use Rattle.query_laws.specs.StepLedger.{Spends, one_mark, one_touch};
ghost use Rattle.query_laws.specs.declared.item.Order.TheVariants.{First, Second};
ghost use Rattle.builder_trait.specs.Parts.{IsPart, IsRising, OwnsStamp, IsOutside, live_of, has_stamp, without, marked};
ghost use Rattle.builder_trait.specs.Builders.{IsUnderway, IsQuota, FitsFirst, FitsSecond, begun, with_put, sealed_with, all_live};
ghost use Rattle.builder_trait.specs.Flat.{HasRoom};

use crate::builder::Builder;
use crate::part::Part;
use crate::search::{EntryTest, partition_point};
use crate::stamps::Stamps;
use query_laws::step_ledger::{Row, Steps};
use query_laws::{Item, NoMemory, Order};
use std::alloc::Global;
use std::marker::Model;
use std::sync::ledger::Ledger;

/// Items in the first order with a flag for each, and the places of the second order, at which its items are read.
#[derive(Drop)]
pub struct FlatPart<I: Item> {
    items: Row<I>,
    places: Row<u32>,
    flags: Row<bool>,
    level: u32,
    live: usize,
    stamps: Stamps,
}

impl<I: Item> Model for FlatPart<I> {
    ghost use Rattle.builder_trait.specs.Parts.{Contents};
    ghost use Rattle.builder_trait.specs.Flat.{contents_of, IsFlatPart, AreStamps};

    ghost Value = { Contents I };

    ghost view = { λ p. contents_of p.items.items p.flags.items p.places.items p.level };

    ghost invariant = { λ p. IsFlatPart I.before p.items p.places p.flags p.level p.live
        × AreStamps I.stamp p.items.items p.stamps.least p.stamps.greatest };
}

/// Whether an item stands before another in the first order.
#[derive(Drop)]
struct StandsBefore<I: Item> {
    item: I,
}

impl<I: Item> EntryTest<I> for StandsBefore<I> {
    ghost passes = { λ test entry. I.before First entry test.item };

    fn passes(&self, entry: &I) -> bool {
        entry.before(Order::First, &self.item)
    }
}

/// The place of an item in a rising row.
fn place_of_item<I: Item, L: Ledger>(row: &Row<I>, item: &I, steps: &mut Steps<L>) -> Option<usize>
    requires rising { IsRising (I.before First) row.now.items }
    requires owner { OwnsStamp I.stamp item.now row.now.items }
    ensures found { IfSome result (λ k. slice_get row.now.items k ≡ Some item.now) }
    ensures missing { IsNone result → All (λ x. I.stamp x ≢ I.stamp item.now) row.now.items }
    ensures cost { (h : ℕ) → length row.now.items ≤ 2 ^ h → Spends steps.old steps.new 0 0 (h + 2) }
{
    let before = StandsBefore { item: *item };
    let place = partition_point(row, &before, 0, row.len(), steps);
    if place == row.len() {
        return None;
    }
    let found = row.at(place, steps);
    if found.stamp() == item.stamp() {
        Some(place)
    } else {
        None
    }
}

impl<I: Item> FlatPart<I> {
    /// The items in the first order.
    pub fn items(&self) -> &Row<I>
        ensures value { result.now.items ≡ self.now.items }
        ensures rising { IsRising (I.before First) result.now.items }
    {
        &self.items
    }

    /// Marks an item as dead, and gives its place where it was there and live: one mark, and `h + 4` touches at most at a part
    /// of up to `2^h` items. None is taken for an item that is older than all items, or younger.
    pub fn mark_placed<L: Ledger>(&mut self, item: &I, steps: &mut Steps<L>) -> Option<usize>
        requires { OwnsStamp I.stamp item.now self.old.items }
        ensures found { is_some result ≡ has_stamp I.stamp (I.stamp item.now) (live_of self.old) }
        ensures marked { self.new ≡ marked I.stamp (I.stamp item.now) self.old }
        ensures live { live_of self.new ≡ without I.stamp (I.stamp item.now) (live_of self.old) }
        ensures place { IfSome result (λ k. (slice_get self.old.items k ≡ Some item.now) × (slice_get self.old.flags k ≡ Some true)) }
        ensures written { IfSome result (λ k. self.new ≡ record self.old { flags = slice_set self.old.flags k false }) }
        ensures kept { IsNone result → self.new ≡ self.old }
        ensures cost { (h : ℕ) → length self.old.items ≤ 2 ^ h → Spends steps.old steps.new 0 1 (h + 4) }
        ensures outside { IsOutside I.stamp item.now self.old.items → steps.new ≡ one_mark steps.old }
    {
        steps.mark();
        if !self.stamps.spans(item.stamp()) {
            return None;
        }
        let place = place_of_item(&self.items, item, steps)?;
        if !self.flags.at(place, steps) {
            return None;
        }
        self.flags.set(place, false, steps);
        self.live -= 1;
        Some(place)
    }
}

impl<I: Item> Part for FlatPart<I> {
    ghost use Rattle.std.specs.Prelude.{◌+◌};
    ghost use Rattle.std.proofs.Common.{arith};

    type Item = I;

    ghost contents = { λ p. p };

    ghost mark_touches = { λ h. h + 4 };

    fn len(&self) -> usize {
        self.items.len()
    }

    fn live(&self) -> usize {
        self.live
    }

    fn item<L: Ledger>(&self, order: Order, k: usize, steps: &mut Steps<L>) -> I {
        match order {
            Order::First => self.items.at(k, steps),
            Order::Second => {
                let place = self.places.at(k, steps) as usize;
                self.items.at(place, steps)
            }
        }
    }

    fn place<L: Ledger>(&self, order: Order, k: usize, steps: &mut Steps<L>) -> usize {
        match order {
            Order::First => k,
            Order::Second => self.places.at(k, steps) as usize,
        }
    }

    fn alive<L: Ledger>(&self, k: usize, steps: &mut Steps<L>) -> bool {
        self.flags.at(k, steps)
    }

    fn mark<L: Ledger>(&mut self, item: &I, steps: &mut Steps<L>) -> bool {
        self.mark_placed(item, steps).is_some()
    }

    ghost mark_touches_rise = { λ g h le. Prim.omega arith };
}

/// The rows of a [`FlatPart`] under construction. A turn writes one flag.
#[derive(Drop)]
pub struct FlatBuilder<I: Item> {
    items: Row<I>,
    places: Row<u32>,
    flags: Row<bool>,
    level: u32,
    sealed: bool,
    left: u64,
    stamps: Stamps,
}

impl<I: Item> Model for FlatBuilder<I> {
    ghost use Rattle.builder_trait.specs.Builders.{Progress};
    ghost use Rattle.builder_trait.specs.Flat.{items_at, IsFlatBuilding, IsFlagging, AreStamps};

    ghost Value = { Progress I };

    ghost view = { λ b. record {
      items = b.items.items;
      reordered = items_at b.items.items b.places.items;
      places = b.places.items;
      at_level = b.level;
      is_sealed = b.sealed;
      left = b.left;
    } };

    ghost invariant = { λ b. IsFlatBuilding I.before b.items b.places b.flags b.level
        × IsFlagging b.items.items (items_at b.items.items b.places.items) b.flags.items b.sealed b.left
        × AreStamps I.stamp b.items.items b.stamps.least b.stamps.greatest };
}

impl<I: Item> FlatBuilder<I> {
    /// A builder to which nothing was put, on these rows, which are emptied in one step each.
    fn on(items: Row<I>, places: Row<u32>, flags: Row<bool>, level: u32) -> FlatBuilder<I>
        requires { HasRoom items places flags level }
        ensures empty { result ≡ begun level }
        ensures valid { IsUnderway I.before result }
    {
        let mut items = items;
        let mut places = places;
        let mut flags = flags;
        items.clear();
        places.clear();
        flags.clear();
        FlatBuilder {
            items,
            places,
            flags,
            level,
            sealed: false,
            left: 0,
            stamps: Stamps::of_none(),
        }
    }

    /// How many items were put in the first order. It counts nothing.
    pub fn len(&self) -> usize
        ensures value { result ≡ length self.now.items }
        ensures valid { IsUnderway I.before self.now }
    {
        self.items.len()
    }

    /// Whether no item was put in the first order. It counts nothing.
    pub fn is_empty(&self) -> bool
        ensures { IsTrue result ↔ (length self.now.items ≡ 0) }
    {
        self.items.is_empty()
    }

    /// The item at a place of the first order: one touch.
    pub fn at<L: Ledger>(&self, k: usize, steps: &mut Steps<L>) -> I
        requires { k < length self.now.items }
        ensures read { slice_get self.now.items k ≡ Some result }
        ensures touched { steps.new ≡ one_touch steps.old }
    {
        self.items.at(k, steps)
    }
}

impl<I: Item> Builder for FlatBuilder<I> {
    ghost use Rattle.std.specs.Prelude.{refl};
    ghost use Rattle.std.proofs.Common.{arith};

    type Item = I;

    type Part = FlatPart<I>;

    const SLOPE: u64 = 0;

    const BASE: u64 = 2;

    ghost SLOPE = { 0 };

    ghost BASE = { 2 };

    ghost progress = { λ b. b };

    fn room(alloc: Global, level: u32) -> Result<FlatBuilder<I>, NoMemory>
        requires { level < 32 }
        ensures empty { IfOk result (λ builder. builder ≡ begun level) }
        ensures valid { IfOk result (λ builder. IsUnderway I.before builder) }
    {
        let cap = 2usize.pow(level);
        Ok(FlatBuilder {
            items: Row::room(alloc, cap)?,
            places: Row::room(alloc, cap)?,
            flags: Row::room(alloc, cap)?,
            level,
            sealed: false,
            left: 0,
            stamps: Stamps::of_none(),
        })
    }

    /// Two touches at most.
    fn put<L: Ledger>(&mut self, order: Order, item: I, place: usize, steps: &mut Steps<L>)
        requires open { self.old.is_sealed ≡ false }
        requires first { order ≡ First → FitsFirst (I.before First) self.old item place }
        requires second { order ≡ Second → FitsSecond (I.before Second) self.old item place }
        ensures added { self.new ≡ with_put order item place self.old }
        ensures valid { IsUnderway I.before self.new }
        ensures cost { Spends steps.old steps.new 1 0 2 }
    {
        steps.turn();
        match order {
            Order::First => {
                self.stamps.widen(item.stamp());
                self.items.push(item, steps);
            }
            Order::Second => self.places.push(place as u32, steps),
        }
    }

    /// Exactly a turn is left for each item.
    fn seal(&mut self)
        requires open { self.old.is_sealed ≡ false }
        requires complete { length self.old.reordered ≡ length self.old.items }
        ensures closed { self.new ≡ sealed_with self.new.left self.old }
        ensures quota { IsQuota 0 2 self.old.at_level (length self.old.items) self.new.left }
        ensures left { self.new.left ≡ length self.old.items }
    {
        self.sealed = true;
        self.left = self.items.len() as u64;
    }

    fn left(&self) -> u64 {
        self.left
    }

    fn turn<L: Ledger>(&mut self, steps: &mut Steps<L>) {
        self.flags.push(true, steps);
        self.left -= 1;
        steps.turn()
    }

    fn finish(self) -> FlatPart<I>
        requires closed { self.is_sealed ≡ true }
        requires ended { self.left ≡ 0 }
        ensures whole { result ≡ all_live self }
        ensures live { live_of result ≡ self.items }
        ensures valid { IsPart I.before result }
    {
        let live = self.items.len();
        FlatPart {
            items: self.items,
            places: self.places,
            flags: self.flags,
            level: self.level,
            live,
            stamps: self.stamps,
        }
    }

    fn recycle(part: FlatPart<I>) -> FlatBuilder<I>
        ensures empty { result ≡ begun part.at_level }
        ensures valid { IsUnderway I.before result }
    {
        let FlatPart {
            items,
            places,
            flags,
            level,
            live: _,
            stamps: _,
        } = part;
        FlatBuilder::on(items, places, flags, level)
    }

    fn restart(self) -> FlatBuilder<I>
        ensures empty { result ≡ begun self.at_level }
        ensures valid { IsUnderway I.before result }
    {
        FlatBuilder::on(self.items, self.places, self.flags, self.level)
    }

    ghost base_even = { refl };

    ghost small = { (Prim.omega arith, Prim.omega arith) };
}
