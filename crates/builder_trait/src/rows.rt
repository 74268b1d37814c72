//! Structures that keep rows beside their items: one is its rows, and the items are those of the flat structure.
ghost use Rattle.std.specs.Prelude.{◌≡◌, ◌+◌, ◌-◌, ◌<◌, ◌≤◌, ◌^◌, ◌%◌, ℕ, IfOk, IsErr, IsTrue, Some, length, slice_get};
ghost use Rattle.query_laws.specs.StepLedger.{Spends};
ghost use Rattle.query_laws.specs.declared.item.Order.TheVariants.{First, Second};
ghost use Rattle.builder_trait.specs.Parts.{Contents, IsPart, live_of};
ghost use Rattle.builder_trait.specs.Builders.{Progress, IsUnderway, begun, FitsFirst, FitsSecond, with_put, all_live, IsQuota};
ghost use Rattle.builder_trait.specs.Rows.{AreBehind};

use crate::builder::Builder;
use crate::flat::{FlatBuilder, FlatPart};
use crate::part::{Answers, Part};
use query_laws::step_ledger::Steps;
use query_laws::{Item, NoMemory, Order, Question, Tally};
use std::alloc::Global;
use std::marker::Model;
use std::sync::ledger::Ledger;

/// The rows that a structure keeps beside its items: first while they are built, then while they are read.
///
/// The items are put, flagged and marked by the flat structure; so rows never change them, and each call is given them to read. Only
/// `room` takes memory.
pub trait Rows: Drop + Sized {
    type Item: Item;

    /// For n items at level i, n turns and those that the rows have left when they begin are at most half of
    /// `2^i * (SLOPE * i + BASE)`.
    const SLOPE: u64;

    const BASE: u64;

    ghost SLOPE: { ℕ };

    ghost BASE: { ℕ };

    /// The most touches of one mark, at a part of at most `2 ^ h` items: with the `h + 4` that the items take.
    ghost mark_touches: { ℕ → ℕ };

    /// How many turns are left.
    ghost left: { Self → ℕ };

    /// How many turns it takes to build the rows of so many items.
    ghost turns_for: { ℕ → ℕ };

    /// The rows have the memory that a builder of this level needs.
    ghost HasRoom: { ℕ → Self → Type 0 };

    /// The rows have what was put so far.
    ghost IsPutting: { Progress Self.Item → Self → Type 0 };

    /// All was put, and the rows are on the way to those of this part.
    ghost IsGrowing: { Contents Self.Item → Self → Type 0 };

    /// The rows are those of this part.
    ghost IsDone: { Contents Self.Item → Self → Type 0 };

    /// Rows with room for `2^level` items.
    ///
    /// `NoMemory` where memory for them isn't given.
    fn room(alloc: Global, level: u32) -> Result<Self, NoMemory>
        requires { level < 32 }
        ensures { IfOk result (λ rows. IsPutting (begun level) rows) };

    /// Takes the next item of the first order, which the items take after it: six touches at most.
    fn put_first<L: Ledger>(
        &mut self,
        items: &FlatBuilder<Self::Item>,
        item: &Self::Item,
        place: usize,
        steps: &mut Steps<L>,
    )
        requires valid { IsUnderway Self.Item.before items.now }
        requires putting { IsPutting items.now self.old }
        requires fits { FitsFirst (Self.Item.before First) items.now item.now place }
        ensures putting { IsPutting (with_put First item.now place items.now) self.new }
        ensures cost { Spends steps.old steps.new 0 0 6 };

    /// Takes the next item of the second order, with its place in the first order, which the items take after it: six touches at most.
    fn put_second<L: Ledger>(
        &mut self,
        items: &FlatBuilder<Self::Item>,
        item: &Self::Item,
        place: usize,
        steps: &mut Steps<L>,
    )
        requires valid { IsUnderway Self.Item.before items.now }
        requires putting { IsPutting items.now self.old }
        requires fits { FitsSecond (Self.Item.before Second) items.now item.now place }
        ensures putting { IsPutting (with_put Second item.now place items.now) self.new }
        ensures cost { Spends steps.old steps.new 0 0 6 };

    /// Begins to grow, once all items were put in both orders. It counts nothing.
    fn begin(&mut self, items: &FlatBuilder<Self::Item>)
        requires valid { IsUnderway Self.Item.before items.now }
        requires putting { IsPutting items.now self.old }
        requires complete { length items.now.reordered ≡ length items.now.items }
        ensures growing { IsGrowing (all_live items.now) self.new }
        ensures turns { left self.new ≡ turns_for (length items.now.items) }
        ensures quota { let n = length items.now.items in IsQuota SLOPE BASE items.now.at_level n (n + left self.new) };

    /// How many turns are left: zero before the rows begin. It counts nothing.
    fn left(&self) -> u64
        ensures { result ≡ left self.now };

    /// Does one unit of the work: one turn, and sixteen touches at most.
    fn turn<L: Ledger>(&mut self, items: &FlatBuilder<Self::Item>, steps: &mut Steps<L>)
        requires growing { IsGrowing (all_live items.now) self.old }
        requires more { 0 < left self.old }
        ensures growing { IsGrowing (all_live items.now) self.new }
        ensures left { left self.new + 1 ≡ left self.old }
        ensures cost { Spends steps.old steps.new 1 0 16 };

    /// Takes out an item, which has just died in the items at its place.
    fn mark<L: Ledger>(
        &mut self,
        items: &FlatPart<Self::Item>,
        place: usize,
        item: &Self::Item,
        steps: &mut Steps<L>,
    )
        requires valid { IsPart Self.Item.before items.now }
        requires behind { AreBehind IsDone items.now place self.old }
        requires there { slice_get items.now.items place ≡ Some item.now }
        ensures done { IsDone items.now self.new }
        ensures cost { (h : ℕ) → length items.now.items ≤ 2 ^ h → Spends steps.old steps.new 0 0 (mark_touches h - (h + 4)) };

    /// Takes all out, of a part as of a builder at any time, and keeps the memory for the next builder of that level. It counts nothing,
    /// and each row is emptied in one step, however much it holds.
    fn clear(&mut self)
        ensures putting { (level : ℕ) → HasRoom level self.old → IsPutting (begun level) self.new };

    /// No turn is left before the rows begin.
    ghost none_left: { (b : Progress Self.Item) (rows : Self) → IsPutting b rows → left rows ≡ 0 };

    /// The memory stays, whatever the rows hold.
    ghost room_putting: { (b : Progress Self.Item) (rows : Self) → IsPutting b rows → HasRoom b.at_level rows };

    ghost room_growing: { (part : Contents Self.Item) (rows : Self) → IsGrowing part rows → HasRoom part.at_level rows };

    ghost room_done: { (part : Contents Self.Item) (rows : Self) → IsDone part rows → HasRoom part.at_level rows };

    /// After the last turn the rows are done.
    ghost done: { (b : Progress Self.Item) (rows : Self) → IsGrowing (all_live b) rows → left rows ≡ 0 → IsDone (all_live b) rows };

    /// The bound is enough for the items, and doesn't fall where there may be more.
    ghost mark_touches_enough: { (h : ℕ) → h + 4 ≤ mark_touches h };

    ghost mark_touches_rise: { (g h : ℕ) → g ≤ h → mark_touches g ≤ mark_touches h };

    /// The base is even, and both numbers are small.
    ghost base_even: { BASE % 2 ≡ 0 };

    ghost small: { (SLOPE ≤ 4096) × (BASE ≤ 4096) };
}

/// Rows by which a part answers a question.
pub trait AnsweringRows<Q: Question<Item = Self::Item>>: Rows {
    /// The most touches of one call.
    ghost ask_touches: { Q → Contents Self.Item → ℕ };

    /// Joins the answer over the live items to a tally of the question, as [`Answers::ask`] does.
    fn ask<L: Ledger>(
        &self,
        items: &FlatPart<Self::Item>,
        question: &Q,
        tally: &mut Q::Tally,
        steps: &mut Steps<L>,
    ) -> Result<(), NoMemory>
        requires valid { IsPart Self.Item.before items.now }
        requires owned { Q.owns question.now tally.old }
        requires done { Self.IsDone items.now self.now }
        ensures owned { Q.owns question.now tally.new }
        ensures joined { IfOk result (λ _. Q.Tally.so_far tally.new
            ≡ Q.join question.now (Q.Tally.so_far tally.old) (Q.value question.now (live_of items.now))) }
        ensures refused { IsErr result → IsTrue (Q.Tally.can_refuse tally.old) }
        ensures same_refusal { Q.Tally.can_refuse tally.new ≡ Q.Tally.can_refuse tally.old }
        ensures cost { Spends steps.old steps.new 0 0 (ask_touches question.now items.now) }
        ensures read { 0 < length items.now.items → steps.old.touches < steps.new.touches };
}

/// Items, and the rows of a structure over them. Only a [`RowsBuilder`] makes one.
#[derive(Drop)]
pub struct RowsPart<R: Rows> {
    items: FlatPart<R::Item>,
    rows: R,
}

impl<R: Rows> Model for RowsPart<R> {
    ghost Value = { Contents R.Item };

    ghost view = { λ p. p.items };

    ghost invariant = { λ p. IsPart R.Item.before p.items × R.IsDone p.items p.rows };
}

impl<R: Rows> Part for RowsPart<R> {
    type Item = R::Item;

    ghost contents = { λ p. p };

    ghost mark_touches = { R.mark_touches };

    fn len(&self) -> usize {
        self.items.len()
    }

    fn live(&self) -> usize {
        self.items.live()
    }

    fn item<L: Ledger>(&self, order: Order, k: usize, steps: &mut Steps<L>) -> R::Item {
        self.items.item(order, k, steps)
    }

    fn place<L: Ledger>(&self, order: Order, k: usize, steps: &mut Steps<L>) -> usize {
        self.items.place(order, k, steps)
    }

    fn alive<L: Ledger>(&self, k: usize, steps: &mut Steps<L>) -> bool {
        self.items.alive(k, steps)
    }

    fn mark<L: Ledger>(&mut self, item: &R::Item, steps: &mut Steps<L>) -> bool {
        let Some(place) = self.items.mark_placed(item, steps) else {
            return false;
        };
        self.rows.mark(&self.items, place, item, steps);
        true
    }

    ghost mark_touches_rise = { R.mark_touches_rise };
}

impl<R: AnsweringRows<Q>, Q: Question<Item = R::Item>> Answers<Q> for RowsPart<R> {
    ghost ask_touches = { λ q part. R.ask_touches q part };

    fn ask<L: Ledger>(
        &self,
        question: &Q,
        tally: &mut Q::Tally,
        steps: &mut Steps<L>,
    ) -> Result<(), NoMemory> {
        self.rows.ask(&self.items, question, tally, steps)
    }
}

/// A [`RowsPart`] under construction: first the flags are written, and then the rows grow.
#[derive(Drop)]
pub struct RowsBuilder<R: Rows> {
    items: FlatBuilder<R::Item>,
    rows: R,
}

impl<R: Rows> Model for RowsBuilder<R> {
    ghost use Rattle.std.specs.Prelude.{◌≡◌, ◌+◌, ◌<◌, ◌^◌, true, false};
    ghost use Rattle.builder_trait.specs.Builders.{Progress, IsUnderway, all_live};

    ghost Value = { Progress R.Item };

    ghost view = { λ b. record b.items { left = b.items.left + R.left b.rows } };

    ghost invariant = { λ b. (b.items.is_sealed ≡ false → IsUnderway R.Item.before b.items × R.IsPutting b.items b.rows × (b.items.left ≡ 0))
        × (b.items.is_sealed ≡ true → R.IsGrowing (all_live b.items) b.rows × (b.items.left + R.left b.rows < 2 ^ 63)) };
}

impl<R: Rows> Builder for RowsBuilder<R> {
    type Item = R::Item;

    type Part = RowsPart<R>;

    const SLOPE: u64 = R::SLOPE;

    const BASE: u64 = R::BASE;

    ghost SLOPE = { R.SLOPE };

    ghost BASE = { R.BASE };

    ghost progress = { λ b. b };

    fn room(alloc: Global, level: u32) -> Result<RowsBuilder<R>, NoMemory> {
        Ok(RowsBuilder {
            items: FlatBuilder::room(alloc, level)?,
            rows: R::room(alloc, level)?,
        })
    }

    fn put<L: Ledger>(&mut self, order: Order, item: R::Item, place: usize, steps: &mut Steps<L>) {
        match order {
            Order::First => self.rows.put_first(&self.items, &item, place, steps),
            Order::Second => self.rows.put_second(&self.items, &item, place, steps),
        }
        self.items.put(order, item, place, steps);
    }

    fn seal(&mut self) {
        self.rows.begin(&self.items);
        self.items.seal();
    }

    fn left(&self) -> u64 {
        self.items.left() + self.rows.left()
    }

    fn turn<L: Ledger>(&mut self, steps: &mut Steps<L>) {
        if self.items.left() > 0 {
            self.items.turn(steps);
        } else {
            self.rows.turn(&self.items, steps);
        }
    }

    fn finish(self) -> RowsPart<R> {
        RowsPart {
            items: self.items.finish(),
            rows: self.rows,
        }
    }

    fn recycle(part: RowsPart<R>) -> RowsBuilder<R> {
        let RowsPart { items, mut rows } = part;
        rows.clear();
        RowsBuilder {
            items: FlatBuilder::recycle(items),
            rows,
        }
    }

    fn restart(self) -> RowsBuilder<R> {
        let RowsBuilder { items, mut rows } = self;
        rows.clear();
        RowsBuilder {
            items: items.restart(),
            rows,
        }
    }

    ghost base_even = { R.base_even };

    ghost small = { R.small };
}
