//! The merge, with its tables of new places.
ghost use Rattle.std.specs.Prelude.{◌≡◌, ◌+◌, ◌-◌, ◌*◌, ◌<◌, ◌≤◌, ◌^◌, ℕ, [], IsTrue, ◌↔◌, IfOk, length, Some, slice_get};
ghost use Rattle.query_laws.specs.StepLedger.{Spends};
ghost use Rattle.query_laws.specs.declared.item.Order.TheVariants.{First};
ghost use Rattle.builder_trait.specs.Builders.{Progress, begun};
ghost use Rattle.builder_trait.specs.Parts.{Contents, IsPart};
ghost use Rattle.ordered_merge.specs.Merging.{Merges, MergesInto, ReadsInto, IsWhole, StampsDiffer, unbegun, is_passed};

use crate::new_place::NewPlace;
use crate::steps::{is_within, next_item, put_again, take_or_skip};
use builder_trait::{Builder, Part, Profiled};
use query_laws::step_ledger::{Row, Steps};
use query_laws::{Item, NoMemory, Order};
use std::alloc::Global;
use std::marker::Model;
use std::mem::size_of;
use std::sync::ledger::Ledger;

/// How far one part is read: for each item that the first order has read its new place, or `None` where it was skipped, and how many
/// items the second order has read.
#[derive(Drop)]
struct Source {
    table: Row<NewPlace>,
    reread: usize,
}

// A touch reads or writes one entry, of at most 64 bytes.
const _: () = prove!(size_of::<NewPlace>() <= 64);

impl Source {
    /// Nothing is read, and there is room for `cap` items.
    fn room(alloc: Global, cap: usize) -> Result<Source, NoMemory>
        ensures { IfOk result (λ source. source ≡ record { table = record { items = []; capacity = cap }; reread = 0 }) }
    {
        let table = Row::room(alloc, cap)?;
        Ok(Source { table, reread: 0 })
    }

    /// Forgets what was read.
    fn clear(&mut self)
        ensures { self.new ≡ record { table = record { items = []; capacity = self.old.table.capacity }; reread = 0 } }
    {
        self.table.clear();
        self.reread = 0;
    }
}

/// Two parts, a and b, on their way into a builder: all their items in the first order, and then the same in the second order.
///
/// An item that is dead when the first order reads it is skipped. The second order takes exactly the items that the first order took, also where one of
/// them died in between. What the builder then holds is said by `Merges` of `specs/Merging.antt`, which each turn keeps.
#[derive(Drop)]
pub struct Merge<B: Builder> {
    a: Source,
    b: Source,
    taken: usize,
    reached: Option<B::Item>,
    left: u64,
}

impl<B: Builder> Model for Merge<B> {
    ghost use Rattle.std.specs.Prelude.{◌≡◌, ◌≤◌, ◌^◌};
    ghost use Rattle.ordered_merge.specs.Merging.{Merging};

    ghost Value = { Merging B.Item };

    ghost view = { λ m. record {
      capacity = m.a.table.capacity;
      a = record { table = m.a.table.items; reread = m.a.reread };
      b = record { table = m.b.table.items; reread = m.b.reread };
      taken = m.taken;
      reached = m.reached;
      left = m.left;
    } };

    ghost invariant = { λ m. (m.a.table.capacity ≤ 2 ^ 30) × (m.b.table.capacity ≡ m.a.table.capacity) };
}

impl<B: Builder> Merge<B> {
    /// A merge with room for two parts of at most `2^(level - 1)` items each.
    ///
    /// `NoMemory` where memory for the tables of new places isn't given. Nothing else of this type takes memory.
    pub fn room(alloc: Global, level: u32) -> Result<Merge<B>, NoMemory>
        requires least { 1 ≤ level }
        requires most { level < 32 }
        ensures { IfOk result (λ merge. merge ≡ unbegun (2 ^ (level - 1))) }
    {
        let cap = 2usize.pow(level - 1);
        let a = Source::room(alloc, cap)?;
        let b = Source::room(alloc, cap)?;
        Ok(Merge {
            a,
            b,
            taken: 0,
            reached: None,
            left: 0,
        })
    }

    /// Forgets what was read, so that the same memory can serve the next merge. It counts nothing.
    pub fn clear(&mut self)
        ensures { self.new ≡ unbegun self.old.capacity }
    {
        self.a.clear();
        self.b.clear();
        self.taken = 0;
        self.reached = None;
        self.left = 0;
    }

    /// Begins with two parts. It counts nothing.
    pub fn begin(&mut self, a: &B::Part, b: &B::Part)
        requires unbegun { self.old ≡ unbegun self.old.capacity }
        requires fits { length (B.Part.Part.contents a.now).items ≤ self.old.capacity }
        requires other_fits { length (B.Part.Part.contents b.now).items ≤ self.old.capacity }
        requires stamps { StampsDiffer B.Item.stamp (B.Part.Part.contents a.now).items (B.Part.Part.contents b.now).items }
        ensures left { let n = length (B.Part.Part.contents a.now).items + length (B.Part.Part.contents b.now).items in
            self.new ≡ record (unbegun self.old.capacity) { left = 2 * n } }

        ensures valid { IsPart B.Item.before (B.Part.Part.contents a.now) }
        ensures other_valid { IsPart B.Item.before (B.Part.Part.contents b.now) }

        // With a builder to which nothing was put, and which has room for all.
        ensures merges { (level : ℕ) → let a = B.Part.Part.contents a.now in let b = B.Part.Part.contents b.now in
            length a.items + length b.items ≤ 2 ^ level → Merges ⟦<B as Profiled>⟧.profile self.new a b (begun level) }
    {
        // By the tables' sizes the sum fits.
        let _tables = &self.a.table;
        self.left = 2 * (a.len() + b.len()) as u64;
    }

    /// Reads one item, and puts or skips it: one turn, and sixteen touches at most.
    pub fn turn<L: Ledger>(
        &mut self,
        a: &B::Part,
        b: &B::Part,
        builder: &mut B,
        steps: &mut Steps<L>,
    )
        requires more { 0 < self.old.left }
        requires merges { MergesInto B.Part.Part.contents B.progress ⟦<B as Profiled>⟧.profile self.old a.now b.now builder.old }
        ensures merges { MergesInto B.Part.Part.contents B.progress ⟦<B as Profiled>⟧.profile self.new a.now b.now builder.new }
        ensures read { ReadsInto B.Part.Part.contents B.progress 1 self.old self.new a.now b.now builder.old builder.new }
        ensures cost { Spends steps.old steps.new 1 0 16 }
    {
        let len_a = a.len();
        let len_b = b.len();
        if self.a.table.len() < len_a || self.b.table.len() < len_b {
            self.read_next(a, b, builder, steps);
        } else {
            self.reread_next(a, b, builder, steps);
        }
    }

    /// Takes so many turns: sixteen touches at most each.
    pub fn turns<L: Ledger>(
        &mut self,
        count: u64,
        a: &B::Part,
        b: &B::Part,
        builder: &mut B,
        steps: &mut Steps<L>,
    )
        requires enough { count ≤ self.old.left }
        requires merges { MergesInto B.Part.Part.contents B.progress ⟦<B as Profiled>⟧.profile self.old a.now b.now builder.old }
        ensures merges { MergesInto B.Part.Part.contents B.progress ⟦<B as Profiled>⟧.profile self.new a.now b.now builder.new }
        ensures read { ReadsInto B.Part.Part.contents B.progress count self.old self.new a.now b.now builder.old builder.new }
        ensures cost { Spends steps.old steps.new count 0 (16 * count) }
    {
        for _taken in 0..count {
            self.turn(a, b, builder, steps);
        }
    }

    /// A turn in the first order.
    fn read_next<L: Ledger>(
        &mut self,
        a: &B::Part,
        b: &B::Part,
        builder: &mut B,
        steps: &mut Steps<L>,
    )
        requires valid { IsPart B.Item.before (B.Part.Part.contents a.now) }
        requires valid_other { IsPart B.Item.before (B.Part.Part.contents b.now) }
        requires unread { length self.old.a.table + length self.old.b.table
            < length (B.Part.Part.contents a.now).items + length (B.Part.Part.contents b.now).items }
        requires merges { MergesInto B.Part.Part.contents B.progress ⟦<B as Profiled>⟧.profile self.old a.now b.now builder.old }
        ensures merges { MergesInto B.Part.Part.contents B.progress ⟦<B as Profiled>⟧.profile self.new a.now b.now builder.new }
        ensures read { ReadsInto B.Part.Part.contents B.progress 1 self.old self.new a.now b.now builder.old builder.new }
        ensures cost { Spends steps.old steps.new 1 0 16 }
    {
        let (is_a, item) = next_item(
            Order::First,
            a,
            self.a.table.len(),
            b,
            self.b.table.len(),
            steps,
        );
        self.left -= 1;
        self.reached = Some(item);
        if is_a {
            self.taken = take_or_skip(&mut self.a.table, a, item, self.taken, builder, steps);
        } else {
            self.taken = take_or_skip(&mut self.b.table, b, item, self.taken, builder, steps);
        }
    }

    /// A turn in the second order, once the first order has read all.
    fn reread_next<L: Ledger>(
        &mut self,
        a: &B::Part,
        b: &B::Part,
        builder: &mut B,
        steps: &mut Steps<L>,
    )
        requires valid { IsPart B.Item.before (B.Part.Part.contents a.now) }
        requires valid_other { IsPart B.Item.before (B.Part.Part.contents b.now) }
        requires more { 0 < self.old.left }
        requires read { length self.old.a.table + length self.old.b.table
            ≡ length (B.Part.Part.contents a.now).items + length (B.Part.Part.contents b.now).items }
        requires merges { MergesInto B.Part.Part.contents B.progress ⟦<B as Profiled>⟧.profile self.old a.now b.now builder.old }
        ensures merges { MergesInto B.Part.Part.contents B.progress ⟦<B as Profiled>⟧.profile self.new a.now b.now builder.new }
        ensures read { ReadsInto B.Part.Part.contents B.progress 1 self.old self.new a.now b.now builder.old builder.new }
        ensures cost { Spends steps.old steps.new 1 0 16 }
    {
        let (is_a, item) = next_item(Order::Second, a, self.a.reread, b, self.b.reread, steps);
        self.left -= 1;
        if is_a {
            put_again(&self.a.table, a, self.a.reread, item, builder, steps);
            self.a.reread += 1;
        } else {
            put_again(&self.b.table, b, self.b.reread, item, builder, steps);
            self.b.reread += 1;
        }
    }

    /// How many turns are left: zero before `begin`. It counts nothing.
    pub fn left(&self) -> u64
        ensures { result ≡ self.now.left }
    {
        self.left
    }

    /// Whether no turn is left. It counts nothing.
    pub fn done(&self) -> bool
        ensures value { IsTrue result ↔ (self.now.left ≡ 0) }

        // The builder then holds exactly what the tables took, which is what was live when the first order read it.
        ensures whole { (a b : Contents B.Item) (builder : Progress B.Item) → IsTrue result → IsPart B.Item.before a → IsPart B.Item.before b
            → Merges ⟦<B as Profiled>⟧.profile self.now a b builder → IsWhole B.Item.before self.now a b builder }
    {
        self.left == 0
    }

    /// Whether the first order has read an item, which is one of the two parts'. It counts nothing.
    pub fn passed(&self, item: &B::Item) -> bool
        ensures value { result ≡ is_passed (B.Item.before First) self.now.reached item.now }

        // At the item at a place of either part: exactly where that place is among those read.
        ensures of_a { (a b : Contents B.Item) (builder : Progress B.Item) (k : ℕ)
            → Merges ⟦<B as Profiled>⟧.profile self.now a b builder → slice_get a.items k ≡ Some item.now
            → (IsTrue result ↔ (k < length self.now.a.table)) }
        ensures of_b { (a b : Contents B.Item) (builder : Progress B.Item) (k : ℕ)
            → Merges ⟦<B as Profiled>⟧.profile self.now a b builder → slice_get b.items k ≡ Some item.now
            → (IsTrue result ↔ (k < length self.now.b.table)) }
    {
        is_within(&self.reached, item)
    }
}
