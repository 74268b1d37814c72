//! The walk.
ghost use Rattle.std.specs.Prelude.{◌≡◌, ℕ, ◌+◌, ◌-◌, ◌*◌, ◌^◌, ◌<◌, ◌≤◌, [], Some, None, ◌⊎◌, IfOk, IsTrue, Contains, true, false};
ghost use Rattle.query_laws.specs.Permuted.{Permuted};
ghost use Rattle.query_laws.specs.declared.item.Order.TheVariants.{First};
ghost use Rattle.builder_trait.specs.Parts.{without};
ghost use Rattle.id_chain.specs.Chain.{is_linked, after, first_or, IsCursor, before_cursor};
ghost use Rattle.id_chain.specs.StampsRise.{StampsRise};
ghost use Rattle.log_levels.specs.Slots.{IsPartOf};
ghost use Rattle.log_levels.specs.Levels.{weight_of, waiting_of, live_items, all_items};
ghost use Rattle.log_levels.specs.Cost.{IsWithin, quotas};
ghost use Rattle.log_levels.specs.Trades.{used_at, wanted_at, AreLent, IsStocked, Ticks};
ghost use Rattle.log_method.specs.Stack.{MayTick, Deletes};
ghost use Rattle.log_method.specs.Preparing.{AreKept, AreEnough};
ghost use Rattle.log_method.specs.Few.{HaveFew};
ghost use Rattle.chain_walk.specs.Walk.{live_in, IsKept, HandsOver, IsWalkOf, asked_of};
ghost use Rattle.chain_walk.specs.Memory.{LendsFew};

use builder_trait::{Builder, Part};
use id_chain::{Chain, Handle};
use log_method::Stack;
use part_store::Store;
use query_laws::step_ledger::Steps;
use query_laws::{Item, NoMemory};
use std::alloc::Global;
use std::marker::Model;
use std::sync::ledger::Ledger;

/// A stack that gets the items of a chain, one after another, and where the next one is.
#[derive(Drop)]
pub struct Walk<B: Builder> {
    stack: Stack<B>,
    cursor: Option<Handle>,
}

impl<B: Builder> Model for Walk<B> {
    ghost use Rattle.chain_walk.specs.Walk.{Walked};

    ghost Value = { Walked B.Part B.Item };

    ghost view = { λ s. record { stack = s.stack; cursor = s.cursor } };
}

impl<B: Builder> Walk<B> {
    /// An empty stack, and the walk at a cursor. It takes no memory.
    pub fn new(alloc: Global, cursor: Option<Handle>) -> Walk<B>
        ensures { result ≡ record { stack = record { levels = [] }; cursor = cursor } }
    {
        Walk {
            stack: Stack::new(alloc),
            cursor,
        }
    }

    /// Takes the next item of the chain, where there is one: an insert.
    ///
    /// `NoMemory` where memory for it isn't given; it is then taken later.
    pub fn take_next<L: Ledger>(
        &mut self,
        chain: &Chain<B::Item>,
        store: &mut Store<B>,
        steps: &mut Steps<L>,
    ) -> Result<(), NoMemory>
        requires lent { AreLent self.old.stack.levels store.old }
        requires light { weight_of self.old.stack.levels < 2 ^ 31 }
        requires chain { (stamps : ℕ) × IsWalkOf B.Part.Part.contents B.Item.stamp self.old chain.now.entries stamps
            × StampsRise B.Item.stamp 0 chain.now.entries stamps }
        ensures chain { (stamps : ℕ) → StampsRise B.Item.stamp 0 chain.now.entries stamps
            → IsWalkOf B.Part.Part.contents B.Item.stamp self.old chain.now.entries stamps
            → IsWalkOf B.Part.Part.contents B.Item.stamp self.new chain.now.entries stamps }
        ensures ended { self.old.cursor ≡ None → self.new ≡ self.old }
        ensures memory { LendsFew self.old.stack.levels store.old self.new.stack.levels store.new }
        ensures taken { IfOk result (λ _. (self.new.cursor ≡ None) ⊎ (live_in B.Part.Part.contents self.new.stack
            ≡ live_in B.Part.Part.contents self.old.stack + 1)) }
        ensures handed { HandsOver B.Part.Part.contents 1 self.old self.new }
        ensures some_turns { let ticks = live_in B.Part.Part.contents self.new.stack - live_in B.Part.Part.contents self.old.stack in
            steps.old.turns + 3 * ticks ≤ steps.new.turns }
        ensures cost { (g : ℕ) → weight_of self.new.stack.levels < 2 ^ (g + 1)
            → let ticks = live_in B.Part.Part.contents self.new.stack - live_in B.Part.Part.contents self.old.stack in
            IsWithin (ticks * quotas B.SLOPE B.BASE 0 g) (ticks * (2 * g)) (B.Part.Part.mark_touches g) steps.old steps.new }
    {
        let Some(handle) = self.cursor else {
            return Ok(());
        };
        self.stack.prepare(store)?;
        self.stack.insert(chain.item(handle), store, steps);
        self.cursor = chain.next(handle);
        Ok(())
    }

    /// Takes so many items of the chain, or all that are left where there are fewer.
    ///
    /// `NoMemory` where memory for one isn't given; those before it are taken.
    pub fn walk<L: Ledger>(
        &mut self,
        chain: &Chain<B::Item>,
        most: u64,
        store: &mut Store<B>,
        steps: &mut Steps<L>,
    ) -> Result<(), NoMemory>
        requires lent { AreLent self.old.stack.levels store.old }
        requires light { weight_of self.old.stack.levels + most ≤ 2 ^ 31 }
        requires chain { (stamps : ℕ) × IsWalkOf B.Part.Part.contents B.Item.stamp self.old chain.now.entries stamps
            × StampsRise B.Item.stamp 0 chain.now.entries stamps }
        ensures chain { (stamps : ℕ) → StampsRise B.Item.stamp 0 chain.now.entries stamps
            → IsWalkOf B.Part.Part.contents B.Item.stamp self.old chain.now.entries stamps
            → IsWalkOf B.Part.Part.contents B.Item.stamp self.new chain.now.entries stamps }
        ensures taken { IfOk result (λ _. (self.new.cursor ≡ None) ⊎ (live_in B.Part.Part.contents self.new.stack
            ≡ live_in B.Part.Part.contents self.old.stack + most)) }
        ensures handed { HandsOver B.Part.Part.contents most self.old self.new }
        ensures memory { LendsFew self.old.stack.levels store.old self.new.stack.levels store.new }
        ensures some_turns { let ticks = live_in B.Part.Part.contents self.new.stack - live_in B.Part.Part.contents self.old.stack in
            steps.old.turns + 3 * ticks ≤ steps.new.turns }
        ensures cost { (g : ℕ) → weight_of self.new.stack.levels < 2 ^ (g + 1)
            → let ticks = live_in B.Part.Part.contents self.new.stack - live_in B.Part.Part.contents self.old.stack in
            IsWithin (ticks * quotas B.SLOPE B.BASE 0 g) (ticks * (2 * g)) (B.Part.Part.mark_touches g) steps.old steps.new }
    {
        for _taken in 0..most {
            self.take_next(chain, store, steps)?;
        }
        Ok(())
    }

    /// Deletes an item that was handed over: a tick.
    pub fn delete<L: Ledger>(&mut self, item: &B::Item, store: &mut Store<B>, steps: &mut Steps<L>)
        requires ready { MayTick self.old.stack.levels store.old }
        requires live { Contains (live_items B.Part.Part.contents self.old.stack.levels) item.now }
        ensures deletes { Deletes B.Part.Part.contents B.Item.stamp (B.Item.stamp item.now) self.old.stack.levels self.new.stack.levels }
        ensures trades { Ticks self.old.stack.levels store.old self.new.stack.levels store.new }
        ensures waiting { waiting_of self.new.stack.levels + steps.new.marks ≡ waiting_of self.old.stack.levels
            + asked_of B.Part.Part.contents B.Item.stamp (B.Item.before First) item.now self.old.stack + steps.old.marks }
        ensures cursor { self.new.cursor ≡ self.old.cursor }
        ensures cost { (g : ℕ) → weight_of self.new.stack.levels < 2 ^ (g + 1)
            → IsWithin (quotas B.SLOPE B.BASE 1 g) (5 * g + 3) (B.Part.Part.mark_touches g) steps.old steps.new }
    {
        self.stack.delete(item, store, steps);
    }

    /// Where the next item is.
    pub fn cursor(&self) -> Option<Handle>
        ensures { result ≡ self.now.cursor }
    {
        self.cursor
    }

    /// Goes on with the walk at another place.
    pub fn go_to(&mut self, cursor: Option<Handle>)
        ensures { self.new ≡ record self.old { cursor = cursor } }
    {
        self.cursor = cursor;
    }

    /// Makes the levels that the next two ticks may want.
    ///
    /// `NoMemory` where memory for one isn't given; those made so far stay.
    pub fn add_levels(&mut self) -> Result<(), NoMemory>
        ensures kept { IsKept B.Part.Part.contents self.old self.new }
        ensures each { AreKept self.old.stack.levels self.new.stack.levels }
        ensures few { HaveFew self.new.stack.levels }
        ensures enough { IfOk result (λ _. weight_of self.new.stack.levels < 2 ^ 31 → AreEnough self.new.stack.levels) }
    {
        self.stack.add_levels()
    }

    /// Takes the memory that the next two ticks may want, where a store that serves no other stack doesn't keep it.
    ///
    /// `NoMemory` where some isn't given; what was taken is kept.
    pub fn prepare(&mut self, store: &mut Store<B>) -> Result<(), NoMemory>
        ensures kept { IsKept B.Part.Part.contents self.old self.new }
        ensures memory { LendsFew self.old.stack.levels store.old self.new.stack.levels store.new }
        ensures stocked { IfOk result (λ _. weight_of self.new.stack.levels < 2 ^ 31 → IsStocked self.new.stack.levels store.new 2) }
    {
        self.stack.prepare(store)
    }

    /// How many builders of a level the next two ticks may take.
    pub fn wanted(&self, level: u32) -> usize
        ensures value { result ≡ wanted_at 2 level self.now.stack.levels }
        ensures few { result ≤ 2 }
    {
        self.stack.wanted(level)
    }

    /// A number above every level of which the next two ticks may take a builder.
    pub fn wanted_below(&self) -> u32
        ensures { (k : ℕ) → result ≤ k → wanted_at 2 k self.now.stack.levels ≡ 0 }
    {
        self.stack.wanted_below()
    }

    /// How many builders of a level the stack has.
    pub fn used(&self, level: u32) -> usize
        ensures value { result ≡ used_at level self.now.stack.levels }
        ensures few { HaveFew self.now.stack.levels }
    {
        self.stack.used(level)
    }

    /// Whether the walk is past the last item.
    pub fn has_ended(&self) -> bool
        ensures ended { result ≡ true → self.now.cursor ≡ None }
        ensures going { result ≡ false → self.now.cursor ≡ None → ⊥ }
    {
        self.cursor.is_none()
    }

    /// The stack.
    pub fn into_stack(self) -> Stack<B>
        ensures { result ≡ self.stack }
    {
        self.stack
    }

    /// The weight of the stack.
    pub fn weight(&self) -> u64
        ensures { result ≡ weight_of self.now.stack.levels }
    {
        self.stack.weight()
    }

    /// How many items are live in the stack.
    pub fn live(&self) -> u64
        ensures { result ≡ live_in B.Part.Part.contents self.now.stack }
    {
        self.stack.live()
    }

    /// Whether the walk has come by a linked item.
    pub fn has_walked_by(&self, chain: &Chain<B::Item>, handle: Handle) -> bool
        requires linked { IsTrue (is_linked handle chain.now.entries) }
        requires cursor { IsCursor self.now.cursor chain.now.entries }
        requires rise { (stamps : ℕ) × StampsRise B.Item.stamp 0 chain.now.entries stamps }
        ensures { result ≡ is_linked handle (before_cursor self.now.cursor chain.now.entries) }
    {
        match self.cursor {
            Some(at) => chain.item(handle).stamp() < chain.item(at).stamp(),
            None => true,
        }
    }
}

/// The item after one, or else the one that is put in its place.
pub fn next_renewed<I: Copy>(chain: &Chain<I>, handle: Handle) -> Option<Handle>
    requires { IsTrue (is_linked handle chain.now.entries) }
    ensures { result ≡ first_or (after handle chain.now.entries) (Some handle) }
{
    match chain.next(handle) {
        Some(next) => Some(next),
        None => Some(handle),
    }
}
