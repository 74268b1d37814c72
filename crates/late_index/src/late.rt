//! The late index.
ghost use Rattle.std.specs.Prelude.{◌≡◌, ℕ, ◌+◌, ◌-◌, ◌*◌, ◌^◌, ◌<◌, ◌≤◌, ◌++◌, ◌∷◌, [], List, Some, None, Contains, true, false, if◌then◌else◌, IfOk, IsTrue, length};
ghost use Rattle.query_laws.specs.declared.item.Order.TheVariants.{First};
ghost use Rattle.id_chain.specs.Chain.{Entry, HandlesDiffer, is_linked, item_at, after, first_handle, first_or, before_cursor, without_handle};
ghost use Rattle.id_chain.specs.StampsRise.{StampsRise};
ghost use Rattle.part_store.specs.Store.{KeepsBoth};
ghost use Rattle.log_levels.specs.Levels.{weight_of, waiting_of};
ghost use Rattle.log_levels.specs.Cost.{IsWithin, quotas};
ghost use Rattle.chain_walk.specs.Walk.{HandsOver, IsWalkOf, live_in, asked_of, renewed};
ghost use Rattle.chain_walk.specs.Memory.{HoldsNoLess};
ghost use Rattle.late_index.specs.Late.{goal_of, OwnsMemory, IsShortOf, IsPrepared, IsLateOf, LetsGo};

use builder_trait::{Builder, Part};
use chain_walk::{Walk, next_renewed};
use id_chain::{Chain, Handle};
use log_method::Stack;
use part_store::Store;
use query_laws::step_ledger::Steps;
use query_laws::{Item, NoMemory};
use std::alloc::Global;
use std::marker::Model;
use std::sync::ledger::Ledger;

/// How many items are handed over before an update.
const AHEAD: u64 = 4;

/// A stack that catches up with the items of a chain, four an update.
///
/// An update is a [`prepare`](Late::prepare), which may be refused memory, and then, unless all items are handed over, a commit, which can't
/// fail: an insert before or after the item is appended to the chain, a delete before it is unlinked, a move before it is renewed.
#[derive(Drop)]
pub struct Late<B: Builder> {
    store: Store<B>,
    walk: Walk<B>,
    waiting: u64,
}

impl<B: Builder> Model for Late<B> {
    ghost use Rattle.late_index.specs.Late.{LateState, OwnsMemory};

    ghost Value = { LateState B.Part B.Item };

    ghost view = { λ l. record { store = l.store; walk = l.walk; waiting = l.waiting } };

    ghost invariant = { λ l. OwnsMemory l.walk.stack l.store };
}

impl<B: Builder> Late<B> {
    /// A late index of a chain, of which all items wait. It takes no memory; [`Late::prepare`] takes its from `alloc`.
    pub fn start(alloc: Global, chain: &Chain<B::Item>) -> Late<B>
        requires few { length chain.now.entries < 2 ^ 29 }
        ensures empty { result ≡ record {
          store = record { builders = []; tables = [] };
          walk = record { stack = record { levels = [] }; cursor = first_handle chain.now.entries };
          waiting = length chain.now.entries;
        } }
        ensures chain { (stamps : ℕ) → StampsRise B.Item.stamp 0 chain.now.entries stamps
            → IsLateOf B.Part.Part.contents B.Item.stamp result chain.now.entries stamps }
    {
        Late {
            store: Store::new(alloc),
            walk: Walk::new(alloc, chain.first()),
            waiting: chain.len() as u64,
        }
    }

    /// Readies the next update: it hands items over, each an insert, until no more wait than the goal, and takes the memory of two ticks where
    /// it isn't kept.
    ///
    /// `NoMemory` where it isn't given. Some items may be handed over then; the next preparation goes on from there.
    pub fn prepare<L: Ledger>(
        &mut self,
        chain: &Chain<B::Item>,
        steps: &mut Steps<L>,
    ) -> Result<(), NoMemory>
        requires chain { (stamps : ℕ) × IsLateOf B.Part.Part.contents B.Item.stamp self.old chain.now.entries stamps }
        ensures chain { (stamps : ℕ) → IsLateOf B.Part.Part.contents B.Item.stamp self.old chain.now.entries stamps
            → IsLateOf B.Part.Part.contents B.Item.stamp self.new chain.now.entries stamps }
        ensures waiting { self.new.waiting ≡ self.old.waiting }
        ensures prepared { IfOk result (λ _. IsPrepared B.Part.Part.contents self.new chain.now.entries) }
        ensures handed { HandsOver B.Part.Part.contents 4 self.old.walk self.new.walk }
        ensures held { HoldsNoLess self.old.store self.new.store }

        // A tick for each item that is handed over, and a part is made of it.
        ensures some_turns { let ticks = live_in B.Part.Part.contents self.new.walk.stack - live_in B.Part.Part.contents self.old.walk.stack in
            steps.old.turns + 3 * ticks ≤ steps.new.turns }
        ensures cost { (g : ℕ) → 2 * length chain.now.entries + 10 < 2 ^ (g + 1)
            → let ticks = live_in B.Part.Part.contents self.new.walk.stack - live_in B.Part.Part.contents self.old.walk.stack in
            IsWithin (ticks * quotas B.SLOPE B.BASE 0 g) (ticks * (2 * g)) (B.Part.Part.mark_touches g) steps.old steps.new }
    {
        self.catch_up(chain, steps)?;
        self.walk.prepare(&mut self.store)
    }

    /// How many items wait: they aren't handed over, or were in a preparation whose update was refused.
    pub fn waiting(&self) -> u64
        ensures { result ≡ self.now.waiting }
    {
        self.waiting
    }

    /// How many items may wait once the next update is prepared: four fewer.
    pub fn goal(&self) -> u64
        ensures { result ≡ goal_of self.now }
    {
        self.waiting.saturating_sub(AHEAD)
    }

    /// Whether all items are handed over.
    pub fn has_ended(&self) -> bool
        ensures ended { result ≡ true → self.now.walk.cursor ≡ None }
        ensures going { result ≡ false → self.now.walk.cursor ≡ None → ⊥ }
    {
        self.walk.has_ended()
    }

    /// Counts an item that is appended to the chain, with a stamp that no item had before: it waits.
    pub fn commit_insert(&mut self)
        requires going { self.old.walk.cursor ≡ None → ⊥ }
        ensures counted { self.new ≡ record self.old { waiting = goal_of self.old + 1 } }
        ensures chain { (front : List (Entry B.Item)) (e : Entry B.Item) → HandlesDiffer (front ++ e ∷ []) → length (front ++ e ∷ []) < 2 ^ 29
            → IsPrepared B.Part.Part.contents self.old front → IsLateOf B.Part.Part.contents B.Item.stamp self.old front (B.Item.stamp e.item)
            → IsLateOf B.Part.Part.contents B.Item.stamp self.new (front ++ e ∷ []) (B.Item.stamp e.item + 1) }
        ensures short { (front : List (Entry B.Item)) (e : Entry B.Item) → IsPrepared B.Part.Part.contents self.old front
            → IsShortOf B.Part.Part.contents self.new.waiting self.new (front ++ e ∷ []) }
    {
        self.waiting = self.goal() + 1;
    }

    /// Lets go of a linked item, which the caller unlinks next: a delete where it was handed over, else one fewer waits.
    pub fn commit_delete<L: Ledger>(
        &mut self,
        chain: &Chain<B::Item>,
        handle: Handle,
        steps: &mut Steps<L>,
    )
        requires going { self.old.walk.cursor ≡ None → ⊥ }
        requires prepared { IsPrepared B.Part.Part.contents self.old chain.now.entries }
        requires chain { (stamps : ℕ) × IsLateOf B.Part.Part.contents B.Item.stamp self.old chain.now.entries stamps }
        requires linked { IsTrue (is_linked handle chain.now.entries) }
        ensures chain { (stamps : ℕ) → IsLateOf B.Part.Part.contents B.Item.stamp self.old chain.now.entries stamps
            → IsLateOf B.Part.Part.contents B.Item.stamp self.new (without_handle handle chain.now.entries) stamps }
        ensures short { IsShortOf B.Part.Part.contents self.new.waiting self.new (without_handle handle chain.now.entries) }
        ensures waiting { self.new.waiting
            ≡ (if is_linked handle (before_cursor self.old.walk.cursor chain.now.entries) then goal_of self.old else goal_of self.old - 1) }
        ensures weight { weight_of self.new.walk.stack.levels ≡ weight_of self.old.walk.stack.levels }
        ensures held { KeepsBoth self.old.store self.new.store }

        // A mark for each part that is asked, and for each item that waited to be marked and waits no longer.
        ensures marks { (item : B.Item) → item_at handle chain.now.entries ≡ Some item
            → let asked = if is_linked handle (before_cursor self.old.walk.cursor chain.now.entries)
            then asked_of B.Part.Part.contents B.Item.stamp (B.Item.before First) item self.old.walk.stack else 0 in
            waiting_of self.new.walk.stack.levels + steps.new.marks ≡ waiting_of self.old.walk.stack.levels + asked + steps.old.marks }
        ensures cost { (g : ℕ) → 2 * length chain.now.entries + 10 < 2 ^ (g + 1)
            → IsWithin (quotas B.SLOPE B.BASE 1 g) (5 * g + 3) (B.Part.Part.mark_touches g) steps.old steps.new }
    {
        let goal = self.goal();
        let next = chain.next(handle);
        if self.let_go(chain, handle, next, steps) {
            self.waiting = goal;
        } else {
            self.waiting = goal - 1;
        }
    }

    /// Lets go of a linked item, for another one that the caller puts in its place next ([`Chain::renew`]), at the end of the chain and with a
    /// stamp that no item had before: a delete where the old one was handed over. The new one waits.
    pub fn commit_move<L: Ledger>(
        &mut self,
        chain: &Chain<B::Item>,
        handle: Handle,
        steps: &mut Steps<L>,
    )
        requires going { self.old.walk.cursor ≡ None → ⊥ }
        requires prepared { IsPrepared B.Part.Part.contents self.old chain.now.entries }
        requires chain { (stamps : ℕ) × IsLateOf B.Part.Part.contents B.Item.stamp self.old chain.now.entries stamps }
        requires linked { IsTrue (is_linked handle chain.now.entries) }
        ensures chain { (item : B.Item) → IsLateOf B.Part.Part.contents B.Item.stamp self.old chain.now.entries (B.Item.stamp item)
            → IsLateOf B.Part.Part.contents B.Item.stamp self.new (renewed handle item chain.now.entries) (B.Item.stamp item + 1) }
        ensures short { (item : B.Item) → IsShortOf B.Part.Part.contents self.new.waiting self.new (renewed handle item chain.now.entries) }
        ensures waiting { self.new.waiting
            ≡ (if is_linked handle (before_cursor self.old.walk.cursor chain.now.entries) then goal_of self.old + 1 else goal_of self.old) }
        ensures weight { weight_of self.new.walk.stack.levels ≡ weight_of self.old.walk.stack.levels }
        ensures held { KeepsBoth self.old.store self.new.store }

        // A mark for each part that is asked, and for each item that waited to be marked and waits no longer.
        ensures marks { (gone : B.Item) → item_at handle chain.now.entries ≡ Some gone
            → let asked = if is_linked handle (before_cursor self.old.walk.cursor chain.now.entries)
            then asked_of B.Part.Part.contents B.Item.stamp (B.Item.before First) gone self.old.walk.stack else 0 in
            waiting_of self.new.walk.stack.levels + steps.new.marks ≡ waiting_of self.old.walk.stack.levels + asked + steps.old.marks }
        ensures cost { (g : ℕ) → 2 * length chain.now.entries + 10 < 2 ^ (g + 1)
            → IsWithin (quotas B.SLOPE B.BASE 1 g) (5 * g + 3) (B.Part.Part.mark_touches g) steps.old steps.new }
    {
        let others = self.goal();
        let next = next_renewed(chain, handle);
        if self.let_go(chain, handle, next, steps) {
            self.waiting = others + 1;
        } else {
            self.waiting = others;
        }
    }

    /// The stack, once all items are handed over, and the store that has its memory.
    pub fn into_stack(self) -> (Stack<B>, Store<B>)
        requires ended { self.walk.cursor ≡ None }
        ensures parts { result ≡ (self.walk.stack, self.store) }
        ensures memory { OwnsMemory result.0 result.1 }
        ensures chain { (es : List (Entry B.Item)) (stamps : ℕ) → IsLateOf B.Part.Part.contents B.Item.stamp self es stamps
            → IsWalkOf B.Part.Part.contents B.Item.stamp (record { stack = result.0; cursor = None }) es stamps
            × (3 * (weight_of result.0.levels - live_in B.Part.Part.contents result.0) ≤ live_in B.Part.Part.contents result.0) }
    {
        let Late {
            store,
            walk,
            waiting: _,
        } = self;
        (walk.into_stack(), store)
    }

    /// Hands items over until no more wait than the goal.
    ///
    /// `NoMemory` where memory for one isn't given; those before it are handed over.
    fn catch_up<L: Ledger>(
        &mut self,
        chain: &Chain<B::Item>,
        steps: &mut Steps<L>,
    ) -> Result<(), NoMemory>
        requires chain { (stamps : ℕ) × IsLateOf B.Part.Part.contents B.Item.stamp self.old chain.now.entries stamps }
        ensures chain { (stamps : ℕ) → IsLateOf B.Part.Part.contents B.Item.stamp self.old chain.now.entries stamps
            → IsLateOf B.Part.Part.contents B.Item.stamp self.new chain.now.entries stamps }
        ensures waiting { self.new.waiting ≡ self.old.waiting }
        ensures caught_up { IfOk result (λ _. IsShortOf B.Part.Part.contents (goal_of self.new) self.new chain.now.entries) }
        ensures handed { HandsOver B.Part.Part.contents 4 self.old.walk self.new.walk }
        ensures held { HoldsNoLess self.old.store self.new.store }
        ensures some_turns { let ticks = live_in B.Part.Part.contents self.new.walk.stack - live_in B.Part.Part.contents self.old.walk.stack in
            steps.old.turns + 3 * ticks ≤ steps.new.turns }
        ensures cost { (g : ℕ) → 2 * length chain.now.entries + 10 < 2 ^ (g + 1)
            → let ticks = live_in B.Part.Part.contents self.new.walk.stack - live_in B.Part.Part.contents self.old.walk.stack in
            IsWithin (ticks * quotas B.SLOPE B.BASE 0 g) (ticks * (2 * g)) (B.Part.Part.mark_touches g) steps.old steps.new }
    {
        let left = chain.len() as u64 - self.walk.live();
        let most = left - self.goal();
        self.walk.walk(chain, most, &mut self.store, steps)
    }

    /// Deletes a linked item from the stack where it was handed over, and says whether it was; else a cursor at it goes on to another place.
    fn let_go<L: Ledger>(
        &mut self,
        chain: &Chain<B::Item>,
        handle: Handle,
        next: Option<Handle>,
        steps: &mut Steps<L>,
    ) -> bool
        requires prepared { IsPrepared B.Part.Part.contents self.old chain.now.entries }
        requires chain { (stamps : ℕ) × IsLateOf B.Part.Part.contents B.Item.stamp self.old chain.now.entries stamps }
        requires linked { IsTrue (is_linked handle chain.now.entries) }
        ensures waiting { self.new.waiting ≡ self.old.waiting }
        ensures goes { (item : B.Item) → item_at handle chain.now.entries ≡ Some item
            → LetsGo B.Part.Part.contents B.Item.stamp handle item next chain.now.entries result self.old.walk self.new.walk }
        ensures held { KeepsBoth self.old.store self.new.store }
        ensures marks { (item : B.Item) → item_at handle chain.now.entries ≡ Some item
            → let asked = if result then asked_of B.Part.Part.contents B.Item.stamp (B.Item.before First) item self.old.walk.stack else 0 in
            waiting_of self.new.walk.stack.levels + steps.new.marks ≡ waiting_of self.old.walk.stack.levels + asked + steps.old.marks }
        ensures cost { (g : ℕ) → 2 * length chain.now.entries + 10 < 2 ^ (g + 1)
            → IsWithin (quotas B.SLOPE B.BASE 1 g) (5 * g + 3) (B.Part.Part.mark_touches g) steps.old steps.new }
    {
        if self.walk.has_walked_by(chain, handle) {
            let item = chain.item(handle);
            self.walk.delete(&item, &mut self.store, steps);
            true
        } else if self.walk.cursor() == Some(handle) {
            self.walk.go_to(next);
            false
        } else {
            false
        }
    }
}
