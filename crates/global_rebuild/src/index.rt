//! The index.
ghost use Rattle.std.specs.Prelude.{◌≡◌, ◌==◌, ℕ, ◌+◌, ◌-◌, ◌*◌, ◌^◌, ◌<◌, ◌≤◌, ◌⊎◌, ◌++◌, ◌∷◌, [], All, List, None, Some, true, false, if◌then◌else◌, IfOk, IfSome, IfNone, IsTrue, IsErr, OnErr, length, min, vec_capacity, map};
ghost use Rattle.std.specs.Option.{option_map};
ghost use Rattle.query_laws.specs.StepLedger.{Consults};
ghost use Rattle.query_laws.specs.declared.item.Order.TheVariants.{First};
ghost use Rattle.id_chain.specs.Chain.{Entry, HandlesDiffer, is_linked, item_at, after, first_or, IsCursor, before_cursor, without_handle};
ghost use Rattle.id_chain.specs.StampsRise.{StampsRise};
ghost use Rattle.log_levels.specs.Slots.{Slots};
ghost use Rattle.log_levels.specs.Levels.{live_items, all_items, waiting_of, weight_of, parts_of, touches_of};
ghost use Rattle.part_store.specs.Shelves.{one_if, kept_at, lent_at};
ghost use Rattle.part_store.specs.Store.{kept_in, HasRooms, StocksUpTo};
ghost use Rattle.log_levels.specs.Trades.{used_at, built_at, wanted_at, IsStocked};
ghost use Rattle.log_method.specs.Retired.{used_of};
ghost use Rattle.log_method.specs.Preparing.{AreKept, AreEnough, HasTaken, HasRoomsBelow, LendsOnly};
ghost use Rattle.log_method.specs.Few.{HaveFew};
ghost use Rattle.log_method.specs.Height.{HaveAtMost, AreFew, size_of};
ghost use Rattle.log_levels.specs.Cost.{IsWithin, quotas};
ghost use Rattle.log_levels.specs.Towers.{AreOnTime, TakeTicks};
ghost use Rattle.chain_walk.specs.Walk.{Walked, live_in, renewed, IsKept, IsWalkOf};
ghost use Rattle.global_rebuild.specs.Index.{unwalked, to_walk, shadow_weight, is_heavy, IsQuiet, IsInTime, IsIndex, IsIndexOf, IsPrepared, AreStocked, OwnsMemory, HoldsAsMuch, IsWalkedOn, HasPaused, FreesOne, IsCleared, Clears, in_both, in_retired, waiting_of_both, asked_of_both};
ghost use Rattle.global_rebuild.specs.Retiring.{with_retired, GivesBack, FreesSpare, FreesUnwanted, TakeMemory};

use builder_trait::{Answers, Asking, Builder, Part, Profiled};
use chain_walk::{Walk, next_renewed};
use id_chain::{Chain, Handle};
use log_method::{Retired, Stack};
use part_store::Store;
use query_laws::step_ledger::Steps;
use query_laws::{Item, NoMemory, Question};
use std::alloc::Global;
use std::marker::Model;
use std::mem;
use std::sync::ledger::Ledger;

/// The most levels of a stack.
const LEVELS: u32 = 32;

/// As many builders of a level as both stacks may have, with those that their next two ticks may take.
const BUILDERS: usize = 10;

/// A stack of the items of a chain, which is made anew while it answers, before too much of it is dead (Overmars 1983).
///
/// Beside the stack there may be a shadow: a second stack that gets the items of the chain four an update, from the first one on. When it has
/// all of them it takes the place of the first, which gives its memory back a part an update, those of the highest level first. All memory is
/// lent by one store: what the one stack gives back the other lends.
///
/// An update is a [`prepare`](Index::prepare), which may be refused memory, and then a commit, which can't fail: an insert after the item was
/// appended to the chain, a delete before it is unlinked, a move before it is renewed.
#[derive(Drop)]
pub struct Index<B: Builder> {
    alloc: Global,
    store: Store<B>,
    main: Stack<B>,
    shadow: Option<Walk<B>>,
    retired: Vec<Retired<B>>,
}

impl<B: Builder> Model for Index<B> {
    ghost use Rattle.global_rebuild.specs.Index.{Indexed, IsIndex};

    ghost Value = { Indexed B.Part B.Item };

    ghost view = { λ i. record { store = i.store; main = i.main; shadow = i.shadow; retired = i.retired.items } };

    ghost invariant = { λ i. IsIndex B.Part.Part.contents (record { store = i.store; main = i.main; shadow = i.shadow; retired = i.retired.items }) };
}

impl<B: Builder> Index<B> {
    /// An index of no items. It takes no memory; [`Index::prepare`] takes its from `alloc`.
    pub fn new(alloc: Global) -> Index<B>
        ensures empty { result ≡ record { store = record { builders = []; tables = [] }; main = record { levels = [] }; shadow = None; retired = [] } }
        ensures chain { IsIndexOf B.Part.Part.contents B.Item.stamp result [] 0 }
    {
        Index {
            alloc,
            store: Store::new(alloc),
            main: Stack::new(alloc),
            shadow: None,
            retired: Vec::new(alloc),
        }
    }

    /// An index of a stack that has the items of a chain already, with the store that has its memory. No rebuild runs. It takes no memory.
    pub fn adopt(alloc: Global, stack: Stack<B>, store: Store<B>) -> Index<B>
        requires quiet { IsQuiet B.Part.Part.contents stack }
        requires lent { LendsOnly stack.levels store }
        requires few { (k : ℕ) → kept_at k store.builders + used_at k stack.levels ≤ 10 }
        ensures adopted { result ≡ record { store = store; main = stack; shadow = None; retired = [] } }
        ensures chain { (es : List (Entry B.Item)) (stamps : ℕ) → IsWalkOf B.Part.Part.contents B.Item.stamp (record { stack = stack; cursor = None }) es stamps
            → StampsRise B.Item.stamp 0 es stamps → HandlesDiffer es → length es < 2 ^ 29 → IsIndexOf B.Part.Part.contents B.Item.stamp result es stamps }
        ensures prepared { IsStocked stack.levels store 2 → IsPrepared B.Part.Part.contents result }
    {
        Index {
            alloc,
            store,
            main: stack,
            shadow: None,
            retired: Vec::new(alloc),
        }
    }

    /// Readies the next update. While a rebuild runs, it hands four items over to the shadow, or all that are left, each an insert, and puts
    /// it in the place of the main stack when it has all. Then the stack that was put out of use last gives a part back, spare memory of one
    /// level is freed, if there is some, and what two ticks of each stack may want is taken where it isn't kept. An update is one of these.
    ///
    /// `NoMemory` where it isn't given. The items are as before; some may be handed over, and the rebuild may have ended. Refused or not, no
    /// more than one part is freed.
    #[tactic(auto, using(crate::proofs::Freeing::paused_frees))]
    pub fn prepare<L: Ledger>(
        &mut self,
        chain: &Chain<B::Item>,
        steps: &mut Steps<L>,
    ) -> Result<(), NoMemory>
        requires chain { (stamps : ℕ) × IsIndexOf B.Part.Part.contents B.Item.stamp self.old chain.now.entries stamps }
        ensures chain { (stamps : ℕ) → IsIndexOf B.Part.Part.contents B.Item.stamp self.old chain.now.entries stamps
            → IsIndexOf B.Part.Part.contents B.Item.stamp self.new chain.now.entries stamps }
        ensures prepared { IfOk result (λ _. IsPrepared B.Part.Part.contents self.new) }
        ensures ready { IfOk result (λ _. AreStocked 2 self.new.main self.new.shadow self.new.store) }
        ensures walked { IfOk result (λ _. IsWalkedOn B.Part.Part.contents self.old self.new) }

        // No rebuild begins, and none that runs is given up.
        ensures refused { OnErr result (IsWalkedOn B.Part.Part.contents self.old self.new ⊎ HasPaused B.Part.Part.contents 4 self.old self.new) }
        ensures frees { FreesOne B.Part.Part.contents self.old.store self.new.main self.new.shadow self.new.store }

        // Where no rebuild runs it frees some, until none is left of a level above the greatest of its size.
        ensures clears { IfOk result (λ _. self.old.shadow ≡ None → Clears B.Part.Part.contents self.old.store self.new.main self.new.shadow self.new.store) }

        // A tick for each item that is handed over, and a part is made of it.
        ensures some_turns { let ticks = to_walk B.Part.Part.contents self.old - to_walk B.Part.Part.contents self.new in
            steps.old.turns + 3 * ticks ≤ steps.new.turns }
        ensures cost { (g : ℕ) → 2 * live_in B.Part.Part.contents self.old.main + 10 < 2 ^ (g + 1)
            → let ticks = min 4 (to_walk B.Part.Part.contents self.old - to_walk B.Part.Part.contents self.new) in
            IsWithin (ticks * quotas B.SLOPE B.BASE 0 g) (ticks * (2 * g)) (B.Part.Part.mark_touches g) steps.old steps.new }
    {
        self.walk(chain, 4, steps)?;
        let has_walked = self.has_walked();
        if has_walked {
            self.retired.reserve(1)?;
            swap(&mut self.main, &mut self.shadow, &mut self.retired);
        }
        settle(
            &mut self.main,
            &mut self.shadow,
            &mut self.retired,
            &mut self.store,
            self.alloc,
        )
    }

    /// Takes in the last item of a chain, which has a stamp that no item had before: an insert. The shadow gets it later.
    pub fn commit_insert<L: Ledger>(
        &mut self,
        chain: &Chain<B::Item>,
        handle: Handle,
        steps: &mut Steps<L>,
    )
        requires prepared { IsPrepared B.Part.Part.contents self.old }
        requires last { (front : List (Entry B.Item)) × (item : B.Item) × (chain.now.entries ≡ front ++ record { handle = handle; item = item } ∷ [])
            × IsIndexOf B.Part.Part.contents B.Item.stamp self.old front (B.Item.stamp item) }
        requires differ { HandlesDiffer chain.now.entries }
        requires few { length chain.now.entries < 2 ^ 29 }
        ensures chain { (item : B.Item) → item_at handle chain.now.entries ≡ Some item
            → IsIndexOf B.Part.Part.contents B.Item.stamp self.new chain.now.entries (B.Item.stamp item + 1) }
        ensures weight { weight_of self.new.main.levels ≡ weight_of self.old.main.levels + 1 }
        ensures rebuild { self.new.shadow ≡ self.old.shadow }
        ensures held { HoldsAsMuch self.old self.new }
        ensures ticks { TakeTicks self.old.main.levels self.new.main.levels }
        ensures some_turns { steps.old.turns + 3 ≤ steps.new.turns }

        // A mark for each item that waited and waits no longer.
        ensures waiting { waiting_of self.new.main.levels + steps.new.marks ≡ waiting_of self.old.main.levels + steps.old.marks }
        ensures cost { (g : ℕ) → 2 * live_in B.Part.Part.contents self.old.main + 10 < 2 ^ (g + 1)
            → IsWithin (quotas B.SLOPE B.BASE 0 g) (2 * g) (B.Part.Part.mark_touches g) steps.old steps.new }
    {
        let last = chain.item(handle);
        self.main.insert(last, &mut self.store, steps);
    }

    /// Lets go of a linked item, which the caller unlinks next: a delete from the main stack, and one from the shadow where it was handed
    /// over. Where too much of the main stack is dead then, a rebuild starts, at the first of the items that stay.
    pub fn commit_delete<L: Ledger>(
        &mut self,
        chain: &Chain<B::Item>,
        handle: Handle,
        steps: &mut Steps<L>,
    )
        requires prepared { IsPrepared B.Part.Part.contents self.old }
        requires chain { (stamps : ℕ) × IsIndexOf B.Part.Part.contents B.Item.stamp self.old chain.now.entries stamps }
        requires linked { IsTrue (is_linked handle chain.now.entries) }
        ensures chain { (stamps : ℕ) → IsIndexOf B.Part.Part.contents B.Item.stamp self.old chain.now.entries stamps
            → IsIndexOf B.Part.Part.contents B.Item.stamp self.new (without_handle handle chain.now.entries) stamps }
        ensures weights { (weight_of self.new.main.levels ≡ weight_of self.old.main.levels) × (shadow_weight self.new ≡ shadow_weight self.old) }
        ensures held { HoldsAsMuch self.old self.new }
        ensures ticks { TakeTicks self.old.main.levels self.new.main.levels }

        // A mark for each part that is asked, and for each item that waited and waits no longer.
        ensures waiting { (item : B.Item) → item_at handle chain.now.entries ≡ Some item → waiting_of_both self.new + steps.new.marks ≡ waiting_of_both self.old
            + asked_of_both B.Part.Part.contents B.Item.stamp (B.Item.before First) item handle chain.now.entries self.old + steps.old.marks }
        ensures starts { self.old.shadow ≡ None → unwalked B.Part.Part.contents self.new
            ≡ (if is_heavy B.Part.Part.contents self.new.main then Some (live_in B.Part.Part.contents self.new.main) else None) }
        ensures goes_on { (r : Walked B.Part B.Item) → self.old.shadow ≡ Some r → unwalked B.Part.Part.contents self.new
            ≡ option_map (λ w. if is_linked handle (before_cursor r.cursor chain.now.entries) then w else w - 1) (unwalked B.Part.Part.contents self.old) }
        ensures cost { (g : ℕ) → 2 * live_in B.Part.Part.contents self.old.main + 10 < 2 ^ (g + 1)
            → IsWithin (2 * quotas B.SLOPE B.BASE 1 g) (2 * (5 * g + 3)) (B.Part.Part.mark_touches g) steps.old steps.new }
    {
        let item = chain.item(handle);
        self.main.delete(&item, &mut self.store, steps);
        let Some(shadow) = &mut self.shadow else {
            if 2 * self.main.weight() > 3 * self.main.live() + 16 {
                start(
                    &mut self.shadow,
                    Walk::new(self.alloc, first_but(chain, handle)),
                );
            }
            return;
        };
        let was_handed_over = shadow.has_walked_by(chain, handle);
        if was_handed_over {
            shadow.delete(&item, &mut self.store, steps);
        } else if shadow.cursor() == Some(handle) {
            shadow.go_to(chain.next(handle));
        }
    }

    /// Puts another item in the place of a linked one, which the caller renews next ([`Chain::renew`]): it goes to the end of the chain under
    /// its handle, with a stamp that no item had before. A delete from the main stack and an insert, and a delete from the shadow where the
    /// item was handed over; it gets the other one later. Where too much of the main stack is dead then, a rebuild starts, at the first of the
    /// items as they stand then.
    pub fn commit_move<L: Ledger>(
        &mut self,
        chain: &Chain<B::Item>,
        handle: Handle,
        item: B::Item,
        steps: &mut Steps<L>,
    )
        requires prepared { IsPrepared B.Part.Part.contents self.old }
        requires chain { IsIndexOf B.Part.Part.contents B.Item.stamp self.old chain.now.entries (B.Item.stamp item) }
        requires linked { IsTrue (is_linked handle chain.now.entries) }
        ensures chain { IsIndexOf B.Part.Part.contents B.Item.stamp self.new (renewed handle item chain.now.entries) (B.Item.stamp item + 1) }
        ensures weights { (weight_of self.new.main.levels ≡ weight_of self.old.main.levels + 1) × (shadow_weight self.new ≡ shadow_weight self.old) }
        ensures held { HoldsAsMuch self.old self.new }

        // Two ticks, one after the other.
        ensures ticks { (between : List (Slots B.Part B.Item)) × TakeTicks self.old.main.levels between × TakeTicks between self.new.main.levels }
        ensures some_turns { steps.old.turns + 3 ≤ steps.new.turns }

        // A mark for each part that is asked, and for each item that waited and waits no longer.
        ensures waiting { (gone : B.Item) → item_at handle chain.now.entries ≡ Some gone → waiting_of_both self.new + steps.new.marks ≡ waiting_of_both self.old
            + asked_of_both B.Part.Part.contents B.Item.stamp (B.Item.before First) gone handle chain.now.entries self.old + steps.old.marks }
        ensures starts { self.old.shadow ≡ None → unwalked B.Part.Part.contents self.new
            ≡ (if is_heavy B.Part.Part.contents self.new.main then Some (live_in B.Part.Part.contents self.new.main) else None) }
        ensures goes_on { (r : Walked B.Part B.Item) → self.old.shadow ≡ Some r → unwalked B.Part.Part.contents self.new
            ≡ option_map (λ w. if is_linked handle (before_cursor r.cursor chain.now.entries) then w + 1 else w) (unwalked B.Part.Part.contents self.old) }
        ensures cost { (g : ℕ) → 2 * live_in B.Part.Part.contents self.old.main + 10 < 2 ^ (g + 1)
            → IsWithin (2 * quotas B.SLOPE B.BASE 1 g + quotas B.SLOPE B.BASE 0 g) (2 * (5 * g + 3) + 2 * g) (B.Part.Part.mark_touches g) steps.old steps.new }
    {
        let gone = chain.item(handle);
        self.main.delete(&gone, &mut self.store, steps);
        self.main.insert(item, &mut self.store, steps);
        let Some(shadow) = &mut self.shadow else {
            if 2 * self.main.weight() > 3 * self.main.live() + 16 {
                start(
                    &mut self.shadow,
                    Walk::new(self.alloc, first_renewed(chain, handle)),
                );
            }
            return;
        };
        let is_in_shadow = shadow.has_walked_by(chain, handle);
        if is_in_shadow {
            shadow.delete(&gone, &mut self.store, steps);
        } else if shadow.cursor() == Some(handle) {
            shadow.go_to(next_renewed(chain, handle));
        }
    }

    /// Puts a question to the items of the chain: to the parts of the main stack, once each, those of the highest level first.
    ///
    /// `NoMemory` where the tally of the question wanted memory that wasn't given. The asking is then given up.
    pub fn ask<Q: Question<Item = B::Item>, L: Ledger>(
        &self,
        asking: &mut Asking<B::Part, Q>,
        steps: &mut Steps<L>,
    ) -> Result<(), NoMemory>
    where
        B::Part: Answers<Q>,
        requires going { asking.old.is_given_up ≡ false }
        requires room { asking.old.parts < 2 ^ 31 }
        ensures joined { (es : List (Entry B.Item)) (stamps : ℕ) → IsIndexOf B.Part.Part.contents B.Item.stamp self.now es stamps
            → IfOk result (λ _. asking.new ≡ record asking.old {
              so_far = Q.join asking.old.question asking.old.so_far (Q.value asking.old.question (map (λ e. e.item) es));
              parts = asking.old.parts + parts_of self.now.main.levels;
              live = asking.old.live + length es;
            }) }
        ensures given_up { OnErr result (asking.new
            ≡ record asking.old { so_far = asking.new.so_far; parts = asking.new.parts; live = asking.new.live; is_given_up = true }) }
        ensures refused { IsErr result → IsTrue asking.old.refusable }
        ensures consulted { IfOk result (λ _. steps.new.consulted ≡ steps.old.consulted + parts_of self.now.main.levels) }
        ensures cost { Consults steps.old steps.new (parts_of self.now.main.levels)
            (touches_of (B.Part.ask_touches asking.old.question) self.now.main.levels) }
        ensures few { AreFew B.Part.Part.contents (2 * live_in B.Part.Part.contents self.now.main + 9) self.now.main.levels }
    {
        self.main.ask(asking, steps)
    }

    /// How many items the walk hasn't come by, and `None` where no rebuild runs.
    pub fn unwalked(&self) -> Option<u64>
        ensures value { result ≡ unwalked B.Part.Part.contents self.now }

        // Little is dead, or a rebuild is in time.
        ensures holds { IsIndex B.Part.Part.contents self.now }
    {
        let shadow = self.shadow.as_ref()?;
        Some(self.main.live() - shadow.live())
    }

    /// How many items there are.
    pub fn live(&self) -> u64
        ensures { result ≡ live_in B.Part.Part.contents self.now.main }
    {
        self.main.live()
    }

    /// The weight of the main stack: how many items were inserted since it was made.
    pub fn weight(&self) -> u64
        ensures value { result ≡ weight_of self.now.main.levels }
        ensures light { result ≤ 2 * live_in B.Part.Part.contents self.now.main + 9 }
        ensures items { size_of B.Part.Part.contents self.now.main.levels ≤ result }
    {
        self.main.weight()
    }

    /// The weight of the shadow, and 0 where no rebuild runs.
    pub fn shadow_weight(&self) -> u64
        ensures value { result ≡ shadow_weight self.now }
        ensures light { 3 * result ≤ 4 * live_in B.Part.Part.contents self.now.main }
    {
        match &self.shadow {
            Some(shadow) => shadow.weight(),
            None => 0,
        }
    }

    /// The number of complete parts that a question is put to.
    pub fn parts(&self) -> u32
        ensures value { result ≡ parts_of self.now.main.levels }

        // The levels stand as between two ticks, each construction on time, and with at most three parts each.
        ensures on_time { AreOnTime B.Part.Part.contents ⟦<B as Profiled>⟧.profile self.now.main.levels }
        ensures three { All (λ l. length l.parts ≤ 3) self.now.main.levels }
        ensures few { (g : ℕ) → 2 * live_in B.Part.Part.contents self.now.main + 10 < 2 ^ (g + 1) → parts_of self.now.main.levels ≤ 3 * (g + 1) }
        ensures sizes { (g : ℕ) → 2 * live_in B.Part.Part.contents self.now.main + 10 < 2 ^ (g + 1) → HaveAtMost B.Part.Part.contents (2 ^ g) self.now.main.levels }
    {
        self.main.parts()
    }

    /// The stacks that rebuilds put out of use, as far as they are still in memory, oldest first. In each preparation the last gives a part
    /// back.
    pub fn retired(&self) -> &[Retired<B>]
        ensures value { result.now ≡ self.now.retired }
        ensures left { All (λ s. 0 < used_of s.levels) self.now.retired }
    {
        &self.retired
    }

    /// Hands so many items over, or all that are left, where a rebuild runs.
    fn walk<L: Ledger>(
        &mut self,
        chain: &Chain<B::Item>,
        most: u64,
        steps: &mut Steps<L>,
    ) -> Result<(), NoMemory>
        requires few { most ≤ 4 }
        requires chain { (stamps : ℕ) × IsIndexOf B.Part.Part.contents B.Item.stamp self.old chain.now.entries stamps }
        ensures chain { (stamps : ℕ) → IsIndexOf B.Part.Part.contents B.Item.stamp self.old chain.now.entries stamps
            → IsIndexOf B.Part.Part.contents B.Item.stamp self.new chain.now.entries stamps }
        ensures paused { HasPaused B.Part.Part.contents most self.old self.new }
        ensures quiet { self.old.shadow ≡ None → self.new.store ≡ self.old.store }
        ensures taken { IfOk result (λ _. (r r' : Walked B.Part B.Item) → self.old.shadow ≡ Some r → self.new.shadow ≡ Some r'
            → (r'.cursor ≡ None) ⊎ (live_in B.Part.Part.contents r'.stack ≡ live_in B.Part.Part.contents r.stack + most)) }
        ensures in_time { IfOk result (λ _. (r' : Walked B.Part B.Item) → self.new.shadow ≡ Some r' → (r'.cursor ≡ None → ⊥)
            → IsInTime B.Part.Part.contents most self.new.main r') }
        ensures some_turns { let ticks = to_walk B.Part.Part.contents self.old - to_walk B.Part.Part.contents self.new in
            steps.old.turns + 3 * ticks ≤ steps.new.turns }
        ensures cost { (g : ℕ) → 2 * live_in B.Part.Part.contents self.old.main + 10 < 2 ^ (g + 1)
            → let ticks = min most (to_walk B.Part.Part.contents self.old - to_walk B.Part.Part.contents self.new) in
            IsWithin (ticks * quotas B.SLOPE B.BASE 0 g) (ticks * (2 * g)) (B.Part.Part.mark_touches g) steps.old steps.new }
    {
        let Some(shadow) = &mut self.shadow else {
            return Ok(());
        };
        self.main.tell_few();
        shadow.walk(chain, most, &mut self.store, steps)
    }

    /// Whether a rebuild runs, and all items are handed over.
    fn has_walked(&self) -> bool
        ensures ended { result ≡ true → (r : Walked B.Part B.Item) × (self.now.shadow ≡ Some r) × (r.cursor ≡ None) }
        ensures going { result ≡ false → (r : Walked B.Part B.Item) → self.now.shadow ≡ Some r → r.cursor ≡ None → ⊥ }
    {
        match &self.shadow {
            Some(shadow) => shadow.has_ended(),
            None => false,
        }
    }
}

/// Puts a shadow, where there is one, in the place of a stack, which is retired.
fn swap<B: Builder>(
    main: &mut Stack<B>,
    shadow: &mut Option<Walk<B>>,
    retired: &mut Vec<Retired<B>>,
)
    requires room { length retired.old.items < vec_capacity retired.old }
    ensures swapped { (r : Walked B.Part B.Item) → shadow.old ≡ Some r → (main.new ≡ r.stack)
        × (retired.new.items ≡ with_retired retired.old.items main.old) }
    ensures kept { shadow.old ≡ None → (main.new ≡ main.old) × (retired.new.items ≡ retired.old.items) }
    ensures ended { shadow.new ≡ None }
{
    if let Some(fresh) = shadow.take() {
        let old = mem::replace(main, fresh.into_stack()).retire();
        if !old.is_empty() {
            retired.push_reserved(old);
        }
    }
}

/// Has the stack that was retired last give a part back, where one is left, frees spare memory of one level, where there is some, and takes
/// the memory of two ticks.
///
/// `NoMemory` where some isn't given; what was taken is kept.
fn settle<B: Builder>(
    main: &mut Stack<B>,
    shadow: &mut Option<Walk<B>>,
    retired: &mut Vec<Retired<B>>,
    store: &mut Store<B>,
    alloc: Global,
) -> Result<(), NoMemory>
    requires left { All (λ s. 0 < used_of s.levels) retired.old.items }
    requires owns { OwnsMemory (record { store = store.old; main = main.old; shadow = shadow.old; retired = retired.old.items }) }
    ensures left { All (λ s. 0 < used_of s.levels) retired.new.items }
    ensures owns { OwnsMemory (record { store = store.new; main = main.new; shadow = shadow.new; retired = retired.new.items }) }
    ensures one { in_retired used_of retired.new.items ≡ in_retired used_of retired.old.items - 1 }
    ensures live { live_items B.Part.Part.contents main.new.levels ≡ live_items B.Part.Part.contents main.old.levels }
    ensures items { all_items B.Part.Part.contents main.new.levels ≡ all_items B.Part.Part.contents main.old.levels }
    ensures weight { weight_of main.new.levels ≡ weight_of main.old.levels }
    ensures none { shadow.old ≡ None → shadow.new ≡ None }
    ensures some { (r : Walked B.Part B.Item) → shadow.old ≡ Some r
        → (r' : Walked B.Part B.Item) × (shadow.new ≡ Some r') × IsKept B.Part.Part.contents r r' }
    ensures frees { FreesOne B.Part.Part.contents store.old main.new shadow.new store.new }
    ensures clears { Clears B.Part.Part.contents store.old main.new shadow.new store.new }
    ensures stocked { IfOk result (λ _. weight_of main.new.levels < 2 ^ 31
        → ((r : Walked B.Part B.Item) → shadow.new ≡ Some r → weight_of r.stack.levels < 2 ^ 31) → AreStocked 2 main.new shadow.new store.new) }
{
    let back = give_back(retired, store);
    free_spare(back, main, shadow, store);
    take_memory(main, shadow, store, alloc)
}

/// Has the stack that was retired last give a part back, where one is left. It tells the level of the part.
fn give_back<B: Builder>(retired: &mut Vec<Retired<B>>, store: &mut Store<B>) -> u32
    requires left { All (λ s. 0 < used_of s.levels) retired.old.items }
    requires lent { (k : ℕ) → in_retired (used_at k) retired.old.items ≤ lent_at k store.old.builders }
    requires lent_tables { (k : ℕ) → in_retired (built_at k) retired.old.items ≤ lent_at k store.old.tables }
    ensures left { All (λ s. 0 < used_of s.levels) retired.new.items }
    ensures given { GivesBack result retired.old.items store.old retired.new.items store.new }
{
    let Some(mut last) = retired.pop() else {
        return 0;
    };
    let level = last.top();
    last.give_up(store);
    if !last.is_empty() {
        retired.push_reserved(last);
    }
    level
}

/// How many builders of a level both stacks have.
fn used<B: Builder>(main: &Stack<B>, shadow: &Option<Walk<B>>, level: u32) -> usize
    ensures value { result ≡ in_both (used_at level) main.now shadow.now }
    ensures few { result ≤ 10 }
{
    match shadow {
        Some(shadow) => main.used(level) + shadow.used(level),
        None => main.used(level),
    }
}

/// How many builders of a level the next two ticks of both stacks may take.
fn wanted<B: Builder>(main: &Stack<B>, shadow: &Option<Walk<B>>, level: u32) -> usize
    ensures value { result ≡ in_both (wanted_at 2 level) main.now shadow.now }
{
    match shadow {
        Some(shadow) => main.wanted(level) + shadow.wanted(level),
        None => main.wanted(level),
    }
}

/// A number above every level of which the next two ticks of both stacks may take a builder.
fn wanted_below<B: Builder>(main: &Stack<B>, shadow: &Option<Walk<B>>) -> u32
    ensures { (k : ℕ) → result ≤ k → in_both (wanted_at 2 k) main.now shadow.now ≡ 0 }
{
    match shadow {
        Some(shadow) => main.wanted_below().max(shadow.wanted_below()),
        None => main.wanted_below(),
    }
}

/// Frees spare memory of one level: a builder of the level to which a part came back, where there are more than both stacks may have at
/// once, or else the highest that is kept, where no level so high is wanted.
fn free_spare<B: Builder>(
    back: u32,
    main: &Stack<B>,
    shadow: &Option<Walk<B>>,
    store: &mut Store<B>,
)
    requires { (k : ℕ) → kept_at k store.old.builders + in_both (used_at k) main.now shadow.now ≤ 10 + one_if (k == back) }
    ensures few { (k : ℕ) → kept_at k store.new.builders + in_both (used_at k) main.now shadow.now ≤ 10 }
    ensures frees { FreesSpare B.Part.Part.contents main.now shadow.now store.old store.new }
    ensures unwanted { FreesUnwanted B.Part.Part.contents main.now shadow.now store.old store.new }
{
    let there = store.builders(back) + used(main, shadow, back);
    if there > BUILDERS {
        store.give_up(back);
        return;
    }
    let Some(level) = too_high(main, shadow, store) else {
        return;
    };
    store.give_up(level);
}

/// The highest level of which something is kept, where that is above the greatest of an index of so many items, and more is kept than the
/// next two ticks may take.
fn too_high<B: Builder>(main: &Stack<B>, shadow: &Option<Walk<B>>, store: &Store<B>) -> Option<u32>
    ensures high { IfSome result (λ level. 2 * live_in B.Part.Part.contents main.now + 10 < 2 ^ level) }
    ensures some { IfSome result (λ level. 0 < kept_in level store.now) }
    ensures unwanted { IfSome result (λ level. (in_both (wanted_at 2 level) main.now shadow.now ≡ 0)
        ⊎ (in_both (wanted_at 2 level) main.now shadow.now < kept_at level store.now.builders)) }
    ensures none { IfNone result (IsCleared B.Part.Part.contents main.now shadow.now store.now) }
{
    let level = store.highest()?;
    let wanted = wanted(main, shadow, level);
    if wanted > 0 && wanted >= store.builders(level) {
        return None;
    }
    let most = 2 * u128::from(main.live()) + 10;
    if level < u128::BITS && 1u128 << level <= most {
        return None;
    }
    Some(level)
}

/// Takes the memory of two ticks, for a stack and its shadow, where the store doesn't keep it.
///
/// `NoMemory` where some isn't given; what was taken is kept.
fn take_memory<B: Builder>(
    main: &mut Stack<B>,
    shadow: &mut Option<Walk<B>>,
    store: &mut Store<B>,
    alloc: Global,
) -> Result<(), NoMemory>
    ensures live { live_items B.Part.Part.contents main.new.levels ≡ live_items B.Part.Part.contents main.old.levels }
    ensures items { all_items B.Part.Part.contents main.new.levels ≡ all_items B.Part.Part.contents main.old.levels }
    ensures weight { weight_of main.new.levels ≡ weight_of main.old.levels }
    ensures none { shadow.old ≡ None → shadow.new ≡ None }
    ensures some { (r : Walked B.Part B.Item) → shadow.old ≡ Some r
        → (r' : Walked B.Part B.Item) × (shadow.new ≡ Some r') × IsKept B.Part.Part.contents r r' }
    ensures memory { TakeMemory main.old shadow.old store.old main.new shadow.new store.new }
    ensures stocked { IfOk result (λ _. weight_of main.new.levels < 2 ^ 31
        → ((r : Walked B.Part B.Item) → shadow.new ≡ Some r → weight_of r.stack.levels < 2 ^ 31) → AreStocked 2 main.new shadow.new store.new) }
{
    main.add_levels()?;
    add_levels(shadow)?;
    stock(main, shadow, store, alloc)
}

/// Makes the levels that the next two ticks of a shadow may want, where there is one.
fn add_levels<B: Builder>(shadow: &mut Option<Walk<B>>) -> Result<(), NoMemory>
    ensures none { shadow.old ≡ None → shadow.new ≡ None }
    ensures some { (r : Walked B.Part B.Item) → shadow.old ≡ Some r → (r' : Walked B.Part B.Item) × (shadow.new ≡ Some r')
        × IsKept B.Part.Part.contents r r' × AreKept r.stack.levels r'.stack.levels }
    ensures few { (r : Walked B.Part B.Item) → shadow.new ≡ Some r → HaveFew r.stack.levels }
    ensures enough { IfOk result (λ _. (r : Walked B.Part B.Item) → shadow.new ≡ Some r → weight_of r.stack.levels < 2 ^ 31
        → AreEnough r.stack.levels) }
{
    match shadow {
        Some(shadow) => shadow.add_levels(),
        None => Ok(()),
    }
}

/// Has the store keep, level by level, what two ticks of both stacks may take.
///
/// `NoMemory` where some isn't given; what was taken is kept.
fn stock<B: Builder>(
    main: &Stack<B>,
    shadow: &Option<Walk<B>>,
    store: &mut Store<B>,
    alloc: Global,
) -> Result<(), NoMemory>
    ensures stocked { IfOk result (λ _. HasRoomsBelow 32 (λ k. in_both (wanted_at 2 k) main.now shadow.now) store.new) }
    ensures taken { HasTaken (λ k. in_both (wanted_at 2 k) main.now shadow.now) store.old store.new }
{
    for level in 0..wanted_below(main, shadow).min(LEVELS) {
        stock_level(main, shadow, level, store, alloc)?;
    }
    Ok(())
}

/// Has the store keep what two ticks of both stacks may take of one level.
///
/// `NoMemory` where some isn't given; what was taken is kept.
fn stock_level<B: Builder>(
    main: &Stack<B>,
    shadow: &Option<Walk<B>>,
    level: u32,
    store: &mut Store<B>,
    alloc: Global,
) -> Result<(), NoMemory>
    requires { level < 32 }
    ensures stocked { IfOk result (λ _. HasRooms level (in_both (wanted_at 2 level) main.now shadow.now) store.new) }
    ensures takes { StocksUpTo level (in_both (wanted_at 2 level) main.now shadow.now) store.old store.new }
{
    let wanted = wanted(main, shadow, level);
    if wanted == 0 {
        return Ok(());
    }
    store.stock(level, wanted, alloc)
}

/// Starts a rebuild, where none runs.
fn start<B: Builder>(shadow: &mut Option<Walk<B>>, fresh: Walk<B>)
    requires none { shadow.old ≡ None }
    ensures started { shadow.new ≡ Some fresh }
{
    *shadow = Some(fresh);
}

/// The first item of a chain without that of a handle.
fn first_but<I: Copy>(chain: &Chain<I>, handle: Handle) -> Option<Handle>
    requires linked { IsTrue (is_linked handle chain.now.entries) }
    requires differ { HandlesDiffer chain.now.entries }
    ensures cursor { IsCursor result (without_handle handle chain.now.entries) }
    ensures before { before_cursor result (without_handle handle chain.now.entries) ≡ [] }
{
    let first = chain.first();
    if first == Some(handle) {
        return chain.next(handle);
    }
    first
}

/// The first item of a chain without that of a handle, or else the one that is put in its place.
fn first_renewed<I: Copy>(chain: &Chain<I>, handle: Handle) -> Option<Handle>
    requires linked { IsTrue (is_linked handle chain.now.entries) }
    requires differ { HandlesDiffer chain.now.entries }
    ensures cursor { (item : I) → IsCursor result (renewed handle item chain.now.entries) }
    ensures before { (item : I) → before_cursor result (renewed handle item chain.now.entries) ≡ [] }
{
    match first_but(chain, handle) {
        Some(first) => Some(first),
        None => Some(handle),
    }
}
