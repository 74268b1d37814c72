//! The stack.
ghost use Rattle.std.specs.Prelude.{◌≡◌, ◌≢◌, ℕ, ◌+◌, ◌*◌, ◌^◌, ◌<◌, ◌≤◌, true, false, [], All, Contains, IsTrue, IfOk, IsErr, OnErr, length};
ghost use Rattle.query_laws.specs.StepLedger.{Consults};
ghost use Rattle.query_laws.specs.declared.item.Order.TheVariants.{First};
ghost use Rattle.log_levels.specs.Levels.{live_items, all_items, weight_of, parts_of, parts_asked, touches_of};
ghost use Rattle.log_levels.specs.Asking.{AreThreeAtMost, HasAsked};
ghost use Rattle.log_levels.specs.Cost.{IsCostOfInsert, IsCostOfDelete, ArePaid};
ghost use Rattle.log_levels.specs.Towers.{AreOnTime};
ghost use Rattle.log_levels.specs.Marking.{noted};
ghost use Rattle.log_levels.specs.Trades.{used_at, wanted_at, IsStocked, Ticks};
ghost use Rattle.log_method.specs.Few.{HaveFew};
ghost use Rattle.log_method.specs.Stack.{HaveSameItems, MayTick, Inserts, Deletes};
ghost use Rattle.log_method.specs.Height.{IsHeight, HaveAtMost, HaveFewParts, size_of};
ghost use Rattle.log_method.specs.Preparing.{AreKept, AreEnough, HasTaken, LendsOnly, HoldsFew, rooms_of};

use crate::preparing::{add_levels, forecast, stock_levels, wanted};
use crate::retired::Retired;
use builder_trait::{Answers, Asking, Builder, Part, Profiled};
use log_levels::{Level, ask_levels, take_in, take_out};
use part_store::Store;
use query_laws::step_ledger::Steps;
use query_laws::{Item, NoMemory, Question};
use std::alloc::Global;
use std::marker::Model;
use std::sync::ledger::Ledger;

/// A dynamic set of items with different stamps, in static parts.
///
/// Each insert and each delete is one tick: it spends a quota of turns at each level where a construction runs, so that none of
/// them stalls. What it takes is lent by a store, which [`Stack::prepare`] stocks. A deleted item stays, dead, until the part that has
/// it is made anew: the weight of a stack is the number of inserts since it was made.
#[derive(Drop)]
pub struct Stack<B: Builder> {
    alloc: Global,
    levels: Vec<Level<B>>,
    weight: u64,
    live: u64,
}

impl<B: Builder> Model for Stack<B> {
    ghost use Rattle.std.specs.Prelude.{◌≡◌, ◌≤◌, length};
    ghost use Rattle.log_levels.specs.Levels.{live_items, weight_of};
    ghost use Rattle.log_method.specs.Stack.{Stacked};
    ghost use Rattle.log_method.specs.Stack.{IsStack};

    ghost Value = { Stacked B.Part B.Item };

    ghost view = { λ s. record { levels = s.levels.items } };

    ghost invariant = { λ s.
        IsStack B.Part.Part.contents (record { stamp = B.Item.stamp; before = B.Item.before; slope = B.SLOPE; base = B.BASE })
        (record { levels = s.levels.items })
        × (s.weight ≡ weight_of s.levels.items)
        × (s.live ≡ length (live_items B.Part.Part.contents s.levels.items))
        × (s.live ≤ s.weight) };
}

impl<B: Builder> Stack<B> {
    /// A stack without items. It takes no memory; [`Stack::add_levels`] takes that of its levels from `alloc`.
    pub fn new(alloc: Global) -> Stack<B>
        ensures { result ≡ record { levels = [] } }
    {
        Stack {
            alloc,
            levels: Vec::new(alloc),
            weight: 0,
            live: 0,
        }
    }

    /// Inserts an item: one tick. Its stamp is that of no other item of the stack, dead ones included.
    pub fn insert<L: Ledger>(&mut self, item: B::Item, store: &mut Store<B>, steps: &mut Steps<L>)
        requires ready { MayTick self.old.levels store.old }
        requires apart { All (λ x. B.Item.stamp x ≢ B.Item.stamp item) (all_items B.Part.Part.contents self.old.levels) }
        ensures inserts { Inserts B.Part.Part.contents item self.old.levels self.new.levels }
        ensures trades { Ticks self.old.levels store.old self.new.levels store.new }

        // A part is made of the item.
        ensures some_turns { steps.old.turns + 3 ≤ steps.new.turns }

        // Whichever bound g there is: the least is the greatest level with `2 ^ g` at most the weight. The marks are one for each item that waited
        // and waits no longer.
        ensures cost { IsCostOfInsert B.SLOPE B.BASE B.Part.Part.mark_touches self.old.levels self.new.levels steps.old steps.new }
        ensures paid { ArePaid ⟦<B as Profiled>⟧.profile self.old.levels self.new.levels steps.old steps.new }
    {
        take_in(&mut self.levels, item, store, steps);
        self.weight += 1;
        self.live += 1;
    }

    /// Deletes an item: one tick. The parts are asked for it, those of the highest level first, until one has it.
    pub fn delete<L: Ledger>(&mut self, item: &B::Item, store: &mut Store<B>, steps: &mut Steps<L>)
        requires ready { MayTick self.old.levels store.old }
        requires live { Contains (live_items B.Part.Part.contents self.old.levels) item.now }
        ensures deletes { Deletes B.Part.Part.contents B.Item.stamp (B.Item.stamp item.now) self.old.levels self.new.levels }
        ensures trades { Ticks self.old.levels store.old self.new.levels store.new }

        // Whichever bound g there is, as for an insert. The marks are one for each part that is asked, and one for each item that waited and waits
        // no longer.
        ensures cost { IsCostOfDelete B.SLOPE B.BASE B.Part.Part.mark_touches
            (parts_asked B.Part.Part.contents B.Item.stamp (B.Item.stamp item.now) self.old.levels)
            (noted (B.Item.before First) item.now B.Part.Part.contents B.Item.stamp self.old.levels)
            self.old.levels self.new.levels steps.old steps.new }
        ensures paid { ArePaid ⟦<B as Profiled>⟧.profile self.old.levels self.new.levels steps.old steps.new }

        // At most three of each level up to g, and no part weighs more.
        ensures few_asked { (g : ℕ) → weight_of self.new.levels < 2 ^ (g + 1)
            → parts_asked B.Part.Part.contents B.Item.stamp (B.Item.stamp item.now) self.old.levels ≤ 3 * (g + 1) }
    {
        take_out(&mut self.levels, item, store, steps);
        self.live -= 1;
    }

    /// The number of inserts since the stack was made: the sum of `2^i` over the complete parts of each level i.
    pub fn weight(&self) -> u64
        ensures value { result ≡ weight_of self.now.levels }
        ensures items { size_of B.Part.Part.contents self.now.levels ≤ result }
    {
        self.weight
    }

    /// The number of live items.
    pub fn live(&self) -> u64
        ensures { result ≡ length (live_items B.Part.Part.contents self.now.levels) }
    {
        self.live
    }

    /// Puts a question to all complete parts, once each, those of the highest level first; a part under construction isn't asked.
    /// It takes no memory of its own.
    ///
    /// `NoMemory` where the tally of the question wanted memory that wasn't given. The asking is then given up.
    pub fn ask<Q: Question<Item = B::Item>, L: Ledger>(
        &self,
        asking: &mut Asking<B::Part, Q>,
        steps: &mut Steps<L>,
    ) -> Result<(), NoMemory>
    where
        B::Part: Answers<Q>,
        requires going { asking.old.is_given_up ≡ false }
        requires room { asking.old.parts < 2 ^ 31 }
        ensures joined { HasAsked B.Part.Part.contents Q.join Q.value self.now.levels result asking.old asking.new }
        ensures given_up { OnErr result (asking.new
            ≡ record asking.old { so_far = asking.new.so_far; parts = asking.new.parts; live = asking.new.live; is_given_up = true }) }
        ensures refused { IsErr result → IsTrue asking.old.refusable }
        ensures consulted { IfOk result (λ _. steps.new.consulted ≡ steps.old.consulted + parts_of self.now.levels) }
        ensures cost { Consults steps.old steps.new (parts_of self.now.levels) (touches_of (B.Part.ask_touches asking.old.question) self.now.levels) }
        ensures three { AreThreeAtMost B.Part.Part.contents self.now.levels }
        ensures few { HaveFewParts B.Part.Part.contents self.now.levels }
    {
        // It says that what was answered so far is lawful.
        asking.consulted();
        ask_levels::<B, Q, L>(self.asked_levels(), asking, steps)
    }

    /// The levels, with what a question has to know of their parts.
    fn asked_levels(&self) -> &[Level<B>]
        ensures value { result.now ≡ self.now.levels }
        ensures room { parts_of result.now ≤ 96 }
        ensures few { HaveFewParts B.Part.Part.contents self.now.levels }
    {
        &self.levels
    }

    /// The number of complete parts.
    pub fn parts(&self) -> u32
        ensures value { result ≡ parts_of self.now.levels }

        // The levels stand as between two ticks, each construction on time, and with at most three parts each.
        ensures on_time { AreOnTime B.Part.Part.contents ⟦<B as Profiled>⟧.profile self.now.levels }
        ensures three { All (λ l. length l.parts ≤ 3) self.now.levels }

        // Whichever bound g there is, as for an insert.
        ensures few { (g : ℕ) → weight_of self.now.levels < 2 ^ (g + 1) → parts_of self.now.levels ≤ 3 * (g + 1) }
        ensures sizes { (g : ℕ) → weight_of self.now.levels < 2 ^ (g + 1) → HaveAtMost B.Part.Part.contents (2 ^ g) self.now.levels }
    {
        let mut parts = 0;
        for level in &self.levels {
            parts += level.parts().len() as u32;
        }
        parts
    }

    /// The least number above every level that has a complete part or a construction, and 0 where there is none.
    pub fn levels(&self) -> u32
        ensures { IsHeight self.now.levels result }
    {
        let mut height = self.levels.len();
        while height > 0 && self.levels[height - 1].is_idle() {
            height -= 1;
        }
        height as u32
    }

    /// Makes the levels, as empty ones, that the next two ticks may want.
    ///
    /// `NoMemory` where memory for one isn't given; those made so far stay.
    pub fn add_levels(&mut self) -> Result<(), NoMemory>
        ensures enough { IfOk result (λ _. weight_of self.new.levels < 2 ^ 31 → AreEnough self.new.levels) }
        ensures same { HaveSameItems B.Part.Part.contents self.old.levels self.new.levels }
        ensures each { AreKept self.old.levels self.new.levels }
        ensures has_few { HaveFew self.new.levels }
    {
        add_levels(&mut self.levels, self.alloc)
    }

    /// How many builders of a level the next two ticks may take, and above level 0 as many tables.
    pub fn wanted(&self, level: u32) -> usize
        ensures value { result ≡ wanted_at 2 level self.now.levels }
        ensures few { result ≤ 2 }
    {
        wanted(&self.levels, level)
    }

    /// A number above every level of which the next two ticks may take a builder.
    pub fn wanted_below(&self) -> u32
        ensures { (k : ℕ) → result ≤ k → wanted_at 2 k self.now.levels ≡ 0 }
    {
        self.levels.len() as u32 + 1
    }

    /// It does no work, and says how much of each level the stack has and may want.
    pub fn tell_few(&self)
        ensures { HaveFew self.now.levels }
    {
        let _opened = self.weight;
    }

    /// How many builders of a level the stack has, one that a part is made in too.
    pub fn used(&self, level: u32) -> usize
        ensures value { result ≡ used_at level self.now.levels }
        ensures has_few { HaveFew self.now.levels }
    {
        match self.levels.get(level as usize) {
            Some(at) => at.parts().len() + usize::from(at.is_building()),
            None => 0,
        }
    }

    /// Takes all memory that the next two ticks may want, by forecast: levels, and what a store that serves no other stack has to keep.
    ///
    /// `NoMemory` where it isn't given; what was taken is kept.
    pub fn prepare(&mut self, store: &mut Store<B>) -> Result<(), NoMemory>
        ensures stocked { IfOk result (λ _. weight_of self.new.levels < 2 ^ 31 → IsStocked self.new.levels store.new 2) }
        ensures same { HaveSameItems B.Part.Part.contents self.old.levels self.new.levels }
        ensures each { AreKept self.old.levels self.new.levels }
        ensures taken { HasTaken (λ k. wanted_at 2 k self.new.levels) store.old store.new }
        ensures has_few { HaveFew self.new.levels }

        // Of whichever level: three complete parts, one under construction, and what is wanted.
        ensures few { LendsOnly self.old.levels store.old → HoldsFew store.old store.new }
    {
        add_levels(&mut self.levels, self.alloc)?;
        stock_levels(&self.levels, store, self.alloc)
    }

    /// The weight of what the next two ticks may take: a builder for a construction into level i weighs `2^i`, and one for an item 1.
    pub fn rooms(&self) -> u64
        ensures value { result ≡ rooms_of self.now }
        ensures few { result ≤ 2 ^ 33 }
    {
        2 + forecast(&self.levels, 0)
    }

    /// Gives up the items: what is left is the memory, to be given back part by part.
    pub fn retire(self) -> Retired<B>
        ensures { result ≡ self }
    {
        let Stack {
            alloc: _,
            levels,
            weight: _,
            live: _,
        } = self;
        Retired::new(levels)
    }
}
