//! The stack.
ghost use Rattle.std.specs.Prelude.{◌≡◌, ◌≢◌, ℕ, ◌+◌, ◌-◌, ◌*◌, ◌^◌, ◌<◌, ◌≤◌, [], ◌∷◌, true, false, All, Contains, IsTrue, IfOk, IsOk, IsErr, OnErr, length};
ghost use Rattle.query_laws.specs.StepLedger.{Spends, Consults};
ghost use Rattle.binary_stack.specs.Charge.{ones, charge, charge_of};
ghost use Rattle.binary_stack.specs.Levels.{weight_of, parts_of, touches_of, live_items, all_items, HaveAtMost, AreLevels, IsTakenIn, AreMarked};

use crate::asking::ask_levels;
use crate::carrying::take_in;
use crate::marking::mark_in;
use crate::preparing::take_memory;
use crate::room::{Room, part_of};
use builder_trait::{Answers, Asking, Builder, Part};
use query_laws::step_ledger::Steps;
use query_laws::{Item, NoMemory, Question};
use std::alloc::Global;
use std::collections::VecDeque;
use std::marker::Model;
use std::sync::ledger::Ledger;

/// A dynamic set of items with different stamps, in static parts, at most one a level.
///
/// An insert joins all parts from level 0 up to the first level that has none, at once; a delete marks. Memory is taken by
/// [`BinaryStack::prepare`] alone. A deleted item stays, dead, until its part is joined.
#[derive(Drop)]
pub struct BinaryStack<B: Builder> {
    alloc: Global,
    levels: Vec<Option<B::Part>>,
    starter: Option<B>,
    rooms: VecDeque<Room<B>>,
    spare: u32,
    weight: u64,
    live: u64,
    spent: u64,
}

impl<B: Builder> Model for BinaryStack<B> {
    ghost use Rattle.std.specs.Prelude.{◌≡◌, ◌≤◌, length, vec_capacity};
    ghost use Rattle.binary_stack.specs.Levels.{weight_of, live_items};
    ghost use Rattle.binary_stack.specs.Counter.{Counter, IsCounter, IsReady};

    ghost Value = { Counter B.Part };

    ghost view = { λ s. record { levels = s.levels.items; spare = s.spare; spent = s.spent } };

    ghost invariant = { λ s.
        IsCounter B.Part.Part.contents B.Item.stamp B.SLOPE B.BASE (record { levels = s.levels.items; spare = s.spare; spent = s.spent })
        × (s.weight ≡ weight_of s.levels.items)
        × (s.live ≡ length (live_items B.Part.Part.contents s.levels.items))
        × (s.live ≤ s.weight)
        × (1 ≤ s.spare → IsReady B.Part.Part.contents B.progress s.levels.items (vec_capacity s.levels) s.starter s.rooms.items) };
}

impl<B: Builder> BinaryStack<B> {
    /// A stack without items. It takes no memory; [`BinaryStack::prepare`] takes its from `alloc`.
    pub fn new(alloc: Global) -> BinaryStack<B>
        ensures { result ≡ record { levels = []; spare = 0; spent = 0 } }
    {
        BinaryStack {
            alloc,
            levels: Vec::new(alloc),
            starter: None,
            rooms: VecDeque::new(alloc),
            spare: 0,
            weight: 0,
            live: 0,
            spent: 0,
        }
    }

    /// Inserts an item. Its stamp is that of no other item of the stack, dead ones included. Sixteen touches at most for each turn.
    pub fn insert<L: Ledger>(&mut self, item: B::Item, steps: &mut Steps<L>)
        requires spare { 1 ≤ self.old.spare }
        requires light { weight_of self.old.levels < 2 ^ 40 }
        requires few { length (live_items B.Part.Part.contents self.old.levels) < 2 ^ 30 }
        requires apart { All (λ x. B.Item.stamp x ≢ B.Item.stamp item) (all_items B.Part.Part.contents self.old.levels) }
        ensures taken_in { IsTakenIn B.Part.Part.contents (item ∷ []) self.old.levels self.new.levels }
        ensures spare { self.old.spare ≤ self.new.spare + 1 }

        // A part is made of the item.
        ensures some_turns { steps.old.turns + 3 ≤ steps.new.turns }

        // No part is built twice: each that this insert builds is charged once.
        ensures paid { let turns = steps.new.turns - steps.old.turns in
            2 * turns + charge_of B.SLOPE B.BASE 0 self.old.levels ≤ charge_of B.SLOPE B.BASE 0 self.new.levels }

        // By exactly the turns of this insert.
        ensures spent { self.new.spent + steps.old.turns ≡ self.old.spent + steps.new.turns }
        ensures cost { let turns = steps.new.turns - steps.old.turns in Spends steps.old steps.new turns 0 (16 * turns) }
    {
        let part = part_of(&mut self.starter, item, &mut self.spent, steps);
        take_in(
            &mut self.levels,
            &mut self.rooms,
            part,
            &mut self.spent,
            steps,
        );
        self.spare -= 1;
        self.weight += 1;
        self.live += 1;
    }

    /// Deletes an item: no turn, and no memory. The parts are asked for it, those of the highest level first, until one has it.
    pub fn delete<L: Ledger>(&mut self, item: &B::Item, steps: &mut Steps<L>)
        requires { Contains (live_items B.Part.Part.contents self.old.levels) item.now }
        ensures marked { AreMarked B.Part.Part.contents B.Item.stamp (B.Item.stamp item.now) self.old.levels self.new.levels }
        ensures same { self.new ≡ record self.old { levels = self.new.levels } }
        ensures few { steps.new.marks ≤ steps.old.marks + parts_of self.old.levels }

        // Where no part has more than 2^h items.
        ensures cost { (h : ℕ) → HaveAtMost B.Part.Part.contents (2 ^ h) self.old.levels → let marks = steps.new.marks - steps.old.marks in
            Spends steps.old steps.new 0 marks (marks * B.Part.Part.mark_touches h) }
    {
        mark_in(&mut self.levels, item, steps);
        self.live -= 1;
    }

    /// The number of inserts that need no more memory.
    pub fn spare(&self) -> u32
        ensures { result ≡ self.now.spare }
    {
        self.spare
    }

    /// The number of inserts since the stack was made. It has a part a level, exactly at those where this has a one in binary.
    pub fn weight(&self) -> u64
        ensures { result ≡ weight_of self.now.levels }
    {
        self.weight
    }

    /// The number of live items.
    pub fn live(&self) -> u64
        ensures { result ≡ length (live_items B.Part.Part.contents self.now.levels) }
    {
        self.live
    }

    /// The turns of all inserts since the stack was made.
    pub fn spent(&self) -> u64
        ensures value { result ≡ self.now.spent }

        // Whichever bound g there is: the least is the greatest level with `2 ^ g` at most the weight.
        ensures charged { (g : ℕ) → weight_of self.now.levels < 2 ^ (g + 1)
            → 2 * result ≤ charge B.SLOPE B.BASE 0 (g + 1) (weight_of self.now.levels) }

        // No more than all inserts were each charged the same.
        ensures few { (g : ℕ) → weight_of self.now.levels < 2 ^ (g + 1)
            → 4 * result ≤ weight_of self.now.levels * ((g + 1) * (B.SLOPE * g + 2 * (B.BASE + 4))) }
    {
        self.spent
    }

    /// Puts a question to all parts, once each, those of the lowest level first. It takes no memory of its own.
    ///
    /// `NoMemory` where the tally of the question wanted memory that wasn't given. The asking is then given up.
    pub fn ask<Q: Question<Item = B::Item>, L: Ledger>(
        &self,
        asking: &mut Asking<B::Part, Q>,
        steps: &mut Steps<L>,
    ) -> Result<(), NoMemory>
    where
        B::Part: Answers<Q>,
        requires going { asking.old.is_given_up ≡ false }
        requires room { asking.old.parts < 2 ^ 31 }
        ensures joined { IfOk result (λ _. asking.new ≡ record asking.old {
          so_far = Q.join asking.old.question asking.old.so_far (Q.value asking.old.question (live_items B.Part.Part.contents self.now.levels));
          parts = asking.old.parts + parts_of self.now.levels;
          live = asking.old.live + length (live_items B.Part.Part.contents self.now.levels);
        }) }
        ensures given_up { OnErr result (asking.new
            ≡ record asking.old { so_far = asking.new.so_far; parts = asking.new.parts; live = asking.new.live; is_given_up = true }) }
        ensures refused { IsErr result → IsTrue asking.old.refusable }
        ensures consulted { IfOk result (λ _. steps.new.consulted ≡ steps.old.consulted + parts_of self.now.levels) }
        ensures cost { Consults steps.old steps.new (parts_of self.now.levels) (touches_of (B.Part.ask_touches asking.old.question) self.now.levels) }
    {
        // It says that what was answered so far is lawful.
        asking.consulted();
        ask_levels::<B::Part, Q, L>(self.asked_levels(), asking, steps)
    }

    /// The levels, with what a question has to know of their parts.
    fn asked_levels(&self) -> &[Option<B::Part>]
        ensures value { result.now ≡ self.now.levels }
        ensures room { parts_of result.now ≤ 41 }
    {
        &self.levels
    }

    /// The number of parts.
    pub fn parts(&self) -> u32
        ensures value { result ≡ parts_of self.now.levels }

        // Whichever bound g there is.
        ensures ones { (g : ℕ) → weight_of self.now.levels < 2 ^ (g + 1) → result ≡ ones (g + 1) (weight_of self.now.levels) }
        ensures few { (g : ℕ) → weight_of self.now.levels < 2 ^ (g + 1) → result ≤ g + 1 }
        ensures sizes { (g : ℕ) → weight_of self.now.levels < 2 ^ (g + 1) → HaveAtMost B.Part.Part.contents (2 ^ g) self.now.levels }
        ensures levels { AreLevels B.Part.Part.contents 0 self.now.levels }
    {
        let mut parts = 0;
        for level in &self.levels {
            parts += u32::from(level.is_some());
        }
        parts
    }

    /// Takes all memory that the next insert may want: a builder for its item, and a room for each part that it builds. It takes none where
    /// that of an insert is spare.
    ///
    /// `NoMemory` where it isn't given; what was taken is given back then.
    pub fn prepare(&mut self) -> Result<(), NoMemory>
        ensures spare { IfOk result (λ _. 1 ≤ self.new.spare) }
        ensures succeeds { 1 ≤ self.old.spare → IsOk result }
        ensures no_lower { self.old.spare ≤ self.new.spare }
        ensures same { self.new ≡ record self.old { spare = self.new.spare } }
    {
        if self.spare > 0 {
            return Ok(());
        }
        let (starter, rooms) = take_memory(&mut self.levels, self.alloc)?;
        self.starter = Some(starter);
        self.rooms = rooms;
        self.spare = 1;
        Ok(())
    }
}
