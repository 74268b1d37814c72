//! The construction itself.
ghost use Rattle.std.specs.Prelude.{◌≡◌, ℕ, ◌+◌, ◌-◌, ◌*◌, ◌<◌, ◌≤◌, ◌^◌, [], ◌∷◌, ◌++◌, Bool, false, true, min, length, if◌then◌else◌, Some, slice_get, vec_capacity};
ghost use Rattle.query_laws.specs.StepLedger.{Spends};
ghost use Rattle.query_laws.specs.declared.item.Order.TheVariants.{First};
ghost use Rattle.builder_trait.specs.Parts.{Contents, marked, live_of};
ghost use Rattle.builder_trait.specs.Builders.{begun, all_live};
ghost use Rattle.ordered_merge.specs.Merging.{unbegun, is_passed};
ghost use Rattle.partial_build.specs.Quota.{quota};
ghost use Rattle.partial_build.specs.Construction.{Builds, AreTaken, AreDrained, IsOnTime, IsPaid, IsPublished, turns_left};

use crate::new_part::NewPart;
use crate::room::{Room, Tables};
use builder_trait::{Builder, Part, Profiled};
use ordered_merge::Merge;
use query_laws::Item;
use query_laws::step_ledger::Steps;
use std::marker::Model;
use std::sync::ledger::Ledger;

/// How many of the items that wait a tick marks in the new part.
const MARKS: u64 = 2;

/// The construction of one part of two, a and b, while items of these still die.
///
/// It begins in a [`Room`], takes `2^level` ticks, and is then published. Each tick takes a quota of turns; the
/// sources are read and the part is built by half of the ticks. An item that dies in a source is noted. Where it was read already,
/// it waits until the new part is built and a tick marks it there. No call takes memory.
#[derive(Drop)]
pub struct Build<B: Builder> {
    level: u32,
    ticks: u64,
    merge: Merge<B>,
    part: NewPart<B>,
    waiting: Vec<B::Item>,
}

impl<B: Builder> Model for Build<B> {
    ghost use Rattle.std.specs.Prelude.{vec_capacity};
    ghost use Rattle.partial_build.specs.Construction.{Construction, IsUnderConstruction};

    ghost Value = { Construction B.Item };

    ghost view = { λ c. record { level = c.level; ticks = c.ticks; merge = c.merge; part = c.part; waiting = c.waiting.items } };

    ghost invariant = { λ c. IsUnderConstruction (record { stamp = B.Item.stamp; before = B.Item.before; slope = B.SLOPE; base = B.BASE })
        (vec_capacity c.waiting)
        (record { level = c.level; ticks = c.ticks; merge = c.merge; part = c.part; waiting = c.waiting.items }) };
}

impl<B: Builder> Build<B> {
    /// A construction whose merge has begun.
    pub(crate) fn begun(level: u32, merge: Merge<B>, builder: B, waiting: Vec<B::Item>) -> Build<B>
        requires least { 1 ≤ level }
        requires most { level < 32 }
        requires empty { B.progress builder ≡ begun level }
        requires merge { merge ≡ record (unbegun (2 ^ (level - 1))) { left = merge.left } }
        requires few { merge.left ≤ 2 * 2 ^ level }
        requires none { waiting.items ≡ [] }
        requires wide { 2 ^ (level - 1) + 1 ≤ vec_capacity waiting }
        ensures begun { result ≡ record {
          level = level;
          ticks = 0;
          merge = merge;
          part = record result.part { contents = result.part.contents };
          waiting = [];
        } }
        ensures empty { result.part.contents ≡ all_live (B.progress builder) }
        ensures unsealed { 0 < merge.left → result.part.is_sealed ≡ false }
        ensures on_time { IsOnTime ⟦<B as Profiled>⟧.profile result }
    {
        let mut part = NewPart::new(builder);
        if merge.done() {
            part.seal();
        }
        Build {
            level,
            ticks: 0,
            merge,
            part,
            waiting,
        }
    }

    /// One tick: a quota of turns, fewer only where the part is built by fewer, and none once it is built; and then, where it is built,
    /// two marks of items that wait, or of all where fewer wait. Sixteen touches at most for each turn, and those of the structure for each mark.
    pub fn tick<L: Ledger>(&mut self, a: &B::Part, b: &B::Part, steps: &mut Steps<L>)
        requires early { self.old.ticks < 2 ^ self.old.level }
        requires builds { Builds ⟦<B as Profiled>⟧.profile self.old (B.Part.Part.contents a.now) (B.Part.Part.contents b.now) }
        ensures builds { Builds ⟦<B as Profiled>⟧.profile self.new (B.Part.Part.contents a.now) (B.Part.Part.contents b.now) }
        ensures ticked { (self.new.level ≡ self.old.level) × (self.new.ticks ≡ self.old.ticks + 1) }
        ensures on_time { IsOnTime ⟦<B as Profiled>⟧.profile self.new }
        ensures taken { AreTaken ⟦<B as Profiled>⟧.profile (steps.new.turns - steps.old.turns) self.old self.new }
        ensures paid { IsPaid (steps.new.turns - steps.old.turns) self.old self.new }
        ensures drained { AreDrained (steps.new.marks - steps.old.marks) self.old self.new }
        ensures cost { let turns = steps.new.turns - steps.old.turns in let marks = steps.new.marks - steps.old.marks in
            Spends steps.old steps.new turns marks (16 * turns + marks * B.Part.Part.mark_touches self.old.level) }
    {
        let quota = self.quota();
        let reading = quota.min(self.merge.left());
        self.read(reading, a, b, steps);
        self.grow(quota - reading, steps);
        self.drain(MARKS, steps);
        self.ticks += 1;
    }

    /// The most turns of a tick.
    fn quota(&self) -> u64
        ensures { result ≡ quota B.SLOPE B.BASE self.now.level }
    {
        B::SLOPE * self.level as u64 + B::BASE + 4
    }

    /// Reads so many items of the sources.
    fn read<L: Ledger>(&mut self, count: u64, a: &B::Part, b: &B::Part, steps: &mut Steps<L>)
        requires enough { count ≤ self.old.merge.left }
        requires builds { Builds ⟦<B as Profiled>⟧.profile self.old (B.Part.Part.contents a.now) (B.Part.Part.contents b.now) }
        ensures builds { Builds ⟦<B as Profiled>⟧.profile self.new (B.Part.Part.contents a.now) (B.Part.Part.contents b.now) }
        ensures same { self.new ≡ record self.old { merge = self.new.merge; part = self.new.part } }
        ensures left { self.new.merge.left + count ≡ self.old.merge.left }
        ensures sealed { self.old.part.is_sealed ≡ false → self.new.part.is_sealed ≡ true → length self.new.part.contents.items ≤ self.new.part.left }
        ensures fewer { turns_left ⟦<B as Profiled>⟧.profile self.new + count ≤ turns_left ⟦<B as Profiled>⟧.profile self.old }
        ensures exact { count ≡ 0 → turns_left ⟦<B as Profiled>⟧.profile self.new ≡ turns_left ⟦<B as Profiled>⟧.profile self.old }
        ensures cost { Spends steps.old steps.new count 0 (16 * count) }
    {
        if count == 0 {
            return;
        }
        self.part.read(&mut self.merge, count, a, b, steps);
        if self.merge.done() {
            self.part.seal();
        }
    }

    /// Takes turns of the builder, at most so many, once all is read.
    fn grow<L: Ledger>(&mut self, most: u64, steps: &mut Steps<L>)
        requires read { 0 < self.old.merge.left → most ≡ 0 }
        ensures same { self.new ≡ record self.old { part = record self.new.part { contents = self.old.part.contents } } }
        ensures sealed { self.new.part.is_sealed ≡ self.old.part.is_sealed }
        ensures turns { steps.new.turns - steps.old.turns ≤ most }
        ensures all_turns { steps.new.turns - steps.old.turns < most → self.new.part.is_built ≡ true }
        ensures left { turns_left ⟦<B as Profiled>⟧.profile self.new + (steps.new.turns - steps.old.turns) ≡ turns_left ⟦<B as Profiled>⟧.profile self.old }
        ensures cost { let turns = steps.new.turns - steps.old.turns in Spends steps.old steps.new turns 0 (16 * turns) }
    {
        if self.merge.done() && !self.part.is_built() {
            let count = most.min(self.part.left());
            self.part.turns(count, steps);
        }
    }

    /// Marks so many of the items that wait in the new part, where that is built, or all where fewer wait.
    fn drain<L: Ledger>(&mut self, most: u64, steps: &mut Steps<L>)
        requires some { (a : Contents B.Item) × (b : Contents B.Item) × Builds ⟦<B as Profiled>⟧.profile self.old a b }
        ensures builds { (a b : Contents B.Item) → Builds ⟦<B as Profiled>⟧.profile self.old a b → Builds ⟦<B as Profiled>⟧.profile self.new a b }
        ensures same { self.new ≡ record self.old {
          part = record self.old.part { contents = self.new.part.contents };
          waiting = self.new.waiting;
        } }
        ensures items { self.new.part.contents.items ≡ self.old.part.contents.items }
        ensures marks { steps.new.marks - steps.old.marks ≡ (if self.old.part.is_built then min most (length self.old.waiting) else 0) }
        ensures drained { length self.new.waiting + (steps.new.marks - steps.old.marks) ≡ length self.old.waiting }
        ensures cost { let marks = steps.new.marks - steps.old.marks in
            Spends steps.old steps.new 0 marks (marks * B.Part.Part.mark_touches self.old.level) }
    {
        if !self.part.is_built() {
            return;
        }
        for _drained in 0..most {
            self.mark_next(steps);
        }
    }

    /// Marks an item that waits in the new part, which is built.
    fn mark_next<L: Ledger>(&mut self, steps: &mut Steps<L>)
        requires built { self.old.part.is_built ≡ true }
        requires some { (a : Contents B.Item) × (b : Contents B.Item) × Builds ⟦<B as Profiled>⟧.profile self.old a b }
        ensures builds { (a b : Contents B.Item) → Builds ⟦<B as Profiled>⟧.profile self.old a b → Builds ⟦<B as Profiled>⟧.profile self.new a b }
        ensures same { self.new ≡ record self.old {
          part = record self.old.part { contents = self.new.part.contents };
          waiting = self.new.waiting;
        } }
        ensures items { self.new.part.contents.items ≡ self.old.part.contents.items }
        ensures marks { steps.new.marks - steps.old.marks ≡ min 1 (length self.old.waiting) }
        ensures drained { length self.new.waiting + (steps.new.marks - steps.old.marks) ≡ length self.old.waiting }
        ensures cost { let marks = steps.new.marks - steps.old.marks in
            Spends steps.old steps.new 0 marks (marks * B.Part.Part.mark_touches self.old.level) }
    {
        if let Some(item) = self.waiting.pop() {
            self.part.mark(&item, steps);
        }
    }

    /// Takes note of an item that has just died in a source: where it was read, it waits. It counts nothing.
    pub fn note(&mut self, item: &B::Item)
        requires early { self.old.ticks < 2 ^ self.old.level }
        requires on_time { IsOnTime ⟦<B as Profiled>⟧.profile self.old }
        ensures noted { self.new ≡ record self.old {
          waiting = if is_passed (B.Item.before First) self.old.merge.reached item.now then self.old.waiting ++ item.now ∷ [] else self.old.waiting;
        } }

        // Whichever the sources are: with the one in which it stood live and is marked now.
        ensures of_a { (a b : Contents B.Item) (k : ℕ) → Builds ⟦<B as Profiled>⟧.profile self.old a b
            → slice_get a.items k ≡ Some item.now → slice_get a.flags k ≡ Some true
            → Builds ⟦<B as Profiled>⟧.profile self.new (marked B.Item.stamp (B.Item.stamp item.now) a) b }
        ensures of_b { (a b : Contents B.Item) (k : ℕ) → Builds ⟦<B as Profiled>⟧.profile self.old a b
            → slice_get b.items k ≡ Some item.now → slice_get b.flags k ≡ Some true
            → Builds ⟦<B as Profiled>⟧.profile self.new a (marked B.Item.stamp (B.Item.stamp item.now) b) }
    {
        if !self.merge.passed(item) {
            return;
        }
        self.waiting.push_reserved(*item);
    }

    /// The new part, after all ticks, and tables for the next construction into the level. It counts nothing, and takes and frees no
    /// memory.
    pub fn publish(self) -> (B::Part, Tables<B>)
        requires ended { self.ticks ≡ 2 ^ self.level }
        requires none { self.waiting ≡ [] }
        ensures part { B.Part.Part.contents result.0 ≡ self.part.contents }

        // Whichever the sources are.
        ensures published { (a b : Contents B.Item) → Builds ⟦<B as Profiled>⟧.profile self a b
            → IsPublished self a b (B.Part.Part.contents result.0) }
        ensures live { live_of (B.Part.Part.contents result.0) ≡ live_of self.part.contents }
        ensures tables { result.1 ≡ self.level }
    {
        let Build {
            level,
            ticks: _,
            merge,
            part,
            waiting,
        } = self;
        (part.into_part(), Tables::emptied(level, merge, waiting))
    }

    /// Gives the construction up, at any time, and hands back all its memory, as room for the next construction into the level: so nothing of
    /// it is freed whole. It counts nothing, and takes and frees no memory; each row and table is emptied in one step.
    pub fn abandon(self) -> Room<B>
        ensures { result ≡ self.level }
    {
        let Build {
            level,
            ticks: _,
            merge,
            part,
            waiting,
        } = self;
        Room::of(part.into_builder(), Tables::emptied(level, merge, waiting))
    }

    /// The level that the part goes to.
    pub fn level(&self) -> u32
        ensures { result ≡ self.now.level }
    {
        self.level
    }

    /// How many ticks are done, of `2^level`.
    pub fn ticks(&self) -> u64
        ensures { result ≡ self.now.ticks }
    {
        self.ticks
    }

    /// How many items wait to be marked in the new part.
    pub fn waiting(&self) -> usize
        ensures { result ≡ length self.now.waiting }
    {
        self.waiting.len()
    }

    /// How many turns are left, where the builder isn't sealed yet at most.
    pub fn turns_left(&self) -> u64
        ensures { result ≡ turns_left ⟦<B as Profiled>⟧.profile self.now }
    {
        if self.merge.done() {
            return self.part.left();
        }
        let half = 2u64.pow(self.level - 1);
        self.merge.left() + half * (B::SLOPE * self.level as u64 + B::BASE)
    }
}
