//! One level.
ghost use Rattle.std.specs.Prelude.{◌≡◌, ℕ, ◌+◌, ◌-◌, ◌*◌, ◌^◌, ◌<◌, ◌≤◌, true, false, List, [], ◌∷◌, ◌++◌, Some, None, IfOk, IfSome, IsNone, All, drop, length};
ghost use Rattle.std.specs.List.{flat_map};
ghost use Rattle.std.specs.Option.{is_some};
ghost use Rattle.query_laws.specs.Orders.{AllStampsDiffer};
ghost use Rattle.query_laws.specs.StepLedger.{Spends};
ghost use Rattle.query_laws.specs.declared.item.Order.TheVariants.{First};
ghost use Rattle.builder_trait.specs.Parts.{OwnsStamp, has_stamp, marked, live_of};
ghost use Rattle.partial_build.specs.Construction.{IsBegun};
ghost use Rattle.partial_build.specs.Quota.{quota};
ghost use Rattle.part_store.specs.Shelves.{lent_at};
ghost use Rattle.part_store.specs.Store.{TakesPart};
ghost use Rattle.log_levels.specs.Slots.{ticks_of, waiting_in, read_by, turns_to_go, work_of, left_in, live_in, items_in, asked_in, IsIdle};
ghost use Rattle.log_levels.specs.Level.{IsOfLevel};
ghost use Rattle.log_levels.specs.Trades.{is_due, AreLent, Trades, HasRoom, Begins};
ghost use Rattle.log_levels.specs.Neighbours.{IsConstructionOf, IsFed, IsPunctual, IsPublication};
ghost use Rattle.log_levels.specs.Marking.{IsLiveIn, AreMarkedAt};
ghost use Rattle.log_levels.specs.Cost.{IsWithin, IsPaid};

mod giving;
mod visiting;

use builder_trait::{Builder, Part, Profiled};
use part_store::Store;
use partial_build::Build;
use query_laws::step_ledger::Steps;
use query_laws::{Item, NoMemory};
use std::alloc::Global;
use std::marker::Model;
use std::sync::ledger::Ledger;

/// The most complete parts of a level.
const PARTS: usize = 3;

/// A level: at most three complete parts of up to `2^level` items, oldest first, and the construction of the next one.
///
/// All their memory is lent by a store, and goes back to it.
#[derive(Drop)]
pub struct Level<B: Builder> {
    level: u32,
    parts: Vec<B::Part>,
    construction: Option<Build<B>>,
}

impl<B: Builder> Model for Level<B> {
    ghost use Rattle.std.specs.Prelude.{vec_capacity};
    ghost use Rattle.log_levels.specs.Slots.{Slots};
    ghost use Rattle.log_levels.specs.Level.{IsLevel};

    ghost Value = { Slots B.Part B.Item };

    ghost view = { λ l. record { level = l.level; parts = l.parts.items; construction = l.construction } };

    ghost invariant = { λ l. IsLevel B.Part.Part.contents l.level l.parts.items (vec_capacity l.parts) l.construction };
}

impl<B: Builder> Level<B> {
    /// A level without parts.
    ///
    /// `NoMemory` where memory for the list of its parts isn't given.
    pub fn new(alloc: Global, level: u32) -> Result<Level<B>, NoMemory>
        requires { level < 32 }
        ensures { IfOk result (λ made. made ≡ record { level = level; parts = []; construction = None }) }
    {
        let parts = Vec::with_capacity(alloc, PARTS)?;
        Ok(Level {
            level,
            parts,
            construction: None,
        })
    }

    /// The number of the level.
    pub fn number(&self) -> u32
        ensures { result ≡ self.now.level }
    {
        self.level
    }

    /// The complete parts, oldest first.
    pub fn parts(&self) -> &[B::Part]
        ensures value { result.now ≡ self.now.parts }
        ensures of_level { All (λ p. IsOfLevel self.now.level (B.Part.Part.contents p)) self.now.parts }
        ensures few { length self.now.parts ≤ 3 }
    {
        self.parts.as_slice()
    }

    /// Whether there is neither a complete part nor a construction.
    pub fn is_idle(&self) -> bool
        ensures idle { result ≡ true → IsIdle self.now }
        ensures busy { result ≡ false → IsIdle self.now → ⊥ }
    {
        self.parts.is_empty() && self.construction.is_none()
    }

    /// Whether a construction runs into the level.
    pub fn is_building(&self) -> bool
        ensures { result ≡ is_some self.now.construction }
    {
        self.construction.is_some()
    }

    /// Whether a part may arrive here within two ticks, so that a construction into the next level may begin.
    pub fn is_due_soon(&self) -> bool
        ensures { result ≡ is_due 2 self.now }
    {
        (1u64 << self.level).saturating_sub(2) <= self.ticks()
    }

    /// How many ticks are done of the construction, 0 where none runs.
    fn ticks(&self) -> u64
        ensures { result ≡ ticks_of self.now }
    {
        match &self.construction {
            Some(construction) => construction.ticks(),
            None => 0,
        }
    }

    /// Takes in a part as the newest.
    pub fn arrive(&mut self, part: B::Part)
        requires place { length self.old.parts < 3 }
        requires of_level { IsOfLevel self.old.level (B.Part.Part.contents part) }
        ensures { self.new ≡ record self.old { parts = self.old.parts ++ part ∷ [] } }
    {
        self.parts.push_reserved(part);
    }

    /// Retires the oldest part: its memory goes back to the store.
    fn retire_oldest(&mut self, store: &mut Store<B>)
        requires some { 0 < length self.old.parts }
        requires lent { 0 < lent_at self.old.level store.old.builders }
        ensures retired { self.new ≡ record self.old { parts = drop 1 self.old.parts } }
        ensures back { TakesPart self.old.level store.old store.new }
    {
        let part = self.parts.remove(0);
        store.take_back(self.level, part);
    }

    /// Begins the construction of a part of a and b into this level, where none runs, in a room that the store lends.
    pub fn begin(&mut self, a: &B::Part, b: &B::Part, store: &mut Store<B>)
        requires fits { length (B.Part.Part.contents a.now).items ≤ 2 ^ (self.old.level - 1) }
        requires other_fits { length (B.Part.Part.contents b.now).items ≤ 2 ^ (self.old.level - 1) }
        requires apart { AllStampsDiffer B.Item.stamp ((B.Part.Part.contents a.now).items ++ (B.Part.Part.contents b.now).items) }
        requires kept { self.old.construction ≡ None → HasRoom self.old.level store.old }
        requires fed { IsConstructionOf B.Part.Part.contents ⟦<B as Profiled>⟧.profile a.now b.now self.old }
        ensures fed { IsConstructionOf B.Part.Part.contents ⟦<B as Profiled>⟧.profile a.now b.now self.new }
        ensures runs { is_some self.new.construction ≡ true }
        ensures same { self.new ≡ record self.old { construction = self.new.construction } }
        ensures running { is_some self.old.construction ≡ true → (self.new ≡ self.old) × (store.new ≡ store.old) }
        ensures begun { self.old.construction ≡ None → Begins self.old store.old self.new store.new }
    {
        if self.construction.is_some() {
            return;
        }
        let room = store.lend(self.level);
        self.construction = Some(room.begin(a, b));
    }

    /// One tick of the construction of a part of a and b.
    pub fn tick<L: Ledger>(&mut self, a: &B::Part, b: &B::Part, steps: &mut Steps<L>)
        requires runs { is_some self.old.construction ≡ true }
        requires early { ticks_of self.old < 2 ^ self.old.level }
        requires fed { IsConstructionOf B.Part.Part.contents ⟦<B as Profiled>⟧.profile a.now b.now self.old }
        ensures fed { IsConstructionOf B.Part.Part.contents ⟦<B as Profiled>⟧.profile a.now b.now self.new }
        ensures runs { is_some self.new.construction ≡ true }
        ensures same { self.new ≡ record self.old { construction = self.new.construction } }
        ensures ticked { ticks_of self.new ≡ ticks_of self.old + 1 }
        ensures punctual { IsPunctual ⟦<B as Profiled>⟧.profile self.new }
        ensures to_go { steps.new.turns - steps.old.turns ≤ turns_to_go ⟦<B as Profiled>⟧.profile self.old }
        ensures paid { IsPaid ⟦<B as Profiled>⟧.profile self.old self.new steps.old steps.new }
        ensures first { IfSome self.old.construction IsBegun
            → IsPaid ⟦<B as Profiled>⟧.profile (record self.old { construction = None }) self.new steps.old steps.new }

        // A mark for each item that waited and waits no longer.
        ensures waiting { waiting_in self.new + steps.new.marks ≡ waiting_in self.old + steps.old.marks }
        ensures cost { IsWithin (quota B.SLOPE B.BASE self.old.level) 2 (B.Part.Part.mark_touches self.old.level) steps.old steps.new }
    {
        match &mut self.construction {
            Some(construction) => construction.tick(a, b, steps),
            None => unreachable!(),
        }
    }

    /// Publishes the part under construction, where all its ticks are done, and retires the two that it was made of: the store has back
    /// the memory of these, and the tables.
    pub fn publish(&mut self, lower: &mut Level<B>, store: &mut Store<B>)
        requires runs { is_some self.old.construction ≡ true }
        requires two { 2 ≤ length lower.old.parts }
        requires within { ticks_of self.old ≤ 2 ^ self.old.level }
        requires place { ticks_of self.old ≡ 2 ^ self.old.level → length self.old.parts < 3 }
        requires punctual { IsPunctual ⟦<B as Profiled>⟧.profile self.old }
        requires fed { IsFed B.Part.Part.contents ⟦<B as Profiled>⟧.profile lower.old self.old }
        requires lent { AreLent (lower.old ∷ self.old ∷ []) store.old }
        ensures waits { ticks_of self.old < 2 ^ self.old.level → (self.new ≡ self.old) × (lower.new ≡ lower.old) }
        ensures ends { ticks_of self.old ≡ 2 ^ self.old.level → IsPublication B.Part.Part.contents self.old lower.old self.new lower.new }
        ensures trades { Trades (lower.old ∷ self.old ∷ []) store.old (lower.new ∷ self.new ∷ []) store.new }
        ensures waiting { waiting_in self.new ≡ waiting_in self.old }
        ensures left { left_in ⟦<B as Profiled>⟧.profile self.new ≡ left_in ⟦<B as Profiled>⟧.profile self.old }
    {
        if let Some(construction) = self.take_ended() {
            let (part, tables) = construction.publish();
            self.arrive(part);
            store.take_back_tables(self.level, tables);
            lower.retire_oldest(store);
            lower.retire_oldest(store);
        }
    }

    /// Takes the construction, where all its ticks are done.
    fn take_ended(&mut self) -> Option<Build<B>>
        ensures ended { IfSome result (λ c. (self.old.construction ≡ Some c) × (c.level ≡ self.old.level) × (2 ^ c.level ≤ c.ticks)) }
        ensures taken { IfSome result (λ _. self.new ≡ record self.old { construction = None }) }
        ensures waits { IsNone result → self.new ≡ self.old }
        ensures unended { IsNone result → is_some self.old.construction ≡ true → ticks_of self.old < 2 ^ self.old.level }
    {
        if self.has_ended() {
            self.construction.take()
        } else {
            None
        }
    }

    /// Whether all ticks of a construction are done.
    fn has_ended(&self) -> bool
        ensures ended { result ≡ true → 2 ^ self.now.level ≤ ticks_of self.now }
        ensures waits { result ≡ false → ticks_of self.now < 2 ^ self.now.level }
    {
        match &self.construction {
            Some(construction) => construction.ticks() >= 1 << self.level,
            None => false,
        }
    }

    /// Marks an item as dead in the part that has it, and gives the place of that part: each part is asked, the oldest first, up to
    /// that one.
    pub fn mark<L: Ledger>(&mut self, item: &B::Item, steps: &mut Steps<L>) -> Option<usize>
        requires apart { AllStampsDiffer B.Item.stamp (items_in B.Part.Part.contents self.old) }
        requires owner { OwnsStamp B.Item.stamp item.now (items_in B.Part.Part.contents self.old) }
        ensures found { is_some result ≡ has_stamp B.Item.stamp (B.Item.stamp item.now) (live_in B.Part.Part.contents self.old) }
        ensures marked { AreMarkedAt B.Part.Part.contents B.Item.stamp item.now result self.old.parts self.new.parts }
        ensures same { self.new ≡ record self.old { parts = self.new.parts } }
        ensures cost { (h : ℕ) → self.old.level ≤ h
            → let marks = asked_in B.Part.Part.contents B.Item.stamp (B.Item.stamp item.now) self.old.parts in
            Spends steps.old steps.new 0 marks (marks * B.Part.Part.mark_touches h) }
    {
        mark_parts::<B, L>(&mut self.parts, item, steps)
    }

    /// Takes note of an item that has just died in a part of the level below, where a construction is made of that part.
    pub fn note(&mut self, item: &B::Item)
        requires early { ticks_of self.old < 2 ^ self.old.level }
        requires punctual { IsPunctual ⟦<B as Profiled>⟧.profile self.old }
        ensures same { self.new ≡ record self.old { construction = self.new.construction } }
        ensures work { work_of self.new ≡ work_of self.old }
        ensures waiting { waiting_in self.new ≡ waiting_in self.old + read_by (B.Item.before First) item.now self.old }

        // Whichever the parts are: with the one in which it stood live and is marked now.
        ensures of_a { (a b a' : B.Part) → IsLiveIn (B.Part.Part.contents a) item.now
            → B.Part.Part.contents a' ≡ marked B.Item.stamp (B.Item.stamp item.now) (B.Part.Part.contents a)
            → IsConstructionOf B.Part.Part.contents ⟦<B as Profiled>⟧.profile a b self.old
            → IsConstructionOf B.Part.Part.contents ⟦<B as Profiled>⟧.profile a' b self.new }
        ensures of_b { (a b b' : B.Part) → IsLiveIn (B.Part.Part.contents b) item.now
            → B.Part.Part.contents b' ≡ marked B.Item.stamp (B.Item.stamp item.now) (B.Part.Part.contents b)
            → IsConstructionOf B.Part.Part.contents ⟦<B as Profiled>⟧.profile a b self.old
            → IsConstructionOf B.Part.Part.contents ⟦<B as Profiled>⟧.profile a b' self.new }
    {
        let Some(construction) = &mut self.construction else {
            return;
        };
        construction.note(item);
    }
}

/// Marks an item as dead in the part that has it, and gives the place of that part.
fn mark_parts<B: Builder, L: Ledger>(
    parts: &mut [B::Part],
    item: &B::Item,
    steps: &mut Steps<L>,
) -> Option<usize>
    requires few { length parts.old ≤ 3 }
    requires apart { AllStampsDiffer B.Item.stamp (flat_map (λ p. (B.Part.Part.contents p).items) parts.old) }
    requires owner { OwnsStamp B.Item.stamp item.now (flat_map (λ p. (B.Part.Part.contents p).items) parts.old) }
    ensures found { is_some result ≡ has_stamp B.Item.stamp (B.Item.stamp item.now) (flat_map (λ p. live_of (B.Part.Part.contents p)) parts.old) }
    ensures marked { AreMarkedAt B.Part.Part.contents B.Item.stamp item.now result parts.old parts.new }
    ensures within { IfSome result (λ place. place < length parts.old) }
    ensures cost { (h : ℕ) → All (λ p. length (B.Part.Part.contents p).items ≤ 2 ^ h) parts.old
        → let marks = asked_in B.Part.Part.contents B.Item.stamp (B.Item.stamp item.now) parts.old in
        Spends steps.old steps.new 0 marks (marks * B.Part.Part.mark_touches h) }
{
    match parts.split_first_mut() {
        Some((part, rest)) => {
            if part.mark(item, steps) {
                return Some(0);
            }
            match mark_parts::<B, L>(rest, item, steps) {
                Some(place) => Some(place + 1),
                None => None,
            }
        }
        None => None,
    }
}
