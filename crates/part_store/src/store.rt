//! Builders and tables together.
ghost use Rattle.std.specs.Prelude.{◌≡◌, ◌<◌, [], IfOk, IfSome, IfNone};
ghost use Rattle.builder_trait.specs.Builders.{begun};
ghost use Rattle.part_store.specs.Shelves.{kept_at, lent_at};
ghost use Rattle.part_store.specs.Store.{LendsRoom, LendsBuilder, TakesPart, TakesRoom, TakesTables, HasRooms, StocksUpTo, FreesOne, IsHighest, IsEmptyFrom};

use crate::kept::Fresh;
use crate::shelves::Shelves;
use builder_trait::{Builder, Part};
use partial_build::{Room, Tables};
use query_laws::NoMemory;
use std::alloc::Global;
use std::marker::Model;

/// The memory of constructions, by level: builders, of which parts are made, and tables for their merges.
///
/// What is lent is counted until it comes back, and has its place here meanwhile.
#[derive(Drop)]
pub struct Store<B: Builder> {
    builders: Shelves<Fresh<B>>,
    tables: Shelves<Tables<B>>,
}

impl<B: Builder> Model for Store<B> {
    ghost use Rattle.part_store.specs.Store.{Stored};

    ghost Value = { Stored };

    ghost view = { λ s. record { builders = s.builders; tables = s.tables } };
}

impl<B: Builder> Store<B> {
    /// A store that has nothing. It takes no memory.
    pub fn new(alloc: Global) -> Store<B>
        ensures { result ≡ record { builders = []; tables = [] } }
    {
        Store {
            builders: Shelves::new(alloc),
            tables: Shelves::new(alloc),
        }
    }

    /// Lends what a construction into a level needs.
    pub fn lend(&mut self, level: u32) -> Room<B>
        requires builder { 0 < kept_at level self.old.builders }
        requires tables { 0 < kept_at level self.old.tables }
        ensures of_level { result ≡ level }
        ensures lent { LendsRoom level self.old self.new }
    {
        let builder = self.builders.lend(level).into_builder();
        Room::of(builder, self.tables.lend(level))
    }

    /// Lends a builder alone, for a part that needs no merge.
    pub fn lend_builder(&mut self, level: u32) -> B
        requires { 0 < kept_at level self.old.builders }
        ensures begun { B.progress result ≡ begun level }
        ensures lent { LendsBuilder level self.old self.new }
    {
        self.builders.lend(level).into_builder()
    }

    /// Takes back the memory of a part of a level that is of no use any more.
    pub fn take_back(&mut self, level: u32, part: B::Part)
        requires lent { 0 < lent_at level self.old.builders }
        requires of_level { (B.Part.Part.contents part).at_level ≡ level }
        ensures { TakesPart level self.old self.new }
    {
        self.builders.take_back(level, Fresh::recycled(part));
    }

    /// Takes back a room of a level that no construction began in.
    pub fn take_back_room(&mut self, level: u32, room: Room<B>)
        requires builder { 0 < lent_at level self.old.builders }
        requires tables { 0 < lent_at level self.old.tables }
        requires of_level { room ≡ level }
        ensures { TakesRoom level self.old self.new }
    {
        let (builder, tables) = room.into_parts();
        self.builders.take_back(level, Fresh::of(builder));
        self.tables.take_back(level, tables);
    }

    /// Takes back the tables of a construction into a level that has ended.
    pub fn take_back_tables(&mut self, level: u32, tables: Tables<B>)
        requires lent { 0 < lent_at level self.old.tables }
        requires of_level { tables ≡ level }
        ensures { TakesTables level self.old self.new }
    {
        self.tables.take_back(level, tables);
    }

    /// Keeps memory for so many constructions into a level at least. Memory is taken here alone.
    ///
    /// `NoMemory` where some isn't given; what was taken is kept.
    #[tactic(auto, using(crate::proofs::Shelving::takes_none))]
    pub fn stock(&mut self, level: u32, wanted: usize, alloc: Global) -> Result<(), NoMemory>
        requires { level < 32 }
        ensures stocked { IfOk result (λ _. HasRooms level wanted self.new) }
        ensures takes { StocksUpTo level wanted self.old self.new }
    {
        if level > 0 {
            self.tables.stock(level, wanted, alloc)?;
        }
        self.builders.stock(level, wanted, alloc)
    }

    /// How many builders of a level are kept.
    pub fn builders(&self, level: u32) -> usize
        ensures { result ≡ kept_at level self.now.builders }
    {
        self.builders.kept(level)
    }

    /// Of how many constructions into a level the tables are kept.
    pub fn tables(&self, level: u32) -> usize
        ensures { result ≡ kept_at level self.now.tables }
    {
        self.tables.kept(level)
    }

    /// The highest level of which something is kept.
    #[tactic(auto, using(crate::proofs::Highest::none_past))]
    pub fn highest(&self) -> Option<u32>
        ensures found { IfSome result (λ level. IsHighest level self.now) }
        ensures none { IfNone result (IsEmptyFrom 0 self.now) }
    {
        let levels = self.builders.len().max(self.tables.len());
        self.highest_below(levels)
    }

    /// The highest level below one from which on nothing is kept.
    #[tactic(auto, using(crate::proofs::Highest::none_at, crate::proofs::Highest::highest_at))]
    fn highest_below(&self, level: u32) -> Option<u32>
        requires { IsEmptyFrom level self.now }
        ensures found { IfSome result (λ highest. IsHighest highest self.now) }
        ensures none { IfNone result (IsEmptyFrom 0 self.now) }
    {
        if level == 0 {
            return None;
        }
        let next = level - 1;
        if self.builders.kept(next) > 0 || self.tables.kept(next) > 0 {
            return Some(next);
        }
        self.highest_below(next)
    }

    /// Frees a builder that is kept of a level, and where none is, tables. Memory is freed here alone.
    pub fn give_up(&mut self, level: u32)
        ensures { FreesOne level self.old self.new }
    {
        if self.builders.kept(level) > 0 {
            self.builders.give_up(level);
        } else {
            self.tables.give_up(level);
        }
    }
}
