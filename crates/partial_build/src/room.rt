//! The memory of a construction, before it begins.
ghost use Rattle.std.specs.Prelude.{◌≡◌, ◌+◌, ◌-◌, ◌<◌, ◌≤◌, ◌^◌, [], IfOk, length, vec_capacity};
ghost use Rattle.query_laws.specs.Orders.{AllStampsDiffer};
ghost use Rattle.builder_trait.specs.Builders.{begun};
ghost use Rattle.ordered_merge.specs.Merging.{StampsDiffer};
ghost use Rattle.partial_build.specs.Construction.{Builds, IsBegun, IsOnTime};

use crate::build::Build;
use builder_trait::{Builder, Part, Profiled};
use ordered_merge::Merge;
use query_laws::{Item, NoMemory};
use std::alloc::Global;
use std::marker::Model;

/// What a construction needs beside its builder: the tables of its merge, and a list for the items that wait.
///
/// Contracts see it as the level for which there is room.
#[derive(Drop)]
pub struct Tables<B: Builder> {
    level: u32,
    merge: Merge<B>,
    waiting: Vec<B::Item>,
}

impl<B: Builder> Model for Tables<B> {
    ghost use Rattle.std.specs.Prelude.{ℕ, vec_capacity};
    ghost use Rattle.partial_build.specs.Construction.{AreTables};

    ghost Value = { ℕ };

    ghost view = { λ t. t.level };

    ghost invariant = { λ t. AreTables t.level t.merge t.waiting.items (vec_capacity t.waiting) };
}

impl<B: Builder> Tables<B> {
    /// Tables for a construction into a level.
    ///
    /// `NoMemory` where memory for them isn't given.
    pub fn room(alloc: Global, level: u32) -> Result<Tables<B>, NoMemory>
        requires least { 1 ≤ level }
        requires most { level < 32 }
        ensures { IfOk result (λ tables. tables ≡ level) }
    {
        let merge = Merge::room(alloc, level)?;
        let waiting = Vec::with_capacity(alloc, 2usize.pow(level - 1) + 1)?;
        Ok(Tables {
            level,
            merge,
            waiting,
        })
    }

    /// Empties the tables of a construction that has ended.
    pub(crate) fn emptied(level: u32, merge: Merge<B>, waiting: Vec<B::Item>) -> Tables<B>
        requires least { 1 ≤ level }
        requires most { level < 32 }
        requires as_wide { merge.capacity ≡ 2 ^ (level - 1) }
        requires wide { 2 ^ (level - 1) + 1 ≤ vec_capacity waiting }
        ensures { result ≡ level }
    {
        let mut merge = merge;
        let mut waiting = waiting;
        merge.clear();
        waiting.clear();
        Tables {
            level,
            merge,
            waiting,
        }
    }
}

/// All the memory that a construction into a level needs.
///
/// Contracts see it as that level.
#[derive(Drop)]
pub struct Room<B: Builder> {
    builder: B,
    tables: Tables<B>,
}

impl<B: Builder> Model for Room<B> {
    ghost use Rattle.std.specs.Prelude.{ℕ, ◌≡◌};
    ghost use Rattle.builder_trait.specs.Builders.{begun};

    ghost Value = { ℕ };

    ghost view = { λ r. r.tables };

    ghost invariant = { λ r. B.progress r.builder ≡ begun r.tables };
}

impl<B: Builder> Room<B> {
    /// Room made of a builder to which nothing was put, as [`Builder::recycle`] makes one, and of tables for its level.
    pub fn of(builder: B, tables: Tables<B>) -> Room<B>
        requires { B.progress builder ≡ begun tables }
        ensures { result ≡ tables }
    {
        Room { builder, tables }
    }

    /// Its builder and its tables, to which nothing was put.
    pub fn into_parts(self) -> (B, Tables<B>)
        ensures tables { result.1 ≡ self }
        ensures begun { B.progress result.0 ≡ begun self }
    {
        let Room { builder, tables } = self;
        (builder, tables)
    }

    /// Begins the construction of the part of a and b, whose items have all different stamps. It counts nothing.
    pub fn begin(self, a: &B::Part, b: &B::Part) -> Build<B>
        requires fits { length (B.Part.Part.contents a.now).items ≤ 2 ^ (self - 1) }
        requires other_fits { length (B.Part.Part.contents b.now).items ≤ 2 ^ (self - 1) }
        requires apart { AllStampsDiffer B.Item.stamp (B.Part.Part.contents a.now).items }
        requires other_apart { AllStampsDiffer B.Item.stamp (B.Part.Part.contents b.now).items }
        requires differ { StampsDiffer B.Item.stamp (B.Part.Part.contents a.now).items (B.Part.Part.contents b.now).items }
        ensures builds { Builds ⟦<B as Profiled>⟧.profile result (B.Part.Part.contents a.now) (B.Part.Part.contents b.now) }
        ensures level { result.level ≡ self }
        ensures begun { IsBegun result }
        ensures none { (result.ticks ≡ 0) × (result.waiting ≡ []) }
        ensures on_time { IsOnTime ⟦<B as Profiled>⟧.profile result }
    {
        let Room { builder, tables } = self;
        let Tables {
            level,
            mut merge,
            waiting,
        } = tables;
        merge.begin(a, b);
        Build::begun(level, merge, builder, waiting)
    }
}
