//! What shelves keep.
ghost use Rattle.std.specs.Prelude.{◌≡◌, ◌<◌, ◌≤◌, ℕ, IfOk};
ghost use Rattle.builder_trait.specs.Builders.{begun};

use builder_trait::{Builder, Part};
use partial_build::Tables;
use query_laws::NoMemory;
use std::alloc::Global;
use std::marker::Model;

/// Memory for a construction into a level, of which nothing is used.
pub(crate) trait Kept: Drop + Sized {
    /// The level that it is for.
    ghost level_of: { Self → ℕ };

    /// The lowest level that has some.
    ghost lowest: { ℕ };

    /// Memory for a level.
    ///
    /// `NoMemory` where it isn't given.
    fn room(alloc: Global, level: u32) -> Result<Self, NoMemory>
        requires least { lowest ≤ level }
        requires most { level < 32 }
        ensures { IfOk result (λ room. level_of room ≡ level) };
}

/// A builder to which nothing was put. Contracts see it as its level.
#[derive(Drop)]
pub(crate) struct Fresh<B: Builder> {
    builder: B,
}

impl<B: Builder> Model for Fresh<B> {
    ghost use Rattle.std.specs.Prelude.{ℕ, ◌≡◌};
    ghost use Rattle.builder_trait.specs.Builders.{begun};

    ghost Value = { ℕ };

    ghost view = { λ f. (B.progress f.builder).at_level };

    ghost invariant = { λ f. B.progress f.builder ≡ begun (B.progress f.builder).at_level };
}

impl<B: Builder> Fresh<B> {
    /// A builder on the memory of a part that is of no use any more.
    pub(crate) fn recycled(part: B::Part) -> Fresh<B>
        ensures { result ≡ (B.Part.Part.contents part).at_level }
    {
        Fresh {
            builder: B::recycle(part),
        }
    }

    /// A builder to which nothing was put.
    pub(crate) fn of(builder: B) -> Fresh<B>
        requires { B.progress builder ≡ begun (B.progress builder).at_level }
        ensures { result ≡ (B.progress builder).at_level }
    {
        Fresh { builder }
    }

    /// The builder.
    pub(crate) fn into_builder(self) -> B
        ensures { B.progress result ≡ begun self }
    {
        self.builder
    }
}

impl<B: Builder> Kept for Fresh<B> {
    ghost use Rattle.std.specs.Prelude.{ℕ};

    ghost level_of = { λ f. f };

    ghost lowest = { 0 };

    fn room(alloc: Global, level: u32) -> Result<Fresh<B>, NoMemory> {
        let builder = B::room(alloc, level)?;
        Ok(Fresh { builder })
    }
}

impl<B: Builder> Kept for Tables<B> {
    ghost use Rattle.std.specs.Prelude.{ℕ};

    ghost level_of = { λ t. t };

    ghost lowest = { 1 };

    fn room(alloc: Global, level: u32) -> Result<Tables<B>, NoMemory> {
        Tables::room(alloc, level)
    }
}
