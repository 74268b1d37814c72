//! A value in a box that lends no allocator.
ghost use Rattle.std.specs.Prelude.{◌≡◌, IfOk};

use query_laws::NoMemory;
use std::alloc::Global;
use std::marker::Model;
use std::ops::{Deref, DerefMut};

/// A value in a box of its own. Whoever has a box of std can take memory by its allocator; this one shows its value alone.
///
/// Contracts see it as the value.
#[derive(Drop)]
pub struct Boxed<T> {
    inside: Box<T>,
}

impl<T> Model for Boxed<T> {
    ghost Value = { T };

    ghost coded = { T.code };

    ghost view = { λ b. b.inside.value };
}

impl<T: Drop> Boxed<T> {
    /// `NoMemory` where memory for the box isn't given.
    pub fn new(alloc: Global, value: T) -> Result<Boxed<T>, NoMemory>
        ensures { IfOk result (λ b. b ≡ value) }
    {
        Ok(Boxed {
            inside: Box::new(alloc, value)?,
        })
    }
}

impl<T> Deref for Boxed<T> {
    type Target = T;

    ghost deref_gives = { λ b value. value ≡ b };

    #[inline]
    fn deref(&self) -> &T {
        &self.inside
    }
}

impl<T> DerefMut for Boxed<T> {
    ghost use Rattle.std.specs.Borrow.{Lends, sem};
    ghost use Rattle.row_blocks.specs.contracts.boxed.Boxed.{the_row};

    ghost deref_mut_gives = { λ b value. value ≡ b };

    #[inline]
    fn deref_mut(&mut self) -> &mut T
        ensures* writes_back { sem 𝓛 (Lends (the_row T.row) T.row self.entry result (λ value. value)) }
        ensures value { result.now ≡ self.old }
    {
        &mut self.inside
    }
}
