//! Some identifiers, kept in place.
ghost use Rattle.std.specs.Prelude.{◌≡◌, ◌==◌, ◌<◌, ◌≤◌, [], ◌∷◌, ◌++◌, length, Some, slice_get};

use arrayvec::ArrayVec;
use std::marker::Model;

/// Up to 64 identifiers, which take no memory of the heap. Contracts see them as their list.
#[derive(Drop)]
pub struct Recent {
    ids: ArrayVec<u64, 64>,
}

impl Model for Recent {
    ghost use Rattle.std.specs.Prelude.{List, ℕ, ◌≤◌, length};

    ghost Value = { List ℕ };

    ghost view = { λ r. r.ids.items };
}

impl Recent {
    /// How many identifiers fit.
    pub const ROOM: usize = 64;

    /// No identifiers.
    pub fn new() -> Recent
        ensures { result ≡ [] }
    {
        Recent {
            ids: ArrayVec::new(),
        }
    }

    /// Puts one after the others.
    pub fn push(&mut self, id: u64)
        requires { length self.old < 64 }
        ensures { self.new ≡ self.old ++ id ∷ [] }
    {
        self.ids.push(id);
    }

    /// How many there are.
    pub fn len(&self) -> usize
        ensures count { result ≡ length self.now }
        ensures within { result ≤ 64 }
    {
        self.ids.len()
    }

    /// Whether there is none.
    pub fn is_empty(&self) -> bool
        ensures { result ≡ (length self.now == 0) }
    {
        self.ids.is_empty()
    }

    /// The identifier at an index.
    pub fn get(&self, k: usize) -> u64
        requires { k < length self.now }
        ensures { slice_get self.now k ≡ Some result }
    {
        self.ids[k]
    }

    /// All of them.
    pub fn as_slice(&self) -> &[u64]
        ensures { result.now ≡ self.now }
    {
        self.ids.as_slice()
    }
}
