//! Some found points, kept in place.
ghost use Rattle.std.specs.Prelude.{◌≡◌, ◌==◌, ◌<◌, ◌≤◌, [], ◌∷◌, ◌++◌, length, Some, slice_get, take, insert};

use crate::Found;
use crate::found::Short;
use arrayvec::ArrayVec;
use std::marker::Model;

/// Up to 64 found points, which take no memory of the heap. Contracts see them as their list.
///
/// The highest bits of their squares stand apart, so that all take 1,104 bytes.
#[derive(Drop)]
pub struct FoundList {
    shorts: ArrayVec<Short, 64>,
    far: ArrayVec<bool, 64>,
}

impl Model for FoundList {
    ghost use Rattle.std.specs.Prelude.{◌≡◌, List, length};
    ghost use Rattle.map_model.specs.Found.{Found};
    ghost use Rattle.map_shapes.specs.Founds.{founds_in};

    ghost Value = { List Found };

    ghost view = { λ l. founds_in l.shorts.items l.far.items };

    ghost invariant = { λ l. length l.shorts.items ≡ length l.far.items };
}

impl FoundList {
    /// How many fit.
    pub const ROOM: usize = 64;

    /// No points.
    pub fn new() -> FoundList
        ensures { result ≡ [] }
    {
        FoundList {
            shorts: ArrayVec::new(),
            far: ArrayVec::new(),
        }
    }

    /// Puts one after the others.
    pub fn push(&mut self, found: Found)
        requires { length self.old < 64 }
        ensures { self.new ≡ self.old ++ found ∷ [] }
    {
        let (short, far) = found.parts();
        self.shorts.push(short);
        self.far.push(far);
    }

    /// Puts one in at an index, before the one that is there.
    pub fn insert(&mut self, k: usize, found: Found)
        requires within { k ≤ length self.old }
        requires room { length self.old < 64 }
        ensures { self.new ≡ insert self.old k found }
    {
        let (short, far) = found.parts();
        self.shorts.insert(k, short);
        self.far.insert(k, far);
    }

    /// Keeps so many at the front.
    pub fn truncate(&mut self, len: usize)
        ensures { self.new ≡ take len self.old }
    {
        self.shorts.truncate(len);
        self.far.truncate(len);
    }

    /// How many there are.
    pub fn len(&self) -> usize
        ensures count { result ≡ length self.now }
        ensures within { result ≤ 64 }
    {
        self.shorts.len()
    }

    /// Whether there is none.
    pub fn is_empty(&self) -> bool
        ensures { result ≡ (length self.now == 0) }
    {
        self.shorts.is_empty()
    }

    /// The point at an index.
    pub fn get(&self, k: usize) -> Found
        requires { k < length self.now }
        ensures { slice_get self.now k ≡ Some result }
    {
        Found::joined(self.shorts[k], self.far[k])
    }
}
