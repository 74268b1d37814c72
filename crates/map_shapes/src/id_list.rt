//! Identifiers on the heap.
ghost use Rattle.std.specs.Prelude.{◌≡◌, ◌==◌, ◌<◌, length, Some, slice_get};

use std::marker::Model;

/// Identifiers, on the heap. Contracts see them as their list.
#[derive(Drop)]
pub struct IdList {
    ids: Vec<u64>,
}

impl Model for IdList {
    ghost use Rattle.std.specs.Prelude.{List, ℕ};

    ghost Value = { List ℕ };

    ghost view = { λ l. l.ids.items };
}

/// The identifiers of a vector, in its memory.
impl From<Vec<u64>> for IdList {
    ghost from_gives = { λ ids list. list ≡ ids.items };

    fn from(ids: Vec<u64>) -> IdList {
        IdList { ids }
    }
}

impl IdList {
    /// How many there are.
    pub fn len(&self) -> usize
        ensures { result ≡ length self.now }
    {
        self.ids.len()
    }

    /// Whether there is none.
    pub fn is_empty(&self) -> bool
        ensures { result ≡ (length self.now == 0) }
    {
        self.ids.is_empty()
    }

    /// The identifier at an index.
    pub fn get(&self, k: usize) -> u64
        requires { k < length self.now }
        ensures { slice_get self.now k ≡ Some result }
    {
        self.ids[k]
    }

    /// All of them.
    pub fn as_slice(&self) -> &[u64]
        ensures { result.now ≡ self.now }
    {
        self.ids.as_slice()
    }

    /// The vector that holds them.
    pub fn into_vec(self) -> Vec<u64>
        ensures { result.items ≡ self }
    {
        self.ids
    }
}
