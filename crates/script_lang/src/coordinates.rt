// The coordinates of a line.
ghost use Rattle.std.specs.Prelude.{◌≡◌, ◌<◌, [], ◌∷◌, ◌++◌, length, slice_index};

use std::marker::Model;

/// Up to four coordinates, as they are kept, or weights, in the order of a line. Contracts see them as their list.
#[derive(Drop)]
pub struct Coordinates {
    values: [u32; 4],
    len: usize,
}

impl Model for Coordinates {
    ghost use Rattle.std.specs.Prelude.{List, ℕ, take};
    ghost use Rattle.script_lang.specs.Coordinates.{AreCoordinates};

    ghost Value = { List ℕ };

    ghost view = { λ c. take c.len c.values };

    ghost invariant = { λ c. AreCoordinates c.values c.len };
}

impl Coordinates {
    /// None.
    pub fn new() -> Coordinates
        ensures { result ≡ [] }
    {
        Coordinates {
            values: [0; 4],
            len: 0,
        }
    }

    /// One more behind the others.
    pub fn push(&mut self, value: u32)
        requires { length self.old < 4 }
        ensures { self.new ≡ self.old ++ value ∷ [] }
    {
        self.values[self.len] = value;
        self.len += 1;
    }

    /// The one at an index, and 0 where there are fewer.
    pub fn get(&self, k: usize) -> u32
        requires { k < 4 }
        ensures { result ≡ slice_index self.now k }
    {
        self.values[k]
    }
}
