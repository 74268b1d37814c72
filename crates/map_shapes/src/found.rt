// A point that a search for near ones found.
ghost use Rattle.std.specs.Prelude.{◌≡◌, ◌+◌, ◌*◌, not};
ghost use Rattle.map_shapes.specs.Found.{nearer_le};
ghost use Rattle.map_shapes.specs.Founds.{found_in};

use std::marker::Model;

/// A point by the square of its distance from a place, and its identifier: contracts see these two. Squares are at most
/// 36,893,488,130,239,234,050, which takes 65 bits.
#[derive(Clone, Copy, Debug, Default)]
pub struct Found {
    id: u64,
    /// The square, less 2^64 where it is that much or more.
    low: u64,
    far: bool,
}

/// A found point without the highest bit of its square.
#[derive(Clone, Copy, Debug, Default)]
pub(crate) struct Short {
    id: u64,
    low: u64,
}

impl Model for Found {
    ghost use Rattle.std.specs.Prelude.{◌<◌, ◌^◌};
    ghost use Rattle.map_model.specs.Found as model;
    ghost use Rattle.map_shapes.specs.FoundParts.{square_of, parts_of, same_parts};

    ghost Value = { model.Found };

    ghost view = { λ f. record { dist = square_of f.far f.low; id = f.id } };

    ghost invariant = { λ f. f.low < 2 ^ 64 };

    ghost inverse = { parts_of };

    ghost inverse_ok = { same_parts };
}

impl Found {
    /// One that lies so far across and up, or down.
    pub fn new(id: u64, across: u32, up: u32) -> Found
        ensures { result ≡ record { dist = across * across + up * up; id = id } }
    {
        let across = u64::from(across);
        let up = u64::from(up);
        let (low, far) = (across * across).overflowing_add(up * up);
        Found { id, low, far }
    }

    /// The square of its distance.
    pub fn dist(&self) -> u128
        ensures { result ≡ self.now.dist }
    {
        if self.far {
            u128::from(self.low) + (1 << 64)
        } else {
            u128::from(self.low)
        }
    }

    /// Its identifier.
    pub fn id(&self) -> u64
        ensures { result ≡ self.now.id }
    {
        self.id
    }

    /// It without the highest bit of its square, and that bit.
    pub(crate) fn parts(&self) -> (Short, bool)
        ensures { found_in result.0 result.1 ≡ self.now }
    {
        let short = Short {
            id: self.id,
            low: self.low,
        };
        (short, self.far)
    }

    /// The point that both say.
    pub(crate) fn joined(short: Short, far: bool) -> Found
        ensures { result ≡ found_in short far }
    {
        Found {
            id: short.id,
            low: short.low,
            far,
        }
    }

    /// Whether it is nearer than the other one, or as near and its identifier is less.
    pub fn before(&self, other: &Found) -> bool
        ensures { result ≡ not (nearer_le other.now self.now) }
    {
        if self.far != other.far {
            return other.far;
        }
        self.low < other.low || (self.low == other.low && self.id < other.id)
    }
}
