//! Versions of a script, and what a coordinate is kept as in each.
ghost use Rattle.std.specs.Prelude.{◌≡◌, ℕ, ℤ, Some, decimal};
ghost use Rattle.std.specs.Fmt.{signed_decimal};
ghost use Rattle.map_model.specs.Version as model;
ghost use Rattle.map_model.specs.Version.{kept, coordinate_text};
ghost use Rattle.map_model.specs.Line.{IsCoordinate};
ghost use Rattle.map_shapes.specs.Version.{version_of, number_of, kept_above, kept_below, keep_of, coordinate_of};

/// A version of a script: which coordinates its lines have.
#[derive(Clone, Copy, Debug, Default, PartialEq, Eq)]
pub enum Version {
    /// From 0 to 2,147,483,647.
    #[default]
    One,
    /// From -2,147,483,648 to 2,147,483,647.
    Two,
}

/// The greatest coordinate of either version.
const GREATEST: u64 = 2_147_483_647;

impl Version {
    /// 1 or 2.
    pub fn number(self) -> u64
        ensures { result ≡ number_of (version_of self) }
    {
        match self {
            Version::One => 1,
            Version::Two => 2,
        }
    }

    /// What the coordinate 0 is kept as.
    pub fn zero(self) -> u32
        ensures { result ≡ kept (version_of self) 0 }
    {
        match self {
            Version::One => 0,
            Version::Two => 2_147_483_648,
        }
    }

    /// What a coordinate is kept as, so that the order is that of coordinates: `None` where the version doesn't have it.
    #[tactic(auto, using(crate::proofs::Versions::keep_by_sign))]
    pub fn keep(self, coordinate: i64) -> Option<u32>
        ensures { result ≡ keep_of (version_of self) coordinate }
    {
        if coordinate < 0 {
            self.keep_below(coordinate.unsigned_abs())
        } else {
            self.keep_above(coordinate.unsigned_abs())
        }
    }

    /// What a coordinate of zero or more is kept as.
    pub fn keep_above(self, n: u64) -> Option<u32>
        ensures { result ≡ kept_above (version_of self) n }
    {
        if GREATEST < n {
            return None;
        }
        Some(self.zero() + n as u32)
    }

    /// What a coordinate that is so far below zero is kept as.
    pub fn keep_below(self, n: u64) -> Option<u32>
        ensures { result ≡ kept_below (version_of self) n }
    {
        let zero = self.zero();
        if u64::from(zero) < n {
            return None;
        }
        Some(zero - n as u32)
    }

    /// The coordinate that is kept as a number.
    #[tactic(auto, using(crate::proofs::Versions::text_of_coordinate))]
    pub fn coordinate(self, kept: u32) -> i64
        ensures value { result ≡ coordinate_of (version_of self) kept }
        ensures text { signed_decimal result ≡ coordinate_text (version_of self) kept }
    {
        i64::from(kept) - i64::from(self.zero())
    }
}

/// A coordinate that a version has is kept as one number, and is the coordinate of that number alone.
pub fn coordinates_are_kept()
    ensures kept { (version : model.Version) (n : ℕ) → IsCoordinate version n → keep_of version (coordinate_of version n) ≡ Some n }
    ensures coordinate { (version : model.Version) (z : ℤ) (n : ℕ) → keep_of version z ≡ Some n → coordinate_of version n ≡ z }
{}
