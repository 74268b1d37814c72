//! The numbers of a structure of the map.
ghost use Rattle.std.specs.Prelude.{ℕ, ◌≤◌};
ghost use Rattle.map_structures.specs.Touches.{touches_at};

use builder_trait::flat::FlatBuilder;
use builder_trait::{Builder, Part, Rows, RowsBuilder};
use map_shapes::Shaped;

/// A structure that keeps to the numbers of the map: its turns are within a slope of 20 and a base of 60, and a mark touches no more than
/// `16 * (h + 2)^2` in a part of at most `2^h` items.
pub trait MapStructure: Builder {
    ghost few: { (Self.SLOPE ≤ 20) × (Self.BASE ≤ 60) };

    ghost few_touches: { (h : ℕ) → Self.Part.mark_touches h ≤ touches_at h };
}

impl<I: Shaped> MapStructure for FlatBuilder<I> {
    ghost use Rattle.std.proofs.Common.{arith};

    ghost few = { (Prim.omega arith, Prim.omega arith) };

    ghost few_touches = { λ h. Prim.grind arith };
}

/// The rows of such a structure.
pub trait MapRows: Rows {
    ghost few: { (Self.SLOPE ≤ 20) × (Self.BASE ≤ 60) };

    ghost few_touches: { (h : ℕ) → Self.mark_touches h ≤ touches_at h };
}

impl<R: MapRows> MapStructure for RowsBuilder<R> {
    ghost few = { R.few };

    ghost few_touches = { R.few_touches };
}
