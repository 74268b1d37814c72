//! Which index of a layer answers a question.
ghost use Rattle.std.specs.Prelude.{◌≡◌, ◌^◌, ◌<◌, false, ℕ, List, length};
ghost use Rattle.builder_trait.specs.Parts.{Contents};
ghost use Rattle.id_chain.specs.Chain.{Entry};
ghost use Rattle.layer_kinds.specs.Indexing.{Placed, is_there, begun, IsOf};

use crate::{Indexes, LayerIndex};
use builder_trait::{Rows, RowsBuilder};
use id_chain::Chain;
use map_shapes::Shaped;
use map_structures::MapRows;
use query_laws::Item;
use std::alloc::Global;

/// Indexes of which one is that of these rows.
pub trait Has<R: MapRows>: Indexes<Item = R::Item>
where
    R::Item: Shaped,
{
    /// The place of the index of these rows.
    ghost index: { Self → Placed (Contents R.Item) R.Item };

    fn index(&self) -> &LayerIndex<RowsBuilder<R>>
        ensures { result.now ≡ index self.now };

    ghost is_of: { (s : Self) (es : List (Entry R.Item)) (stamps : ℕ) → Self.are_of s es stamps → IsOf (λ part. part) R.Item.stamp (index s) es stamps };
}

/// Those of which that of these rows may be made late.
pub trait MayBeLate<R: MapRows>: Has<R>
where
    R::Item: Shaped,
{
    /// The indexes with another one in its place.
    ghost with_index: { Placed (Contents R.Item) R.Item → Self → Self };

    /// Makes the index late, where it isn't there. It takes no memory.
    fn begin(&mut self, alloc: Global, chain: &Chain<R::Item>)
        requires absent { is_there (Self.index self.old) ≡ false }
        requires few { length chain.now.entries < 2 ^ 29 }
        ensures { self.new ≡ with_index (begun chain.now.entries) self.old };

    ghost are_with: { (place : Placed (Contents R.Item) R.Item) (s : Self) (es : List (Entry R.Item)) (stamps : ℕ) → Self.are_of s es stamps
        → IsOf (λ part. part) R.Item.stamp place es stamps → Self.are_of (with_index place s) es stamps };

    ghost as_many: { (place : Placed (Contents R.Item) R.Item) (s : Self) → length (Self.rates (with_index place s)) ≡ length (Self.rates s) };
}
