//! An index that a layer in use is given.
ghost use Rattle.std.specs.Prelude.{◌≡◌, not, IfOk, OnErr};
ghost use Rattle.std.specs.Result.{is_ok};
ghost use Rattle.layer_kinds.specs.Indexing.{is_there, begun};

use crate::{KindLayer, MayBeLate, Standing};
use map_shapes::Shaped;
use map_structures::MapRows;
use std::alloc::Global;

/// Gives a layer the index of these rows. It catches up with the items, four an update, and until then it answers only for how many it waits.
///
/// `Standing` where it is there, late or not. It takes no memory and no turn; updates take theirs from `alloc`. Of no items it is ready at once.
pub fn add_index<R: MapRows, X: MayBeLate<R>>(
    layer: &mut KindLayer<X>,
    alloc: Global,
) -> Result<(), Standing>
where
    R::Item: Shaped,
    ensures refused { is_ok result ≡ not (is_there (X.index layer.old.indexes)) }
    ensures begun { IfOk result (λ _. layer.new ≡ record layer.old { indexes = X.with_index (begun layer.old.entries) layer.old.indexes }) }
    ensures kept { OnErr result (layer.new ≡ layer.old) }
{
    if layer.indexes.index().is_there() {
        return Err(Standing);
    }
    layer.indexes.begin(alloc, layer.directory.chain());
    Ok(())
}
