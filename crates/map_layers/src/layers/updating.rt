//! Updates of the layer of a name.
ghost use Rattle.std.specs.Prelude.{◌≡◌, ◌+◌, ◌<◌, ◌≤◌, ◌^◌, ℕ, All, IfOk, IfSome, length, map};
ghost use Rattle.query_laws.specs.StepLedger.{AtLapStart};
ghost use Rattle.map_model.specs.State.{layer_named};
ghost use Rattle.map_model.specs.Cost.{Adds, Drops, Moves};
ghost use Rattle.map_model.specs.Version.{Version, Two};
ghost use Rattle.map_model.specs.Command as commands;
ghost use Rattle.map_model.specs.Line.{IsShape};
ghost use Rattle.map_model.specs.Shape.{Point};
ghost use Rattle.map_shapes.specs.IndexSet.{index_of};
ghost use Rattle.map_shapes.specs.Shape.{model_shape};
ghost use Rattle.map_layers.specs.Layer.{layer_of};
ghost use Rattle.map_layers.specs.Layers.{AllDiffer, adds_of, limits_of, map_with, names_of, place_named};
ghost use Rattle.map_layers.specs.Costs.{IsCostIn, IsToldIn};
ghost use Rattle.map_layers.specs.Memory.{KeepsMemoryIn, AddsMemoryIn};
ghost use Rattle.map_layers.specs.Replies.{indexed, updated, IsAnswered};

use super::MOST_LAYERS;
use crate::{IndexFault, Layer, OverPoints, OverSegments, UpdateFault};
use arrayvec::ArrayVec;
use map_shapes::{Name, PointIndex, Shape, Spent};
use query_laws::step_ledger::Steps;
use std::alloc::Global;
use std::sync::ledger::Ledger;

/// Adds an item at the end of the layer of a name, where there is one.
pub(super) fn add_in<P: OverPoints, S: OverSegments, L: Ledger>(
    layers: &mut ArrayVec<Layer<P, S>, MOST_LAYERS, Global>,
    name: &Name,
    id: u64,
    shape: Shape,
    steps: &mut Steps<L>,
) -> Result<Spent, UpdateFault>
    requires lawful { IsShape Two (model_shape shape) }
    requires differ { AllDiffer (names_of layers.old.items) }
    requires few { adds_of layers.old.items < 2 ^ 62 }
    requires lap { AtLapStart steps.old }
    ensures answered { (version : Version) (most : ℕ) → All (λ n. n ≡ most) (limits_of layers.old.items)
        → IsAnswered (map_with version most layers.old.items) (commands.Add name.now id (model_shape shape)) (map_with version most layers.new.items) (updated result) }
    ensures differ { AllDiffer (names_of layers.new.items) }
    ensures limits { limits_of layers.new.items ≡ limits_of layers.old.items }
    ensures adds { adds_of layers.new.items ≤ adds_of layers.old.items + 1 }
    ensures kept { KeepsMemoryIn name.now result layers.old.items layers.new.items }
    ensures cost { IsCostIn (layer_named name.now (map layer_of layers.old.items)) Adds result steps.old steps.new }
    ensures told { IfOk result (λ spent. IsToldIn (layer_named name.now (map layer_of layers.old.items)) Adds spent steps.old steps.new) }
{
    match place_of(layers.as_slice(), name) {
        Some(k) => layers.as_mut_slice()[k].add(id, shape, steps),
        None => Err(UpdateFault::NoLayer),
    }
}

/// Puts a point at the end of the layer of a name in the place of that with its identifier, where there is one.
pub(super) fn move_in<P: OverPoints, S: OverSegments, L: Ledger>(
    layers: &mut ArrayVec<Layer<P, S>, MOST_LAYERS, Global>,
    name: &Name,
    id: u64,
    x: u32,
    y: u32,
    w: u32,
    steps: &mut Steps<L>,
) -> Result<Spent, UpdateFault>
    requires lawful { IsShape Two (Point x y w) }
    requires differ { AllDiffer (names_of layers.old.items) }
    requires few { adds_of layers.old.items < 2 ^ 62 }
    requires lap { AtLapStart steps.old }
    ensures answered { (version : Version) (most : ℕ)
        → IsAnswered (map_with version most layers.old.items) (commands.Move name.now id x y w) (map_with version most layers.new.items) (updated result) }
    ensures differ { AllDiffer (names_of layers.new.items) }
    ensures limits { limits_of layers.new.items ≡ limits_of layers.old.items }
    ensures adds { adds_of layers.new.items ≤ adds_of layers.old.items + 1 }
    ensures kept { KeepsMemoryIn name.now result layers.old.items layers.new.items }
    ensures cost { IsCostIn (layer_named name.now (map layer_of layers.old.items)) Moves result steps.old steps.new }
    ensures told { IfOk result (λ spent. IsToldIn (layer_named name.now (map layer_of layers.old.items)) Moves spent steps.old steps.new) }
{
    match place_of(layers.as_slice(), name) {
        Some(k) => layers.as_mut_slice()[k].relocate(id, Shape::Point { x, y, w }, steps),
        None => Err(UpdateFault::NoLayer),
    }
}

/// Gives the layer of a name, where there is one, an index that it hasn't.
pub(super) fn index_in<P: OverPoints, S: OverSegments>(
    layers: &mut ArrayVec<Layer<P, S>, MOST_LAYERS, Global>,
    name: &Name,
    alloc: Global,
    index: PointIndex,
) -> Result<(), IndexFault>
    requires { AllDiffer (names_of layers.old.items) }
    ensures answered { (version : Version) (most : ℕ)
        → IsAnswered (map_with version most layers.old.items) (commands.MakeIndex name.now (index_of index)) (map_with version most layers.new.items) (indexed result) }
    ensures differ { AllDiffer (names_of layers.new.items) }
    ensures limits { limits_of layers.new.items ≡ limits_of layers.old.items }
    ensures adds { adds_of layers.new.items ≡ adds_of layers.old.items }
    ensures kept { AddsMemoryIn name.now result layers.old.items layers.new.items }
{
    match place_of(layers.as_slice(), name) {
        Some(k) => layers.as_mut_slice()[k].add_index(alloc, index),
        None => Err(IndexFault::NoLayer),
    }
}

/// Takes the item with an identifier out of the layer of a name, where there is one.
pub(super) fn remove_in<P: OverPoints, S: OverSegments, L: Ledger>(
    layers: &mut ArrayVec<Layer<P, S>, MOST_LAYERS, Global>,
    name: &Name,
    id: u64,
    steps: &mut Steps<L>,
) -> Result<Spent, UpdateFault>
    requires differ { AllDiffer (names_of layers.old.items) }
    requires lap { AtLapStart steps.old }
    ensures answered { (version : Version) (most : ℕ)
        → IsAnswered (map_with version most layers.old.items) (commands.Drop name.now id) (map_with version most layers.new.items) (updated result) }
    ensures differ { AllDiffer (names_of layers.new.items) }
    ensures limits { limits_of layers.new.items ≡ limits_of layers.old.items }
    ensures adds { adds_of layers.new.items ≡ adds_of layers.old.items }
    ensures kept { KeepsMemoryIn name.now result layers.old.items layers.new.items }
    ensures cost { IsCostIn (layer_named name.now (map layer_of layers.old.items)) Drops result steps.old steps.new }
    ensures told { IfOk result (λ spent. IsToldIn (layer_named name.now (map layer_of layers.old.items)) Drops spent steps.old steps.new) }
{
    match place_of(layers.as_slice(), name) {
        Some(k) => layers.as_mut_slice()[k].remove(id, steps),
        None => Err(UpdateFault::NoLayer),
    }
}

/// Where the layer of a name is.
fn place_of<P: OverPoints, S: OverSegments>(layers: &[Layer<P, S>], name: &Name) -> Option<usize>
    ensures place { result ≡ place_named name.now layers.now }
    ensures within { IfSome result (λ k. k < length layers.now) }
{
    layers.iter().position(|layer| layer.has_name(name))
}
