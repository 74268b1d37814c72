//! The layers of a map.
mod asking;
mod updating;

ghost use Rattle.std.specs.Prelude.{◌≡◌, ◌+◌, ◌<◌, ◌≤◌, ◌^◌, ◌++◌, List, true, IfOk};
ghost use Rattle.std.specs.Option.{option_map};
ghost use Rattle.query_laws.specs.StepLedger.{lap_begun};
ghost use Rattle.map_model.specs.State.{layer_named};
ghost use Rattle.map_model.specs.Cost.{Adds, Drops, Moves};
ghost use Rattle.map_model.specs.Command as commands;
ghost use Rattle.map_model.specs.Index.{fits};
ghost use Rattle.map_model.specs.Line.{IsShape};
ghost use Rattle.map_model.specs.Shape as shapes;
ghost use Rattle.map_model.specs.Version.{Two};
ghost use Rattle.map_model.specs.Reply as replies;
ghost use Rattle.map_shapes.specs.Kind.{kind_of};
ghost use Rattle.map_shapes.specs.IndexSet.{index_set_of, index_of};
ghost use Rattle.map_shapes.specs.Shape.{model_shape};
ghost use Rattle.map_shapes.specs.Version.{version_of};
ghost use Rattle.map_layers.specs.Layer.{LayerState};
ghost use Rattle.map_layers.specs.Layers.{no_layers, map_of, named};
ghost use Rattle.map_layers.specs.Costs.{IsCostIn, IsToldIn};
ghost use Rattle.map_layers.specs.Memory.{KeepsMemoryIn, AddsMemoryIn};
ghost use Rattle.map_layers.specs.Replies.{chosen, created, indexed, updated, questioned, IsAnswered};

use crate::layers::updating::{add_in, index_in, move_in, remove_in};
use crate::{
    AskFault, CreateFault, HasLayers, IndexFault, Layer, OverPoints, OverSegments, UpdateFault,
};
use arrayvec::ArrayVec;
use map_shapes::{IndexSet, Kind, Name, PointIndex, Recent, Shape, Spent, Version};
use query_laws::step_ledger::Steps;
use std::alloc::Global;
use std::marker::Model;
use std::sync::ledger::Ledger;

/// The most layers of a map.
const MOST_LAYERS: usize = 8;

/// A map of at most eight layers, which lie in place, over these indexes of points and of segments. Contracts see the map of the
/// definitions: the version of the lines that follow, as many items as a layer may have, and the layers.
///
/// An update takes all memory before it changes anything, and spends a bounded number of turns, marks and touches, whatever came before
/// it. A question is put to the complete parts of one index. Each call that is handed steps begins a lap.
#[derive(Drop)]
pub struct Layers<P: OverPoints, S: OverSegments> {
    version: Version,
    most_items: usize,
    layers: ArrayVec<Layer<P, S>, MOST_LAYERS, Global>,
    alloc: Global,
    updates: u64,
}

impl<P: OverPoints, S: OverSegments> Model for Layers<P, S> {
    ghost use Rattle.std.specs.Prelude.{◌≡◌, ◌≤◌, ◌^◌, All};
    ghost use Rattle.map_shapes.specs.Version.{version_of};
    ghost use Rattle.map_layers.specs.Layers.{LayersState, names_of, adds_of, limits_of, AllDiffer};

    ghost Value = { LayersState };

    ghost view = { λ l. record { version = version_of l.version; most_items = l.most_items; layers = l.layers.items; updates = l.updates } };

    ghost invariant = { λ l. AllDiffer (names_of l.layers.items) × (adds_of l.layers.items ≤ l.updates)
        × All (λ n. n ≡ l.most_items) (limits_of l.layers.items) × (l.most_items ≤ 2 ^ 24) };
}

impl<P: OverPoints, S: OverSegments> Layers<P, S> {
    /// A map without layers, for layers of so many items, in version 1. It takes no memory; updates take theirs from `alloc`.
    pub fn new(alloc: Global, most_items: usize) -> Layers<P, S>
        requires few { most_items ≤ 2 ^ 24 }
        ensures { result ≡ no_layers most_items }
    {
        Layers {
            version: Version::One,
            most_items,
            layers: ArrayVec::new_in(alloc),
            alloc,
            updates: 0,
        }
    }

    /// The version of the lines that follow.
    pub fn version(&self) -> Version
        ensures { version_of result ≡ self.now.version }
    {
        self.version
    }

    /// Chooses the version of the lines that follow: `HasLayers` where a layer stands, though it be the version that is chosen already.
    ///
    /// It takes no memory, is no update and begins no lap.
    pub fn choose_version(&mut self, version: Version) -> Result<(), HasLayers>
        ensures answered { IsAnswered (map_of self.old) (commands.Livemap (version_of version)) (map_of self.new) (chosen result) }
        ensures updates { self.new.updates ≡ self.old.updates }
        ensures kept { self.new.layers ≡ self.old.layers }
    {
        if !self.layers.is_empty() {
            return Err(HasLayers);
        }
        self.version = version;
        Ok(())
    }

    /// Makes an empty layer of a kind with indexes that it can have. It takes no memory.
    pub fn create(&mut self, name: &Name, kind: Kind, indexes: IndexSet) -> Result<(), CreateFault>
        requires fits { fits (kind_of kind) (index_set_of indexes) ≡ true }
        ensures answered { IsAnswered (map_of self.old) (commands.MakeLayer name.now (kind_of kind) (index_set_of indexes)) (map_of self.new) (created result) }
        ensures updates { self.new.updates ≡ self.old.updates }

        // The layers that were there keep their memory.
        ensures kept { (made : List LayerState) × (self.new.layers ≡ self.old.layers ++ made) }
    {
        if self.layer(name).is_some() {
            return Err(CreateFault::Taken);
        }
        if self.layers.len() >= MOST_LAYERS {
            return Err(CreateFault::NoRoom);
        }
        self.layers.push(Layer::new(self.alloc, *name, self.most_items, kind, indexes));
        Ok(())
    }

    /// Gives a layer of points in use a further index.
    ///
    /// `NoLayer` where no layer has the name, then `WrongKind` where it has segments, and `Standing` where it has the index, ready or not. The index
    /// catches up with the items, four an accepted update of the layer; until then `ask` refuses its questions. Of a layer without items it is
    /// ready at once. It takes no memory, is no update and begins no lap: updates count it from then on.
    pub fn add_index(&mut self, name: &Name, index: PointIndex) -> Result<(), IndexFault>
        ensures answered { IsAnswered (map_of self.old) (commands.MakeIndex name.now (index_of index)) (map_of self.new) (indexed result) }
        ensures updates { self.new.updates ≡ self.old.updates }

        // The indexes that were there keep their memory.
        ensures kept { AddsMemoryIn name.now result self.old.layers self.new.layers }
    {
        index_in(&mut self.layers, name, self.alloc, index)
    }

    /// Adds an item at the end of a layer. Its coordinates are as they are kept, whatever the version.
    ///
    /// `NoLayer` where no layer has the name, then `WrongKind` where the shape isn't of its kind, `Duplicate` where the identifier is live,
    /// `Full` where as many are live as may be, and `NoMemory` where that isn't given. A refused one changes nothing.
    pub fn add<L: Ledger>(
        &mut self,
        name: &Name,
        id: u64,
        shape: Shape,
        steps: &mut Steps<L>,
    ) -> Result<Spent, UpdateFault>
        requires lawful { IsShape Two (model_shape shape) }
        requires few { self.old.updates < 2 ^ 40 }
        ensures answered { IsAnswered (map_of self.old) (commands.Add name.now id (model_shape shape)) (map_of self.new) (updated result) }
        ensures counted { self.new.updates ≡ self.old.updates + 1 }
        ensures kept { KeepsMemoryIn name.now result self.old.layers self.new.layers }

        // Bounded, refused memory or not; and nothing where it is refused for another cause.
        ensures cost { IsCostIn (layer_named name.now (map_of self.old).layers) Adds result (lap_begun steps.old) steps.new }
        ensures told { IfOk result (λ spent. IsToldIn (layer_named name.now (map_of self.old).layers) Adds spent (lap_begun steps.old) steps.new) }
    {
        steps.start_lap();
        self.updates += 1;
        add_in(&mut self.layers, name, id, shape, steps)
    }

    /// Gives the point of an identifier another place and weight. It goes to the end of its layer, behind what was added after it, though it
    /// be where it was.
    ///
    /// `NoLayer` where no layer has the name, then `WrongKind` where the layer has segments, `Unknown` where the identifier isn't live, and
    /// `NoMemory` where that isn't given: the point is then where it was. It goes and comes back in one update, so a full layer takes it.
    pub fn move_point<L: Ledger>(
        &mut self,
        name: &Name,
        id: u64,
        x: u32,
        y: u32,
        w: u32,
        steps: &mut Steps<L>,
    ) -> Result<Spent, UpdateFault>
        requires lawful { IsShape Two (shapes.Point x y w) }
        requires few { self.old.updates < 2 ^ 40 }
        ensures answered { IsAnswered (map_of self.old) (commands.Move name.now id x y w) (map_of self.new) (updated result) }
        ensures counted { self.new.updates ≡ self.old.updates + 1 }
        ensures kept { KeepsMemoryIn name.now result self.old.layers self.new.layers }

        // Bounded, refused memory or not; and nothing where it is refused for another cause.
        ensures cost { IsCostIn (layer_named name.now (map_of self.old).layers) Moves result (lap_begun steps.old) steps.new }
        ensures told { IfOk result (λ spent. IsToldIn (layer_named name.now (map_of self.old).layers) Moves spent (lap_begun steps.old) steps.new) }
    {
        steps.start_lap();
        self.updates += 1;
        move_in(&mut self.layers, name, id, x, y, w, steps)
    }

    /// Drops the item with an identifier from a layer: `NoLayer` where no layer has the name, then `Unknown` where the identifier isn't live,
    /// and `NoMemory` where that isn't given.
    pub fn remove<L: Ledger>(
        &mut self,
        name: &Name,
        id: u64,
        steps: &mut Steps<L>,
    ) -> Result<Spent, UpdateFault>
        requires few { self.old.updates < 2 ^ 40 }
        ensures answered { IsAnswered (map_of self.old) (commands.Drop name.now id) (map_of self.new) (updated result) }
        ensures counted { self.new.updates ≡ self.old.updates + 1 }
        ensures kept { KeepsMemoryIn name.now result self.old.layers self.new.layers }

        // Bounded, refused memory or not; and nothing where it is refused for another cause.
        ensures cost { IsCostIn (layer_named name.now (map_of self.old).layers) Drops result (lap_begun steps.old) steps.new }
        ensures told { IfOk result (λ spent. IsToldIn (layer_named name.now (map_of self.old).layers) Drops spent (lap_begun steps.old) steps.new) }
    {
        steps.start_lap();
        self.updates += 1;
        remove_in(&mut self.layers, name, id, steps)
    }

    /// How many items a layer has.
    pub fn size(&self, name: &Name) -> Result<u64, AskFault>
        ensures answered { IsAnswered (map_of self.now) (commands.Size name.now) (map_of self.now) (questioned replies.Sized result) }
    {
        match self.layer(name) {
            Some(layer) => Ok(layer.len() as u64),
            None => Err(AskFault::NoLayer),
        }
    }

    /// The shape of the item of a layer with an identifier.
    pub fn get(&self, name: &Name, id: u64) -> Result<Shape, AskFault>
        ensures answered { IsAnswered (map_of self.now) (commands.Get name.now id) (map_of self.now)
            (questioned (λ shape. replies.Got (model_shape shape)) result) }
    {
        let Some(layer) = self.layer(name) else {
            return Err(AskFault::NoLayer);
        };
        match layer.get(id) {
            Some(shape) => Ok(shape),
            None => Err(AskFault::Unknown(id)),
        }
    }

    /// The identifiers of the last `k` items of a layer, the newest first, or of all where there are fewer.
    pub fn recent(&self, name: &Name, k: usize) -> Result<Recent, AskFault>
        requires { k ≤ 64 }
        ensures answered { IsAnswered (map_of self.now) (commands.Recent name.now k) (map_of self.now) (questioned replies.Latest result) }
    {
        match self.layer(name) {
            Some(layer) => Ok(layer.recent(k)),
            None => Err(AskFault::NoLayer),
        }
    }

    /// How many calls of updates there were, refused ones included.
    pub fn updates(&self) -> u64
        ensures { result ≡ self.now.updates }
    {
        self.updates
    }

    /// The layer of a name.
    fn layer(&self, name: &Name) -> Option<&Layer<P, S>>
        ensures { option_map (λ l. l.now) result ≡ named name.now self.now.layers }
    {
        self.layers
            .as_slice()
            .iter()
            .find(|layer| layer.has_name(name))
    }
}
