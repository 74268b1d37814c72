//! A layer of either kind.
ghost use Rattle.std.specs.Prelude.{◌≡◌, ◌+◌, ◌<◌, ◌≤◌, ◌^◌, true, [], IfOk, bytes_eq, length};
ghost use Rattle.std.specs.Option.{option_map};
ghost use Rattle.query_laws.specs.StepLedger.{AtLapStart};
ghost use Rattle.map_model.specs.Answer.{latest};
ghost use Rattle.map_model.specs.Cost.{Adds, Drops, Moves};
ghost use Rattle.map_model.specs.Index.{fits};
ghost use Rattle.map_model.specs.Line.{IsShape};
ghost use Rattle.map_model.specs.State as state;
ghost use Rattle.map_model.specs.Version.{Two};
ghost use Rattle.map_shapes.specs.IndexSet.{index_set_of, index_of};
ghost use Rattle.map_shapes.specs.Kind as kinds;
ghost use Rattle.map_shapes.specs.Shape.{model_shape};
ghost use Rattle.map_layers.specs.Layer.{name_in, items_in, layer_seen, IsAddTo, IsMoveTo, IsRemovalFrom, IsIndexIn};
ghost use Rattle.map_questions.specs.Any.{question_of};
ghost use Rattle.map_layers.specs.Questions.{Asks};
ghost use Rattle.map_layers.specs.Costs.{IsCost, IsTold};
ghost use Rattle.map_layers.specs.Memory.{KeepsMemory, AddsMemory};
ghost use Rattle.map_layers.specs.Faults.{update_result_of};

use crate::{Answered, AskFault, IndexFault, NamedIndexes, OverPoints, OverSegments, UpdateFault};
use layer_kinds::KindLayer;
use map_questions::AnyQuestion;
use map_shapes::{IndexSet, Kind, Name, PointIndex, QuestionCost, Recent, Shape, Spent};
use query_laws::step_ledger::Steps;
use std::alloc::Global;
use std::default::MadeWith;
use std::marker::Model;
use std::sync::ledger::Ledger;

/// A layer of points, or of segments. Contracts see it as the definitions do, beside what its indexes hold and their memory.
#[derive(Drop)]
pub struct Layer<P: OverPoints, S: OverSegments> {
    shapes: Shapes<P, S>,
}

/// A layer by the kind of its shapes.
#[derive(Drop)]
enum Shapes<P: OverPoints, S: OverSegments> {
    Points(KindLayer<P>),
    Segments(KindLayer<S>),
}

impl<P: OverPoints, S: OverSegments> Model for Layer<P, S> {
    ghost use Rattle.map_layers.specs.Layer.{LayerState, seen, seen_of};

    ghost Value = { LayerState };

    ghost view = { λ l. seen_of (seen P.Item.kind P.Item.item_of P.held P.memory) (seen S.Item.kind S.Item.item_of S.held S.memory) l.shapes };
}

/// What fills a place that no layer has yet.
impl<P: OverPoints, S: OverSegments> MadeWith<Global> for Layer<P, S> {
    fn made_with(alloc: Global) -> Layer<P, S> {
        let none = P::of_set(alloc, IndexSet::new());
        let shapes = Shapes::Points(KindLayer::new(alloc, no_name(), 0, none));
        Layer { shapes }
    }
}

impl<P: OverPoints, S: OverSegments> Layer<P, S> {
    /// A layer without items, for so many. It takes no memory.
    pub(crate) fn new(
        alloc: Global,
        name: Name,
        most_items: usize,
        kind: Kind,
        indexes: IndexSet,
    ) -> Layer<P, S>
        requires few { most_items ≤ 2 ^ 24 }
        requires fits { fits (kinds.kind_of kind) (index_set_of indexes) ≡ true }
        ensures made { result.layer ≡ record {
          name = name;
          kind = kinds.kind_of kind;
          indexes = index_set_of indexes;
          waits = state.no_waits;
          inserted = 0;
          items = [];
        } }
        ensures limit { result.most_items ≡ most_items }
    {
        let shapes = match kind {
            Kind::Points => {
                Shapes::Points(KindLayer::new(alloc, name, most_items, P::of_set(alloc, indexes)))
            }
            Kind::Segments => {
                Shapes::Segments(KindLayer::new(alloc, name, most_items, S::of_set(alloc, indexes)))
            }
        };
        Layer { shapes }
    }

    /// Whether it has this name.
    pub(crate) fn has_name(&self, name: &Name) -> bool
        ensures { result ≡ bytes_eq (name_in self.now) name.now }
    {
        match &self.shapes {
            Shapes::Points(points) => points.has_name(name),
            Shapes::Segments(segments) => segments.has_name(name),
        }
    }

    /// How many items there are.
    pub(crate) fn len(&self) -> usize
        ensures count { result ≡ length (items_in self.now) }
        ensures few { result ≤ 2 ^ 24 }
    {
        match &self.shapes {
            Shapes::Points(points) => points.len(),
            Shapes::Segments(segments) => segments.len(),
        }
    }

    /// The shape of the item with an identifier.
    pub(crate) fn get(&self, id: u64) -> Option<Shape>
        ensures { option_map model_shape result ≡ state.shape_of id (items_in self.now) }
    {
        match &self.shapes {
            Shapes::Points(points) => points.get(id),
            Shapes::Segments(segments) => segments.get(id),
        }
    }

    /// The identifiers of the last `k` items, the newest first, or of all where there are fewer.
    pub(crate) fn recent(&self, k: usize) -> Recent
        requires { k ≤ 64 }
        ensures { result ≡ latest k (items_in self.now) }
    {
        match &self.shapes {
            Shapes::Points(points) => points.recent(k),
            Shapes::Segments(segments) => segments.recent(k),
        }
    }

    /// Puts a question to the items: `WrongKind` where it is about the other kind.
    pub(crate) fn ask<L: Ledger>(
        &self,
        alloc: Global,
        question: &AnyQuestion,
        steps: &mut Steps<L>,
    ) -> Result<(Answered, QuestionCost), AskFault>
        requires lap { AtLapStart steps.old }
        ensures { Asks self.now.layer self.now.held (question_of question.now) result steps.old steps.new }
    {
        match (&self.shapes, question) {
            (Shapes::Points(points), AnyQuestion::Points(question)) => {
                Ok(P::ask(points, alloc, question, steps)?)
            }
            (Shapes::Segments(segments), AnyQuestion::Segments(question)) => {
                Ok(S::ask(segments, alloc, question, steps)?)
            }
            (Shapes::Points(_), AnyQuestion::Segments(_)) => Err(AskFault::WrongKind),
            (Shapes::Segments(_), AnyQuestion::Points(_)) => Err(AskFault::WrongKind),
        }
    }

    /// Gives it an index that it hasn't, which waits for all items: `WrongKind` where it has segments, `Standing` where it has the index.
    pub(crate) fn add_index(&mut self, alloc: Global, index: PointIndex) -> Result<(), IndexFault>
        ensures begun { IsIndexIn self.old.layer (index_of index) self.new.layer result }
        ensures name { name_in self.new ≡ name_in self.old }
        ensures limit { self.new.most_items ≡ self.old.most_items }
        ensures adds { self.new.layer.inserted ≡ self.old.layer.inserted }
        ensures kept { AddsMemory result self.old.memory self.new.memory }
    {
        match &mut self.shapes {
            Shapes::Points(points) => Ok(P::add_index(points, alloc, index)?),
            Shapes::Segments(_) => Err(IndexFault::WrongKind),
        }
    }

    /// Adds an item at the end, and says what it cost: `WrongKind` where its shape isn't of the layer's kind.
    pub(crate) fn add<L: Ledger>(
        &mut self,
        id: u64,
        shape: Shape,
        steps: &mut Steps<L>,
    ) -> Result<Spent, UpdateFault>
        requires lawful { IsShape Two (model_shape shape) }
        requires few { self.old.layer.inserted < 2 ^ 62 }
        requires lap { AtLapStart steps.old }
        ensures added { IsAddTo self.old.most_items self.old.layer (record { id = id; shape = model_shape shape }) self.new.layer result }
        ensures name { name_in self.new ≡ name_in self.old }
        ensures limit { self.new.most_items ≡ self.old.most_items }
        ensures adds { self.new.layer.inserted ≤ self.old.layer.inserted + 1 }
        ensures kept { KeepsMemory result self.old.memory self.new.memory }
        ensures cost { IsCost self.old.layer Adds result steps.old steps.new }
        ensures told { IfOk result (λ spent. IsTold self.old.layer Adds spent steps.old steps.new) }
    {
        match &mut self.shapes {
            Shapes::Points(points) => add_to(points, id, shape, steps),
            Shapes::Segments(segments) => add_to(segments, id, shape, steps),
        }
    }

    /// Puts an item at the end in the place of that with its identifier, and says what it cost: `WrongKind` where its shape isn't of the
    /// layer's kind.
    pub(crate) fn relocate<L: Ledger>(
        &mut self,
        id: u64,
        shape: Shape,
        steps: &mut Steps<L>,
    ) -> Result<Spent, UpdateFault>
        requires lawful { IsShape Two (model_shape shape) }
        requires few { self.old.layer.inserted < 2 ^ 62 }
        requires lap { AtLapStart steps.old }
        ensures moved { IsMoveTo self.old.layer (record { id = id; shape = model_shape shape }) self.new.layer result }
        ensures name { name_in self.new ≡ name_in self.old }
        ensures limit { self.new.most_items ≡ self.old.most_items }
        ensures adds { self.new.layer.inserted ≤ self.old.layer.inserted + 1 }
        ensures kept { KeepsMemory result self.old.memory self.new.memory }
        ensures cost { IsCost self.old.layer Moves result steps.old steps.new }
        ensures told { IfOk result (λ spent. IsTold self.old.layer Moves spent steps.old steps.new) }
    {
        match &mut self.shapes {
            Shapes::Points(points) => relocate_in(points, id, shape, steps),
            Shapes::Segments(segments) => relocate_in(segments, id, shape, steps),
        }
    }

    /// Takes the item with an identifier out, and says what it cost.
    pub(crate) fn remove<L: Ledger>(
        &mut self,
        id: u64,
        steps: &mut Steps<L>,
    ) -> Result<Spent, UpdateFault>
        requires lap { AtLapStart steps.old }
        ensures removed { IsRemovalFrom self.old.layer id self.new.layer result }
        ensures name { name_in self.new ≡ name_in self.old }
        ensures limit { self.new.most_items ≡ self.old.most_items }
        ensures adds { self.new.layer.inserted ≡ self.old.layer.inserted }
        ensures kept { KeepsMemory result self.old.memory self.new.memory }
        ensures cost { IsCost self.old.layer Drops result steps.old steps.new }
        ensures told { IfOk result (λ spent. IsTold self.old.layer Drops spent steps.old steps.new) }
    {
        match &mut self.shapes {
            Shapes::Points(points) => remove_from(points, id, steps),
            Shapes::Segments(segments) => remove_from(segments, id, steps),
        }
    }
}

/// Adds an item of a shape at the end of a layer of one kind, where the shape is of the kind.
fn add_to<X: NamedIndexes, L: Ledger>(
    layer: &mut KindLayer<X>,
    id: u64,
    shape: Shape,
    steps: &mut Steps<L>,
) -> Result<Spent, UpdateFault>
    requires lawful { IsShape Two (model_shape shape) }
    requires few { layer.old.adds < 2 ^ 62 }
    requires lap { AtLapStart steps.old }
    ensures added { IsAddTo layer.old.most_items (layer_seen X.Item.kind X.Item.item_of X.held layer.old) (record { id = id; shape = model_shape shape })
        (layer_seen X.Item.kind X.Item.item_of X.held layer.new) result }
    ensures name { layer.new.name ≡ layer.old.name }
    ensures limit { layer.new.most_items ≡ layer.old.most_items }
    ensures adds { layer.new.adds ≤ layer.old.adds + 1 }
    ensures kept { KeepsMemory result (X.memory layer.old.indexes) (X.memory layer.new.indexes) }
    ensures cost { IsCost (layer_seen X.Item.kind X.Item.item_of X.held layer.old) Adds result steps.old steps.new }
    ensures told { IfOk result (λ spent. IsTold (layer_seen X.Item.kind X.Item.item_of X.held layer.old) Adds spent steps.old steps.new) }
{
    match X::item(id, shape) {
        Some(item) => in_map(layer.add(item, steps)),
        None => Err(UpdateFault::WrongKind),
    }
}

/// Puts an item of a shape at the end of a layer of one kind in the place of that with its identifier, where the shape is of the kind.
fn relocate_in<X: NamedIndexes, L: Ledger>(
    layer: &mut KindLayer<X>,
    id: u64,
    shape: Shape,
    steps: &mut Steps<L>,
) -> Result<Spent, UpdateFault>
    requires lawful { IsShape Two (model_shape shape) }
    requires few { layer.old.adds < 2 ^ 62 }
    requires lap { AtLapStart steps.old }
    ensures moved { IsMoveTo (layer_seen X.Item.kind X.Item.item_of X.held layer.old) (record { id = id; shape = model_shape shape })
        (layer_seen X.Item.kind X.Item.item_of X.held layer.new) result }
    ensures name { layer.new.name ≡ layer.old.name }
    ensures limit { layer.new.most_items ≡ layer.old.most_items }
    ensures adds { layer.new.adds ≤ layer.old.adds + 1 }
    ensures kept { KeepsMemory result (X.memory layer.old.indexes) (X.memory layer.new.indexes) }
    ensures cost { IsCost (layer_seen X.Item.kind X.Item.item_of X.held layer.old) Moves result steps.old steps.new }
    ensures told { IfOk result (λ spent. IsTold (layer_seen X.Item.kind X.Item.item_of X.held layer.old) Moves spent steps.old steps.new) }
{
    match X::item(id, shape) {
        Some(item) => in_map(layer.relocate(item, steps)),
        None => Err(UpdateFault::WrongKind),
    }
}

/// Takes the item with an identifier out of a layer of one kind.
fn remove_from<X: NamedIndexes, L: Ledger>(
    layer: &mut KindLayer<X>,
    id: u64,
    steps: &mut Steps<L>,
) -> Result<Spent, UpdateFault>
    requires lap { AtLapStart steps.old }
    ensures removed { IsRemovalFrom (layer_seen X.Item.kind X.Item.item_of X.held layer.old) id (layer_seen X.Item.kind X.Item.item_of X.held layer.new) result }
    ensures name { layer.new.name ≡ layer.old.name }
    ensures limit { layer.new.most_items ≡ layer.old.most_items }
    ensures adds { layer.new.adds ≡ layer.old.adds }
    ensures kept { KeepsMemory result (X.memory layer.old.indexes) (X.memory layer.new.indexes) }
    ensures cost { IsCost (layer_seen X.Item.kind X.Item.item_of X.held layer.old) Drops result steps.old steps.new }
    ensures told { IfOk result (λ spent. IsTold (layer_seen X.Item.kind X.Item.item_of X.held layer.old) Drops spent steps.old steps.new) }
{
    in_map(layer.remove(id, steps))
}

/// What a layer of one kind did or refused, as the map says it.
fn in_map(done: Result<Spent, layer_kinds::UpdateFault>) -> Result<Spent, UpdateFault>
    ensures { result ≡ update_result_of done }
{
    Ok(done?)
}

/// A name for a place that no layer has.
fn no_name() -> Name {
    match Name::read(b"-") {
        Some(name) => name,
        None => unreachable!(),
    }
}
