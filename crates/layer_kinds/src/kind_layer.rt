//! A layer of one kind.
mod asking;
mod late;

ghost use Rattle.std.specs.Prelude.{◌≡◌, ◌+◌, ◌*◌, ◌<◌, ◌≤◌, ◌^◌, true, false, [], IfOk, bytes_eq, length, if◌then◌else◌};
ghost use Rattle.std.specs.Option.{option_map, is_some};
ghost use Rattle.std.specs.Result.{is_ok};
ghost use Rattle.query_laws.specs.StepLedger.{AtLapStart};
ghost use Rattle.map_model.specs.Index.{one_if};
ghost use Rattle.map_model.specs.Answer.{latest};
ghost use Rattle.map_model.specs.State as state;
ghost use Rattle.map_model.specs.Cost.{Adds, Drops, Moves, greatest_level, parts_up_to};
ghost use Rattle.map_shapes.specs.Shape.{model_shape};
ghost use Rattle.id_directory.specs.Directory.{handle_of};
ghost use Rattle.layer_kinds.specs.declared.faults.UpdateFault.TheVariants as faults;
ghost use Rattle.layer_kinds.specs.Layered.{items_of, IsAdd, IsMove, IsRemoval, IsWaiting};
ghost use Rattle.layer_kinds.specs.Costs.{turns_of, marks_of, IsCost, IsTold};
ghost use Rattle.layer_kinds.specs.Memory.{KeepsMemory};

use crate::bounds::{Bounds, spent};
use crate::{Indexes, UpdateFault};
pub use asking::ask_layer;
use id_directory::Directory;
pub use late::add_index;
use map_shapes::{Name, Recent, Shape, Shaped, Spent};
use query_laws::Named;
use query_laws::step_ledger::Steps;
use std::alloc::Global;
use std::marker::Model;
use std::sync::ledger::Ledger;

/// Items by identifier, and the indexes over them. Contracts see the items in order of add.
///
/// Each update is handed steps whose lap begins there. All memory is taken, in all indexes, before anything is changed.
#[derive(Drop)]
pub struct KindLayer<X: Indexes> {
    name: Name,
    most_items: usize,
    directory: Directory<X::Item>,
    indexes: X,
}

impl<X: Indexes> Model for KindLayer<X> {
    ghost use Rattle.std.specs.Prelude.{◌≡◌, ◌≤◌, ◌^◌, None, length};
    ghost use Rattle.layer_kinds.specs.Layered.{Layered};

    ghost Value = { Layered X X.Item };

    ghost view = { λ l. record { name = l.name; most_items = l.most_items; entries = l.directory.entries; adds = l.directory.adds; indexes = l.indexes } };

    ghost invariant = { λ l. (l.directory.pending ≡ None) × X.are_of l.indexes l.directory.entries l.directory.adds
        × (length l.directory.entries ≤ l.most_items) × (l.most_items ≤ 2 ^ 24) × (length (X.rates l.indexes) ≤ 4) };
}

impl<X: Indexes> KindLayer<X> {
    /// A layer without items, which may have so many, over indexes without items, four at most. It takes no memory; updates take theirs from
    /// `alloc`.
    pub fn new(alloc: Global, name: Name, most_items: usize, indexes: X) -> KindLayer<X>
        requires most { most_items ≤ 2 ^ 24 }
        requires of { X.are_of indexes [] 0 }
        requires few { length (X.rates indexes) ≤ 4 }
        ensures { result ≡ record { name = name; most_items = most_items; entries = []; adds = 0; indexes = indexes } }
    {
        KindLayer {
            name,
            most_items,
            directory: Directory::new(alloc, most_items),
            indexes,
        }
    }

    /// Whether it has this name.
    pub fn has_name(&self, name: &Name) -> bool
        ensures { result ≡ bytes_eq self.now.name name.now }
    {
        self.name == *name
    }

    /// How many items there are.
    pub fn len(&self) -> usize
        ensures count { result ≡ length self.now.entries }
        ensures few { result ≤ 2 ^ 24 }
    {
        self.directory.chain().len()
    }

    /// What its updates and questions may cost now: a drop what an add may.
    pub fn bounds(&self) -> Bounds
        ensures turns { result.turns ≡ turns_of Adds (X.rates self.now.indexes) (length self.now.entries) }
        ensures marks { result.marks ≡ marks_of Adds (X.rates self.now.indexes) (length self.now.entries) }
        ensures move_turns { result.move_turns ≡ turns_of Moves (X.rates self.now.indexes) (length self.now.entries) }
        ensures move_marks { result.move_marks ≡ marks_of Moves (X.rates self.now.indexes) (length self.now.entries) }
        ensures parts { result.parts ≡ parts_up_to (greatest_level (length self.now.entries)) }
        ensures few_turns { result.turns < 2 ^ 32 }
        ensures few_marks { result.marks < 2 ^ 32 }
        ensures few_move_turns { result.move_turns < 2 ^ 32 }
        ensures few_move_marks { result.move_marks < 2 ^ 32 }
    {
        Bounds::new(self.len(), &self.indexes)
    }

    /// The shape of the item with an identifier.
    pub fn get(&self, id: u64) -> Option<Shape>
        ensures { option_map model_shape result ≡ state.shape_of id (items_of X.Item.item_of self.now.entries) }
    {
        let handle = self.directory.find(id)?;
        let item = self.directory.chain().item(handle);
        Some(item.shape())
    }

    /// The identifiers of the last `k` items, the newest first, or of all where there are fewer.
    pub fn recent(&self, k: usize) -> Recent
        requires { k ≤ 64 }
        ensures { result ≡ latest k (items_of X.Item.item_of self.now.entries) }
    {
        self.directory.recent(k)
    }

    /// Adds an item at the end, with a stamp of its own, and says what it cost.
    pub fn add<L: Ledger>(
        &mut self,
        item: X::Item,
        steps: &mut Steps<L>,
    ) -> Result<Spent, UpdateFault>
        requires few { self.old.adds < 2 ^ 62 }
        requires lap { AtLapStart steps.old }
        ensures added { IsAdd self.old.most_items (items_of X.Item.item_of self.old.entries) (X.Item.item_of item) (items_of X.Item.item_of self.new.entries) result }
        ensures adds { self.new.adds ≡ self.old.adds + one_if (is_ok result) }
        ensures name { self.new.name ≡ self.old.name }
        ensures limit { self.new.most_items ≡ self.old.most_items }
        ensures there { X.rates self.new.indexes ≡ X.rates self.old.indexes }
        ensures waits { IsWaiting true (X.Item.item_of item).id (items_of X.Item.item_of self.old.entries) (X.waits self.old.indexes) (X.waits self.new.indexes) result }
        ensures kept { KeepsMemory result (X.memory self.old.indexes) (X.memory self.new.indexes) }
        ensures cost { IsCost Adds (X.rates self.old.indexes) (length self.old.entries) result steps.old steps.new }
        ensures told { IfOk result (λ spent. IsTold Adds (X.rates self.old.indexes) (X.waits self.old.indexes) (length self.old.entries) spent steps.old steps.new) }
    {
        let bounds = self.bounds();
        let id = item.id();
        let is_full = self.directory.chain().len() >= self.most_items;
        if is_full {
            return Err(self.fault_when_full(id));
        }
        if !self.directory.prepare_add(id)? {
            return Err(UpdateFault::Duplicate(id));
        }
        if self.indexes.prepare(self.directory.chain(), steps).is_err() {
            self.directory.cancel_add();
            return Err(UpdateFault::NoMemory);
        }
        let handle = self.directory.add(item.stamped(self.directory.adds()));
        self.indexes.insert(self.directory.chain(), handle, steps);
        Ok(spent(bounds.turns, bounds.marks, steps))
    }

    /// Why a full layer takes no item with this identifier.
    fn fault_when_full(&self, id: u64) -> UpdateFault
        ensures { result ≡ (if is_some (handle_of X.Item.id id self.now.entries) then faults.Duplicate id else faults.Full) }
    {
        match self.directory.find(id) {
            Some(_) => UpdateFault::Duplicate(id),
            None => UpdateFault::Full,
        }
    }

    /// Takes the item with an identifier out, and says what it cost.
    pub fn remove<L: Ledger>(&mut self, id: u64, steps: &mut Steps<L>) -> Result<Spent, UpdateFault>
        requires lap { AtLapStart steps.old }
        ensures removed { IsRemoval (items_of X.Item.item_of self.old.entries) id (items_of X.Item.item_of self.new.entries) result }
        ensures adds { self.new.adds ≡ self.old.adds }
        ensures name { self.new.name ≡ self.old.name }
        ensures limit { self.new.most_items ≡ self.old.most_items }
        ensures there { X.rates self.new.indexes ≡ X.rates self.old.indexes }
        ensures waits { IsWaiting false id (items_of X.Item.item_of self.old.entries) (X.waits self.old.indexes) (X.waits self.new.indexes) result }
        ensures kept { KeepsMemory result (X.memory self.old.indexes) (X.memory self.new.indexes) }
        ensures cost { IsCost Drops (X.rates self.old.indexes) (length self.old.entries) result steps.old steps.new }
        ensures told { IfOk result (λ spent. IsTold Drops (X.rates self.old.indexes) (X.waits self.old.indexes) (length self.old.entries) spent steps.old steps.new) }
    {
        let bounds = self.bounds();
        let Some(handle) = self.directory.find(id) else {
            return Err(UpdateFault::Unknown(id));
        };
        self.indexes.prepare(self.directory.chain(), steps)?;
        self.indexes.delete(self.directory.chain(), handle, steps);
        self.directory.remove(id);
        Ok(spent(bounds.turns, bounds.marks, steps))
    }

    /// Puts an item in the place of the one with its identifier, at the end and with a stamp of its own, and says what it cost.
    ///
    /// `Unknown` where the identifier isn't live, before anything is counted; `NoMemory` where memory isn't given to one of the indexes: the item
    /// that was there stays then, and in its place. No layer is too full for it. In each index it is a drop and an add under one preparation:
    /// seven ticks at most, where either has six.
    pub fn relocate<L: Ledger>(
        &mut self,
        item: X::Item,
        steps: &mut Steps<L>,
    ) -> Result<Spent, UpdateFault>
        requires few { self.old.adds < 2 ^ 62 }
        requires lap { AtLapStart steps.old }
        ensures moved { IsMove (items_of X.Item.item_of self.old.entries) (X.Item.item_of item) (items_of X.Item.item_of self.new.entries) result }
        ensures adds { self.new.adds ≡ self.old.adds + one_if (is_ok result) }
        ensures name { self.new.name ≡ self.old.name }
        ensures limit { self.new.most_items ≡ self.old.most_items }
        ensures there { X.rates self.new.indexes ≡ X.rates self.old.indexes }
        ensures waits { IsWaiting true (X.Item.item_of item).id (items_of X.Item.item_of self.old.entries) (X.waits self.old.indexes) (X.waits self.new.indexes) result }
        ensures kept { KeepsMemory result (X.memory self.old.indexes) (X.memory self.new.indexes) }
        ensures cost { IsCost Moves (X.rates self.old.indexes) (length self.old.entries) result steps.old steps.new }
        ensures told { IfOk result (λ spent. IsTold Moves (X.rates self.old.indexes) (X.waits self.old.indexes) (length self.old.entries) spent steps.old steps.new) }
    {
        let bounds = self.bounds();
        let id = item.id();
        let Some(handle) = self.directory.find(id) else {
            return Err(UpdateFault::Unknown(id));
        };
        self.indexes.prepare(self.directory.chain(), steps)?;
        let moved = item.stamped(self.directory.adds());
        self.indexes
            .relocate(self.directory.chain(), handle, moved, steps);
        self.directory.renew(handle, moved);
        Ok(spent(bounds.move_turns, bounds.move_marks, steps))
    }
}
