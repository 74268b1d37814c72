//! The directory itself.
ghost use Rattle.std.specs.Prelude.{◌≡◌, ◌+◌, ◌<◌, ◌≤◌, ◌^◌, [], ◌∷◌, ◌++◌, Some, None, false, IfOk, OnErr, IsSome, take, reverse, if◌then◌else◌};
ghost use Rattle.std.specs.Option.{is_none};
ghost use Rattle.id_chain.specs.Chain.{is_linked, HandlesDiffer, before, after};
ghost use Rattle.id_chain.specs.StampsRise.{StampsRise};
ghost use Rattle.id_directory.specs.Directory.{ids, handle_of, item_of, without, IdsDiffer};

use crate::slots::{put_new, take};
use id_chain::{Chain, Handle};
use map_shapes::Recent;
use query_laws::{Named, NoMemory};
use std::alloc::Global;
use std::collections::BTreeMap;
use std::marker::Model;

/// Items that are found by identifier, and kept in order of append.
///
/// An add is in two calls: [`prepare_add`](Directory::prepare_add) takes all memory that it needs, and
/// [`add`](Directory::add) can't fail. Between them the identifier is pending, and no item has it yet; the map has the handle that the
/// chain gives next, so it is searched once.
#[derive(Drop)]
pub struct Directory<I: Named> {
    chain: Chain<I>,
    // The handle of each item, and at the pending identifier the one that the chain gives next.
    handles: BTreeMap<u64, Handle>,
    adds: u64,
    pending: Option<u64>,
    // For how many items the chain takes its memory at once.
    most: usize,
}

impl<I: Named> Model for Directory<I> {
    ghost use Rattle.id_directory.specs.Directory.{DirectoryState, directory_code};

    ghost Value = { DirectoryState I };

    ghost coded = { directory_code I.code };

    ghost use Rattle.id_directory.specs.Agreement.{Agrees};

    ghost view = { λ d. record { entries = d.chain.entries; adds = d.adds; pending = d.pending } };

    ghost invariant = { λ d. Agrees I.id I.stamp d.handles d.chain.entries d.chain.spare d.chain.next_handle d.adds d.pending };
}

impl<I: Named> Directory<I> {
    /// An empty directory, which takes its memory from `alloc` later: the chain's for `most` items at once, with the first add, so that no
    /// later add copies the chain, and the map's node by node. There may be more items than `most`.
    pub fn new(alloc: Global, most: usize) -> Directory<I>
        ensures { result ≡ record { entries = []; adds = 0; pending = None } }
    {
        Directory {
            chain: Chain::new(alloc),
            handles: BTreeMap::new(alloc),
            adds: 0,
            pending: None,
            most,
        }
    }

    /// The handle of the item with this identifier. It takes as long as a look-up in std's map.
    pub fn find(&self, id: u64) -> Option<Handle>
        ensures { result ≡ handle_of I.id id self.now.entries }
    {
        let handle = self.handles.get(&id)?;
        if self.pending == Some(id) {
            return None;
        }
        Some(*handle)
    }

    /// Takes the memory for one add of an item with this identifier, which is pending then. It is `false` where an item has the
    /// identifier. No other call of an add looks for it again.
    pub fn prepare_add(&mut self, id: u64) -> Result<bool, NoMemory>
        requires none_pending { self.old.pending ≡ None }
        ensures is_new { IfOk result (λ is_new. is_new ≡ is_none (handle_of I.id id self.old.entries)) }
        ensures prepared { IfOk result (λ is_new. self.new ≡ record self.old { pending = if is_new then Some id else None }) }
        ensures refused { OnErr result (self.new ≡ self.old) }
        ensures absent { OnErr result (handle_of I.id id self.old.entries ≡ None) }
    {
        if !put_new(&mut self.handles, id, self.chain.next_handle())? {
            return Ok(false);
        }
        if self.chain.spare() == 0 && self.chain.reserve(self.most.max(1)).is_err() {
            take(&mut self.handles, id);
            return Err(NoMemory);
        }
        self.pending = Some(id);
        Ok(true)
    }

    /// Gives up the prepared add.
    pub fn cancel_add(&mut self)
        requires { IsSome self.old.pending }
        ensures { self.new ≡ record self.old { pending = None } }
    {
        if let Some(id) = self.pending {
            take(&mut self.handles, id);
            self.pending = None;
        }
    }

    /// Appends the item whose add is prepared. It takes no memory.
    pub fn add(&mut self, item: I) -> Handle
        requires pending { self.old.pending ≡ Some (I.id item) }
        requires stamped { I.stamp item ≡ self.old.adds }
        requires adds { self.old.adds < 2 ^ 63 }
        ensures new_handle { is_linked result self.old.entries ≡ false }
        ensures added { self.new ≡ record {
          entries = self.old.entries ++ record { handle = result; item = item } ∷ [];
          adds = self.old.adds + 1;
          pending = None;
        } }
    {
        let handle = self.chain.append(item);
        self.pending = None;
        self.adds += 1;
        handle
    }

    /// Takes out the item with this identifier. Its handle isn't linked any more.
    pub fn remove(&mut self, id: u64) -> I
        requires none_pending { self.old.pending ≡ None }
        requires present { IsSome (handle_of I.id id self.old.entries) }
        ensures item { item_of I.id id self.old.entries ≡ Some result }
        ensures removed { self.new ≡ record self.old { entries = without I.id id self.old.entries } }

        // The same by the handle that `find` gives.
        ensures unlinked { (handle : _) → handle_of I.id id self.old.entries ≡ Some handle
            → self.new.entries ≡ before handle self.old.entries ++ after handle self.old.entries }
    {
        match take(&mut self.handles, id) {
            Some(handle) => self.chain.unlink(handle),
            None => unreachable!(),
        }
    }

    /// Renews the item with an identifier: another one with the same identifier and a new stamp comes last, under the same handle. It counts as
    /// an add, and takes no memory. The result is the item that was there.
    pub fn renew(&mut self, handle: Handle, item: I) -> I
        requires none_pending { self.old.pending ≡ None }
        requires present { handle_of I.id (I.id item) self.old.entries ≡ Some handle }
        requires stamped { I.stamp item ≡ self.old.adds }
        requires adds { self.old.adds < 2 ^ 63 }
        ensures item { item_of I.id (I.id item) self.old.entries ≡ Some result }
        ensures renewed { self.new ≡ record self.old {
          entries = without I.id (I.id item) self.old.entries ++ record { handle = handle; item = item } ∷ [];
          adds = self.old.adds + 1;
        } }
    {
        self.adds += 1;
        self.chain.renew(handle, item)
    }

    /// The identifiers of the last `k` items, the newest first, or of all where there are fewer.
    pub fn recent(&self, k: usize) -> Recent
        requires { k ≤ 64 }
        ensures { result ≡ take k (reverse (ids I.id self.now.entries)) }
    {
        let mut recent = Recent::new();
        let mut at = self.chain.last();
        for _done in 0..k {
            if let Some(handle) = at {
                recent.push(self.chain.item(handle).id());
                at = self.chain.prev(handle);
            }
        }
        recent
    }

    /// The items in order of append.
    pub fn chain(&self) -> &Chain<I>
        ensures entries { result.now.entries ≡ self.now.entries }
        ensures ids_differ { IdsDiffer I.id self.now.entries }
        ensures handles_differ { HandlesDiffer self.now.entries }
        ensures stamps_rise { StampsRise I.stamp 0 self.now.entries self.now.adds }
    {
        &self.chain
    }

    /// How many items were ever added or renewed.
    pub fn adds(&self) -> u64
        ensures { result ≡ self.now.adds }
    {
        self.adds
    }
}
