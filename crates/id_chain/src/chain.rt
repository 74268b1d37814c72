//! The chain itself.
ghost use Rattle.std.specs.Prelude.{◌≡◌, ◌≢◌, ◌↔◌, ℕ, ◌+◌, ◌≤◌, [], ◌∷◌, ◌++◌, length, Some, false, IsTrue, IsOk, OnOk};
ghost use Rattle.id_chain.specs.Chain.{is_linked, HandlesDiffer, item_at, before, after, up_to, IsCursor, before_cursor, without_handle, first_or, first_handle, last_handle, StaysBefore, StaysBeside, StaysAhead};

use crate::handle::Handle;
use crate::node::{Node, link_next, link_prev};
use query_laws::NoMemory;
use slab::Slab;
use std::alloc::Global;
use std::marker::Model;

/// Items in order of append, each linked to its neighbours.
///
/// Contracts see the entries in order, each an item with its handle, how many appends need no further memory, and which handle the next
/// one gives. Only [`reserve`](Chain::reserve) takes memory, and no call moves an item. Every call but `reserve` takes the same short time
/// however long the chain is; `reserve` copies the nodes where it grows.
#[derive(Drop)]
pub struct Chain<I: Copy> {
    nodes: Slab<Node<I>>,
    first: Option<Handle>,
    last: Option<Handle>,
}

impl<I: Copy> Model for Chain<I> {
    ghost use Rattle.std.specs.Prelude.{◌-◌};
    ghost use Rattle.slab.specs.Slab.{slab_len};
    ghost use Rattle.id_chain.specs.Chain.{ChainState, chain_code};

    ghost Value = { ChainState I };

    ghost coded = { chain_code I.code };

    ghost use Rattle.id_chain.specs.Linking.{list_of, Refines};

    ghost view = { λ c. record {
      entries = list_of c.nodes c.first;
      spare = c.nodes.capacity - slab_len c.nodes;
      next_handle = c.nodes.vacant_key;
    } };

    ghost invariant = { λ c. Refines c.nodes c.first c.last (list_of c.nodes c.first) };
}

impl<I: Copy> Chain<I> {
    ghost use Rattle.id_chain.specs.Linking.{IsNodeOf};

    /// An empty chain, which takes its memory from `alloc` later, in [`reserve`](Chain::reserve).
    pub fn new(alloc: Global) -> Chain<I>
        ensures { result.entries ≡ [] }
    {
        Chain {
            nodes: Slab::new(alloc),
            first: None,
            last: None,
        }
    }

    /// Makes room for so many more appends. Where there is room it does nothing, and is `Ok`.
    pub fn reserve(&mut self, additional: usize) -> Result<(), NoMemory>
        ensures room { OnOk result (additional ≤ self.new.spare) }
        ensures entries { self.new.entries ≡ self.old.entries }
        ensures spare { self.old.spare ≤ self.new.spare }
        ensures next_handle { self.new.next_handle ≡ self.old.next_handle }
        ensures succeeds { additional ≤ self.old.spare → IsOk result }
        ensures had_room { additional ≤ self.old.spare → self.new ≡ self.old }
    {
        if additional <= self.spare() {
            return Ok(());
        }
        self.nodes.reserve(additional).map_err(NoMemory::from)
    }

    /// How many appends need no further memory.
    pub fn spare(&self) -> usize
        ensures { result ≡ self.now.spare }
    {
        self.nodes.capacity() - self.nodes.len()
    }

    /// The handle that the next append gives, if no item is unlinked before it.
    pub fn next_handle(&self) -> Handle
        ensures { result ≡ self.now.next_handle }
    {
        Handle::at(self.nodes.vacant_key())
    }

    /// Links an item at the end, under a handle that is not linked yet.
    pub fn append(&mut self, item: I) -> Handle
        requires { 1 ≤ self.old.spare }
        ensures handle { result ≡ self.old.next_handle }
        ensures new_handle { is_linked result self.old.entries ≡ false }
        ensures entries { self.new.entries ≡ self.old.entries ++ record { handle = result; item = item } ∷ [] }

        // All that were linked are before the new handle.
        ensures linked { IsTrue (is_linked result self.new.entries) }
        ensures before_new { before result self.new.entries ≡ self.old.entries }

        // Any other handle stays linked, and the new entry comes after it.
        ensures others { (other : ℕ) → IsTrue (is_linked other self.old.entries)
            → StaysBefore (record { handle = result; item = item } ∷ []) other self.old.entries self.new.entries }
        ensures spare { self.new.spare + 1 ≡ self.old.spare }
    {
        let place = self.nodes.insert_reserved(Node {
            item,
            prev: self.last,
            next: None,
        });
        let handle = Handle::at(place);
        link_next(&mut self.nodes, &mut self.first, self.last, Some(handle));
        self.last = Some(handle);
        handle
    }

    /// Takes an item out and links its neighbours to each other. Its handle isn't linked any more; all others are.
    pub fn unlink(&mut self, handle: Handle) -> I
        requires { IsTrue (is_linked handle self.old.entries) }
        ensures item { item_at handle self.old.entries ≡ Some result }
        ensures entries { self.new.entries ≡ without_handle handle self.old.entries }
        ensures unlinked { is_linked handle self.new.entries ≡ false }
        ensures others { (other : ℕ) → other ≢ handle → StaysBeside handle other self.old.entries self.new.entries }

        // A cursor at the unlinked entry can go on to the next one, and has before it what it had.
        ensures next { IsCursor (first_handle (after handle self.old.entries)) self.new.entries }
        ensures before_next { before_cursor (first_handle (after handle self.old.entries)) self.new.entries
            ≡ before handle self.old.entries }
        ensures spare { self.new.spare ≡ self.old.spare + 1 }
        ensures next_handle { self.new.next_handle ≡ handle }
    {
        let node = self.nodes.remove(handle.place);
        link_next(&mut self.nodes, &mut self.first, node.prev, node.next);
        link_prev(&mut self.nodes, &mut self.last, node.next, node.prev);
        node.item
    }

    /// Puts another item in an entry's place, and links it at the end: its handle stays, and no memory is taken. The result is the item
    /// that it had.
    pub fn renew(&mut self, handle: Handle, item: I) -> I
        requires { IsTrue (is_linked handle self.old.entries) }
        ensures item { item_at handle self.old.entries ≡ Some result }
        ensures entries { self.new.entries ≡ without_handle handle self.old.entries ++ record { handle = handle; item = item } ∷ [] }
        ensures linked { IsTrue (is_linked handle self.new.entries) }
        ensures before_renewed { before handle self.new.entries ≡ without_handle handle self.old.entries }
        ensures others { (other : ℕ) → other ≢ handle → IsTrue (is_linked other self.old.entries)
            → StaysAhead (record { handle = handle; item = item }) other self.old.entries self.new.entries }

        // A cursor at the entry can go on to the one that was next, or else to the renewed one, and has before it what it had.
        ensures next { IsCursor (first_or (after handle self.old.entries) (Some handle)) self.new.entries }
        ensures before_next { before_cursor (first_or (after handle self.old.entries) (Some handle)) self.new.entries
            ≡ before handle self.old.entries }
        ensures spare { self.new.spare ≡ self.old.spare }
    {
        let renewed = self.unlink(handle);
        self.append(item);
        renewed
    }

    /// Whether the handle is linked.
    pub fn has(&self, handle: Handle) -> bool
        ensures { result ≡ is_linked handle self.now.entries }
    {
        self.nodes.contains(handle.place)
    }

    /// The item under a handle.
    #[tactic(auto, using(crate::proofs::Entries::split_at, crate::proofs::Cursors::up_to_split))]
    pub fn item(&self, handle: Handle) -> I
        requires { IsTrue (is_linked handle self.now.entries) }
        ensures item { item_at handle self.now.entries ≡ Some result }

        // The chain is what is before the handle, its entry, and what is after it.
        ensures split { self.now.entries
            ≡ before handle self.now.entries ++ record { handle = handle; item = result } ∷ after handle self.now.entries }
        ensures up_to { up_to handle self.now.entries
            ≡ before handle self.now.entries ++ record { handle = handle; item = result } ∷ [] }
    {
        self.node(handle).item
    }

    // The node under a handle.
    fn node(&self, handle: Handle) -> &Node<I>
        requires { IsTrue (is_linked handle self.now.entries) }
        ensures node { IsNodeOf result.now handle self.now.entries }
        ensures differ { HandlesDiffer self.now.entries }
    {
        &self.nodes[handle.place]
    }

    /// The handle of the item after this one, or `None` at the end.
    #[tactic(auto, using(crate::proofs::Cursors::IsCursor_next, crate::proofs::Cursors::before_cursor_next))]
    pub fn next(&self, handle: Handle) -> Option<Handle>
        requires { IsTrue (is_linked handle self.now.entries) }
        ensures neighbour { result ≡ first_handle (after handle self.now.entries) }
        ensures linked { IsCursor result self.now.entries }

        // What is before the next handle is what is before this one, and this one's entry; where there is none, that is all.
        ensures before { before_cursor result self.now.entries ≡ up_to handle self.now.entries }
    {
        self.node(handle).next
    }

    /// The handle of the item before this one, or `None` at the front.
    #[tactic(auto, using(crate::proofs::Cursors::IsCursor_prev))]
    pub fn prev(&self, handle: Handle) -> Option<Handle>
        requires { IsTrue (is_linked handle self.now.entries) }
        ensures neighbour { result ≡ last_handle (before handle self.now.entries) }
        ensures linked { IsCursor result self.now.entries }
    {
        self.node(handle).prev
    }

    /// The handle at the front, or `None` where the chain is empty.
    pub fn first(&self) -> Option<Handle>
        ensures end { result ≡ first_handle self.now.entries }
        ensures linked { IsCursor result self.now.entries }
        ensures before { before_cursor result self.now.entries ≡ [] }
    {
        self.first
    }

    /// The handle at the end, or `None` where the chain is empty.
    pub fn last(&self) -> Option<Handle>
        ensures end { result ≡ last_handle self.now.entries }
        ensures linked { IsCursor result self.now.entries }
    {
        self.last
    }

    /// How many items are linked.
    pub fn len(&self) -> usize
        ensures count { result ≡ length self.now.entries }
        ensures differ { HandlesDiffer self.now.entries }
    {
        self.nodes.len()
    }

    /// Whether no item is linked.
    pub fn is_empty(&self) -> bool
        ensures { IsTrue result ↔ (self.now.entries ≡ []) }
    {
        self.len() == 0
    }
}
