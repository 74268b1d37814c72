//! The tree: places that hold points, over leaves.
ghost use Rattle.std.specs.Prelude.{◌≡◌, ◌+◌, ◌*◌, ◌^◌, ◌≤◌, ◌<◌, ◌∷◌, IfSome, IfOk, [], length};
ghost use Rattle.query_laws.specs.StepLedger.{Spends};
ghost use Rattle.query_laws.specs.Permuted.{Permuted};
ghost use Rattle.priority_tree.specs.Entries.{IsAmong, IsFront};
ghost use Rattle.priority_tree.specs.Tree.{IsBlock, IsHeap, IsHead, IsHole, IsSameOutside, IsSet, entries_in, leaf_at, node_at};

use crate::entry::Entry;
use crate::leaf::{LEAF_LEN, Leaf, front_of};
use query_laws::NoMemory;
use query_laws::step_ledger::{Row, Steps};
use row_blocks::block_len;
use std::alloc::Global;
use std::mem::size_of;
use std::sync::ledger::Ledger;

/// Leaves, and the places above them. The place of a block of `2^h` leaves stands at the leaf in the block's middle, where its second half begins.
/// So there is one between each two neighbours, and none at leaf 0.
#[derive(Drop)]
pub(crate) struct Heap {
    pub(crate) nodes: Row<Option<Entry>>,
    pub(crate) leaves: Row<Leaf>,
}

// A touch reads or writes one entry, of at most 64 bytes, or a leaf, of at most 256.
const _: () = prove!(size_of::<Option<Entry>>() <= 64);

const _: () = prove!(size_of::<Leaf>() <= 256);

impl Heap {
    /// No leaves yet, and room for `cap` of them.
    pub(crate) fn room(alloc: Global, cap: usize) -> Result<Heap, NoMemory>
        ensures { IfOk result (λ heap. heap ≡ record { nodes = record { items = []; capacity = cap }; leaves = record { items = []; capacity = cap } }) }
    {
        Ok(Heap {
            nodes: Row::room(alloc, cap)?,
            leaves: Row::room(alloc, cap)?,
        })
    }

    /// Takes all out, and keeps the memory.
    pub(crate) fn clear(&mut self)
        ensures { self.new ≡ record { nodes = record { items = []; capacity = self.old.nodes.capacity }; leaves = record { items = []; capacity = self.old.leaves.capacity } } }
    {
        self.nodes.clear();
        self.leaves.clear();
    }

    /// A leaf, empty where there is none.
    pub(crate) fn leaf<L: Ledger>(&self, l: usize, steps: &mut Steps<L>) -> Leaf
        ensures value { result ≡ leaf_at self.now l }
        ensures read { l < length self.now.leaves.items → steps.old.touches < steps.new.touches }
        ensures cost { Spends steps.old steps.new 0 0 1 }
    {
        if l < self.leaves.len() {
            self.leaves.at(l, steps)
        } else {
            Leaf::empty()
        }
    }

    /// What a place holds.
    #[inline]
    pub(crate) fn held<L: Ledger>(&self, k: usize, steps: &mut Steps<L>) -> Option<Entry>
        requires { k < length self.now.nodes.items }
        ensures value { result ≡ node_at self.now k }
        ensures read { steps.old.touches < steps.new.touches }
        ensures cost { Spends steps.old steps.new 0 0 1 }
    {
        self.nodes.at(k, steps)
    }

    /// The first point of a block: that of its place, or the first of a leaf.
    pub(crate) fn front<L: Ledger>(
        &self,
        height: u32,
        start: usize,
        steps: &mut Steps<L>,
    ) -> Option<Entry>
        requires block { IsBlock self.now height start }
        requires heap { IsHeap self.now height start }
        ensures front { IsFront result (entries_in self.now height start) }
        ensures head { IfSome result (λ e. IsHead self.now height start e) }
        ensures read { start < length self.now.leaves.items → steps.old.touches < steps.new.touches }
        ensures cost { Spends steps.old steps.new 0 0 1 }
    {
        if height == 0 {
            let leaf = self.leaf(start, steps);
            front_of(&leaf.slots, LEAF_LEN * start)
        } else {
            self.held(start + block_len(height - 1), steps)
        }
    }

    /// Lets a place hold a point, or nothing.
    pub(crate) fn hold<L: Ledger>(&mut self, k: usize, held: Option<Entry>, steps: &mut Steps<L>)
        requires { k < length self.old.nodes.items }
        ensures set { IsSet self.old self.new k held }
        ensures cost { Spends steps.old steps.new 0 0 1 }
    {
        self.nodes.set(k, held, steps);
    }

    /// Takes a point out of the leaf in which it stands.
    pub(crate) fn free<L: Ledger>(&mut self, l: usize, entry: &Entry, steps: &mut Steps<L>)
        requires heap { IsHeap self.old 0 l }
        requires there { IsAmong entry.now (entries_in self.old 0 l) }
        ensures heap { IsHeap self.new 0 l }
        ensures taken { Permuted (entry.now ∷ entries_in self.new 0 l) (entries_in self.old 0 l) }
        ensures same { IsSameOutside self.old self.new 0 l }
        ensures cost { Spends steps.old steps.new 0 0 2 }
    {
        self.leaves
            .entry_mut(l, steps)
            .free(entry.place as usize % LEAF_LEN);
    }

    /// Takes the first point of a block out of its place, or out of the leaf.
    pub(crate) fn take<L: Ledger>(
        &mut self,
        height: u32,
        start: usize,
        entry: &Entry,
        steps: &mut Steps<L>,
    )
        requires block { IsBlock self.old height start }
        requires heap { IsHeap self.old height start }
        requires head { IsHead self.old height start entry.now }
        ensures hole { IsHole self.new height start }
        ensures taken { Permuted (entry.now ∷ entries_in self.new height start) (entries_in self.old height start) }
        ensures same { IsSameOutside self.old self.new height start }
        ensures cost { Spends steps.old steps.new 0 0 2 }
    {
        if height == 0 {
            self.free(start, entry, steps);
        } else {
            self.hold(start + block_len(height - 1), None, steps);
        }
    }
}
