//! Holes are filled by pulling points up.
ghost use Rattle.std.specs.Prelude.{◌≡◌, ◌+◌, ◌-◌, ◌*◌, ◌^◌, ◌≤◌, ◌<◌, ◌∷◌, length};
ghost use Rattle.query_laws.specs.StepLedger.{Spends};
ghost use Rattle.query_laws.specs.Permuted.{Permuted};
ghost use Rattle.priority_tree.specs.Entries.{IsAmong, OwnsPlace, holds_place};
ghost use Rattle.priority_tree.specs.Tree.{IsBlock, IsHeap, IsHole, IsHeapBut, IsSameOutside, entries_in, node_at};
ghost use Rattle.priority_tree.specs.Pulls.{IsPulled, IsWinner};

use crate::entry::Entry;
use crate::heap::Heap;
use crate::leaf::LEAF_LEN;
use query_laws::step_ledger::Steps;
use row_blocks::block_len;
use std::sync::ledger::Ledger;

/// The better of the first points of two blocks, with where its block begins.
fn winner(
    first: Option<Entry>,
    start: usize,
    second: Option<Entry>,
    middle: usize,
) -> Option<(Entry, usize)>
    ensures { IsWinner first start second middle result }
{
    match (first, second) {
        (Some(a), Some(b)) => Some(if b.peak().before(&a.peak()) {
            (b, middle)
        } else {
            (a, start)
        }),
        (Some(a), None) => Some((a, start)),
        (None, Some(b)) => Some((b, middle)),
        (None, None) => None,
    }
}

impl Heap {
    /// Fills the hole in a block's place with the better point of its halves, and leaves a hole in that half, of which it gives the beginning.
    pub(crate) fn pull<L: Ledger>(
        &mut self,
        height: u32,
        start: usize,
        steps: &mut Steps<L>,
    ) -> usize
        requires some { 0 < height }
        requires block { IsBlock self.old height start }
        requires hole { IsHole self.old height start }
        ensures pulled { IsPulled self.old self.new height start (height - 1) result }
        ensures cost { Spends steps.old steps.new 0 0 5 }
    {
        let low = height - 1;
        let middle = start + block_len(low);
        let first = self.front(low, start, steps);
        let second = self.front(low, middle, steps);
        let Some((entry, child)) = winner(first, start, second, middle) else {
            return start;
        };
        self.take(low, child, &entry, steps);
        self.hold(middle, Some(entry), steps);
        child
    }

    /// Fills the hole in a block's place, and each hole that this leaves below it.
    pub(crate) fn fill<L: Ledger>(&mut self, height: u32, start: usize, steps: &mut Steps<L>)
        requires block { IsBlock self.old height start }
        requires hole { IsHole self.old height start }
        ensures heap { IsHeap self.new height start }
        ensures same_entries { Permuted (entries_in self.new height start) (entries_in self.old height start) }
        ensures same { IsSameOutside self.old self.new height start }
        ensures cost { Spends steps.old steps.new 0 0 (5 * height) }
    {
        if height > 0 {
            let child = self.pull(height, start, steps);
            self.fill(height - 1, child, steps);
        }
    }

    /// Whether a place holds the point.
    fn holds<L: Ledger>(&self, k: usize, entry: &Entry, steps: &mut Steps<L>) -> bool
        requires { k < length self.now.nodes.items }
        ensures value { result ≡ holds_place (node_at self.now k) entry.now.place }
        ensures cost { Spends steps.old steps.new 0 0 1 }
    {
        self.held(k, steps)
            .is_some_and(|held| held.place == entry.place)
    }

    /// Takes a point out of the block in which it stands, and fills the hole.
    pub(crate) fn remove<L: Ledger>(
        &mut self,
        height: u32,
        start: usize,
        entry: &Entry,
        steps: &mut Steps<L>,
    )
        requires block { IsBlock self.old height start }
        requires heap { IsHeap self.old height start }
        requires there { IsAmong entry.now (entries_in self.old height start) }
        requires owned { OwnsPlace entry.now (entries_in self.old height start) }
        ensures heap { IsHeap self.new height start }
        ensures taken { Permuted (entry.now ∷ entries_in self.new height start) (entries_in self.old height start) }
        ensures same { IsSameOutside self.old self.new height start }
        ensures cost { Spends steps.old steps.new 0 0 (6 * height + 2) }
    {
        if height == 0 {
            self.free(start, entry, steps);
            return;
        }
        let low = height - 1;
        let middle = start + block_len(low);
        if self.holds(middle, entry, steps) {
            self.hold(middle, None, steps);
            self.fill(height, start, steps);
        } else if (entry.place as usize) < LEAF_LEN * middle {
            self.remove(low, start, entry, steps);
        } else {
            self.remove(low, middle, entry, steps);
        }
    }
}
