//! A leaf of the tree: sixteen neighbouring places in one entry.
ghost use Rattle.std.specs.Prelude.{◌≡◌, ◌+◌, ◌≤◌, ◌<◌, ◌^◌, length, replicate, slice_set, slice_index_or};
ghost use Rattle.priority_tree.specs.Entries.{entry_of, entries_from, IsFront, no_slot, empty_leaf, freed};

use crate::entry::{Entry, first_of};

/// How many places a leaf has.
pub(crate) const LEAF_LEN: usize = 16;

/// A place of a leaf: the point's height and identifier, and whether it stands here. It doesn't where a place above
/// holds it, where it is dead, and where no point was put.
#[derive(Clone, Copy)]
pub(crate) struct Slot {
    pub(crate) y: u32,
    pub(crate) stands: bool,
    pub(crate) id: u64,
}

/// Sixteen neighbouring places.
#[derive(Clone, Copy)]
pub(crate) struct Leaf {
    pub(crate) slots: [Slot; LEAF_LEN],
}

impl Slot {
    /// The point that stands at this place.
    #[inline]
    pub(crate) fn entry(&self, place: usize) -> Option<Entry>
        requires { place < 2 ^ 32 }
        ensures { result ≡ entry_of place self.now }
    {
        if self.stands {
            Some(Entry {
                y: self.y,
                place: place as u32,
                id: self.id,
            })
        } else {
            None
        }
    }
}

impl Leaf {
    /// A leaf in which no point stands.
    pub(crate) fn empty() -> Leaf
        ensures { result ≡ empty_leaf }
    {
        Leaf {
            slots: [Slot {
                y: 0,
                stands: false,
                id: 0,
            }; LEAF_LEN],
        }
    }

    /// Puts a point at a place.
    pub(crate) fn put(&mut self, k: usize, slot: Slot)
        requires { k < 16 }
        ensures slots { self.new ≡ record { slots = slice_set self.old.slots k slot } }
        ensures own { slice_index_or self.new.slots k no_slot ≡ slot }
    {
        self.slots[k] = slot;
    }

    /// The point at a place doesn't stand there any more.
    pub(crate) fn free(&mut self, k: usize)
        requires { k < 16 }
        ensures { self.new ≡ record { slots = slice_set self.old.slots k (freed (slice_index_or self.old.slots k no_slot)) } }
    {
        self.slots[k].stands = false;
    }
}

/// The first of the points that stand at neighbouring places, from the place `from` on.
pub(crate) fn front_of(slots: &[Slot], from: usize) -> Option<Entry>
    requires { from + length slots.now ≤ 2 ^ 32 }
    ensures { IsFront result (entries_from from slots.now) }
{
    let Some((slot, rest)) = slots.split_first() else {
        return None;
    };
    first_of(slot.entry(from), front_of(rest, from + 1))
}
