//! What binary searches ask of entries.
ghost use Rattle.std.specs.Prelude.{◌≡◌};
ghost use Rattle.range_tree.specs.Tree.{precedes};
ghost use Rattle.map_structures.specs.Reach.{reaches};

use crate::entry::Entry;
use builder_trait::EntryTest;
use map_structures::Reach;

impl EntryTest<Entry> for Reach {
    ghost passes = { λ reach entry. reaches reach entry.y };

    fn passes(&self, entry: &Entry) -> bool {
        self.has(entry.y)
    }
}

/// The entries that stand before one.
#[derive(Clone, Copy, Debug)]
pub(crate) struct Preceding(pub(crate) Entry);

impl EntryTest<Entry> for Preceding {
    ghost passes = { λ test entry. precedes entry test.0 };

    fn passes(&self, entry: &Entry) -> bool {
        entry.precedes(&self.0)
    }
}
