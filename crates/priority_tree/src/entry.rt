//! One entry of the tree.
ghost use Rattle.std.specs.Prelude.{◌≡◌, nat_le};
ghost use Rattle.priority_tree.specs.Entries.{peak_of, first_of};

use map_shapes::Peak;

/// A point as the tree has it: its height and identifier, and its place in the first order.
#[derive(Clone, Copy)]
pub(crate) struct Entry {
    pub(crate) y: u32,
    pub(crate) place: u32,
    pub(crate) id: u64,
}

impl Entry {
    /// The point by its height.
    #[inline]
    pub(crate) fn peak(&self) -> Peak
        ensures { result ≡ peak_of self.now }
    {
        Peak {
            y: self.y,
            id: self.id,
        }
    }

    /// Whether the point is at least as high as a bound.
    #[inline]
    pub(crate) fn reaches(&self, y: u32) -> bool
        ensures { result ≡ nat_le y self.now.y }
    {
        y <= self.y
    }
}

/// The one of two entries that comes first, where they are there.
#[inline]
pub(crate) fn first_of(one: Option<Entry>, other: Option<Entry>) -> Option<Entry>
    ensures { result ≡ first_of one other }
{
    match (one, other) {
        (Some(a), Some(b)) => Some(if b.peak().before(&a.peak()) { b } else { a }),
        (Some(a), None) => Some(a),
        (None, other) => other,
    }
}
