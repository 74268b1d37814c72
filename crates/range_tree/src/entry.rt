//! One entry of a row.
ghost use Rattle.std.specs.Prelude.{◌≡◌, ◌+◌, ◌*◌, ◌^◌, ◌<◌};
ghost use Rattle.range_tree.specs.Tree.{precedes};

/// A point as a row of the tree has it: its y, and its place in the first order.
#[derive(Clone, Copy, Debug)]
pub(crate) struct Entry {
    pub(crate) y: u32,
    pub(crate) place: u32,
}

impl Entry {
    /// Its y, and then its place, in one number.
    #[inline]
    fn key(&self) -> u64
        ensures value { result ≡ self.now.y * 2 ^ 32 + self.now.place }
        ensures small { self.now.place < 2 ^ 32 }
    {
        self.y as u64 * (1 << 32) + self.place as u64
    }

    /// Whether it stands before another of its block: by y, then by place.
    #[inline]
    pub(crate) fn precedes(&self, other: &Entry) -> bool
        ensures { result ≡ precedes self.now other.now }
    {
        self.key() < other.key()
    }
}
