//! The least and the greatest stamp of some items, by which most items that aren't among them are told at once.
ghost use Rattle.std.specs.Prelude.{◌≡◌, ◌-◌, ◌^◌, ◌≤◌, ◌↔◌, IsTrue, min, max};

/// The least and the greatest stamp of some items; of none the greatest u64 and zero, so that no stamp lies between them.
#[derive(Clone, Copy)]
pub(crate) struct Stamps {
    least: u64,
    greatest: u64,
}

impl Stamps {
    /// Those of no item.
    pub(crate) fn of_none() -> Stamps
        ensures { result ≡ record { least = 2 ^ 64 - 1; greatest = 0 } }
    {
        Stamps {
            least: u64::MAX,
            greatest: 0,
        }
    }

    /// Those with one more item, of this stamp.
    pub(crate) fn widen(&mut self, stamp: u64)
        ensures { self.new ≡ record { least = min self.old.least stamp; greatest = max self.old.greatest stamp } }
    {
        self.least = self.least.min(stamp);
        self.greatest = self.greatest.max(stamp);
    }

    /// Whether a stamp is one of the two, or lies between them.
    pub(crate) fn spans(&self, stamp: u64) -> bool
        ensures { IsTrue result ↔ ((self.now.least ≤ stamp) × (stamp ≤ self.now.greatest)) }
    {
        self.least <= stamp && stamp <= self.greatest
    }
}
