//! A segment as an item of an index.
ghost use Rattle.query_laws.specs.Orders.{before_in};
ghost use Rattle.query_laws.specs.OrderLaws.{IsStrictTotalOrder-before_in};

use crate::Segment;
use query_laws::{Item, Named, Order};

/// The first order is by `lo`, `hi` and the stamp, and the second order by `hi`, `lo` and the stamp.
impl Item for Segment {
    ghost stamp = { λ s. s.stamp };

    ghost before = { before_in (λ s. s.lo) (λ s. s.hi) (λ s. s.stamp) };

    fn stamp(&self) -> u64 {
        self.stamp
    }

    fn before(&self, order: Order, other: &Self) -> bool {
        let by_lo = self.lo < other.lo;
        let by_hi = self.hi < other.hi;
        let by_stamp = self.stamp < other.stamp;
        let same_lo = self.lo == other.lo;
        let same_hi = self.hi == other.hi;
        match order {
            Order::First => by_lo || (same_lo && (by_hi || (same_hi && by_stamp))),
            Order::Second => by_hi || (same_hi && (by_lo || (same_lo && by_stamp))),
        }
    }

    ghost ordered = { λ order. IsStrictTotalOrder-before_in (λ s. s.lo) (λ s. s.hi) (λ s. s.stamp) order };
}

impl Named for Segment {
    ghost id = { λ s. s.id };

    fn id(&self) -> u64 {
        self.id
    }
}
