//! Two numbers, of which the first is the identifier, and a stamp.
ghost use Rattle.std.specs.Prelude.{◌≡◌};
ghost use Rattle.query_laws.specs.Orders.{before_in};
ghost use Rattle.query_laws.specs.OrderLaws.{IsStrictTotalOrder-before_in};

use query_laws::{Item, Named, Order};

#[derive(Clone, Copy)]
pub struct Pair {
    pub x: u32,
    pub y: u32,
    pub stamp: u64,
}

impl Pair {
    pub fn new(x: u32, y: u32, stamp: u64) -> Pair
        ensures { result ≡ record { x = x; y = y; stamp = stamp } }
    {
        Pair { x, y, stamp }
    }
}

impl Item for Pair {
    ghost stamp = { λ pair. pair.stamp };

    ghost before = { before_in (λ pair. pair.x) (λ pair. pair.y) (λ pair. pair.stamp) };

    fn stamp(&self) -> u64 {
        self.stamp
    }

    fn before(&self, order: Order, other: &Self) -> bool {
        let by_x = self.x < other.x;
        let by_y = self.y < other.y;
        let by_stamp = self.stamp < other.stamp;
        let same_x = self.x == other.x;
        let same_y = self.y == other.y;
        match order {
            Order::First => by_x || (same_x && (by_y || (same_y && by_stamp))),
            Order::Second => by_y || (same_y && (by_x || (same_x && by_stamp))),
        }
    }

    ghost ordered = { λ order. IsStrictTotalOrder-before_in (λ pair. pair.x) (λ pair. pair.y) (λ pair. pair.stamp) order };
}

impl Named for Pair {
    ghost id = { λ pair. pair.x };

    fn id(&self) -> u64 {
        u64::from(self.x)
    }
}
