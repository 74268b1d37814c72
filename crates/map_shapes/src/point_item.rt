//! A point as an item of an index.
ghost use Rattle.query_laws.specs.Orders.{before_in};
ghost use Rattle.query_laws.specs.OrderLaws.{IsStrictTotalOrder-before_in};

use crate::Point;
use query_laws::{Item, Named, Order};

/// The first order is by `x`, `y` and the stamp, and the second order by `y`, `x` and the stamp.
impl Item for Point {
    ghost stamp = { λ p. p.stamp };

    ghost before = { before_in (λ p. p.x) (λ p. p.y) (λ p. p.stamp) };

    fn stamp(&self) -> u64 {
        self.stamp
    }

    fn before(&self, order: Order, other: &Self) -> bool {
        let by_x = self.x < other.x;
        let by_y = self.y < other.y;
        let by_stamp = self.stamp < other.stamp;
        let same_x = self.x == other.x;
        let same_y = self.y == other.y;
        match order {
            Order::First => by_x || (same_x && (by_y || (same_y && by_stamp))),
            Order::Second => by_y || (same_y && (by_x || (same_x && by_stamp))),
        }
    }

    ghost ordered = { λ order. IsStrictTotalOrder-before_in (λ p. p.x) (λ p. p.y) (λ p. p.stamp) order };
}

impl Named for Point {
    ghost id = { λ p. p.id };

    fn id(&self) -> u64 {
        self.id
    }
}
