//! Items, and the orders in which a part keeps them.
ghost use Rattle.std.specs.Prelude.{◌≡◌, ℕ, Bool};
ghost use Rattle.query_laws.specs.Orders.{IsStrictTotalOrder};

/// One of the two orders of items.
#[derive(Clone, Copy)]
pub enum Order {
    First,
    Second,
}

/// A value that parts hold, copied freely. Its stamp tells it apart from every other item of its layer.
///
/// For items with two numbers, `before_in` of `specs/Orders.antt` is the usual pair of orders, and
/// `IsStrictTotalOrder-before_in` of `specs/OrderLaws.antt` proves the law.
pub trait Item: Copy {
    ghost use Rattle.query_laws.specs.declared.item.Order.{Order};

    ghost stamp: { Self → ℕ };

    /// Whether an item stands before another one in an order.
    ghost before: { Order → Self → Self → Bool };

    /// The number of accepted adds of the item's layer before it, from 0 on.
    fn stamp(&self) -> u64
        ensures { result ≡ stamp self.now };

    /// Whether the item stands before the other one in an order. No item stands before itself.
    fn before(&self, order: Order, other: &Self) -> bool
        ensures { result ≡ before order self.now other.now };

    /// Each order is strict, and total on items with different stamps.
    ghost ordered: { (order : Order) → IsStrictTotalOrder stamp (before order) };
}

/// An item with an identifier, which callers chose and which comes again once the item is dropped.
pub trait Named: Item {
    ghost id: { Self → ℕ };

    /// The identifier, any u64.
    fn id(&self) -> u64
        ensures { result ≡ id self.now };
}
