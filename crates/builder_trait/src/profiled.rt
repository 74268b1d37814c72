//! What the theorems on parts in levels rest on, in one record.
ghost use Rattle.builder_trait.specs.Builders.{PartProfile};

use crate::builder::Builder;
use query_laws::Item;

/// The stamps and the orders of a builder's items, its slope and its base. Laws only.
pub trait Profiled: Builder {
    ghost profile: { PartProfile Self.Item };
}

impl<B: Builder> Profiled for B {
    ghost profile = { record { stamp = B.Item.stamp; before = B.Item.before; slope = B.SLOPE; base = B.BASE } };
}
