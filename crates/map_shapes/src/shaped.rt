//! Items with a shape.
ghost use Rattle.std.specs.Prelude.{◌≡◌, refl};
ghost use Rattle.map_model.specs.Shape as model;
ghost use Rattle.map_model.specs.Shape.{kind_of};
ghost use Rattle.map_model.specs.State as state;
ghost use Rattle.map_shapes.specs.Point.{item_of};
ghost use Rattle.map_shapes.specs.Segment.{item_of_segment};
ghost use Rattle.map_shapes.specs.Shape.{model_shape};

use crate::{Point, Segment, Shape};
use query_laws::Named;

/// An item that has a shape, all of one kind.
pub trait Shaped: Named {
    /// What it is in the definitions: its identifier with its shape. The stamp is no part of it.
    ghost item_of: { Self → state.Item };

    ghost kind: { model.Kind };

    /// Its shape.
    fn shape(&self) -> Shape
        ensures { model_shape result ≡ (item_of self.now).shape };

    /// The same item with another stamp.
    fn stamped(self, stamp: u64) -> Self
        ensures same_item { item_of result ≡ item_of self }
        ensures stamp { Self.stamp result ≡ stamp };

    ghost same_id: { (item : Self) → (item_of item).id ≡ Self.id item };

    ghost of_kind: { (item : Self) → kind_of (item_of item).shape ≡ kind };
}

impl Shaped for Point {
    ghost item_of = { item_of };

    ghost kind = { model.Points };

    fn shape(&self) -> Shape {
        Shape::Point {
            x: self.x,
            y: self.y,
            w: self.w,
        }
    }

    fn stamped(self, stamp: u64) -> Point {
        Point {
            id: self.id,
            x: self.x,
            y: self.y,
            w: self.w,
            stamp,
        }
    }

    ghost same_id = { λ p. refl };

    ghost of_kind = { λ p. refl };
}

impl Shaped for Segment {
    ghost item_of = { item_of_segment };

    ghost kind = { model.Segments };

    fn shape(&self) -> Shape {
        Shape::Segment {
            lo: self.lo,
            hi: self.hi,
            y: self.y,
        }
    }

    fn stamped(self, stamp: u64) -> Segment {
        Segment {
            id: self.id,
            lo: self.lo,
            hi: self.hi,
            y: self.y,
            stamp,
        }
    }

    ghost same_id = { λ s. refl };

    ghost of_kind = { λ s. refl };
}
