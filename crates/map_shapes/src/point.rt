// A point with a weight.
ghost use Rattle.std.specs.Prelude.{◌<◌, ◌^◌};

use crate::{Found, Rect};

/// A point of a layer. Coordinates are as they are kept ([`Version`](crate::Version)), and a weight is at most 2,147,483,647;
/// `stamp` is the number of adds that its layer accepted before it.
#[derive(Clone, Copy, Debug)]
pub struct Point {
    pub id: u64,
    pub x: u32,
    pub y: u32,
    pub w: u32,
    pub stamp: u64,
    pub ghost w_in_range: { w < 2 ^ 31 },
}

impl Point {
    ghost use Rattle.std.specs.Prelude.{◌≡◌};
    ghost use Rattle.map_model.specs.Shape.{is_inside, squared_distance};
    ghost use Rattle.map_shapes.specs.Point.{shape_of};
    ghost use Rattle.map_shapes.specs.Rect.{rect_of};

    /// Whether it lies in the rectangle or on its border.
    pub fn is_inside(&self, rect: &Rect) -> bool
        ensures { result ≡ is_inside (rect_of rect.now) (shape_of self.now) }
    {
        rect.x1 <= self.x && self.x <= rect.x2 && rect.y1 <= self.y && self.y <= rect.y2
    }

    /// What a search for points near a place finds of it.
    pub fn found_from(&self, x: u32, y: u32) -> Found
        ensures { result ≡ record { dist = squared_distance x y (shape_of self.now); id = self.now.id } }
    {
        Found::new(self.id, self.x.abs_diff(x), self.y.abs_diff(y))
    }
}
