// A horizontal segment.
ghost use Rattle.std.specs.Prelude.{◌≤◌};

/// A segment of a layer, from (`lo`, `y`) to (`hi`, `y`), its ends included. Coordinates are as they are kept; `stamp` is the
/// number of adds that its layer accepted before it.
#[derive(Clone, Copy, Debug)]
pub struct Segment {
    pub id: u64,
    pub lo: u32,
    pub hi: u32,
    pub y: u32,
    pub stamp: u64,
    pub ghost ordered: { lo ≤ hi },
}

impl Segment {
    ghost use Rattle.std.specs.Prelude.{◌≡◌};
    ghost use Rattle.map_model.specs.Shape.{is_stabbed, is_met};
    ghost use Rattle.map_shapes.specs.Segment.{shape_of_segment};

    /// Whether it lies over `x`, its ends included.
    pub fn is_stabbed(&self, x: u32) -> bool
        ensures { result ≡ is_stabbed x (shape_of_segment self.now) }
    {
        self.lo <= x && x <= self.hi
    }

    /// Whether it lies over `x`, its ends included, and from `y1` to `y2`.
    pub fn is_met(&self, x: u32, y1: u32, y2: u32) -> bool
        ensures { result ≡ is_met x y1 y2 (shape_of_segment self.now) }
    {
        self.lo <= x && x <= self.hi && y1 <= self.y && self.y <= y2
    }
}
