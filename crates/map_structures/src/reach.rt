//! What binary searches ask of coordinates.
ghost use Rattle.std.specs.Prelude.{◌≡◌};
ghost use Rattle.map_structures.specs.Reach.{reaches};

use builder_trait::EntryTest;
use map_shapes::Point;

/// The coordinates below a bound, or up to it.
#[derive(Clone, Copy, Debug)]
pub enum Reach {
    Below(u32),
    UpTo(u32),
}

impl Reach {
    /// Whether a coordinate is one of them.
    #[inline]
    pub fn has(self, coordinate: u32) -> bool
        ensures { result ≡ reaches self coordinate }
    {
        match self {
            Reach::Below(bound) => coordinate < bound,
            Reach::UpTo(bound) => coordinate <= bound,
        }
    }
}

impl EntryTest<u32> for Reach {
    ghost passes = { λ reach coordinate. reaches reach coordinate };

    fn passes(&self, coordinate: &u32) -> bool {
        self.has(*coordinate)
    }
}

/// Of points by their x.
impl EntryTest<Point> for Reach {
    ghost passes = { λ reach point. reaches reach point.x };

    fn passes(&self, point: &Point) -> bool {
        self.has(point.x)
    }
}
