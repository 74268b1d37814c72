//! Where a point lies.
ghost use Rattle.std.specs.Prelude.{◌≡◌};
ghost use Rattle.kd_tree.specs.Areas.{apart, spot_of};
ghost use Rattle.kd_tree.specs.Distances.{coarse};

use crate::distance::coarse;
use map_shapes::Point;

/// A place of the map: that of a point, or the one that a question asks of.
#[derive(Clone, Copy, Debug, Default)]
pub(crate) struct Spot {
    pub(crate) x: u32,
    pub(crate) y: u32,
}

impl Spot {
    /// Where a point lies.
    #[inline]
    pub(crate) fn of(point: &Point) -> Spot
        ensures { result ≡ spot_of point.now }
    {
        Spot {
            x: point.x,
            y: point.y,
        }
    }

    /// The square of the distance between two spots, made coarse.
    #[inline]
    pub(crate) fn apart(&self, other: &Spot) -> u64
        ensures { result ≡ coarse (apart self.now other.now) }
    {
        let across = u64::from(self.x.abs_diff(other.x));
        let up = u64::from(self.y.abs_diff(other.y));
        coarse(across, up)
    }
}
