//! The box of some points.
ghost use Rattle.std.specs.Prelude.{◌≡◌, ◌^◌, ◌≤◌, ◌<◌, false};
ghost use Rattle.kd_tree.specs.declared.spot.Spot.{Spot};
ghost use Rattle.kd_tree.specs.declared.area.Area.{Area};
ghost use Rattle.kd_tree.specs.Areas.{Has, IsInside, IsBox, apart, distance_to, gap};
ghost use Rattle.kd_tree.specs.Distances.{coarse, least};

use crate::distance::coarse;
use crate::spot::Spot;

/// From `x1` to `x2` and from `y1` to `y2`, both ends included. One whose lower end is above its upper end has nothing in it.
#[derive(Clone, Copy, Debug, Default, PartialEq, Eq)]
pub(crate) struct Area {
    pub(crate) x1: u32,
    pub(crate) x2: u32,
    pub(crate) y1: u32,
    pub(crate) y2: u32,
}

impl Area {
    /// One with nothing in it.
    #[inline]
    pub(crate) fn nothing() -> Area
        ensures { (other : Area) → IsBox other → IsInside result other }
    {
        Area {
            x1: u32::MAX,
            x2: 0,
            y1: u32::MAX,
            y2: 0,
        }
    }

    /// Whether there is nothing in it.
    #[inline]
    pub(crate) fn is_empty(&self) -> bool
        ensures { (spot : Spot) → Has self.now spot → result ≡ false }
    {
        self.x1 > self.x2
    }

    /// The least one with this and a spot.
    #[inline]
    pub(crate) fn with(&self, spot: &Spot) -> Area
        ensures more { Has result spot.now }
        ensures kept { (other : Spot) → Has self.now other → Has result other }
        ensures least { (other : Area) → IsInside self.now other → Has other spot.now → IsInside result other }
    {
        Area {
            x1: self.x1.min(spot.x),
            x2: self.x2.max(spot.x),
            y1: self.y1.min(spot.y),
            y2: self.y2.max(spot.y),
        }
    }

    /// The least one with both.
    #[inline]
    pub(crate) fn joined(&self, other: &Area) -> Area
        ensures left { (spot : Spot) → Has self.now spot → Has result spot }
        ensures right { (spot : Spot) → Has other.now spot → Has result spot }
        ensures least { (all : Area) → IsInside self.now all → IsInside other.now all → IsInside result all }
    {
        Area {
            x1: self.x1.min(other.x1),
            x2: self.x2.max(other.x2),
            y1: self.y1.min(other.y1),
            y2: self.y2.max(other.y2),
        }
    }

    /// The square of its distance from a spot, made coarse: nothing in it is nearer than the least that this may be.
    #[inline]
    pub(crate) fn distance(&self, from: &Spot) -> u64
        ensures value { result ≡ coarse (distance_to self.now from.now) }
        ensures nearest { (spot : Spot) → Has self.now spot → least result ≤ apart from.now spot }
    {
        let across = gap(self.x1, self.x2, from.x);
        let up = gap(self.y1, self.y2, from.y);
        coarse(across, up)
    }
}

/// How far a coordinate lies outside of two ends.
#[inline]
fn gap(low: u32, high: u32, coordinate: u32) -> u64
    ensures value { result ≡ gap low high coordinate }
    ensures small { result < 2 ^ 32 }
{
    u64::from(low.saturating_sub(coordinate)) + u64::from(coordinate.saturating_sub(high))
}
