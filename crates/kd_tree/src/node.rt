//! Nodes: the boxes of four blocks.
ghost use Rattle.std.specs.Prelude.{◌≡◌, ℕ, length, Some, slice_get};
ghost use Rattle.kd_tree.specs.declared.spot.Spot.{Spot};
ghost use Rattle.kd_tree.specs.declared.area.Area.{Area};
ghost use Rattle.kd_tree.specs.Areas.{Has, IsInside};

use crate::area::Area;

/// The least box with those of a node.
#[inline]
pub(crate) fn whole(areas: &[Area; 4]) -> Area
    ensures four { length areas.now ≡ 4 }
    ensures has { (c : ℕ) (area : Area) (spot : Spot) → slice_get areas.now c ≡ Some area → Has area spot → Has result spot }
    ensures least { (all : Area) → ((c : ℕ) (area : Area) → slice_get areas.now c ≡ Some area → IsInside area all) → IsInside result all }
{
    let first = areas[0].joined(&areas[1]);
    let second = areas[2].joined(&areas[3]);
    first.joined(&second)
}
