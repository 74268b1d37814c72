//! Blocks that a walk comes to.
ghost use Rattle.std.specs.Prelude.{◌≡◌, ℕ, ◌+◌, ◌*◌, ◌≤◌, ◌<◌, ◌^◌, true, false, length, Some, slice_get};
ghost use Rattle.query_laws.specs.Permuted.{Permuted};
ghost use Rattle.kd_tree.specs.Heights.{span};
ghost use Rattle.kd_tree.specs.declared.spot.Spot.{Spot};
ghost use Rattle.kd_tree.specs.declared.area.Area.{Area};

use crate::area::Area;
use crate::height::block_bits;
use crate::spot::Spot;

/// The block of a level at a place: how far it is at least from where is asked, made coarse, and whether it may have live points at all.
#[derive(Clone, Copy, Debug, Default)]
pub(crate) struct Block {
    pub(crate) level: u32,
    pub(crate) place: usize,
    pub(crate) dist: u64,
    pub(crate) some: bool,
}

/// Whether a block begins at one of so many positions.
#[inline]
fn is_reached(level: u32, place: usize, len: usize) -> bool
    requires level { level ≤ 15 }
    requires some { 0 < len }
    ensures reached { result ≡ true → place * span level < len }
    ensures beyond { result ≡ false → len ≤ place * span level }
{
    place <= (len - 1) >> block_bits(level)
}

impl Block {
    ghost use Rattle.kd_tree.specs.Areas.{Has, apart};
    ghost use Rattle.kd_tree.specs.Distances.{least};

    /// The block of one of a node's boxes: the first one stands at `first`.
    #[inline]
    pub(crate) fn child(
        areas: &[Area; 4],
        c: usize,
        level: u32,
        first: usize,
        from: &Spot,
        len: usize,
    ) -> Block
        requires c { c < 4 }
        requires level { level ≤ 15 }
        requires some { 0 < len }
        requires small { first < 2 ^ 40 }
        ensures four { length areas.now ≡ 4 }
        ensures level { result.level ≡ level }
        ensures place { result.place ≡ first + c }
        ensures reached { result.some ≡ true → (first + c) * span level < len }
        ensures far { (area : Area) (spot : Spot) → slice_get areas.now c ≡ Some area → Has area spot → (first + c) * span level < len
            → (result.some ≡ true) × (least result.dist ≤ apart from.now spot) }
    {
        Block::of(&areas[c], level, first + c, from, len)
    }

    /// The block of a box.
    #[inline]
    fn of(area: &Area, level: u32, place: usize, from: &Spot, len: usize) -> Block
        requires level { level ≤ 15 }
        requires some { 0 < len }
        ensures level { result.level ≡ level }
        ensures place { result.place ≡ place }
        ensures reached { result.some ≡ true → place * span level < len }
        ensures far { (spot : Spot) → Has area.now spot → place * span level < len
            → (result.some ≡ true) × (least result.dist ≤ apart from.now spot) }
    {
        Block {
            level,
            place,
            dist: area.distance(from),
            some: !area.is_empty() && is_reached(level, place, len),
        }
    }
}

/// Puts the farther of two blocks first.
#[inline]
fn farther_of_two(blocks: &mut [Block; 4], first: usize, second: usize)
    requires first { first < 4 }
    requires second { second < 4 }
    ensures { Permuted blocks.new blocks.old }
{
    if blocks[first].dist < blocks[second].dist {
        blocks.swap(first, second);
    }
}

/// Puts farther blocks first.
pub(crate) fn farther_first(blocks: &mut [Block; 4])
    ensures { Permuted blocks.new blocks.old }
{
    farther_of_two(blocks, 0, 1);
    farther_of_two(blocks, 2, 3);
    farther_of_two(blocks, 0, 2);
    farther_of_two(blocks, 1, 3);
    farther_of_two(blocks, 1, 2);
}
