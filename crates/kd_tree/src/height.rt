//! How high a tree is, and where its nodes stand.
ghost use Rattle.std.specs.Prelude.{◌≡◌, ◌-◌, ◌*◌, ◌^◌, ◌<◌, ◌≤◌};
ghost use Rattle.kd_tree.specs.Heights.{span, depth_for, nodes_in, index};

use row_blocks::height_of;

/// How many points a leaf has.
pub(crate) const LEAF: usize = 8;

/// How many bits a leaf's slots take.
const LEAF_BITS: u32 = 3;

/// How many levels of nodes stand over `n` points.
#[inline]
pub(crate) fn depth_for(n: usize) -> u32
    requires { n ≤ 2 ^ 31 }
    ensures value { result ≡ depth_for n }
    ensures some { 1 ≤ result }
    ensures small { result ≤ 14 }
    ensures covers { n ≤ span result }
{
    (height_of(n).saturating_sub(2) / 2).max(1)
}

/// How many bits tell a position of a block of a level from the others.
#[inline]
pub(crate) fn block_bits(level: u32) -> u32
    requires { level ≤ 15 }
    ensures bits { 2 ^ result ≡ span level }
    ensures small { result ≤ 33 }
{
    LEAF_BITS + 2 * level
}

/// How many nodes a tree of so many levels has.
#[inline]
pub(crate) fn nodes_in(depth: u32) -> usize
    requires { depth ≤ 15 }
    ensures value { result ≡ nodes_in depth }
    ensures small { result < 2 ^ 30 }
{
    ((1usize << (2 * depth)) - 1) / 3
}

/// Where a node stands, the boxes of which are those of blocks of a level.
#[inline]
pub(crate) fn index(depth: u32, level: u32, place: usize) -> usize
    requires small { depth ≤ 15 }
    requires within { level ≤ depth }
    requires few { place < 2 ^ 31 }
    ensures { result ≡ index depth level place }
{
    nodes_in(depth) - nodes_in(depth - level) + place
}

/// How many nodes stand over blocks of a level.
#[inline]
pub(crate) fn nodes_over(depth: u32, level: u32) -> usize
    requires small { depth ≤ 15 }
    requires within { level < depth }
    ensures { result ≡ 4 ^ (depth - 1 - level) }
{
    1 << (2 * (depth - 1 - level))
}
