//! How high blocks are, and where they begin.
ghost use Rattle.std.specs.Prelude.{◌≡◌, ℕ, ◌+◌, ◌^◌, ◌<◌, ◌≤◌};
ghost use Rattle.row_blocks.specs.Blocks.{height_at, start_of};
ghost use Rattle.row_blocks.specs.Heights.{height_of};

/// How many places a block of this height has.
#[inline]
pub fn block_len(height: u32) -> usize
    requires { height < 64 }
    ensures { result ≡ 2 ^ height }
{
    1 << height
}

/// Where the block of this height begins that has a place.
#[inline]
pub fn block_start(place: usize, height: u32) -> usize
    requires { height < 64 }
    ensures { result ≡ start_of height place }
{
    place >> height << height
}

/// The least height at which one block has room for `n` places: the least h with `n <= 2^h`.
#[inline]
pub fn height_of(n: usize) -> u32
    requires { n ≤ 2 ^ 31 }
    ensures value { result ≡ height_of n }
    ensures above { n ≤ 2 ^ result }
    ensures least { (h : ℕ) → n ≤ 2 ^ h → result ≤ h }
    ensures small { result ≤ 31 }
{
    usize::BITS - n.saturating_sub(1).leading_zeros()
}

/// The lowest height whose first block goes beyond `n`.
#[inline]
pub fn height_above(n: usize) -> u32
    requires { n ≤ 2 ^ 31 }
    ensures above { n < 2 ^ result }
    ensures lowest { (h : ℕ) → n < 2 ^ h → result ≤ h }
    ensures within { result ≤ 32 }
    ensures least { (h : ℕ) → n ≤ 2 ^ h → result ≤ h + 1 }
{
    usize::BITS - n.leading_zeros()
}

/// The greatest height of a block that ends at a place: the greatest whose length divides it.
#[inline]
pub fn height_at(end: usize) -> u32
    requires { 0 < end }
    ensures value { result ≡ height_at end }
    ensures within { result < 64 }
{
    end.trailing_zeros()
}
