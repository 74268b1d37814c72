//! Sixty-four places in one entry.
ghost use Rattle.std.specs.Prelude.{◌≡◌, ◌≢◌, ℕ, ◌+◌, ◌^◌, ◌<◌, ◌≤◌, ◌==◌};
ghost use Rattle.std.specs.Int.{bit_at};
ghost use Rattle.rank_rows.specs.Totals.{total};

/// How many places one entry has.
pub(crate) const WIDTH: usize = 64;

/// Places that died: how many, and what they weighed together.
#[derive(Clone, Copy)]
pub(crate) struct Dead {
    pub(crate) count: usize,
    pub(crate) weight: u64,
}

/// Nothing died.
pub(crate) const NOTHING: Dead = Dead {
    count: 0,
    weight: 0,
};

impl Dead {
    /// Both together.
    #[inline]
    pub(crate) fn plus(self, other: Dead) -> Dead
        requires count { self.count + other.count < 2 ^ 64 }
        requires weight { self.weight + other.weight < 2 ^ 64 }
        ensures { result ≡ record { count = self.count + other.count; weight = self.weight + other.weight } }
    {
        Dead {
            count: self.count + other.count,
            weight: self.weight + other.weight,
        }
    }
}

/// Neighbouring places of a row: a set bit for each that goes into the second half of its block, and for each that died.
///
/// Of the places that its block has before it there are how many have that bit, and what they weighed before any died. And the word in the
/// middle of a block, of a half of it and so on has what died in the first half of that.
#[derive(Clone, Copy)]
pub(crate) struct Word {
    pub(crate) second: u64,
    pub(crate) dead: u64,
    pub(crate) ones: usize,
    pub(crate) weight: u64,
    pub(crate) died: Dead,
}

/// How many of the first bits are set.
#[inline]
pub(crate) fn ones_below(mask: u64, bits: usize) -> usize
    requires { bits ≤ 64 }
    ensures { result ≡ total (bit_at mask) bits }
{
    if bits == WIDTH {
        mask.count_ones() as usize
    } else {
        (mask & ((1 << bits) - 1)).count_ones() as usize
    }
}

/// Whether a bit is set.
#[inline]
pub(crate) fn has_bit(mask: u64, bit: usize) -> bool
    requires { bit < 64 }
    ensures { result ≡ (bit_at mask bit == 1) }
{
    mask >> bit & 1 == 1
}

/// The mask with a bit set.
#[inline]
pub(crate) fn with_bit(mask: u64, bit: usize) -> u64
    requires { bit < 64 }
    ensures set { bit_at result bit ≡ 1 }
    ensures others { (k : ℕ) → k ≢ bit → bit_at result k ≡ bit_at mask k }
{
    mask | 1 << bit
}

/// The clear bit with exactly so many clear ones below it, of which there are more.
#[inline]
pub(crate) fn nth_clear(mask: u64, rank: usize) -> usize
    requires { rank + total (bit_at mask) 64 < 64 }
    ensures within { result < 64 }
    ensures clear { bit_at mask result ≡ 0 }
    ensures ranked { rank + total (bit_at mask) result ≡ result }
{
    let mut bit = 0;
    let mut rest = rank;
    while bit < WIDTH {
        let clear = 1 - (mask >> bit & 1) as usize;
        if clear > rest {
            break;
        }
        rest -= clear;
        bit += 1;
    }
    bit
}
