//! Sixteen places in one entry: a mask of those that are live, and their weights.
ghost use Rattle.std.specs.Prelude.{◌≡◌, ◌-◌, ◌*◌, ◌^◌, ◌<◌, ◌≤◌, ℕ, ◌≢◌};
ghost use Rattle.std.specs.Int.{bit_at};
ghost use Rattle.weak_delete.specs.Packed.{live_bits, live_weights};

/// How many places one entry has.
pub(crate) const WIDTH: usize = 16;

/// How many of the first slots of a mask are live.
#[inline]
pub(crate) fn live_below(mask: u16, slots: usize) -> u32
    requires { slots < 16 }
    ensures value { result ≡ live_bits mask slots }
    ensures few { result ≤ 16 }
{
    (mask & ((1 << slots) - 1)).count_ones()
}

/// What the live ones of the first slots weigh.
#[inline]
pub(crate) fn weight_below(weights: &[u32; WIDTH], mask: u16, slots: usize) -> u64
    requires { slots < 16 }
    ensures value { result ≡ live_weights weights.now mask slots }
    ensures few { result ≤ slots * (2 ^ 32 - 1) }
{
    let mut sum = 0u64;
    for slot in 0..slots {
        sum += weights[slot] as u64 * (mask >> slot & 1) as u64;
    }
    sum
}

/// The live slot with exactly so many live ones below it, of which there are more.
#[inline]
pub(crate) fn nth_live(mask: u16, rank: usize) -> usize
    requires { rank < live_bits mask 16 }
    ensures within { result < 16 }
    ensures live { bit_at mask result ≡ 1 }
    ensures rank { live_bits mask result ≡ rank }
{
    let mut slot = 0;
    let mut rest = rank;
    while slot < WIDTH {
        let live = (mask >> slot & 1) as usize;
        if live > rest {
            break;
        }
        rest -= live;
        slot += 1;
    }
    slot
}

/// The mask in which a slot is no longer live.
#[inline]
pub(crate) fn without(mask: u16, slot: usize) -> u16
    requires { slot < 16 }
    ensures dead { bit_at result slot ≡ 0 }
    ensures others { (k : ℕ) → k < 16 → k ≢ slot → bit_at result k ≡ bit_at mask k }
{
    mask & !(1 << slot)
}
