//! Squares of distances as a walk compares them, in 64 bits.
ghost use Rattle.std.specs.Prelude.{◌≡◌, ◌+◌, ◌*◌, ◌^◌, ◌<◌, ◌≤◌, true, nat_lt};
ghost use Rattle.kd_tree.specs.Distances.{coarse, least};

/// Up to this one a square stands for itself, and each that is above it for itself and three more.
const EXACT: u64 = 1 << 63;

/// Whether both have less than 32 bits: one test of both.
#[inline]
#[tactic(auto, using(std::proofs::lemmas::Nat::le_or_l, std::proofs::lemmas::Nat::le_or_r))]
fn are_short(across: u64, up: u64) -> bool
    ensures { result ≡ true → (across < 2 ^ 31) × (up < 2 ^ 31) }
{
    across | up < 1 << 31
}

/// The square of a distance, by how far it goes across and up, made coarse.
#[inline]
pub(crate) fn coarse(across: u64, up: u64) -> u64
    requires across { across < 2 ^ 32 }
    requires up { up < 2 ^ 32 }
    ensures { result ≡ coarse (across * across + up * up) }
{
    if are_short(across, up) {
        across * across + up * up
    } else {
        coarse_far(across, up)
    }
}

/// The same, also of what goes far.
#[cold]
fn coarse_far(across: u64, up: u64) -> u64
    requires across { across < 2 ^ 32 }
    requires up { up < 2 ^ 32 }
    ensures { result ≡ coarse (across * across + up * up) }
{
    let square = u128::from(across * across) + u128::from(up * up);
    if square <= u128::from(EXACT) {
        square as u64
    } else {
        EXACT + ((square - u128::from(EXACT)) / 4) as u64
    }
}

/// Whether a square is below all that a coarse one stands for.
#[inline]
pub(crate) fn is_below(square: u128, made: u64) -> bool
    ensures { result ≡ nat_lt square (least made) }
{
    square < u128::from(made) || (EXACT < made && square < least(made))
}

/// The least square that a coarse one stands for.
fn least(made: u64) -> u128
    requires { 2 ^ 63 ≤ made }
    ensures { result ≡ least made }
{
    u128::from(EXACT) + 4 * u128::from(made - EXACT)
}
