//! Masks of 64 bits, bit by bit.
ghost use Rattle.std.specs.Prelude.{◌≡◌, ◌≢◌, ◌↔◌, ℕ, ◌<◌, ◌≤◌};
ghost use Rattle.std.specs.Int.{bit_at};
ghost use Rattle.byte_lanes.specs.Bits.{SplitsLowest};

/// The lowest bit's place, and the mask without it.
#[inline(always)]
pub fn split_lowest(mask: u64) -> (usize, u64)
    requires { mask ≢ 0 }
    ensures { SplitsLowest mask result.0 result.1 }
{
    (mask.trailing_zeros() as usize, mask & (mask - 1))
}

/// The mask without its bits below a place.
#[inline(always)]
pub fn from_bit(mask: u64, place: usize) -> u64
    requires { place < 64 }
    ensures { (k : ℕ) → (bit_at result k ≡ 1) ↔ ((place ≤ k) × (bit_at mask k ≡ 1)) }
{
    mask >> place << place
}

/// The mask without its bits from a place on.
#[inline(always)]
pub fn below_bit(mask: u64, place: usize) -> u64
    requires { place < 64 }
    ensures { (k : ℕ) → (bit_at result k ≡ 1) ↔ ((k < place) × (bit_at mask k ≡ 1)) }
{
    mask & ((1 << place) - 1)
}
