//! Single vectors of 32 numbers of 16 bits, lane by lane.
ghost use Rattle.std.specs.Prelude.{◌≡◌, ◌≢◌, ◌↔◌, ℕ, ◌+◌, ◌≤◌, ◌==◌, if◌then◌else◌, length, slice_index, bit_and, bit_or};
ghost use Rattle.std.specs.Int.{bit_at};
ghost use Rattle.std.specs.Simd.Lanes.{put_chunk};
ghost use Rattle.byte_lanes.specs.Lanes.{HasLanes};

use std::simd::prelude::*;

/// The lanes, each as a number of 16 bits.
#[inline(always)]
pub(crate) fn widen(vector: u8x32) -> u16x32
    ensures { HasLanes result (λ k. slice_index vector k) }
{
    vector.cast::<u16>()
}

/// The 32 numbers from a position on.
#[inline(always)]
pub(crate) fn load_wide(numbers: &[u16], at: usize) -> u16x32
    requires { at + 32 ≤ length numbers.now }
    ensures { HasLanes result (λ k. slice_index numbers.now (at + k)) }
{
    u16x32::from_slice(&numbers[at..])
}

/// Writes the lanes from a position on.
#[inline(always)]
pub(crate) fn store_wide(vector: u16x32, numbers: &mut [u16], at: usize)
    requires { at + 32 ≤ length numbers.old }
    ensures { numbers.new ≡ put_chunk at numbers.old vector }
{
    vector.copy_to_slice(&mut numbers[at..]);
}

/// The bits that both have.
#[inline(always)]
pub(crate) fn both_wide(a: u16x32, b: u16x32) -> u16x32
    ensures { HasLanes result (λ k. bit_and (slice_index a k) (slice_index b k)) }
{
    a & b
}

/// The bits that one of them has.
#[inline(always)]
pub(crate) fn either_wide(a: u16x32, b: u16x32) -> u16x32
    ensures { HasLanes result (λ k. bit_or (slice_index a k) (slice_index b k)) }
{
    a | b
}

/// The value where the lane is the half, and zero elsewhere.
#[inline(always)]
pub(crate) fn value_where_wide(halves: u16x32, half: u16, value: u16) -> u16x32
    ensures { HasLanes result (λ k. if slice_index halves k == half then value else 0) }
{
    halves
        .simd_eq(u16x32::splat(half))
        .select(u16x32::splat(value), u16x32::splat(0))
}

/// Bit k is set where lane k is not zero.
#[inline(always)]
pub(crate) fn nonzero_wide(vector: u16x32) -> u64
    ensures { (k : ℕ) → (bit_at result k ≡ 1) ↔ (slice_index vector k ≢ 0) }
{
    vector.simd_ne(u16x32::splat(0)).to_bitmask()
}
