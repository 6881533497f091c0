//! Single vectors of 32 and of 64 bytes, lane by lane.
ghost use Rattle.std.specs.Prelude.{◌≡◌, ◌≢◌, ◌↔◌, ℕ, ◌+◌, ◌/◌, ◌%◌, ◌<◌, ◌≤◌, ◌==◌, if◌then◌else◌, ◌++◌, List, length, slice_index, bit_and, bit_or, IsTrue};
ghost use Rattle.std.specs.Int.{bit_at};
ghost use Rattle.byte_lanes.specs.Lanes.{HasLanes, HoldsBelow, HoldsTwice, SeesLanes};

use std::simd::prelude::*;

/// The 32 bytes from a position on.
#[inline(always)]
pub fn load(bytes: &[u8], at: usize) -> u8x32
    requires { at + 32 ≤ length bytes.now }
    ensures { HasLanes result (λ k. slice_index bytes.now (at + k)) }
{
    u8x32::from_slice(&bytes[at..])
}

/// A table twice.
#[inline(always)]
pub(crate) fn twice(table: &[u8; 16]) -> u8x32
    ensures { HoldsTwice result table.now }
{
    u8x16::from_slice(table).swizzle([
        0, 1, 2, 3, 4, 5, 6, 7, 8, 9, 10, 11, 12, 13, 14, 15, 0, 1, 2, 3, 4, 5, 6, 7, 8, 9, 10, 11,
        12, 13, 14, 15,
    ])
}

/// The low half of each lane.
#[inline(always)]
pub(crate) fn low_halves(vector: u8x32) -> u8x32
    ensures { HasLanes result (λ k. slice_index vector k % 16) }
{
    vector & u8x32::splat(15)
}

/// The high half of each lane.
#[inline(always)]
pub(crate) fn high_halves(vector: u8x32) -> u8x32
    ensures { HasLanes result (λ k. slice_index vector k / 16) }
{
    vector >> u8x32::splat(4)
}

/// The bits that both have.
#[inline(always)]
pub fn both(a: u8x32, b: u8x32) -> u8x32
    ensures { HasLanes result (λ k. bit_and (slice_index a k) (slice_index b k)) }
{
    a & b
}

/// The bits that one of them has.
#[inline(always)]
pub(crate) fn either(a: u8x32, b: u8x32) -> u8x32
    ensures { HasLanes result (λ k. bit_or (slice_index a k) (slice_index b k)) }
{
    a | b
}

/// The value where the lane is the half, and zero elsewhere.
#[inline(always)]
pub fn value_where(halves: u8x32, half: u8, value: u8) -> u8x32
    ensures { HasLanes result (λ k. if slice_index halves k == half then value else 0) }
{
    halves
        .simd_eq(u8x32::splat(half))
        .select(u8x32::splat(value), u8x32::splat(0))
}

/// Each lane is the entry at the half, in a vector that holds a table twice.
#[inline(always)]
pub(crate) fn look_up(table: u8x32, halves: u8x32) -> u8x32
    requires { (k : ℕ) → k < 32 → slice_index halves k < 16 }
    ensures { (entries : List ℕ) → HoldsTwice table entries
        → HasLanes result (λ k. slice_index entries (slice_index halves k)) }
{
    table.swizzle_dyn_within::<16>(halves)
}

/// Bit k is set where lane k of the two, one after the other, is not zero.
#[inline(always)]
pub(crate) fn nonzero_bits(low: u8x32, high: u8x32) -> u64
    ensures { (k : ℕ) → (bit_at result k ≡ 1) ↔ (slice_index (low ++ high) k ≢ 0) }
{
    let joined: u8x64 = low.shuffle(
        high,
        [
            0, 1, 2, 3, 4, 5, 6, 7, 8, 9, 10, 11, 12, 13, 14, 15, 16, 17, 18, 19, 20, 21, 22, 23,
            24, 25, 26, 27, 28, 29, 30, 31, 32, 33, 34, 35, 36, 37, 38, 39, 40, 41, 42, 43, 44, 45,
            46, 47, 48, 49, 50, 51, 52, 53, 54, 55, 56, 57, 58, 59, 60, 61, 62, 63,
        ],
    );
    joined.simd_ne(u8x64::splat(0)).to_bitmask()
}

/// The 64 bytes from a position on.
#[inline(always)]
pub fn load_64(bytes: &[u8], at: usize) -> u8x64
    requires { at + 64 ≤ length bytes.now }
    ensures { HoldsBelow (λ k. slice_index bytes.now (at + k)) 64 result }
{
    u8x64::from_slice(&bytes[at..])
}

/// Bit k is set where lane k, with these bits set, is the byte.
#[inline(always)]
pub fn equal_bits(bytes: u8x64, set: u8, byte: u8) -> u64
    ensures { (k : ℕ) → (bit_at result k ≡ 1) ↔ ((k < 64) × (bit_or (slice_index bytes k) set ≡ byte)) }
{
    (bytes | u8x64::splat(set))
        .simd_eq(u8x64::splat(byte))
        .to_bitmask()
}

/// Each lane with these bits set.
#[inline(always)]
pub fn with_bits(bytes: u8x32, set: u8) -> u8x32
    ensures { HasLanes result (λ k. bit_or (slice_index bytes k) set) }
{
    bytes | u8x32::splat(set)
}

/// Whether some lane is not zero.
#[inline(always)]
pub(crate) fn any_lane(lanes: u8x32) -> bool
    ensures { SeesLanes lanes (IsTrue result) }
{
    lanes.simd_ne(u8x32::splat(0)).any()
}

/// Whether some lane of four vectors is not zero.
#[inline(always)]
pub fn any_lane_of(first: u8x32, second: u8x32, third: u8x32, fourth: u8x32) -> bool
    ensures first { SeesLanes first (IsTrue result) }
    ensures second { SeesLanes second (IsTrue result) }
    ensures third { SeesLanes third (IsTrue result) }
    ensures fourth { SeesLanes fourth (IsTrue result) }
{
    any_lane(either(either(first, second), either(third, fourth)))
}
