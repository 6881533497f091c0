//! How many newlines a text has.
ghost use Rattle.std.specs.Prelude.{◌≡◌, ◌==◌, ◌+◌, ◌-◌, ◌*◌, ◌<◌, ◌≤◌, ℕ, count_by, drop, length, map, slice_index, slice_range, take};
ghost use Rattle.std.specs.Simd.Lanes.{Each1, mask_l, sum_l};
ghost use Rattle.lit_base.specs.Lines.{IsOnePiece};
ghost use Rattle.text_lines.specs.Cutting.{AreNewlines};
ghost use Rattle.text_lines.specs.declared.counting.TheConstants.{LANES, STRETCH};

use std::simd::prelude::*;

/// The number of bytes compared at once.
pub(crate) const LANES: usize = 64;

/// The number of bytes compared by one step of a stretch.
const WIDE: usize = 256;

/// The number of steps of a stretch: a lane's byte has room for no more.
const STEPS: usize = 63;

/// The bytes of a stretch.
const STRETCH: usize = WIDE * STEPS;

/// How many newlines the text has.
pub fn count_newlines(text: &[u8]) -> usize
    ensures { result ≡ count_by (λ b. b == 10) text.now }
{
    if text.len() < LANES {
        return text.iter().filter(|byte| **byte == b'\n').count();
    }
    let (count, start) = count_stretches(text);
    let (lanes, end) = newlines_after(text, start);
    count + sum_of(lanes) + count_last(text, text.len() - end)
}

/// How many newlines stand before a position, less than a stretch before the end, and the position.
fn count_stretches(text: &[u8]) -> (usize, usize)
    ensures count { result.0 ≡ count_by (λ b. b == 10) (take result.1 text.now) }
    ensures within { result.1 ≤ length text.now }
    ensures rest { length text.now < result.1 + STRETCH }
{
    let mut count = 0;
    let mut at = 0;
    while text.len() - at >= STRETCH {
        count += sum_of(newlines_in_stretch(text, at));
        at += STRETCH;
    }
    (count, at)
}

/// How many newlines the stretch from a position on has: lane by lane, each 64 bytes lying over the last.
#[inline(always)]
fn newlines_in_stretch(text: &[u8], start: usize) -> u8x64
    requires { start + STRETCH ≤ length text.now }
    ensures { count_by (λ b. b == 10) (take start text.now) + sum_l result
        ≡ count_by (λ b. b == 10) (take (start + STRETCH) text.now) }
{
    let mut lanes = u8x64::splat(0);
    let mut done = 0;
    while done < STEPS {
        let at = start + done * WIDE;
        lanes = add_newlines(lanes, load(text, at));
        lanes = add_newlines(lanes, load(text, at + LANES));
        lanes = add_newlines(lanes, load(text, at + 2 * LANES));
        lanes = add_newlines(lanes, load(text, at + 3 * LANES));
        done += 1;
    }
    lanes
}

/// How many newlines stand from `start` on, lane by lane, and where counting ended: fewer than 64 bytes before the end.
/// From `start` on there is less than a stretch. Measured: wider steps, with a second loop for the rest, take 1.2 times
/// as long for the few lines between two hits, since the branch at a loop's end is mispredicted there.
#[inline(always)]
fn newlines_after(text: &[u8], start: usize) -> (u8x64, usize)
    requires within { start ≤ length text.now }
    requires rest { length text.now < start + STRETCH }
    ensures count { count_by (λ b. b == 10) (take start text.now) + sum_l result.0
        ≡ count_by (λ b. b == 10) (take result.1 text.now) }
    ensures within { result.1 ≤ length text.now }
    ensures last { length text.now < result.1 + LANES }
{
    let mut lanes = u8x64::splat(0);
    let mut at = start;
    while text.len() - at >= LANES {
        lanes = add_newlines(lanes, load(text, at));
        at += LANES;
    }
    (lanes, at)
}

/// The lanes, with 1 more in each where the byte is a newline.
#[inline(always)]
fn add_newlines(lanes: u8x64, bytes: u8x64) -> u8x64
    requires { Each1 (λ lane. lane < 255) lanes }
    ensures sum { sum_l result ≡ sum_l lanes + count_by (λ b. b == 10) bytes }
    ensures most { (most : ℕ) → Each1 (λ lane. lane ≤ most) lanes
        → Each1 (λ lane. lane ≤ most + 1) result }
{
    let newlines = bytes
        .simd_eq(u8x64::splat(b'\n'))
        .select(u8x64::splat(1), u8x64::splat(0));
    lanes.strict_add(newlines)
}

/// The sum of all lanes, for which 16 bits are enough.
#[inline(always)]
fn sum_of(lanes: u8x64) -> usize
    ensures { result ≡ sum_l lanes }
{
    lanes.cast::<u16>().strict_reduce_sum() as usize
}

/// How many of the last `left` bytes, fewer than 64, are newlines. They are compared as part of the last 64: one by one
/// they take as long as all bytes before them in a text of some lines.
#[inline(always)]
fn count_last(text: &[u8], left: usize) -> usize
    requires long { 64 ≤ length text.now }
    requires few { left < 64 }
    ensures { result ≡ count_by (λ b. b == 10) (drop (length text.now - left) text.now) }
{
    let bits = newline_bits(load(text, text.len() - LANES));
    // The lanes before them are shifted out, in two steps: all 64 may be.
    (bits >> (LANES - 1 - left) >> 1).count_ones() as usize
}

/// The newlines in the first 64 bytes of a text, as a mask. A shorter text gives none.
#[inline(always)]
pub(crate) fn newline_mask(text: &[u8]) -> u64
    ensures { AreNewlines text.now result }
{
    if text.len() < LANES {
        return 0;
    }
    newline_bits(load(text, 0))
}

/// How many bytes stand before the first newline of a text, or 64 where its first 64 bytes are none.
#[inline(always)]
pub(crate) fn first_newline(text: &[u8]) -> usize
    requires { 64 ≤ length text.now }
    ensures few { result ≤ 64 }
    ensures apart { IsOnePiece (take result text.now) }
    ensures found { result < 64 → slice_index text.now result ≡ 10 }
{
    newline_bits(load(text, 0)).trailing_zeros() as usize
}

/// How many bytes stand before the first newline of a text, or 128 or more if its first 128 bytes have none. Both
/// halves are compared at once: where lines have about 64 bytes, a branch on the half that has the newline is
/// mispredicted.
#[inline(always)]
pub(crate) fn first_newline_of_two(text: &[u8]) -> usize
    requires { 128 ≤ length text.now }
    ensures apart { IsOnePiece (take result text.now) }
    ensures found { result < 128 → slice_index text.now result ≡ 10 }
{
    let (_, second) = text.split_at(LANES);
    let near = first_newline(text);
    let far = LANES + first_newline(second);
    if near < LANES { near } else { far }
}

/// How many bytes stand after the last newline of a text, or 64 where its last 64 bytes are none.
#[inline(always)]
pub(crate) fn bytes_after_newline(text: &[u8]) -> usize
    requires long { 64 ≤ length text.now }
    ensures few { result ≤ 64 }
    ensures apart { IsOnePiece (drop (length text.now - result) text.now) }
    ensures found { result < 64 → slice_index text.now (length text.now - result - 1) ≡ 10 }
{
    newline_bits(load(text, text.len() - LANES)).leading_zeros() as usize
}

/// The 64 bytes from a position on.
#[inline(always)]
fn load(text: &[u8], at: usize) -> u8x64
    requires { at + 64 ≤ length text.now }
    ensures value { result ≡ slice_range text.now at (at + 64) }
    ensures len { length result ≡ 64 }
{
    u8x64::from_slice(&text[at..])
}

/// A bit for each lane, set where it is a newline.
#[inline(always)]
fn newline_bits(bytes: u8x64) -> u64
    ensures { result ≡ mask_l (map (λ b. b == 10) bytes) }
{
    bytes.simd_eq(u8x64::splat(b'\n')).to_bitmask()
}
