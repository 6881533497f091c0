//! The tables of a filter as vectors, and their values for 32 or 64 positions.
ghost use Rattle.std.specs.Prelude.{ℕ, ◌+◌, ◌/◌, ◌%◌, ◌≤◌, List, length, slice_index, bit_and};
ghost use Rattle.byte_lanes.specs.Lanes.{HasLanes, HoldsTwice, IsMaskOf};
ghost use Rattle.nib_mask.specs.declared.masks.Masks.{Masks};
ghost use Rattle.nib_mask.specs.Tables.{table_value};

use crate::lanes::{
    any_lane, both, either, high_halves, load, look_up, low_halves, nonzero_bits, twice,
};
use nib_mask::ByteMasks;
use std::simd::prelude::*;

/// The six tables, each twice in a vector: of the third-last byte, the second-last and the last, by
/// the low half of a byte and by the high one.
#[derive(Clone, Copy)]
pub(crate) struct Tables {
    third_low: u8x32,
    third_high: u8x32,
    second_low: u8x32,
    second_high: u8x32,
    last_low: u8x32,
    last_high: u8x32,
}

impl Tables {
    ghost use Rattle.nib_mask.specs.Halves.{widened};
    ghost use Rattle.byte_lanes.specs.WideTables.{AreTablesOf};
    ghost use Rattle.byte_lanes.specs.Filtered.{IsMarked, value_from};

    #[inline(always)]
    pub(crate) fn of(masks: &ByteMasks) -> Tables
        ensures { AreTablesOf (widened masks.now) result }
    {
        let (low, high) = (&masks.low, &masks.high);
        Tables {
            third_low: twice(&low[0]),
            third_high: twice(&high[0]),
            second_low: twice(&low[1]),
            second_high: twice(&high[1]),
            last_low: twice(&low[2]),
            last_high: twice(&high[2]),
        }
    }

    /// The filter byte of each three lanes.
    #[inline(always)]
    fn filter(&self, third: u8x32, second: u8x32, last: u8x32) -> u8x32
        ensures { (masks : Masks) → AreTablesOf masks self.now → HasLanes result (λ k. table_value masks
            (slice_index third k) (slice_index second k) (slice_index last k)) }
    {
        let first_two = both(
            entries(self.third_low, self.third_high, third),
            entries(self.second_low, self.second_high, second),
        );
        both(first_two, entries(self.last_low, self.last_high, last))
    }

    /// The filter byte of each three bytes that stand in a row from one of 32 positions on.
    #[inline(always)]
    fn filter_at(&self, text: &[u8], at: usize) -> u8x32
        requires { at + 34 ≤ length text.now }
        ensures { (masks : Masks) → AreTablesOf masks self.now → HasLanes result (λ k. value_from masks text.now (at + k)) }
    {
        self.filter(load(text, at), load(text, at + 1), load(text, at + 2))
    }

    /// The positions among 64 at which the filter byte of the three bytes from there on is not zero.
    #[inline(always)]
    pub(crate) fn passing(&self, text: &[u8], at: usize) -> u64
        requires { at + 66 ≤ length text.now }
        ensures { (masks : Masks) → AreTablesOf masks self.now → IsMaskOf (IsMarked masks text.now) at 64 result }
    {
        let low = self.filter_at(text, at);
        let high = self.filter_at(text, at + 32);
        // To see so that no lane is set costs less than 64 bits. Measured: a text without matches is searched 1.08
        // times as fast, a text with a candidate in every second block at most a twentieth slower.
        if !any_lane(either(low, high)) {
            return 0;
        }
        nonzero_bits(low, high)
    }
}

/// What the two tables of a position give each lane.
#[inline(always)]
fn entries(low: u8x32, high: u8x32, bytes: u8x32) -> u8x32
    ensures { (of_low of_high : List ℕ) → HoldsTwice low of_low → HoldsTwice high of_high
        → HasLanes result (λ k. bit_and (slice_index of_low (slice_index bytes k % 16))
        (slice_index of_high (slice_index bytes k / 16))) }
{
    both(
        look_up(low, low_halves(bytes)),
        look_up(high, high_halves(bytes)),
    )
}
