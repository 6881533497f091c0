//! The tables of a filter as lists of their entries that are not zero, for look-ups by comparisons.
ghost use Rattle.std.specs.Prelude.{ℕ, ◌/◌, ◌%◌, ◌≤◌, List, slice_index, bit_and};
ghost use Rattle.byte_lanes.specs.Lanes.{HasLanes};

use crate::lanes::{high_halves, low_halves};
use crate::wide_lanes::{both_wide, either_wide, value_where_wide, widen};
use nib_mask::Masks;
use std::simd::prelude::*;

/// The entries of one table that are not zero, each with the half of a byte that it stands for.
#[derive(Clone, Copy)]
pub(crate) struct Entries {
    halves: [u16; 16],
    values: [u16; 16],
    count: usize,
    ghost few: { count ≤ 16 },
}

/// The entries of all tables: of the third-last byte, the second-last and the last, by the low half of a byte and by
/// the high one.
#[derive(Clone, Copy)]
pub(crate) struct MaskEntries {
    third_low: Entries,
    third_high: Entries,
    second_low: Entries,
    second_high: Entries,
    last_low: Entries,
    last_high: Entries,
}

impl Entries {
    ghost use Rattle.byte_lanes.specs.Entries.{AreEntriesOf, entries_value};

    fn of(table: &[u16; 16]) -> Entries
        ensures { AreEntriesOf table.now result }
    {
        let (mut halves, mut values, mut count) = ([0; 16], [0; 16], 0);
        for half in 0..16u16 {
            let value = table[half as usize];
            if value != 0 {
                halves[count] = half;
                values[count] = value;
                count += 1;
            }
        }
        Entries {
            halves,
            values,
            count,
        }
    }

    /// What the entries give each lane, a comparison and a selection for each entry.
    #[inline(always)]
    fn look_up(&self, halves: u16x32) -> u16x32
        ensures { HasLanes result (λ k. entries_value self.now.halves self.now.values self.now.count (slice_index halves k)) }
    {
        let mut sum = u16x32::splat(0);
        for i in 0..self.count {
            let value = value_where_wide(halves, self.halves[i], self.values[i]);
            sum = either_wide(sum, value);
        }
        sum
    }
}

impl MaskEntries {
    ghost use Rattle.nib_mask.specs.declared.masks.Masks.{Masks};
    ghost use Rattle.nib_mask.specs.Tables.{table_value};
    ghost use Rattle.byte_lanes.specs.Entries.{AreEntriesOf, AreMaskEntries};

    pub(crate) fn of(masks: &Masks) -> MaskEntries
        ensures { AreMaskEntries masks.now result }
    {
        let (low, high) = (&masks.low, &masks.high);
        MaskEntries {
            third_low: Entries::of(&low[0]),
            third_high: Entries::of(&high[0]),
            second_low: Entries::of(&low[1]),
            second_high: Entries::of(&high[1]),
            last_low: Entries::of(&low[2]),
            last_high: Entries::of(&high[2]),
        }
    }

    /// The filter number of each three lanes.
    #[inline(always)]
    pub(crate) fn filter(&self, third: u8x32, second: u8x32, last: u8x32) -> u16x32
        ensures { (masks : Masks) → AreMaskEntries masks self.now → HasLanes result (λ k. table_value masks
            (slice_index third k) (slice_index second k) (slice_index last k)) }
    {
        let first_two = both_wide(
            Self::at_position(&self.third_low, &self.third_high, third),
            Self::at_position(&self.second_low, &self.second_high, second),
        );
        both_wide(
            first_two,
            Self::at_position(&self.last_low, &self.last_high, last),
        )
    }

    /// What the entries of the two tables of a position give each lane.
    #[inline(always)]
    fn at_position(low: &Entries, high: &Entries, bytes: u8x32) -> u16x32
        ensures { (of_low of_high : List ℕ) → AreEntriesOf of_low low.now → AreEntriesOf of_high high.now
            → HasLanes result (λ k. bit_and (slice_index of_low (slice_index bytes k % 16))
            (slice_index of_high (slice_index bytes k / 16))) }
    {
        both_wide(
            low.look_up(widen(low_halves(bytes))),
            high.look_up(widen(high_halves(bytes))),
        )
    }
}
