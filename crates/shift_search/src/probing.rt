//! Probes by pairs of bytes of a text: which ends their entries rule out, at eight positions or at 32.
ghost use Rattle.std.specs.Prelude.{◌≡◌, ◌+◌, ◌-◌, ◌*◌, ◌≤◌, length, slice_index};
ghost use Rattle.shift_search.specs.ShiftOr.{AreEntriesOf, AreRuled, Bucketing, IsRuled, RulesOut, RulesOutWords};
ghost use Rattle.shift_search.specs.declared.entries.TheConstants.{ENTRIES};

use crate::joining::{FourRuled, Ruled};
use std::simd::prelude::*;

/// The number that the two bytes before a position spell, with the last byte as the high one. It is read as a vector,
/// since the compiler then loads both bytes at once.
#[inline(always)]
fn pair_before(text: &[u8], at: usize) -> u16
    requires two { 2 ≤ at }
    requires inside { at ≤ length text.now }
    ensures { result ≡ slice_index text.now (at - 2) + slice_index text.now (at - 1) * 256 }
{
    let [pair] = u16x1::from_le_bytes(u8x2::from_slice(&text[at - 2..])).to_array();
    pair
}

/// The entry of the two bytes before a position.
#[inline(always)]
fn entry_at(entries: &[u64], text: &[u8], at: usize) -> u64
    requires all { length entries.now ≡ ENTRIES }
    requires two { 2 ≤ at }
    requires inside { at ≤ length text.now }
    ensures { (b : Bucketing) → AreEntriesOf b.literals b.buckets entries.now → RulesOut b text.now at result }
{
    entries[usize::from(pair_before(text, at))]
}

/// The entries of the two bytes before a position, and before the positions 8, 16 and 24 further on.
#[inline(always)]
fn four_entries_at(entries: &[u64], text: &[u8], at: usize) -> u64x4
    requires all { length entries.now ≡ ENTRIES }
    requires two { 2 ≤ at }
    requires inside { at + 24 ≤ length text.now }
    ensures { (b : Bucketing) → AreEntriesOf b.literals b.buckets entries.now → RulesOutWords b text.now at result }
{
    u64x4::from_array([
        entry_at(entries, text, at),
        entry_at(entries, text, at + 8),
        entry_at(entries, text, at + 16),
        entry_at(entries, text, at + 24),
    ])
}

/// What probes at the eight positions from `at` on rule out, at each position or at every second one. The stride is a
/// constant, so that each search has a loop of its own.
#[inline(always)]
pub(crate) fn probes_from<const STRIDE: usize>(entries: &[u64], text: &[u8], at: usize) -> Ruled
    requires all { length entries.now ≡ ENTRIES }
    requires two { 2 ≤ at }
    requires inside { at + 7 ≤ length text.now }
    ensures { (b : Bucketing) → AreEntriesOf b.literals b.buckets entries.now → IsRuled b text.now at result }
{
    let first = Ruled::by(entry_at(entries, text, at));
    let second = first.and_by(entry_at(entries, text, at + 2), 2);
    let third = second.and_by(entry_at(entries, text, at + 4), 4);
    let even = third.and_by(entry_at(entries, text, at + 6), 6);
    if STRIDE != 1 {
        return even;
    }
    let fifth = even.and_by(entry_at(entries, text, at + 1), 1);
    let sixth = fifth.and_by(entry_at(entries, text, at + 3), 3);
    let seventh = sixth.and_by(entry_at(entries, text, at + 5), 5);
    seventh.and_by(entry_at(entries, text, at + 7), 7)
}

/// As `probes_from`, at the 32 positions from `at` on.
#[inline(always)]
pub(crate) fn four_probes<const STRIDE: usize>(entries: &[u64], text: &[u8], at: usize) -> FourRuled
    requires all { length entries.now ≡ ENTRIES }
    requires two { 2 ≤ at }
    requires inside { at + 31 ≤ length text.now }
    ensures { (b : Bucketing) → AreEntriesOf b.literals b.buckets entries.now → AreRuled b text.now at result }
{
    let first = FourRuled::by(four_entries_at(entries, text, at));
    let second = first.and_by(four_entries_at(entries, text, at + 2), 2);
    let third = second.and_by(four_entries_at(entries, text, at + 4), 4);
    let even = third.and_by(four_entries_at(entries, text, at + 6), 6);
    if STRIDE != 1 {
        return even;
    }
    let fifth = even.and_by(four_entries_at(entries, text, at + 1), 1);
    let sixth = fifth.and_by(four_entries_at(entries, text, at + 3), 3);
    let seventh = sixth.and_by(four_entries_at(entries, text, at + 5), 5);
    seventh.and_by(four_entries_at(entries, text, at + 7), 7)
}
