//! The entries of shift-or: which ends the two bytes before a position rule out.
ghost use Rattle.std.specs.Prelude.{◌≡◌, ℕ, ◌+◌, ◌<◌, ◌≤◌, ◌↔◌, bit_or, length, slice_index, vec_capacity, vec_len};
ghost use Rattle.shift_search.specs.ShiftOr.{AreCleared, AreEntriesOf, FitsPair, IsCleared, IsPass, IsPassOf, IsShort, bucket_at};
ghost use Rattle.shift_search.specs.declared.entries.TheConstants.{ENTRIES};

use list_index::{case_bits, suffix_key};
use lit_base::{Fold, LitList};

/// Number of entries, one for each pair of bytes: 512 KiB, of which a text uses few. Measured in C: a hash of three
/// bytes spreads the entries, and its probes took 1.6 times as long.
pub(crate) const ENTRIES: usize = 65536;

/// Positions that an entry covers, its own the first.
pub(crate) const PLACES: usize = 8;

/// Buckets, each with a bit in a byte.
pub(crate) const BUCKETS: usize = 8;

/// An entry with the bits of all ends and buckets.
const ALL: u64 = u64::MAX;

/// The bucket of the literal at a place.
pub(crate) fn bucket_of(buckets: &[u8], place: usize) -> usize
    requires { place < length buckets.now }
    ensures { result ≡ bucket_at buckets.now place }
{
    usize::from(buckets[place]) % BUCKETS
}

/// Makes the entries that pass the literals of a list and rule out all else, in existing room.
pub(crate) fn fill_all(list: &LitList, buckets: &[u8], entries: &mut Vec<u64>)
    requires buckets { length buckets.now ≡ length list.now.texts }
    requires none { vec_len entries.old ≡ 0 }
    requires room { ENTRIES ≤ vec_capacity entries.old }
    ensures { AreEntriesOf list.now buckets.now entries.new.items }
{
    fill_with(entries, without_short(ALL, list, buckets));
    let_all_through(list, buckets, entries);
    leave_case_out(entries, (case_bits(list.fold()) >> 48) as usize);
}

/// Clears the bits of ends that an entry's bytes say nothing about: they lie so far ahead that some literal of the
/// bucket does not reach back to these bytes.
fn without_short(entry: u64, list: &LitList, buckets: &[u8]) -> u64
    requires { length buckets.now ≡ length list.now.texts }
    ensures { IsCleared entry result (IsPass list.now buckets.now IsShort (length list.now.texts)) }
{
    let mut found = entry;
    for place in 0..list.len() {
        found = without_ends(found, list.get(place), bucket_of(buckets, place));
    }
    found
}

/// Clears the bits of a bucket for the ends from which a literal does not reach back to the entry's bytes.
fn without_ends(entry: u64, literal: &[u8], bucket: usize) -> u64
    requires { bucket < 8 }
    ensures { IsCleared entry result (IsPassOf IsShort literal.now bucket) }
{
    let mut found = entry;
    for ahead in literal.len()..PLACES {
        found = without(found, 8 * ahead + bucket);
    }
    found
}

/// An entry without a bit.
fn without(entry: u64, bit: usize) -> u64
    requires { bit < 64 }
    ensures { IsCleared entry result (λ other. other ≡ bit) }
{
    entry & !(1 << bit)
}

/// Sets all entries to one value.
fn fill_with(entries: &mut Vec<u64>, entry: u64)
    requires none { vec_len entries.old ≡ 0 }
    requires room { ENTRIES ≤ vec_capacity entries.old }
    ensures len { vec_len entries.new ≡ ENTRIES }
    ensures alike { (number : ℕ) → number < ENTRIES → slice_index entries.new.items number ≡ entry }
{
    // It takes no memory, and so is not refused.
    let _is_done = entries.resize(ENTRIES, entry);
}

/// Clears the bits that would rule out a literal of the list.
fn let_all_through(list: &LitList, buckets: &[u8], entries: &mut Vec<u64>)
    requires buckets { length buckets.now ≡ length list.now.texts }
    requires room { vec_len entries.old ≡ ENTRIES }
    ensures len { vec_len entries.new ≡ ENTRIES }
    ensures cleared { AreCleared entries.old.items entries.new.items
        (λ number. IsPass list.now buckets.now (FitsPair list.now.folding number) (length list.now.texts)) }
{
    for place in 0..list.len() {
        let bucket = bucket_of(buckets, place);
        let_through(entries, list.fold(), list.get(place), bucket);
    }
}

/// Passes a literal of a bucket at its bytes, up to eight of them.
fn let_through(entries: &mut Vec<u64>, fold: Fold, literal: &[u8], bucket: usize)
    requires room { vec_len entries.old ≡ ENTRIES }
    requires bucket { bucket < 8 }
    ensures len { vec_len entries.new ≡ ENTRIES }
    ensures cleared { AreCleared entries.old.items entries.new.items
        (λ number. IsPassOf (FitsPair fold number) literal.now bucket) }
{
    let last = PLACES.min(literal.len());
    for ahead in 0..last {
        let (first, count) = fitting(fold, literal, ahead);
        clear(entries, first, count, 8 * ahead + bucket);
    }
}

/// The entries that a literal fits if it ends `ahead` positions after their bytes: the first of them, and how many
/// stand in a row. That is one entry, of two bytes of the literal. If only the literal's first byte stands there, it is
/// 256 entries: this byte after any byte.
fn fitting(fold: Fold, literal: &[u8], ahead: usize) -> (usize, usize)
    requires { ahead < length literal.now }
    ensures inside { result.0 + result.1 ≤ ENTRIES }
    ensures fits { (number : ℕ) → FitsPair fold number literal.now ahead
        ↔ ((result.0 ≤ number) × (number < result.0 + result.1)) }
{
    let end = literal.len() - ahead;
    if end == 1 {
        let first = suffix_key(fold, literal, 1, 1);
        return (256 * (first >> 56) as usize, 256);
    }
    let pair = suffix_key(fold, literal, end, 2);
    ((pair >> 48) as usize, 1)
}

/// Clears a bit of some entries in a row.
fn clear(entries: &mut Vec<u64>, first: usize, count: usize, bit: usize)
    requires room { first + count ≤ vec_len entries.old }
    requires bit { bit < 64 }
    ensures len { vec_len entries.new ≡ vec_len entries.old }
    ensures cleared { AreCleared entries.old.items entries.new.items
        (λ number other. ((first ≤ number) × (number < first + count)) × (other ≡ bit)) }
{
    for number in first..first + count {
        entries[number] = without(entries[number], bit);
    }
}

/// Copies each entry from its two bytes without the bits of case, so that a probe can use the bytes as they stand.
fn leave_case_out(entries: &mut Vec<u64>, case_bits: usize)
    requires room { vec_len entries.old ≡ ENTRIES }
    requires small { case_bits < ENTRIES }
    ensures len { vec_len entries.new ≡ ENTRIES }
    ensures alike { (number : ℕ) → number < ENTRIES → slice_index entries.new.items number ≡ slice_index entries.old.items (bit_or number case_bits) }
{
    if case_bits != 0 {
        for number in 0..ENTRIES {
            entries[number] = entries[number | case_bits];
        }
    }
}
