//! Tables over prefixes of literals.

ghost use Rattle.std.specs.Prelude.{◌≡◌, ℕ, ◌%◌, ◌<◌, ◌≤◌, true, length, slice_index};
ghost use Rattle.std.specs.Int.{bit_at};
ghost use Rattle.nib_mask.specs.Halves.{widened};
ghost use Rattle.nib_mask.specs.Prefixes.{CoversPrefixes, KeepsPrefixes, prefix_at, keeps_prefix};

use crate::byte_masks::ByteMasks;
use crate::fingerprint::{capital, reaches};
use crate::half::{Half, half_of};
use lit_base::{Fold, LitList};

impl ByteMasks {
    /// The tables for the literals of a list, by their prefixes. The prefix of a literal ends `offsets[place]` bytes
    /// before the literal does. Where a literal longer than its offset ends in a text, its prefix ends at a candidate.
    /// `buckets[place]`, modulo eight, is the bucket of a prefix; it decides only how many other positions pass.
    pub fn of_prefixes(list: &LitList, offsets: &[u8], buckets: &[u8]) -> ByteMasks
        requires offsets { length list.now.texts ≤ length offsets.now }
        requires buckets { length list.now.texts ≤ length buckets.now }
        ensures { CoversPrefixes list.now (length list.now.texts) offsets.now (widened result) }
    {
        let count = list.len();
        ByteMasks {
            low: [
                table(list, count, offsets, buckets, 0, Half::Low),
                table(list, count, offsets, buckets, 1, Half::Low),
                table(list, count, offsets, buckets, 2, Half::Low),
            ],
            high: [
                table(list, count, offsets, buckets, 0, Half::High),
                table(list, count, offsets, buckets, 1, Half::High),
                table(list, count, offsets, buckets, 2, Half::High),
            ],
        }
    }
}

/// The table of one position by one half, for the first `count` literals.
fn table(
    list: &LitList,
    count: usize,
    offsets: &[u8],
    buckets: &[u8],
    position: usize,
    half: Half,
) -> [u8; 16]
    requires count { count ≤ length list.now.texts }
    requires offsets { count ≤ length offsets.now }
    requires buckets { count ≤ length buckets.now }
    requires position { position < 3 }
    ensures { (value : ℕ) → value < 16
        → KeepsPrefixes list.now count offsets.now buckets.now position half value (slice_index result value) }
{
    let fold = list.fold();
    let mut table = [0; 16];
    for place in 0..count {
        let prefix = prefix_at(list, place, usize::from(offsets[place]));
        add_prefix(&mut table, fold, position, half, prefix, buckets[place]);
    }
    table
}

/// The prefix of a literal: all but its last `offset` bytes.
pub fn prefix_at(list: &LitList, place: usize, offset: usize) -> &[u8]
    requires { place < length list.now.texts }
    ensures { result.now ≡ prefix_at list.now place offset }
{
    let literal = list.get(place);
    let (prefix, _) = literal.split_at(literal.len().saturating_sub(offset));
    prefix
}

/// Sets the bucket's bit in the entries that keep a prefix, or in all entries if the prefix does not reach the
/// position.
fn add_prefix(
    table: &mut [u8; 16],
    fold: Fold,
    position: usize,
    half: Half,
    prefix: &[u8],
    bucket: u8,
)
    requires { position < 3 }
    ensures here { (value : ℕ) → value < 16 → keeps_prefix fold position half value prefix.now ≡ true → bit_at (slice_index table.new value) (bucket % 8) ≡ 1 }
    ensures kept { (value bit : ℕ) → bit_at (slice_index table.old value) bit ≡ 1 → bit_at (slice_index table.new value) bit ≡ 1 }
{
    if reaches(position, prefix) {
        let byte = prefix[prefix.len() + position - 3];
        add_bucket(table, half_of(half, byte), bucket);
        add_bucket(table, half_of(half, capital(fold, byte)), bucket);
    } else {
        add_to_all(table, bucket);
    }
}

/// Sets a bucket's bit in all entries.
fn add_to_all(table: &mut [u8; 16], bucket: u8)
    ensures here { (value : ℕ) → value < 16 → bit_at (slice_index table.new value) (bucket % 8) ≡ 1 }
    ensures kept { (value bit : ℕ) → bit_at (slice_index table.old value) bit ≡ 1 → bit_at (slice_index table.new value) bit ≡ 1 }
{
    for value in 0..16 {
        add_bucket(table, value, bucket);
    }
}

/// Sets a bucket's bit in the entry of one value.
fn add_bucket(table: &mut [u8; 16], value: u8, bucket: u8)
    requires { value < 16 }
    ensures here { bit_at (slice_index table.new value) (bucket % 8) ≡ 1 }
    ensures kept { (other bit : ℕ) → bit_at (slice_index table.old other) bit ≡ 1 → bit_at (slice_index table.new other) bit ≡ 1 }
{
    let value = usize::from(value);
    table[value] = with_bucket(table[value], bucket);
}

/// A number with one more bucket's bit set.
fn with_bucket(kept: u8, bucket: u8) -> u8
    ensures here { bit_at result (bucket % 8) ≡ 1 }
    ensures others { (bit : ℕ) → bit_at kept bit ≡ 1 → bit_at result bit ≡ 1 }
{
    kept | 1 << (bucket % 8)
}
