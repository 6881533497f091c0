//! A second check of shift-or, bucket by bucket, before any chain of literals is walked.
ghost use Rattle.std.specs.Prelude.{◌≡◌, ℕ, ◌<◌, ◌≤◌, IfOk, length, slice_index, vec_len};
ghost use Rattle.list_index.specs.HashBits.{AreKeyBits};
ghost use Rattle.shift_search.specs.ShiftOr.{AreBucketChecksOf, AreWidthsOf, bucket_at, bucket_key};
ghost use Rattle.shift_search.specs.declared.bucket_checks.TheConstants.{CHECK_BITS};

use crate::entries::{BUCKETS, bucket_of};
use list_index::{case_bits, set_hash_bit, suffix_key};
use lit_base::LitList;
use std::alloc::{AllocError, Global};

/// Bits of a hash here. A byte for each takes 8 KiB, which stay in the first-level cache.
pub(crate) const CHECK_BITS: usize = 13;

/// A byte for each hash. Bit `bucket` is set if the key of some literal of the bucket has this hash. A key is the
/// literal's last bytes, as many as the bucket's shortest literal has, up to eight. So most buckets have longer keys
/// than the whole list could have.
#[derive(Debug, Drop)]
pub(crate) struct BucketChecks {
    /// The key length of each bucket in bytes.
    pub widths: Vec<usize>,
    /// The bits of case, which a key sets.
    pub case_bits: u64,
    /// The buckets of each hash.
    pub table: Vec<u8>,
}

impl BucketChecks {
    /// The check for a list with these buckets.
    pub fn new(alloc: Global, list: &LitList, buckets: &[u8]) -> Result<BucketChecks, AllocError>
        requires { length buckets.now ≡ length list.now.texts }
        ensures { IfOk result (AreBucketChecksOf list.now buckets.now) }
    {
        let mut widths = Vec::from_elem(alloc, 8, BUCKETS)?;
        narrow_all(list, buckets, &mut widths);
        let mut table = Vec::from_elem(alloc, 0, 1 << CHECK_BITS)?;
        set_checks(list, buckets, &widths, &mut table);
        Ok(BucketChecks {
            widths,
            case_bits: case_bits(list.fold()),
            table,
        })
    }
}

/// Reduces each bucket's key length to the length of its shortest literal.
fn narrow_all(list: &LitList, buckets: &[u8], widths: &mut Vec<usize>)
    requires buckets { length buckets.now ≡ length list.now.texts }
    requires widths { AreWidthsOf list.now buckets.now widths.old.items 0 }
    ensures { AreWidthsOf list.now buckets.now widths.new.items (length list.now.texts) }
{
    for place in 0..list.len() {
        narrow(widths, bucket_of(buckets, place), list.get(place).len());
    }
}

/// Reduces the key length of one bucket.
fn narrow(widths: &mut Vec<usize>, bucket: usize, len: usize)
    requires bucket { bucket < vec_len widths.old }
    requires some { 0 < len }
    ensures len { vec_len widths.new ≡ vec_len widths.old }
    ensures narrowed { slice_index widths.new.items bucket ≤ len }
    ensures least { (other : ℕ) → 0 < slice_index widths.old.items other → 0 < slice_index widths.new.items other }
    ensures fewer { (other : ℕ) → slice_index widths.new.items other ≤ slice_index widths.old.items other }
{
    widths[bucket] = widths[bucket].min(len);
}

/// Sets the bit of each literal.
fn set_checks(list: &LitList, buckets: &[u8], widths: &[usize], table: &mut Vec<u8>)
    requires buckets { length buckets.now ≡ length list.now.texts }
    requires widths { AreWidthsOf list.now buckets.now widths.now (length list.now.texts) }
    requires none { AreKeyBits CHECK_BITS (bucket_key list.now buckets.now widths.now) (bucket_at buckets.now) 0 table.old.items }
    ensures { AreKeyBits CHECK_BITS (bucket_key list.now buckets.now widths.now) (bucket_at buckets.now) (length list.now.texts) table.new.items }
{
    for place in 0..list.len() {
        let bucket = bucket_of(buckets, place);
        let literal = list.get(place);
        let key = suffix_key(list.fold(), literal, literal.len(), widths[bucket]);
        set_hash_bit(table, CHECK_BITS, key, bucket);
    }
}
