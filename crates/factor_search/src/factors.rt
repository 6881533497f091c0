//! The factors by which literals are searched for.
ghost use Rattle.std.specs.Prelude.{◌≡◌, ℕ, ◌^◌, ◌<◌, ◌≤◌, IfOk, length, slice_index, vec_len};
ghost use Rattle.std.specs.Int.{bit_at};
ghost use Rattle.list_index.specs.HashBits.{HasBit};
ghost use Rattle.list_index.specs.Suffixes.{hash_of, masked_key, suffix_key};
ghost use Rattle.nib_mask.specs.Prefixes.{CoversPrefixes};
ghost use Rattle.nib_mask.specs.Halves.{widened};
ghost use Rattle.factor_search.specs.declared.widths.TheConstants.{HASH_BITS, WIDTH};
ghost use Rattle.factor_search.specs.Factors.{AreHashBits, AreWithin};

use crate::choosing::{choose_offsets, estimate_of};
use crate::counts::Counts;
use crate::grouping::group;
use crate::hash_bits::set_hash_bits;
use crate::prices::cost_of_masks;
use crate::tuning::{FALSE_POSITIVE_COST, START_COST};
use crate::widths::{HASH_BITS, WIDTH, least_width, widths_from};
use list_index::{ListIndex, case_bits, hash_of, masked_key, word_before};
use lit_base::{Fold, LitList};
use nib_mask::ByteMasks;
use std::alloc::{AllocError, Global};
use std::marker::Model;
use std::sync::Arc;
use text_ends::{EndRate, Tally};

/// A list with one factor for each literal: its hash bit, and masks over the factor's last bytes. Factors are chosen to
/// be rare in a sample.
///
/// Probes at each position that the masks pass miss no end. It takes all its memory when it is made.
#[derive(Debug, Drop)]
pub struct Factors {
    index: Arc<ListIndex>,
    /// The least width of a factor.
    least: usize,
    /// The distance from the end of each literal to the end of its factor.
    offsets: Vec<u8>,
    /// The bucket of each literal in the masks.
    buckets: Vec<u8>,
    /// A byte for each hash. Bit `back` says that some literal has a factor with this hash `back` bytes before its end.
    hash_bits: Vec<u8>,
    masks: ByteMasks,
    counts: Counts,
}

impl Model for Factors {
    ghost use Rattle.std.specs.Prelude.{◌≡◌, ◌^◌, ◌≤◌, length, vec_capacity, vec_len};
    ghost use Rattle.factor_search.specs.declared.widths.TheConstants.{HASH_BITS};
    ghost use Rattle.nib_mask.specs.Prefixes.{CoversPrefixes};
    ghost use Rattle.nib_mask.specs.Halves.{widened};
    ghost use Rattle.factor_search.specs.Widths.{IsLeastWidth};
    ghost use Rattle.factor_search.specs.Factors.{AreFactorBits, Factored};

    ghost Value = { Factored };

    ghost view = { λ w. record { literals = w.index.value; offsets = w.offsets.items } };

    ghost invariant = { λ w. IsLeastWidth w.index.value w.least
        × AreFactorBits w.index.value w.offsets.items w.hash_bits.items (length w.index.value.texts)
        × CoversPrefixes w.index.value (length w.index.value.texts) w.offsets.items (widened w.masks)
        × (vec_len w.buckets ≡ length w.index.value.texts)
        × (2 ^ HASH_BITS ≤ vec_capacity w.counts.threes) };
}

impl Factors {
    /// The literals of a list, each with its last bytes as its factor.
    pub fn new(alloc: Global, index: Arc<ListIndex>) -> Result<Factors, AllocError>
        ensures { IfOk result (λ factors. factors.literals ≡ index.value) }
    {
        let list = index.list();
        let least = least_width(list);
        let mut offsets = Vec::from_elem(alloc, 0, list.len())?;
        let mut buckets = Vec::from_elem(alloc, 0, list.len())?;
        let mut hash_bits = Vec::from_elem(alloc, 0, 1 << HASH_BITS)?;
        let counts = Counts::new(alloc)?;
        set_hash_bits(list, &mut offsets, &mut hash_bits);
        let masks = masks_of(list, &offsets, &mut buckets);
        Ok(Factors {
            index,
            least,
            offsets,
            buckets,
            hash_bits,
            masks,
            counts,
        })
    }

    /// The index of the list.
    #[inline(always)]
    pub(crate) fn index(&self) -> &ListIndex
        ensures { result.now ≡ self.now.literals }
    {
        &self.index
    }

    /// Chooses factors that are rare in a sample of the coming text. Returns the estimate of a search by them, in
    /// tenths of a nanosecond for 1,024 bytes with ends at this rate, without the work at the ends themselves. Earlier
    /// samples count half as much.
    pub fn tune(&mut self, sample: &[u8], rate: EndRate) -> usize
        ensures { self.new.literals ≡ self.old.literals }
    {
        let list = self.index.list();
        self.counts.count(list, sample);
        choose_offsets(list, &self.counts, &mut self.offsets);
        set_hash_bits(list, &mut self.offsets, &mut self.hash_bits);
        self.masks = masks_of(list, &self.offsets, &mut self.buckets);
        estimate_of(&self.masks, widths_from(self.least), sample, rate)
    }

    /// The masks. Where a literal ends in a text, a candidate stands as far before as its offset says.
    #[inline(always)]
    pub fn masks(&self) -> &ByteMasks
        ensures { CoversPrefixes self.now.literals (length self.now.literals.texts) self.now.offsets (widened result.now) }
    {
        &self.masks
    }

    /// The law that the factors lie within their literals.
    #[inline(always)]
    pub(crate) fn within_law(&self)
        ensures { AreWithin self.now }
    {
        let _hash_bits = &self.hash_bits;
    }

    /// The hash bits at a position: bit `back` is set if a literal ends at `at + back` whose factor ends at `at`, and
    /// rarely otherwise.
    #[inline(always)]
    pub fn hash_bits_at(&self, text: &[u8], at: usize) -> u8
        requires { at ≤ length text.now }
        ensures { AreHashBits self.now text.now at result }
    {
        hash_bits_of_widths(&self.hash_bits, self.index.fold(), self.least, text, at)
    }

    /// The cost of a search of `count` bytes with the counters `tally` and the ends `found`, in tenths of a nanosecond,
    /// without the work at the ends themselves.
    pub fn cost_of(&self, count: usize, tally: Tally, found: EndRate) -> usize {
        cost_of_masks(count, tally.passed, widths_from(self.least))
            .saturating_add(tally.false_positives.saturating_mul(FALSE_POSITIVE_COST))
            .saturating_add(found.starts.saturating_mul(START_COST))
    }
}

/// The masks for the factors at the offsets. Gives each literal a bucket.
fn masks_of(list: &LitList, offsets: &[u8], buckets: &mut Vec<u8>) -> ByteMasks
    requires offsets { length offsets.now ≡ length list.now.texts }
    requires buckets { vec_len buckets.old ≡ length list.now.texts }
    ensures masks { CoversPrefixes list.now (length list.now.texts) offsets.now (widened result) }
    ensures buckets { vec_len buckets.new ≡ vec_len buckets.old }
{
    group(list, offsets, buckets);
    ByteMasks::of_prefixes(list, offsets, buckets)
}

/// The hash bits of a position, by all widths from the least on.
#[inline(always)]
fn hash_bits_of_widths(hash_bits: &[u8], fold: Fold, least: usize, text: &[u8], at: usize) -> u8
    requires room { length hash_bits.now ≡ 2 ^ HASH_BITS }
    requires some { 0 < least }
    requires inside { at ≤ length text.now }
    ensures { (width back : ℕ) → least ≤ width → width ≤ WIDTH → width ≤ at
        → HasBit hash_bits.now (hash_of HASH_BITS (suffix_key fold text.now at width)) back → bit_at result back ≡ 1 }
{
    let word = word_before(text, at);
    let case_bits = case_bits(fold);
    let mut found = 0;
    for width in least..WIDTH {
        let short = hash_bits_of(hash_bits, word, width, case_bits);
        found |= short;
    }
    let long = hash_bits_of(hash_bits, word, WIDTH, case_bits);
    found | long
}

/// The hash bits of the last `width` of eight bytes.
#[inline(always)]
fn hash_bits_of(hash_bits: &[u8], word: u64, width: usize, case_bits: u64) -> u8
    requires room { length hash_bits.now ≡ 2 ^ HASH_BITS }
    requires some { 0 < width }
    requires narrow { width ≤ 8 }
    ensures { result ≡ slice_index hash_bits.now (hash_of HASH_BITS (masked_key word width case_bits)) }
{
    hash_bits[hash_of(HASH_BITS, masked_key(word, width, case_bits))]
}
