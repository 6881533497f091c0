//! Checks by the last bytes of keys, which rule out most positions where no literal ends.
ghost use Rattle.std.specs.Prelude.{◌≡◌, ℕ, ◌-◌, ◌^◌, ◌<◌, ◌≤◌, length, max, min, slice_index, IfOk};
ghost use Rattle.std.specs.Int.{bit_at};
ghost use Rattle.list_index.specs.Chains.{key_width_at};
ghost use Rattle.list_index.specs.Checks.{AreChecksOf, checked_width};
ghost use Rattle.lit_base.specs.Literals.{Literals, literal_at};
ghost use Rattle.lit_base.specs.Occurrences.{Occurs};
ghost use Rattle.list_index.specs.Suffixes.{hash_of, masked_key};
ghost use Rattle.list_index.specs.declared.suffixes.checks.TheConstants.{CHECK_BITS, LEAST_CHECKED};

use crate::suffixes::hash_bits::set_hash_bit;
use crate::suffixes::key::{case_bits, hash_of, key_width, last_word, masked_key, suffix_key};
use lit_base::LitList;
use std::alloc::{AllocError, Global};

/// The number of bits of a hash here. There are twice as many hashes as there may be literals. A byte for each takes 8
/// KiB, which stay in a processor's first cache.
pub(crate) const CHECK_BITS: usize = 13;

/// Keys of this many bytes up to seven are checked by one probe, and keys of eight by another. Measured: a probe for
/// each width from the least to eight takes 18 of 100 instructions for a thousand frequent literals in log lines. The
/// chains reject what the two probes pass wrongly. With one probe for all keys, a thousand rare literals in English
/// text take 1.1 times as long.
pub(crate) const LEAST_CHECKED: usize = 4;

/// A byte for each hash. Bit `width - 1` is set if some literal with a key of `width` bytes has that hash by its
/// checked bytes. A key of eight bytes is checked whole; a shorter one by as many of its last bytes as the shortest
/// literal has, but at least four, or whole if it has fewer. So chains are walked for those widths alone.
#[derive(Debug, Drop)]
pub(crate) struct SuffixChecks {
    /// The length of the shortest literal, at most eight.
    pub least: usize,
    /// Keys of fewer than eight bytes are checked by at most this many.
    pub most: usize,
    /// The bits of letter case, which hashes ignore.
    pub case_bits: u64,
    /// The key widths of each hash.
    pub widths: Vec<u8>,
}

impl SuffixChecks {
    /// The checks of a list's literals.
    pub fn new(alloc: Global, list: &LitList) -> Result<SuffixChecks, AllocError>
        ensures { IfOk result (AreChecksOf list.now) }
    {
        let fold = list.fold();
        let least = least_width(list);
        let most = least.max(LEAST_CHECKED);
        let mut widths = Vec::from_elem(alloc, 0, 1 << CHECK_BITS)?;
        for place in 0..list.len() {
            let literal = list.get(place);
            let width = key_width(literal.len());
            let key = suffix_key(fold, literal, literal.len(), checked_width(width, most));
            set_hash_bit(&mut widths, CHECK_BITS, key, width - 1);
        }
        Ok(SuffixChecks {
            least,
            most,
            case_bits: case_bits(fold),
            widths,
        })
    }

    /// The key widths of the literals that may end at `end`, by the hashes of the last bytes before it: bit `width - 1`
    /// stands for keys of `width` bytes. It probes every width by which keys are checked: a branch for each would often
    /// be mispredicted. The loop ends at a constant, so that it is unrolled and not vectorised: it seldom runs.
    #[inline(always)]
    pub fn widths_at(&self, text: &[u8], end: usize) -> u8
        requires some { 0 < self.now.least }
        requires narrow { self.now.least ≤ 8 }
        requires most { self.now.most ≡ max self.now.least LEAST_CHECKED }
        requires room { length self.now.widths.items ≡ 2 ^ CHECK_BITS }
        requires eight { 8 ≤ end }
        requires inside { end ≤ length text.now }
        ensures { (l : Literals) (place : ℕ) → AreChecksOf l self.now → Occurs l text.now place end → bit_at result (key_width_at l place - 1) ≡ 1 }
    {
        let word = last_word(text, end);
        let mut short = 0;
        for width in self.least..LEAST_CHECKED {
            short |= self.widths_of(word, width) & (1 << (width - 1));
        }
        let longer = self.widths_of(word, self.most) & 0x7f;
        let widest = self.widths_of(word, 8) & 0x80;
        short | longer | widest
    }

    /// The key widths of the literals with the hash of the last `width` of the eight bytes that a word spells.
    #[inline(always)]
    fn widths_of(&self, word: u64, width: usize) -> u8
        requires some { 0 < width }
        requires narrow { width ≤ 8 }
        requires room { length self.now.widths.items ≡ 2 ^ CHECK_BITS }
        ensures { result ≡ slice_index self.now.widths.items (hash_of CHECK_BITS (masked_key word width self.now.case_bits)) }
    {
        self.widths[hash_of(CHECK_BITS, masked_key(word, width, self.case_bits))]
    }
}

/// The key width of the shortest literal, or 1 if there is none.
fn least_width(list: &LitList) -> usize
    ensures some { 0 < result }
    ensures small { result ≤ 8 }
    ensures shared { (place : ℕ) → place < length list.now.texts → result ≤ length (literal_at list.now place) }
{
    if list.is_empty() {
        return 1;
    }
    list.normal_law();
    key_width(list.shortest())
}

/// The number of bytes by which a key of `keyed` bytes is checked: keys shorter than eight by at most `most`.
fn checked_width(keyed: usize, most: usize) -> usize
    requires some { 0 < keyed }
    requires checked { 0 < most }
    ensures some { 0 < result }
    ensures within { result ≤ keyed }
    ensures value { result ≡ checked_width most keyed }
{
    if keyed == 8 { keyed } else { keyed.min(most) }
}
