//! Counts how often the last three bytes of factors occur in texts, by their hashes.
ghost use Rattle.std.specs.Prelude.{◌≡◌, ◌^◌, ◌<◌, ◌≤◌, IfOk, length, vec_capacity, vec_len};
ghost use Rattle.factor_search.specs.declared.widths.TheConstants.{HASH_BITS};

use crate::widths::{HASH_BITS, OFFSETS, WIDTH};
use list_index::{case_bits, hash_of, last_word, masked_key, suffix_key};
use lit_base::LitList;
use std::alloc::{AllocError, Global};

/// The masks see this many bytes of a factor.
const MASKED: usize = 3;

/// How often three bytes in a row occurred in samples of texts. Each new sample halves the older counts. There is room
/// for all counts from the start, but they are written only with the first sample.
#[derive(Debug, Drop)]
pub(crate) struct Counts {
    pub threes: Vec<u16>,
}

impl Counts {
    /// The counts of no text.
    pub fn new(alloc: Global) -> Result<Counts, AllocError>
        ensures { IfOk result (λ counts. 2 ^ HASH_BITS ≤ vec_capacity counts.threes) }
    {
        let threes = Vec::with_capacity(alloc, 1 << HASH_BITS)?;
        Ok(Counts { threes })
    }

    /// Halves the counts, and counts a sample.
    pub fn count(&mut self, list: &LitList, sample: &[u8])
        requires { 2 ^ HASH_BITS ≤ vec_capacity self.old.threes }
        ensures { vec_len self.new.threes ≡ 2 ^ HASH_BITS }
    {
        halve(&mut self.threes);
        count_sample(&mut self.threes, case_bits(list.fold()), sample);
    }

    /// The offset of the factor of a literal whose last three bytes are the rarest; of several, the nearest to the end.
    pub fn rarest(&self, list: &LitList, place: usize) -> usize
        requires threes { vec_len self.now.threes ≡ 2 ^ HASH_BITS }
        requires within { place < length list.now.texts }
        ensures { result < 8 }
    {
        let literal = list.get(place);
        let (mut best, mut least) = (0, u16::MAX);
        for offset in 0..OFFSETS {
            if WIDTH + offset <= literal.len() {
                let end = literal.len() - offset;
                let number = hash_of(HASH_BITS, suffix_key(list.fold(), literal, end, MASKED));
                if self.threes[number] < least {
                    best = offset;
                    least = self.threes[number];
                }
            }
        }
        best
    }
}

/// Halves each count. Unwritten counts become 0.
fn halve(counts: &mut Vec<u16>)
    requires { 2 ^ HASH_BITS ≤ vec_capacity counts.old }
    ensures { vec_len counts.new ≡ 2 ^ HASH_BITS }
{
    // It takes no memory, and so is not refused.
    let _is_done = counts.resize(1 << HASH_BITS, 0);
    for number in 0..counts.len() {
        counts[number] /= 2;
    }
}

/// Counts each three bytes of a sample that have at least eight bytes up to their end.
fn count_sample(counts: &mut Vec<u16>, case_bits: u64, sample: &[u8])
    requires { vec_len counts.old ≡ 2 ^ HASH_BITS }
    ensures { vec_len counts.new ≡ vec_len counts.old }
{
    for end in 8..=sample.len() {
        let key = masked_key(last_word(sample, end), MASKED, case_bits);
        let number = hash_of(HASH_BITS, key);
        counts[number] = counts[number].saturating_add(1);
    }
}
