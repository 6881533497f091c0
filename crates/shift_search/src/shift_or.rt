//! Shift-or over buckets of literals, as in Hyperscan's FDR: the bytes before an end rule it out. Costs are in tenths
//! of a nanosecond.
//!
//! `next_by` compares the literals at the first positions of a text one by one. `next_by_step` then probes 32 positions
//! a turn, and `verify_four` verifies the ends that the probes leave. Where such ends are close together, `pass_blocks`
//! probes 1,024 positions before it verifies any. `next_by_eights` probes the last positions by eight, and
//! `next_unprobed` compares at the few after them.
ghost use Rattle.std.specs.Prelude.{◌≡◌, ℕ, ◌+◌, ◌-◌, ◌*◌, ◌<◌, ◌≤◌, IfOk, IfSome, length, false};
ghost use Rattle.std.specs.Option.{IfNone};
ghost use Rattle.shift_search.specs.Blocks.{AreNoted};
ghost use Rattle.lit_base.specs.NextEnds.{Finds, NoEndUpTo};
ghost use Rattle.shift_search.specs.ShiftOr.{AreEntriesOf, NoneOf, RulesOut, RulesOutWords};
ghost use Rattle.shift_search.specs.Probes.{AreProbes, AreProbesAfter, FindsVerified, IsPassed};
ghost use Rattle.shift_search.specs.declared.blocks.TheConstants.{GROUP, GROUPS};
ghost use Rattle.shift_search.specs.declared.shift_or.TheConstants.{UNPROBED};

use crate::blocks::{GROUP, GROUPS, note_words, probe_block};
use crate::bucket_checks::{BucketChecks, CHECK_BITS};
use crate::entries::{ENTRIES, PLACES, fill_all};
use crate::joining::{lacking, last_alone, last_of};
use crate::prices::{cost_of, estimate};
use crate::probes::{Probes, Verified, bits_after};
use crate::probing::{four_probes, probes_from};
use crate::runs::cut_runs;
use crate::tuning::LEAST_BEFORE_BLOCKS;
use lane_filter::split_lowest;
use list_index::{ListIndex, has_bit, hash_of, last_word, masked_key};
use std::alloc::{AllocError, Global};
use std::marker::Model;
use std::simd::prelude::*;
use std::sync::Arc;
use text_ends::EndRate;

/// Bytes at the start of a text that are searched without probes. Before the first end after them, eight positions can
/// be probed, each with eight bytes before it.
const UNPROBED: usize = 15;

/// The distance of the positions that a search probes.
#[derive(Clone, Copy, Debug)]
enum Stride {
    One,
    Two,
}

/// Shift-or over the buckets of a list.
///
/// There is an entry for each pair of bytes, in either case if case is ignored. It says which ends the pair rules out:
/// bit `8 * ahead + bucket` is set if no literal of the bucket ends `ahead` positions after the pair. The entries of
/// all positions, or of every second one, are shifted by their distance to an end and combined. Few ends are then not
/// ruled out.
///
/// It takes all its memory when it is made, but writes the entries only when it is first tuned. So a search that is
/// never tuned need not write half a megabyte.
#[derive(Debug, Drop)]
pub struct ShiftOr {
    index: Arc<ListIndex>,
    /// The bucket of each literal.
    buckets: Vec<u8>,
    /// The second check of the buckets of an end.
    checks: BucketChecks,
    /// Empty, with room for all, until it is first tuned.
    entries: Vec<u64>,
    stride: Stride,
}

impl Model for ShiftOr {
    ghost use Rattle.std.specs.Prelude.{◌≡◌, ◌<◌, ◌≤◌, length, vec_capacity, vec_len};
    ghost use Rattle.shift_search.specs.ShiftOr.{AreBucketChecksOf, AreEntriesOf, Bucketing};
    ghost use Rattle.shift_search.specs.declared.entries.TheConstants.{ENTRIES};

    ghost Value = { Bucketing };

    ghost view = { λ s. record { literals = s.index.value; buckets = s.buckets.items } };

    ghost invariant = { λ s. (ENTRIES ≤ vec_capacity s.entries)
        × (0 < vec_len s.entries → AreEntriesOf s.index.value s.buckets.items s.entries.items)
        × (vec_len s.buckets ≡ length s.index.value.texts)
        × AreBucketChecksOf s.index.value s.buckets.items s.checks };
}

impl ShiftOr {
    /// Shift-or for a list. It rules out nothing before it is tuned.
    pub fn new(alloc: Global, index: Arc<ListIndex>) -> Result<ShiftOr, AllocError>
        ensures { IfOk result (λ made. made.literals ≡ index.value) }
    {
        let list = index.list();
        let mut buckets = Vec::from_elem(alloc, 0, list.len())?;
        cut_runs(list, &mut buckets);
        let checks = BucketChecks::new(alloc, list, &buckets)?;
        let entries = Vec::with_capacity(alloc, ENTRIES)?;
        Ok(ShiftOr {
            index,
            buckets,
            checks,
            entries,
            stride: Stride::One,
        })
    }

    /// The index of the list.
    #[inline(always)]
    pub(crate) fn index(&self) -> &ListIndex
        ensures { result.now ≡ self.now.literals }
    {
        &self.index
    }

    /// Makes the entries, if they are missing, and chooses the stride. Returns the estimate of a search for 1,024 bytes
    /// of a text like the sample, in tenths of a nanosecond, with ends at this rate. The work that factors also do at
    /// each end is not included.
    pub fn tune(&mut self, sample: &[u8], rate: EndRate) -> usize
        ensures { self.new ≡ self.old }
    {
        self.fill();
        let Some(entries) = self.made_entries() else {
            // Unreachable: the entries are made.
            return usize::MAX;
        };
        let by_one = estimate::<1>(entries, sample, rate);
        let by_two = estimate::<2>(entries, sample, rate);
        self.stride = if by_two < by_one {
            Stride::Two
        } else {
            Stride::One
        };
        by_one.min(by_two)
    }

    /// Makes the entries, if they are missing.
    fn fill(&mut self)
        ensures { self.new ≡ self.old }
    {
        if self.entries.is_empty() {
            fill_all(self.index.list(), &self.buckets, &mut self.entries);
        }
    }

    /// The entries, if they are made.
    #[inline(always)]
    fn made_entries(&self) -> Option<&[u64]>
        ensures { IfSome result (λ entries. AreEntriesOf self.now.literals self.now.buckets entries.now) }
    {
        if self.entries.is_empty() {
            return None;
        }
        Some(self.entries.as_slice())
    }

    /// The cost of a search of `count` bytes with these false positives and the ends `found`, in tenths of a
    /// nanosecond. The work that factors also do at each end is not included.
    pub fn cost_of(&self, count: usize, false_positives: usize, found: EndRate) -> usize {
        match self.stride {
            Stride::One => cost_of::<1>(count, false_positives, found),
            Stride::Two => cost_of::<2>(count, false_positives, found),
        }
    }

    /// The state of a search after a position.
    #[inline]
    pub(crate) fn probes_after(&self, text: &[u8], from: usize) -> Probes
        ensures { AreProbesAfter self.now text.now from result }
    {
        let start = from.max(UNPROBED);
        let at = start - (PLACES - 1);
        let carried = if start > text.len() {
            0
        } else {
            self.carried_after(text, at)
        };
        Probes {
            at,
            unruled: 0,
            carried,
        }
    }

    /// What the probes at the eight positions from `at` on rule out after these. Nothing without entries.
    fn carried_after(&self, text: &[u8], at: usize) -> u64
        requires after { 2 ≤ at }
        requires inside { at + 7 ≤ length text.now }
        ensures { RulesOut self.now text.now (at + 8) result }
    {
        let Some(entries) = self.made_entries() else {
            return 0;
        };
        match self.stride {
            Stride::One => probes_from::<1>(entries, text, at).after,
            Stride::Two => probes_from::<2>(entries, text, at).after,
        }
    }

    /// The first position of the text after `from` at which some literal ends, wherever it begins, with the first such
    /// literal. `probes` is the state of a search after `from`, and then its state after this end. Counts the false
    /// positives, for each bucket. It takes no memory.
    #[inline(never)]
    pub(crate) fn next_by(
        &self,
        text: &[u8],
        from: usize,
        probes: &mut Probes,
        false_positives: &mut usize,
    ) -> Option<(usize, usize)>
        requires { AreProbesAfter self.now text.now from probes.old }
        ensures next { Finds self.now.literals text.now from (length text.now) result }
        ensures probes { IfSome result (λ found. AreProbesAfter self.now text.now found.0 probes.new) }
        ensures over { IfNone result (probes.new ≡ probes.old) }
    {
        if let Some(found) = self.first_between(text, from, text.len().min(UNPROBED)) {
            return Some(found);
        }
        let found = self.next_after(text, from.max(UNPROBED), *probes, false_positives)?;
        *probes = found.probes;
        Some((found.end, found.first))
    }

    /// The first end after `start`, where `probes` is the state of a search. Counts as `next_by` does.
    #[inline(always)]
    fn next_after(
        &self,
        text: &[u8],
        start: usize,
        probes: Probes,
        false_positives: &mut usize,
    ) -> Option<Verified>
        requires first { UNPROBED ≤ start }
        requires probes { AreProbes self.now text.now start probes }
        ensures { FindsVerified self.now text.now start (length text.now) result }
    {
        let Some(entries) = self.made_entries() else {
            return self.next_unprobed(text, start);
        };
        match self.stride {
            Stride::One => self.next_by_step::<1>(entries, text, start, probes, false_positives),
            Stride::Two => self.next_by_step::<2>(entries, text, start, probes, false_positives),
        }
    }

    /// As `next_after`, at this stride, by 32 positions a turn.
    #[inline(always)]
    fn next_by_step<const STRIDE: usize>(
        &self,
        entries: &[u64],
        text: &[u8],
        start: usize,
        probes: Probes,
        false_positives: &mut usize,
    ) -> Option<Verified>
        requires entries { AreEntriesOf self.now.literals self.now.buckets entries.now }
        requires probes { AreProbes self.now text.now start probes }
        ensures { FindsVerified self.now text.now start (length text.now) result }
    {
        if let Some(found) = self.first_unruled(text, probes, false_positives) {
            return Some(found);
        }
        // Single variables hold the state, and functions return new ones. Otherwise it is stored at each turn.
        let mut at = probes.at;
        let mut before = last_alone(probes.carried);
        let (mut blocks_from, mut last_unruled) = (at.saturating_add(LEAST_BEFORE_BLOCKS), at);
        // A turn needs 32 more positions after a block of eight.
        let last_four = text.len().saturating_sub(5 * PLACES - 1);
        'fours: while at <= last_four {
            let next = at + PLACES;
            let now = four_probes::<STRIDE>(entries, text, next);
            let ruled = now.with_those_before(before);
            before = now.after;
            at += 4 * PLACES;
            if lacking(ruled) != 0 {
                let carried = last_of(before);
                if let Some(found) = self.verify_four(text, next, ruled, carried, false_positives) {
                    return Some(found);
                }
                if tries_blocks(at, blocks_from, last_unruled) {
                    let (passed, after) = self.pass_blocks::<STRIDE>(
                        entries,
                        text,
                        start,
                        at,
                        carried,
                        false_positives,
                    );
                    at = passed;
                    before = last_alone(after);
                    // If an end stopped the blocks, the search finds it before it tries blocks again.
                    blocks_from = at.saturating_add(LEAST_BEFORE_BLOCKS);
                }
                last_unruled = at;
            }
        }
        self.next_by_eights::<STRIDE>(entries, text, start, at, last_of(before), false_positives)
    }

    /// Continues block by block from a position up to which nothing ends. It stops before a block in which a literal
    /// ends, after a block whose ends are all ruled out, and near the end of the text. Returns the last position, and
    /// what the last probes rule out after it.
    #[inline(never)]
    fn pass_blocks<const STRIDE: usize>(
        &self,
        entries: &[u64],
        text: &[u8],
        start: usize,
        from: usize,
        after: u64,
        false_positives: &mut usize,
    ) -> (usize, u64)
        requires entries { AreEntriesOf self.now.literals self.now.buckets entries.now }
        requires passed { IsPassed self.now text.now start from after }
        ensures after { from ≤ result.0 }
        ensures passed { IsPassed self.now text.now start result.0 result.1 }
    {
        let mut words = [0u64; 4 * GROUPS];
        let mut groups = [0usize; GROUPS];
        let mut numbers = [0usize; 4 * GROUPS];
        let mut at = from;
        let mut before = last_alone(after);
        let last = text.len().saturating_sub(GROUP * GROUPS + (PLACES - 1));
        let mut is_open = true;
        'quiet: while is_open && at < last {
            let ahead = at + PLACES;
            let noted = probe_block::<STRIDE>(
                entries,
                text,
                ahead,
                before,
                &mut words,
                &mut groups,
            );
            let count = note_words(&words, &groups, noted.count, &mut numbers);
            let mut missed = 0;
            if self.has_end(text, ahead, &words, &numbers, count, &mut missed) {
                break;
            }
            *false_positives = false_positives.saturating_add(missed);
            before = noted.after;
            at += GROUP * GROUPS;
            is_open = count != 0;
        }
        (at, last_of(before))
    }

    /// Whether a literal ends in a block, by the words that are noted. Adds the false positives, counted for each
    /// bucket, to `false_positives`.
    #[inline(always)]
    fn has_end(
        &self,
        text: &[u8],
        at: usize,
        words: &[u64],
        numbers: &[usize],
        count: usize,
        false_positives: &mut usize,
    ) -> bool
        requires eight { 8 ≤ at }
        requires inside { at + (GROUP * GROUPS - 1) ≤ length text.now }
        requires words { length words.now ≡ 4 * GROUPS }
        requires few { count ≤ length numbers.now }
        requires noted { AreNoted self.now text.now at GROUPS words.now numbers.now count }
        ensures { result ≡ false → NoEndUpTo self.now.literals text.now (at - 1) (at + (GROUP * GROUPS - 1)) }
    {
        for slot in 0..count {
            let word = numbers[slot];
            let probes = Probes {
                at: at + PLACES * word,
                unruled: !words[word],
                carried: 0,
            };
            if let Some(_found) = self.first_verified(text, probes, false_positives) {
                return true;
            }
        }
        false
    }

    /// As `next_after`, after probes that left no end, by eight positions a turn: the last positions of a text.
    #[inline(never)]
    fn next_by_eights<const STRIDE: usize>(
        &self,
        entries: &[u64],
        text: &[u8],
        start: usize,
        from: usize,
        after: u64,
        false_positives: &mut usize,
    ) -> Option<Verified>
        requires entries { AreEntriesOf self.now.literals self.now.buckets entries.now }
        requires passed { IsPassed self.now text.now start from after }
        ensures { FindsVerified self.now text.now start (length text.now) result }
    {
        let (mut at, mut carried) = (from, after);
        let last = text.len().saturating_sub(2 * PLACES - 1);
        'eights: while at <= last {
            at += PLACES;
            let now = probes_from::<STRIDE>(entries, text, at);
            let unruled = !(now.here | carried);
            carried = now.after;
            let here = Probes {
                at,
                unruled,
                carried,
            };
            if let Some(found) = self.first_unruled(text, here, false_positives) {
                return Some(found);
            }
        }
        self.next_unprobed(text, at + (PLACES - 1))
    }

    /// As `next_after`, without probes.
    #[inline(never)]
    fn next_unprobed(&self, text: &[u8], from: usize) -> Option<Verified>
        requires { UNPROBED ≤ from }
        ensures { FindsVerified self.now text.now from (length text.now) result }
    {
        let (end, first) = self.first_between(text, from, text.len())?;
        Some(Verified {
            end,
            first,
            probes: self.probes_after(text, end),
        })
    }

    /// The first end that probes did not rule out and at which some literal ends, with the first such literal.
    #[inline(always)]
    fn first_unruled(
        &self,
        text: &[u8],
        probes: Probes,
        false_positives: &mut usize,
    ) -> Option<Verified>
        requires eight { 8 ≤ probes.at }
        requires inside { 0 < probes.unruled → probes.at + 7 ≤ length text.now }
        ensures { (start : ℕ) → AreProbes self.now text.now start probes
            → FindsVerified self.now text.now start (probes.at + 7) result }
    {
        if probes.unruled == 0 {
            return None;
        }
        self.verify(text, probes, false_positives)
    }

    /// As `first_verified`, in a call.
    #[inline(never)]
    fn verify(&self, text: &[u8], probes: Probes, false_positives: &mut usize) -> Option<Verified>
        requires eight { 8 ≤ probes.at }
        requires inside { probes.at + 7 ≤ length text.now }
        ensures { (start : ℕ) → AreProbes self.now text.now start probes
            → FindsVerified self.now text.now start (probes.at + 7) result }
    {
        self.first_verified(text, probes, false_positives)
    }

    /// The first of eight ends that probes did not rule out and at which some literal ends, with the first such
    /// literal. Each end is looked up once at most, whatever buckets may end there.
    #[inline(always)]
    fn first_verified(
        &self,
        text: &[u8],
        probes: Probes,
        false_positives: &mut usize,
    ) -> Option<Verified>
        requires eight { 8 ≤ probes.at }
        requires inside { probes.at + 7 ≤ length text.now }
        ensures { (start : ℕ) → AreProbes self.now text.now start probes
            → FindsVerified self.now text.now start (probes.at + 7) result }
    {
        let mut unruled = probes.unruled;
        'ends: while unruled != 0 {
            let (bit, others) = split_lowest(unruled);
            let end = probes.at + bit / 8;
            let mut left = others;
            if self.may_end(text, end, bit % 8) {
                left = bits_after(others, bit / 8);
                if let Some(first) = self.index.next_ending(text, end, 0) {
                    return Some(Verified {
                        end,
                        first,
                        probes: Probes {
                            unruled: left,
                            ..probes
                        },
                    });
                }
            }
            *false_positives = false_positives.saturating_add(1);
            unruled = left;
        }
        None
    }

    /// As `first_verified`, for four words in a row with eight positions each. `ruled` has the bits that are ruled out
    /// there, and `after` the bits after the last word.
    #[inline(never)]
    fn verify_four(
        &self,
        text: &[u8],
        at: usize,
        ruled: u64x4,
        after: u64,
        false_positives: &mut usize,
    ) -> Option<Verified>
        requires eight { 8 ≤ at }
        requires inside { at + 31 ≤ length text.now }
        requires ruled { RulesOutWords self.now text.now at ruled }
        requires after { RulesOut self.now text.now (at + 32) after }
        ensures { (start : ℕ) → start < at → NoEndUpTo self.now.literals text.now start (at - 1)
            → FindsVerified self.now text.now start (at + 31) result }
    {
        let words = ruled.to_array();
        let later = [words[1], words[2], words[3], after];
        let mut unseen = lacking(ruled);
        'words: while unseen != 0 {
            let (word, others) = split_lowest(unseen);
            let probes = Probes {
                at: at + PLACES * word,
                unruled: !words[word],
                carried: later[word],
            };
            if let Some(found) = self.first_verified(text, probes, false_positives) {
                return Some(found);
            }
            unseen = others;
        }
        None
    }

    /// Whether a literal of a bucket may end at a position, by a hash of the key before it.
    #[inline(always)]
    fn may_end(&self, text: &[u8], end: usize, bucket: usize) -> bool
        requires bucket { bucket < 8 }
        requires eight { 8 ≤ end }
        requires inside { end ≤ length text.now }
        ensures { result ≡ false → NoneOf self.now text.now bucket end }
    {
        let width = self.checks.widths[bucket];
        let key = masked_key(last_word(text, end), width, self.checks.case_bits);
        has_bit(self.checks.table[hash_of(CHECK_BITS, key)], bucket)
    }

    /// The first end after `from` and up to `last`, with the first literal that ends there, without probes.
    #[inline]
    fn first_between(&self, text: &[u8], from: usize, last: usize) -> Option<(usize, usize)>
        requires { last ≤ length text.now }
        ensures first { Finds self.now.literals text.now from last result }
        ensures within { IfSome result (λ found. found.0 ≤ last) }
    {
        for seen in from..last {
            if let Some(first) = self.index.next_ending(text, seen + 1, 0) {
                return Some((seen + 1, first));
            }
        }
        None
    }
}

/// Whether a search tries blocks: it has gone far, and the last group with an end that was not ruled out is near.
#[inline(always)]
fn tries_blocks(at: usize, blocks_from: usize, last_unruled: usize) -> bool {
    at >= blocks_from && at.saturating_sub(last_unruled) < LEAST_BEFORE_BLOCKS
}
