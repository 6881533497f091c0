//! Blocks of a text. A whole block is probed before any end in it is verified, so that no branch depends on the result
//! of a probe.
ghost use Rattle.std.specs.Prelude.{◌≡◌, ℕ, ◌+◌, ◌-◌, ◌*◌, ◌<◌, ◌≤◌, length, slice_index};
ghost use Rattle.std.specs.Simd.Lanes.{put_chunk};
ghost use Rattle.shift_search.specs.Blocks.{IsBlock, IsNotedUnlessFull};
ghost use Rattle.shift_search.specs.ShiftOr.{AreEntriesOf, Bucketing, RulesOut};
ghost use Rattle.shift_search.specs.declared.blocks.TheConstants.{GROUP, GROUPS};
ghost use Rattle.shift_search.specs.declared.entries.TheConstants.{ENTRIES};

use crate::joining::lacking;
use crate::probing::four_probes;
use std::simd::prelude::*;

/// Positions of a group, which four words cover.
pub(crate) const GROUP: usize = 32;

/// Groups of a block. Measured in C: with 16, ends that are not ruled out cost more; with a whole text at once, hardly
/// less.
pub(crate) const GROUPS: usize = 32;

/// The result of probing a block.
#[derive(Clone, Copy)]
pub(crate) struct Noted {
    /// What its last probes rule out after the block.
    pub after: u64x4,
    /// How many of the block's groups are noted: each with an end that is not ruled out, and maybe others.
    pub count: usize,
}

/// Probes a block at each position or at every second one; `before` is what the probes before it rule out in it. Writes
/// the words that say which ends are ruled out, four for each group. Writes the numbers of the noted groups at the
/// start of `groups`.
#[inline(always)]
pub(crate) fn probe_block<const STRIDE: usize>(
    entries: &[u64],
    text: &[u8],
    at: usize,
    before: u64x4,
    words: &mut [u64],
    groups: &mut [usize],
) -> Noted
    requires all { length entries.now ≡ ENTRIES }
    requires eight { 8 ≤ at }
    requires inside { at + (GROUP * GROUPS - 1) ≤ length text.now }
    requires words { length words.old ≡ 4 * GROUPS }
    requires groups { length groups.old ≡ GROUPS }
    ensures words { length words.new ≡ length words.old }
    ensures groups { length groups.new ≡ length groups.old }
    ensures few { result.count ≤ GROUPS }
    ensures block { (b : Bucketing) → AreEntriesOf b.literals b.buckets entries.now → RulesOut b text.now at (slice_index before 3)
        → IsBlock b text.now at GROUPS words.new groups.new result.count (slice_index result.after 3) }
{
    let mut after = before;
    let mut count = 0usize;
    for group in 0..GROUPS {
        let now = four_probes::<STRIDE>(entries, text, at + GROUP * group);
        let ruled = now.with_those_before(after);
        after = now.after;
        store_words(ruled, words, 4 * group);
        groups[count] = group;
        count = if lacking(ruled) == 0 {
            count
        } else {
            count + 1
        };
    }
    Noted { after, count }
}

/// Writes the numbers of the words of the noted groups that lack a bit to the start of `numbers`. Returns how many they
/// are.
#[inline(always)]
pub(crate) fn note_words(
    words: &[u64],
    groups: &[usize],
    count: usize,
    numbers: &mut [usize],
) -> usize
    requires words { length words.now ≡ 4 * GROUPS }
    requires some { count ≤ length groups.now }
    requires few { count ≤ GROUPS }
    requires inside { (slot : ℕ) → slot < count → slice_index groups.now slot < GROUPS }
    requires numbers { length numbers.old ≡ 4 * GROUPS }
    ensures numbers { length numbers.new ≡ length numbers.old }
    ensures few { result ≤ 4 * GROUPS }
    ensures inside { (slot : ℕ) → slot < result → slice_index numbers.new slot < 4 * GROUPS }
    ensures noted { (slot i : ℕ) → slot < count → i < 4 → IsNotedUnlessFull words.now numbers.new result (4 * slice_index groups.now slot + i) }
{
    let mut noted = 0;
    for slot in 0..count {
        noted = note_four(words, 4 * groups[slot], numbers, noted);
    }
    noted
}

/// As `note_words`, for four words from `first` on, after `noted` numbers.
#[inline(always)]
fn note_four(words: &[u64], first: usize, numbers: &mut [usize], noted: usize) -> usize
    requires words { first + 4 ≤ length words.now }
    requires room { noted + 4 ≤ length numbers.old }
    ensures len { length numbers.new ≡ length numbers.old }
    ensures more { noted ≤ result }
    ensures few { result ≤ noted + 4 }
    ensures kept { (slot : ℕ) → slot < noted → slice_index numbers.new slot ≡ slice_index numbers.old slot }
    ensures inside { (slot : ℕ) → noted ≤ slot → slot < result → slice_index numbers.new slot < first + 4 }
    ensures noted { (i : ℕ) → i < 4 → IsNotedUnlessFull words.now numbers.new result (first + i) }
{
    let mut count = noted;
    for word in first..first + 4 {
        numbers[count] = word;
        count = if words[word] == u64::MAX {
            count
        } else {
            count + 1
        };
    }
    count
}

/// Writes four words from an index on.
#[inline(always)]
fn store_words(four: u64x4, words: &mut [u64], at: usize)
    requires { at + 4 ≤ length words.old }
    ensures { words.new ≡ put_chunk at words.old four }
{
    four.copy_to_slice(&mut words[at..]);
}
