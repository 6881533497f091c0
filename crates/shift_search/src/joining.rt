//! The ends that probes rule out, shifted and combined: in one word of eight bytes, or in four words in a row.
ghost use Rattle.std.specs.Prelude.{◌≡◌, ℕ, ◌+◌, ◌-◌, ◌*◌, ◌/◌, ◌%◌, ◌^◌, ◌<◌, List, bit_or, slice_index};
ghost use Rattle.std.specs.Int.{bit_at};
ghost use Rattle.shift_search.specs.ShiftOr.{AreRuled, Bucketing, IsRuled, RulesOut, RulesOutWords};

use std::simd::prelude::*;

/// The ends that probes rule out, at eight positions in a row and at the eight after them. Byte k of a word stands for
/// the position k further on.
#[derive(Clone, Copy)]
pub(crate) struct Ruled {
    pub here: u64,
    pub after: u64,
}

impl Ruled {
    /// What the entry of the first position rules out.
    #[inline(always)]
    pub fn by(entry: u64) -> Ruled
        ensures { (b : Bucketing) (text : List ℕ) (at : ℕ) → RulesOut b text at entry → IsRuled b text at result }
    {
        Ruled {
            here: entry,
            after: 0,
        }
    }

    /// Adds what the entry of the position `ahead` further on rules out.
    #[inline(always)]
    pub fn and_by(self, entry: u64, ahead: u64) -> Ruled
        requires some { 0 < ahead }
        requires near { ahead < 8 }
        ensures { (b : Bucketing) (text : List ℕ) (at : ℕ) → IsRuled b text at self → RulesOut b text (at + ahead) entry → IsRuled b text at result }
    {
        Ruled {
            here: self.here | entry << (8 * ahead),
            after: self.after | entry >> (64 - 8 * ahead),
        }
    }
}

/// As `Ruled`, for four words in a row with eight positions each.
#[derive(Clone, Copy)]
pub(crate) struct FourRuled {
    pub here: u64x4,
    pub after: u64x4,
}

impl FourRuled {
    /// What the entries of the first position of each word rule out.
    #[inline(always)]
    pub fn by(entries: u64x4) -> FourRuled
        ensures { (b : Bucketing) (text : List ℕ) (at : ℕ) → RulesOutWords b text at entries → AreRuled b text at result }
    {
        FourRuled {
            here: entries,
            after: u64x4::splat(0),
        }
    }

    /// Adds what the entries of the positions `ahead` further on rule out.
    #[inline(always)]
    pub fn and_by(self, entries: u64x4, ahead: u64) -> FourRuled
        requires some { 0 < ahead }
        requires near { ahead < 8 }
        ensures { (b : Bucketing) (text : List ℕ) (at : ℕ) → AreRuled b text at self → RulesOutWords b text (at + ahead) entries → AreRuled b text at result }
    {
        FourRuled {
            here: joined(self.here, moved_on(entries, 8 * ahead)),
            after: joined(self.after, moved_back(entries, 64 - 8 * ahead)),
        }
    }

    /// What the words rule out at their own positions. Each is combined with what the word before it rules out after
    /// its own positions; the first with the last word of `before`.
    #[inline(always)]
    pub fn with_those_before(self, before: u64x4) -> u64x4
        ensures { (b : Bucketing) (text : List ℕ) (at : ℕ) → AreRuled b text at self → RulesOut b text at (slice_index before 3) → RulesOutWords b text at result }
    {
        joined(self.here, next_of(before, self.after))
    }
}

/// The bits of either.
#[inline(always)]
fn joined(words: u64x4, others: u64x4) -> u64x4
    ensures { (i : ℕ) → i < 4 → slice_index result i ≡ bit_or (slice_index words i) (slice_index others i) }
{
    words | others
}

/// Each word shifted up by `count` bits.
#[inline(always)]
fn moved_on(words: u64x4, count: u64) -> u64x4
    requires { count < 64 }
    ensures { (i : ℕ) → i < 4 → slice_index result i ≡ slice_index words i * 2 ^ count % 2 ^ 64 }
{
    words << u64x4::splat(count)
}

/// Each word shifted down by `count` bits.
#[inline(always)]
fn moved_back(words: u64x4, count: u64) -> u64x4
    requires { count < 64 }
    ensures { (i : ℕ) → i < 4 → slice_index result i ≡ slice_index words i / 2 ^ count }
{
    words >> u64x4::splat(count)
}

/// The last of four words, then the first three of `words`.
#[inline(always)]
fn next_of(before: u64x4, words: u64x4) -> u64x4
    ensures first { slice_index result 0 ≡ slice_index before 3 }
    ensures others { (i : ℕ) → i < 3 → slice_index result (i + 1) ≡ slice_index words i }
{
    before.shuffle(words, [3, 4, 5, 6])
}

/// Three zeros, then this word.
#[inline(always)]
pub(crate) fn last_alone(word: u64) -> u64x4
    ensures { slice_index result 3 ≡ word }
{
    u64x4::from_array([0, 0, 0, word])
}

/// The last of four words.
#[inline(always)]
pub(crate) fn last_of(words: u64x4) -> u64
    ensures { result ≡ slice_index words 3 }
{
    let [_, _, _, last] = words.to_array();
    last
}

/// The words that lack a bit: bit k stands for word k.
#[inline(always)]
pub(crate) fn lacking(words: u64x4) -> u64
    ensures few { result < 16 }
    ensures full { (i : ℕ) → i < 4 → bit_at result i ≡ 0 → slice_index words i ≡ 2 ^ 64 - 1 }
{
    words.simd_ne(u64x4::splat(u64::MAX)).to_bitmask()
}
