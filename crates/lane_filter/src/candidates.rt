//! The positions of a text at which an occurrence may end.
ghost use Rattle.std.specs.Prelude.{◌≡◌, ◌+◌, ◌<◌, ◌≤◌, length, IfSome};
ghost use Rattle.std.specs.Option.{IfNone};
ghost use Rattle.lane_filter.specs.declared.candidates.TheConstants.{MOST_COPIED};
ghost use Rattle.byte_lanes.specs.Prefixes.{IsPrefixOf};
ghost use Rattle.byte_lanes.specs.PlacesAfter.{NoneWithin, IsFirstAfter, AreMarked};
ghost use Rattle.lane_filter.specs.Prefilters.{IsCandidateOfTwo, Passes};

use crate::prefilter::Prefilter;
use byte_lanes::{AnyOf, EndTest, Nibbles, below_bit, from_bit, skip_unmarked, split_lowest};
use nib_mask::ByteMasks;
use std::marker::Model;

/// Bytes. A text up to this length is copied with zeros after it, so that 64 ends can be tested together. A longer text
/// is too short for that only if a rare byte stands far before the end of its literal; it is tested one end after the
/// other.
const MOST_COPIED: usize = 128;

/// The candidates among the ends tested together, up to `done`: bit k of `mask` is set where `first + k` is one.
#[derive(Clone, Copy)]
struct EndBits {
    first: usize,
    mask: u64,
    done: usize,
}

/// The first candidate after one position and up to another, tested one position after the other.
fn single_bits<T: EndTest>(test: &T, text: &[u8], from: usize, to: usize) -> EndBits
    requires ordered { from ≤ to }
    requires within { to ≤ length text.now }
    ensures marked { AreMarked (T.candidate test.now text.now) from result.first result.done result.mask }
    ensures within { result.done ≤ to }
    ensures ended { result.mask ≡ 0 → result.done ≡ to }
{
    for end in from + 1..to + 1 {
        if test.is_candidate(text, end) {
            return EndBits {
                first: end,
                mask: 1,
                done: end,
            };
        }
    }
    EndBits {
        first: to,
        mask: 0,
        done: to,
    }
}

/// The first 64 ends after a position with a candidate among them, or none at the end of the text.
#[inline(always)]
fn wide_bits<T: EndTest>(test: &T, text: &[u8], from: usize) -> EndBits
    requires long { T.reaches test.now + 63 ≤ length text.now }
    requires after { T.reaches test.now ≤ from + 1 }
    requires within { from ≤ length text.now }
    ensures marked { AreMarked (T.candidate test.now text.now) from result.first result.done result.mask }
    ensures within { result.done ≤ length text.now }
    ensures ended { result.mask ≡ 0 → result.done ≡ length text.now }
{
    let mut seen = from;
    while text.len() - seen >= 64 {
        let mask = test.passing(text, seen + 1);
        if mask != 0 {
            return EndBits {
                first: seen + 1,
                mask,
                done: seen + 64,
            };
        }
        seen = skip_unmarked(test, text, seen + 64);
    }
    last_bits(test, text, seen)
}

/// The ends after a position, fewer than 64, as part of the last 64 ends.
#[inline(always)]
fn last_bits<T: EndTest>(test: &T, text: &[u8], seen: usize) -> EndBits
    requires long { T.reaches test.now + 63 ≤ length text.now }
    requires within { seen ≤ length text.now }
    requires short { length text.now < seen + 64 }
    ensures marked { AreMarked (T.candidate test.now text.now) seen result.first result.done result.mask }
    ensures done { result.done ≡ length text.now }
{
    let done = text.len();
    let first = done - 63;
    if seen == done {
        return EndBits {
            first,
            mask: 0,
            done,
        };
    }
    let whole = test.passing(text, first);
    EndBits {
        first,
        mask: from_bit(whole, seen + 1 - first),
        done,
    }
}

/// A text with zero bytes after it, 64 of them at least.
#[inline(always)]
fn padded(text: &[u8]) -> [u8; MOST_COPIED + 64]
    requires { length text.now ≤ MOST_COPIED }
    ensures { IsPrefixOf text.now result }
{
    let mut copy = [0; MOST_COPIED + 64];
    copy[..text.len()].copy_from_slice(text);
    copy
}

/// The ends after a position, fewer than 64, which are tested together in a copy of the text.
#[inline(always)]
fn copied_bits<T: EndTest>(test: &T, text: &[u8], from: usize) -> EndBits
    requires after { T.reaches test.now ≤ from + 1 }
    requires within { from ≤ length text.now }
    requires few { length text.now < from + 64 }
    requires short { length text.now ≤ MOST_COPIED }
    ensures marked { AreMarked (T.candidate test.now text.now) from result.first result.done result.mask }
    ensures done { result.done ≡ length text.now }
{
    let copy = padded(text);
    test.local_law(text, &copy);
    let whole = test.passing(&copy, from + 1);
    EndBits {
        first: from + 1,
        mask: below_bit(whole, text.len() - from),
        done: text.len(),
    }
}

/// The first ends after a position with a candidate among them, in a text that is too short to test 64 at a time.
fn short_bits<T: EndTest>(test: &T, text: &[u8], from: usize) -> EndBits
    requires within { from ≤ length text.now }
    requires short { length text.now < T.reaches test.now + 63 }
    ensures marked { AreMarked (T.candidate test.now text.now) from result.first result.done result.mask }
    ensures within { result.done ≤ length text.now }
    ensures ended { result.mask ≡ 0 → result.done ≡ length text.now }
{
    let start = from.max(test.reach() - 1);
    if text.len() <= start || text.len() > MOST_COPIED {
        return single_bits(test, text, from, text.len());
    }
    let bits = single_bits(test, text, from, start);
    if bits.mask != 0 {
        return bits;
    }
    copied_bits(test, text, start)
}

/// The first ends after a position with a candidate among them, or none at the end of the text. Testing 64 at a time
/// needs as many bytes before the first end as the test reads.
fn next_bits<T: EndTest>(test: &T, text: &[u8], from: usize) -> EndBits
    requires { from ≤ length text.now }
    ensures marked { AreMarked (T.candidate test.now text.now) from result.first result.done result.mask }
    ensures within { result.done ≤ length text.now }
    ensures ended { result.mask ≡ 0 → result.done ≡ length text.now }
{
    let reach = test.reach();
    if text.len() < reach + 63 {
        return short_bits(test, text, from);
    }
    let start = from.max(reach - 1);
    let bits = single_bits(test, text, from, start);
    if bits.mask != 0 {
        return bits;
    }
    wide_bits(test, text, start)
}

/// The first ends after a position that include one passed by the prefilter, or none at the end of the text. The test
/// is chosen here, before its loop over lanes.
fn prefilter_bits(prefilter: &Prefilter, text: &[u8], from: usize) -> EndBits
    requires { from ≤ length text.now }
    ensures marked { AreMarked (Passes prefilter.now text.now) from result.first result.done result.mask }
    ensures within { result.done ≤ length text.now }
    ensures ended { result.mask ≡ 0 → result.done ≡ length text.now }
{
    match prefilter {
        Prefilter::Nibbles(masks) => next_bits(&Nibbles::new(masks), text, from),
        Prefilter::TwoNibbles(first, last) => two_nibbles_bits(first, last, text, from),
        Prefilter::OneByte(byte) => next_bits(byte, text, from),
        Prefilter::OneExactByte(byte) => next_bits(byte, text, from),
        Prefilter::OneTriple(triple) => next_bits(triple, text, from),
        Prefilter::OneExactTriple(triple) => next_bits(triple, text, from),
        Prefilter::TwoPairs(two) => next_bits(two, text, from),
        Prefilter::TwoExactPairs(two) => next_bits(two, text, from),
        Prefilter::ThreePairs(three) => next_bits(three, text, from),
        Prefilter::ThreeExactPairs(three) => next_bits(three, text, from),
    }
}

/// As `prefilter_bits`, by the tables of more than eight buckets. It stands alone because a function clears room for
/// all its tables when it begins, and these take the most.
#[inline(never)]
fn two_nibbles_bits(first: &ByteMasks, last: &ByteMasks, text: &[u8], from: usize) -> EndBits
    requires { from ≤ length text.now }
    ensures marked { AreMarked (IsCandidateOfTwo first.now last.now text.now) from result.first result.done result.mask }
    ensures within { result.done ≤ length text.now }
    ensures ended { result.mask ≡ 0 → result.done ≡ length text.now }
{
    let two = AnyOf {
        one: Nibbles::new(first),
        other: Nibbles::new(last),
    };
    next_bits(&two, text, from)
}

/// The positions of a text at which an occurrence may end, in order. A contract sees the prefilter, the text, and the
/// last end returned.
#[derive(Drop)]
pub struct Candidates<'a> {
    prefilter: &'a Prefilter,
    text: &'a [u8],
    from: usize,
    ends: EndBits,
}

impl<'a> Model for Candidates<'a> {
    ghost use Rattle.lane_filter.specs.Cursors.{Cursor};

    ghost Value = { Cursor };

    ghost use Rattle.lane_filter.specs.CursorViews.{cursor_of, IsReady};

    ghost view = { cursor_of };

    ghost invariant = { IsReady };
}

impl<'a> Candidates<'a> {
    /// The candidates of the text after a position. It reads nothing yet.
    #[inline]
    pub fn new(prefilter: &'a Prefilter, text: &'a [u8], from: usize) -> Candidates<'a>
        requires { from ≤ length text.now }
        ensures prefilter { result.prefilter ≡ prefilter.now }
        ensures text { result.text ≡ text.now }
        ensures from { result.from ≡ from }
    {
        Candidates {
            prefilter,
            text,
            from,
            ends: EndBits {
                first: from,
                mask: 0,
                done: from,
            },
        }
    }

    /// The first candidate after the last one returned, or `None` if there is no more.
    #[inline(always)]
    pub fn next(&mut self) -> Option<usize>
        ensures prefilter { self.new.prefilter ≡ self.old.prefilter }
        ensures text { self.new.text ≡ self.old.text }
        ensures first { IfSome result (IsFirstAfter (Passes self.old.prefilter self.old.text) self.old.from) }
        ensures within { IfSome result (λ end. end ≤ length self.old.text) }
        ensures moved { IfSome result (λ end. self.new.from ≡ end) }
        ensures none { IfNone result (NoneWithin (Passes self.old.prefilter self.old.text) self.old.from
            (length self.old.text)) }
        ensures stays { IfNone result (self.new.from ≡ self.old.from) }
    {
        if self.ends.mask == 0 {
            if self.ends.done == self.text.len() {
                return None;
            }
            self.ends = prefilter_bits(self.prefilter, self.text, self.ends.done);
            if self.ends.mask == 0 {
                return None;
            }
        }
        let (bit, rest) = split_lowest(self.ends.mask);
        self.ends.mask = rest;
        self.from = self.ends.first + bit;
        Some(self.from)
    }

    /// Continues after a position of the text, as if it were the last candidate returned. Everything known of later
    /// positions stays known.
    #[inline]
    pub fn skip_to(&mut self, place: usize)
        requires { place ≤ length self.old.text }
        ensures prefilter { self.new.prefilter ≡ self.old.prefilter }
        ensures text { self.new.text ≡ self.old.text }
        ensures from { self.new.from ≡ place }
    {
        if self.from <= place && place < self.ends.done {
            let passed = (place + 1).saturating_sub(self.ends.first);
            if passed < 64 {
                self.ends.mask = from_bit(self.ends.mask, passed);
                self.from = place;
                return;
            }
        }
        *self = Candidates::new(self.prefilter, self.text, place);
    }
}
