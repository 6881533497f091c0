//! Positions of a text up to which no literal can end, found by 128 ends at once.
ghost use Rattle.std.specs.Prelude.{ℕ, ◌+◌, ◌<◌, ◌≤◌, IsTrue, length};
ghost use Rattle.byte_lanes.specs.PlacesAfter.{NoneWithin};

use crate::byte_turns::{ByteTurns, Turn};
use crate::end_test::EndTest;
use crate::tuning::SHORT_RANGE;

/// The number of ends tested together.
const BLOCK: usize = 128;

/// A position up to which there is no candidate after `from`.
#[inline(always)]
pub fn skip_unmarked<T: EndTest>(test: &T, text: &[u8], from: usize) -> usize
    requires after { T.reaches test.now ≤ from + 1 }
    requires within { from ≤ length text.now }
    ensures after { from ≤ result }
    ensures within { result ≤ length text.now }
    ensures quiet { NoneWithin (T.candidate test.now text.now) from result }
{
    let near = if text.len() - from > SHORT_RANGE {
        from + SHORT_RANGE
    } else {
        text.len()
    };
    let seen = skip_blocks(test, None, text, from, near);
    // The compiler sees that a test by tables always passes here, and drops the long search.
    if near - seen >= BLOCK || text.len() - seen < BLOCK || test.may_pass(text, seen + 1) {
        return seen;
    }
    skip_long_range(test, text, seen)
}

/// A position up to which there is no candidate after `from`. One byte of each literal is searched for alone, and the
/// block at which it stops is searched by all bytes. Where each byte turns out to be common, so is a longer piece of
/// the text.
#[inline(never)]
fn skip_long_range<T: EndTest>(test: &T, text: &[u8], from: usize) -> usize
    requires after { T.reaches test.now ≤ from + 1 }
    requires within { from ≤ length text.now }
    ensures after { from ≤ result }
    ensures within { result ≤ length text.now }
    ensures quiet { NoneWithin (T.candidate test.now text.now) from result }
{
    let mut turns = ByteTurns::new();
    let mut seen = from;
    while text.len() - seen >= BLOCK {
        let stop = skip_blocks(test, Some(turns.turn()), text, seen, text.len());
        if text.len() - stop < BLOCK {
            return stop;
        }
        turns.note((stop - seen) / BLOCK);
        let to = text.len().min((stop + BLOCK).saturating_add(turns.wait()));
        seen = skip_blocks(test, None, text, stop, to);
        if to - seen >= BLOCK {
            return seen;
        }
    }
    seen
}

/// A position up to which there is no candidate after `from`, at most `to`: by one byte of each literal, or by all
/// bytes that the test reads. LLVM makes a loop of each turn.
#[inline(always)]
fn skip_blocks<T: EndTest>(
    test: &T,
    turn: Option<Turn>,
    text: &[u8],
    from: usize,
    to: usize,
) -> usize
    requires after { T.reaches test.now ≤ from + 1 }
    requires ordered { from ≤ to }
    requires inside { to ≤ length text.now }
    ensures after { from ≤ result }
    ensures within { result ≤ to }
    ensures quiet { NoneWithin (T.candidate test.now text.now) from result }
{
    let mut seen = from;
    while to - seen >= BLOCK && !may_end(test, turn, text, seen + 1) {
        seen += BLOCK;
    }
    seen
}

/// Whether an occurrence may end at one of 128 positions, by one byte of each literal or by all.
#[inline(always)]
fn may_end<T: EndTest>(test: &T, turn: Option<Turn>, text: &[u8], first: usize) -> bool
    requires after { T.reaches test.now ≤ first }
    requires within { first + 127 ≤ length text.now }
    ensures { (k : ℕ) → k < 128 → T.candidate test.now text.now (first + k) → IsTrue result }
{
    match turn {
        Some(turn) => test.may_hold(turn, text, first),
        None => test.may_pass(text, first),
    }
}
