//! Pending ends: the positions at which a literal may end, found by probes of a block of a text.
//!
//! A probe at a position returns hash bits. If bit k is set, a literal whose factor ends at the probe may end k
//! positions further on, with k from 0 to 7. The bits of all probes of a block are combined in one word, without a
//! branch on the result.
ghost use Rattle.std.specs.Prelude.{ℕ, ◌+◌, ◌-◌, ◌<◌, ◌≤◌, length};
ghost use Rattle.lit_base.specs.NextEnds.{NoEndUpTo};
ghost use Rattle.factor_search.specs.PendingEnds.{ArePending, ArePassing};
ghost use Rattle.factor_search.specs.declared.probing.TheConstants.{BLOCK};

use crate::factors::Factors;
use lane_filter::{EndTest, Nibbles, split_lowest};
use text_ends::Tally;

/// Positions in a block. A probe at the last of them has seven more bits, for which a word has room.
pub(crate) const BLOCK: usize = 56;

/// The bits of the positions of a block.
const BLOCK_BITS: u64 = 0x00ff_ffff_ffff_ffff;

/// Positions for which one step of the filter decides.
const STEP: usize = 64;

/// The filter reads three bytes before a position. Where a text has fewer, each position is probed.
const UNFILTERED: usize = 3;

/// The next block from `seen` on in which an end may be pending, or the last block. Returns the position before the
/// block, and the ends that are pending after it by `hash_bits` and by probes of the block. While no end is pending, it
/// skips blocks in which no position passes.
#[inline(always)]
pub(crate) fn next_pending(
    factors: &Factors,
    text: &[u8],
    seen: usize,
    hash_bits: u64,
    tally: &mut Tally,
) -> (usize, u64)
    requires { seen ≤ length text.now }
    ensures ahead { seen ≤ result.0 }
    ensures inside { result.0 ≤ length text.now }
    ensures none { (from : ℕ) → seen ≤ from
        → ArePending factors.now text.now from seen (seen + 1) hash_bits
        → NoEndUpTo factors.now.literals text.now from result.0 }
    ensures pending { (from : ℕ)
        → ArePending factors.now text.now from seen (seen + 1) hash_bits
        → ArePending factors.now text.now from result.0 (result.0 + BLOCK + 1) result.1 }
{
    if seen < UNFILTERED {
        return (seen, probe_each(factors, text, seen, hash_bits));
    }
    factors.within_law();
    let filter = Nibbles::new(factors.masks());
    let mut at = seen;
    'blocks: while text.len() - at >= STEP {
        let passing = filter.passing(text, at + 1);
        if passing | hash_bits != 0 {
            tally.pass(passing);
            return (at, probe_passing(factors, text, at, hash_bits, passing));
        }
        at += STEP;
    }
    (at, probe_each(factors, text, at, hash_bits))
}

/// As `probe_passing` near the start or the end of a text: at each of the next positions.
#[inline(never)]
fn probe_each(factors: &Factors, text: &[u8], seen: usize, hash_bits: u64) -> u64
    requires { seen ≤ length text.now }
    ensures { (from : ℕ)
        → ArePending factors.now text.now from seen (seen + 1) hash_bits
        → ArePending factors.now text.now from seen (seen + BLOCK + 1) result }
{
    let count = BLOCK.min(text.len() - seen);
    probe_passing(
        factors,
        text,
        seen,
        hash_bits,
        BLOCK_BITS >> (BLOCK - count),
    )
}

/// The pending ends of a block, by probes at the positions in `passing`.
#[inline(always)]
fn probe_passing(factors: &Factors, text: &[u8], seen: usize, hash_bits: u64, passing: u64) -> u64
    requires { ArePassing factors.now text.now seen passing }
    ensures { (from : ℕ)
        → ArePending factors.now text.now from seen (seen + 1) hash_bits
        → ArePending factors.now text.now from seen (seen + BLOCK + 1) result }
{
    factors.within_law();
    let mut found = hash_bits;
    let mut rest = passing & BLOCK_BITS;
    'places: while rest != 0 {
        let (back, others) = split_lowest(rest);
        let probed = factors.hash_bits_at(text, seen + 1 + back);
        found |= (probed as u64) << back;
        rest = others;
    }
    found
}
