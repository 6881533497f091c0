//! Finding the states with output among the states that were read.
ghost use Rattle.std.specs.Prelude.{ℕ, ◌+◌, ◌<◌, ◌≤◌, length, slice_index};
ghost use Rattle.text_automaton.specs.declared.reporting.TheConstants.{STATES};

use std::simd::prelude::*;

/// The number of states compared at once.
pub(crate) const STATES: usize = 32;

/// The index of the first state from `from` on that has an output, so is `quiet` or above; `count` if there is none.
/// There is room to compare some states after `count` too.
#[inline(always)]
pub(crate) fn first_reporting(states: &[u16], from: usize, count: usize, quiet: usize) -> usize
    requires from { from ≤ count }
    requires room { count + STATES ≤ length states.now }
    ensures after { from ≤ result }
    ensures within { result ≤ count }
    ensures none { (at : ℕ) → from ≤ at → at < result → slice_index states.now at < quiet }
    ensures reporting { result < count → quiet ≤ slice_index states.now result }
{
    if quiet > 65535 {
        return count;
    }
    let mut at = from;
    'chunks: while at < count {
        let skipped = count_quiet(states, at, quiet as u16);
        if skipped < STATES {
            return count.min(at + skipped);
        }
        at += STATES;
    }
    count
}

/// How many of the next `STATES` states have no output, up to the first that has.
#[inline(always)]
fn count_quiet(states: &[u16], at: usize, quiet: u16) -> usize
    requires { at + STATES ≤ length states.now }
    ensures few { result ≤ STATES }
    ensures none { (k : ℕ) → k < result → slice_index states.now (at + k) < quiet }
    ensures reporting { result < STATES → quiet ≤ slice_index states.now (at + result) }
{
    let bits = u16x32::from_slice(&states[at..])
        .simd_lt(u16x32::splat(quiet))
        .to_bitmask();
    bits.trailing_ones() as usize
}
