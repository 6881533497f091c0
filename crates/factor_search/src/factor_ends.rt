//! Searches for ends by factors that were chosen from a sample.
ghost use Rattle.std.specs.Prelude.{◌≡◌, ℕ, ◌+◌, ◌-◌, ◌^◌, ◌<◌, ◌≤◌, IfSome, List, MatchOption, length};
ghost use Rattle.lit_base.specs.Occurrences.{IsFirstEnding};
ghost use Rattle.lit_base.specs.NextEnds.{IsNextEnd, NoEndAfter, NoEndUpTo};
ghost use Rattle.factor_search.specs.Factors.{Factored};
ghost use Rattle.factor_search.specs.PendingEnds.{ArePending, ArePendingEnds};
ghost use Rattle.factor_search.specs.declared.factor_ends.TheConstants.{REACH};

use crate::factors::Factors;
use crate::probing::{BLOCK, next_pending};
use crate::widths::OFFSETS;
use lane_filter::{below_bit, split_lowest};
use std::alloc::AllocError;
use std::marker::Model;
use text_ends::{EndWalk, Hit, Tally, add_hits_at};

/// Positions from a probe to the last end that its hash bits mark.
const REACH: usize = OFFSETS - 1;

/// The pending ends after a position. A search continues with them after each end that it finds.
#[derive(Clone, Copy)]
pub(crate) struct Pending {
    /// The search has passed the ends up to this position.
    pub seen: usize,
    /// How many positions after it are covered: a literal ends at one of them only if its bit is set.
    pub count: usize,
    /// Bit k stands for the end k + 1 positions after `seen`.
    pub hash_bits: u64,
}

impl Pending {
    /// The pending ends of a search after `from`. It takes no memory.
    pub fn after(factors: &Factors, text: &[u8], from: usize, tally: &mut Tally) -> Pending
        requires { from ≤ length text.now }
        ensures state { ArePendingEnds factors.now text.now result.seen result }
        ensures ahead { from ≤ result.seen }
        ensures none { NoEndUpTo factors.now.literals text.now from result.seen }
    {
        factors.within_law();
        let start = from.saturating_sub(REACH);
        let nothing = Pending {
            seen: start,
            count: 0,
            hash_bits: 0,
        };
        nothing.next_block(factors, text, from, tally)
    }

    /// The pending ends without the first `count` positions.
    #[inline(always)]
    fn but_first(self, count: usize) -> Pending
        requires within { count ≤ self.count }
        requires few { count < 64 }
        requires room { self.seen + count < 2 ^ 64 }
        ensures seen { result.seen ≡ self.seen + count }
        ensures count { result.count ≡ self.count - count }
        ensures state { (w : Factored) (text : List ℕ) (from : ℕ) → ArePendingEnds w text from self → from ≤ self.seen + count
            → ArePendingEnds w text result.seen result }
    {
        Pending {
            seen: self.seen + count,
            count: self.count - count,
            hash_bits: self.hash_bits >> count,
        }
    }

    /// Returns the next end after `seen`, with the first literal that ends there, or `None`. Moves `seen` to this end.
    /// Adds the pending ends of each new block to `tally`. It takes no memory.
    #[inline(never)]
    pub fn next_verified(
        &mut self,
        factors: &Factors,
        text: &[u8],
        tally: &mut Tally,
    ) -> Option<(usize, usize)>
        requires state { ArePendingEnds factors.now text.now self.old.seen self.old }
        ensures state { ArePendingEnds factors.now text.now self.new.seen self.new }
        ensures next { MatchOption result
            (NoEndAfter factors.now.literals text.now self.old.seen)
            (λ found. IsNextEnd factors.now.literals text.now self.old.seen found.0) }
        ensures first { IfSome result (λ found. IsFirstEnding factors.now.literals text.now 0 found.0 found.1) }
        ensures seen { IfSome result (λ found. self.new.seen ≡ found.0) }
        ensures ahead { self.old.seen ≤ self.new.seen }
    {
        let mut state = *self;
        'blocks: loop {
            if let Some(found) = state.first_end(factors, text) {
                *self = state.but_first(found.0 - state.seen);
                tally.hit();
                return Some(found);
            }
            if text.len() - state.seen == state.count {
                *self = state;
                return None;
            }
            let rest = state.but_first(state.count);
            state = rest.next_block(factors, text, rest.seen, tally);
        }
    }

    /// The first pending end at which some literal ends, with the first such literal.
    #[inline(always)]
    fn first_end(self, factors: &Factors, text: &[u8]) -> Option<(usize, usize)>
        requires state { ArePendingEnds factors.now text.now self.seen self }
        ensures next { MatchOption result
            (NoEndUpTo factors.now.literals text.now self.seen (self.seen + self.count))
            (λ found. IsNextEnd factors.now.literals text.now self.seen found.0) }
        ensures within { IfSome result (λ found. found.0 ≤ self.seen + self.count) }
        ensures first { IfSome result (λ found. IsFirstEnding factors.now.literals text.now 0 found.0 found.1) }
    {
        let index = factors.index();
        let mut rest = self.hash_bits;
        while rest != 0 {
            let (back, others) = split_lowest(rest);
            if back >= self.count {
                return None;
            }
            let end = self.seen + 1 + back;
            if let Some(first) = index.next_ending(text, end, 0) {
                return Some((end, first));
            }
            rest = others;
        }
        None
    }

    /// The pending ends after `from`, of the next block in which there may be some. The block is at `seen` or further
    /// on.
    #[inline(always)]
    fn next_block(self, factors: &Factors, text: &[u8], from: usize, tally: &mut Tally) -> Pending
        requires state { ArePending factors.now text.now from self.seen (self.seen + 1) self.hash_bits }
        requires ahead { self.seen ≤ from }
        requires near { from ≤ self.seen + REACH }
        requires inside { from ≤ length text.now }
        ensures state { ArePendingEnds factors.now text.now result.seen result }
        ensures ahead { from ≤ result.seen }
        ensures some { from < length text.now → from < result.seen + result.count }
        ensures none { NoEndUpTo factors.now.literals text.now from result.seen }
    {
        let (seen, hash_bits) = next_pending(factors, text, self.seen, self.hash_bits, tally);
        let block = Pending {
            seen,
            count: BLOCK.min(text.len() - seen),
            hash_bits,
        };
        let rest = block.but_first(from.saturating_sub(seen));
        tally.pending(below_bit(rest.hash_bits, rest.count));
        rest
    }
}

/// The ends in a text, found by factors.
#[derive(Drop)]
pub struct FactorEnds<'a> {
    factors: &'a Factors,
    text: &'a [u8],
    /// The last end found, or where the search began. Nothing ends after it before the pending ends.
    from: usize,
    state: Pending,
    tally: Tally,
}

impl<'a> Model for FactorEnds<'a> {
    ghost use Rattle.std.specs.Prelude.{◌≡◌, ◌≤◌};
    ghost use Rattle.lit_base.specs.NextEnds.{NoEndUpTo};
    ghost use Rattle.text_ends.specs.Walks.{Walk};
    ghost use Rattle.factor_search.specs.PendingEnds.{ArePendingEnds};

    ghost Value = { Walk };

    ghost view = { λ w. record { literals = w.factors.now.literals; text = w.text.now; from = w.from } };

    ghost invariant = { λ w. ArePendingEnds w.factors.now w.text.now w.state.seen w.state
        × (w.from ≤ w.state.seen)
        × NoEndUpTo w.factors.now.literals w.text.now w.from w.state.seen };
}

impl<'a> FactorEnds<'a> {
    /// The ends after a position. Positions at which no literal can end yet are passed over.
    #[inline]
    pub fn after(factors: &'a Factors, text: &'a [u8], from: usize) -> FactorEnds<'a>
        requires { from ≤ length text.now }
        ensures { result ≡ record { literals = factors.now.literals; text = text.now; from = from } }
    {
        let mut tally = Tally::nothing();
        let start = factors.index().skip_short_ends(from).min(text.len());
        let state = Pending::after(factors, text, start, &mut tally);
        FactorEnds {
            factors,
            text,
            from,
            state,
            tally,
        }
    }

    /// The counters so far.
    pub fn tally(&self) -> Tally {
        self.tally
    }
}

impl<'a> EndWalk for FactorEnds<'a> {
    ghost walk = { λ w. w };

    ghost identifies = { λ w end first. IsFirstEnding w.literals w.text 0 end first };

    #[inline(always)]
    fn next_end(&mut self) -> Option<(usize, usize)> {
        let found = self
            .state
            .next_verified(self.factors, self.text, &mut self.tally);
        self.from = self.state.seen;
        found
    }

    #[inline(always)]
    fn add_hits_at(
        &self,
        end: usize,
        first: usize,
        at: u64,
        out: &mut Vec<Hit>,
    ) -> Result<(), AllocError> {
        add_hits_at(self.factors.index(), self.text, end, first, at, out)
    }
}
