//! The test of ends that passes what both of two tests pass.
use crate::byte_turns::Turn;
use crate::end_test::EndTest;
use crate::lanes::both;
use std::simd::prelude::*;

/// Two tests of ends, joined: it passes what both pass. In its turns it looks for what the first test reads, and then
/// for what the other does.
#[derive(Clone, Copy, Debug, PartialEq, Eq)]
pub struct AllOf<A, B> {
    /// The test whose byte has the first turn.
    pub one: A,
    /// The test whose bytes have the later turns.
    pub other: B,
}

impl<A: EndTest, B: EndTest> EndTest for AllOf<A, B> {
    ghost use Rattle.std.specs.Prelude.{max};

    ghost candidate = { λ s text end. A.candidate s.one text end × B.candidate s.other text end };

    ghost reaches = { λ s. max (A.reaches s.one) (B.reaches s.other) };

    fn reach(&self) -> usize {
        self.one.reach().max(self.other.reach())
    }

    fn is_candidate(&self, text: &[u8], end: usize) -> bool {
        self.one.is_candidate(text, end) && self.other.is_candidate(text, end)
    }

    fn local_law(&self, text: &[u8], longer: &[u8]) {
        self.one.local_law(text, longer);
        self.other.local_law(text, longer);
    }

    #[inline(always)]
    fn lanes(&self, text: &[u8], first: usize) -> u8x32 {
        both(self.one.lanes(text, first), self.other.lanes(text, first))
    }

    #[inline(always)]
    fn may_hold(&self, turn: Turn, text: &[u8], first: usize) -> bool {
        match turn {
            Turn::First => self.one.may_hold(turn, text, first),
            Turn::Second | Turn::Third => self.other.may_hold(turn.before(), text, first),
        }
    }

    #[inline(always)]
    fn passing(&self, text: &[u8], first: usize) -> u64 {
        self.one.passing(text, first) & self.other.passing(text, first)
    }
}
