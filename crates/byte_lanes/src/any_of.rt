//! The test of ends that passes what either of two tests passes.
use crate::byte_turns::Turn;
use crate::end_test::EndTest;

/// Two tests of ends, joined: it passes what either passes.
#[derive(Clone, Copy, Debug, PartialEq, Eq)]
pub struct AnyOf<A, B> {
    /// The first test.
    pub one: A,
    /// The second test.
    pub other: B,
}

impl<A: EndTest, B: EndTest> EndTest for AnyOf<A, B> {
    ghost use Rattle.std.specs.Prelude.{max, ◌⊎◌};

    ghost candidate = { λ s text end. A.candidate s.one text end ⊎ B.candidate s.other text end };

    ghost reaches = { λ s. max (A.reaches s.one) (B.reaches s.other) };

    fn reach(&self) -> usize {
        self.one.reach().max(self.other.reach())
    }

    fn is_candidate(&self, text: &[u8], end: usize) -> bool {
        self.one.is_candidate(text, end) || self.other.is_candidate(text, end)
    }

    fn local_law(&self, text: &[u8], longer: &[u8]) {
        self.one.local_law(text, longer);
        self.other.local_law(text, longer);
    }

    #[inline(always)]
    fn may_pass(&self, text: &[u8], first: usize) -> bool {
        self.one.may_pass(text, first) || self.other.may_pass(text, first)
    }

    #[inline(always)]
    fn may_hold(&self, turn: Turn, text: &[u8], first: usize) -> bool {
        self.one.may_hold(turn, text, first) || self.other.may_hold(turn, text, first)
    }

    #[inline(always)]
    fn passing(&self, text: &[u8], first: usize) -> u64 {
        self.one.passing(text, first) | self.other.passing(text, first)
    }
}
