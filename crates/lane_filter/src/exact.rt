//! Tests of ends by case-sensitive bytes, compared without the bits of case.
ghost use Rattle.std.specs.Prelude.{◌≡◌, ◌↔◌, Bool, IsSome, IfSome, IsTrue};

use byte_lanes::{AllOf, EndTest, Turn};
use std::alloc::AllocError;
use std::simd::prelude::*;

/// A test of ends by bytes of a literal.
pub trait ByteTest: EndTest + Copy {
    ghost counts_case: { Self → Bool };

    /// Whether the case of all bytes counts.
    fn is_exact(&self) -> bool
        ensures { result ≡ counts_case self.now };

    /// The bytes, which are case-sensitive, with bits of case that are known to be none. That costs nothing. Without
    /// these bits a search is a quarter faster.
    fn without_case_bits(&self) -> Self
        requires { IsTrue (counts_case self.now) }
        ensures { result ≡ self.now };
}

impl<A: ByteTest, B: ByteTest> ByteTest for AllOf<A, B> {
    ghost use Rattle.std.specs.Prelude.{◌&&◌};

    ghost counts_case = { λ s. A.counts_case s.one && B.counts_case s.other };

    #[inline(always)]
    fn is_exact(&self) -> bool {
        self.one.is_exact() && self.other.is_exact()
    }

    #[inline(always)]
    fn without_case_bits(&self) -> AllOf<A, B> {
        AllOf {
            one: self.one.without_case_bits(),
            other: self.other.without_case_bits(),
        }
    }
}

/// A test by case-sensitive bytes, compared without the bits of case.
#[derive(Copy, Debug, PartialEq, Eq)]
pub struct Exact<T: ByteTest> {
    test: T,
    ghost exact: { IsTrue (T.counts_case test) },
}

impl<T: ByteTest> Exact<T> {
    /// The test, if the case of all its bytes counts.
    pub(crate) fn of(test: T) -> Option<Exact<T>>
        ensures exact { IsSome result ↔ IsTrue (T.counts_case test) }
        ensures same { IfSome result (λ exact. exact.test ≡ test) }
    {
        if test.is_exact() {
            Some(Exact { test })
        } else {
            None
        }
    }
}

impl<T: ByteTest> Clone for Exact<T> {
    ghost use Rattle.std.specs.Prelude.{◌≡◌, ⊤};

    ghost is_clone = { λ s r. r ≡ s };

    ghost is_infallible = { λ _. ⊤ };

    fn clone(&self) -> Result<Exact<T>, AllocError> {
        Ok(*self)
    }
}

impl<T: ByteTest> EndTest for Exact<T> {
    ghost candidate = { λ s. T.candidate s.test };

    ghost reaches = { λ s. T.reaches s.test };

    fn reach(&self) -> usize {
        self.test.reach()
    }

    fn is_candidate(&self, text: &[u8], end: usize) -> bool {
        self.test.is_candidate(text, end)
    }

    fn local_law(&self, text: &[u8], longer: &[u8]) {
        self.test.local_law(text, longer);
    }

    #[inline(always)]
    fn lanes(&self, text: &[u8], first: usize) -> u8x32 {
        self.test.without_case_bits().lanes(text, first)
    }

    #[inline(always)]
    fn may_hold(&self, turn: Turn, text: &[u8], first: usize) -> bool {
        self.test.without_case_bits().may_hold(turn, text, first)
    }

    #[inline(always)]
    fn passing(&self, text: &[u8], first: usize) -> u64 {
        self.test.without_case_bits().passing(text, first)
    }
}
