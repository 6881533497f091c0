//! Tests of the positions of a text at which an occurrence may end, 64 of them at a time.
ghost use Rattle.std.specs.Prelude.{◌≡◌, ℕ, ◌+◌, ◌<◌, ◌≤◌, ◌↔◌, IsTrue, List, length};
ghost use Rattle.byte_lanes.specs.Prefixes.{IsPrefixOf};
ghost use Rattle.byte_lanes.specs.Lanes.{IsMaskOf, SetsLanes};

use crate::byte_turns::Turn;
use crate::lanes::any_lane_of;
use std::simd::prelude::*;

/// A test of ends.
pub trait EndTest {
    ghost candidate: { Self → List ℕ → ℕ → Type 0 };

    ghost reaches: { Self → ℕ };

    /// How many bytes before an end the test reads.
    fn reach(&self) -> usize
        ensures value { result ≡ reaches self.now }
        ensures some { 1 ≤ result }
        ensures near { result ≤ 256 };

    /// Whether an occurrence may end at a position of the text.
    fn is_candidate(&self, text: &[u8], end: usize) -> bool
        requires some { 1 ≤ end }
        requires within { end ≤ length text.now }
        ensures { IsTrue result ↔ candidate self.now text.now end };

    /// Bytes after an end do not matter: a longer text that begins with this one has the same candidates up to its end.
    fn local_law(&self, text: &[u8], longer: &[u8])
        requires { IsPrefixOf text.now longer.now }
        ensures { (end : ℕ) → end ≤ length text.now → candidate self.now text.now end ↔ candidate self.now longer.now end };

    /// 255 in each of 32 lanes where an occurrence may end, and perhaps in others: in all, if the test has no quick
    /// way.
    #[inline(always)]
    fn lanes(&self, text: &[u8], first: usize) -> u8x32
        requires after { reaches self.now ≤ first }
        requires within { first + 31 ≤ length text.now }
        ensures { SetsLanes (candidate self.now text.now) first result }
    {
        u8x32::splat(255)
    }

    /// Whether an occurrence may end at one of 128 positions. It returns false only if none can.
    #[inline(always)]
    fn may_pass(&self, text: &[u8], first: usize) -> bool
        requires after { reaches self.now ≤ first }
        requires within { first + 127 ≤ length text.now }
        ensures { (k : ℕ) → k < 128 → candidate self.now text.now (first + k) → IsTrue result }
    {
        any_lane_of(
            self.lanes(text, first),
            self.lanes(text, first + 32),
            self.lanes(text, first + 64),
            self.lanes(text, first + 96),
        )
    }

    /// As `may_pass`, by only one of up to three bytes of each literal: quicker, but true more often. Both are the same
    /// if `may_pass` compares one byte or none.
    #[inline(always)]
    fn may_hold(&self, turn: Turn, text: &[u8], first: usize) -> bool
        requires after { reaches self.now ≤ first }
        requires within { first + 127 ≤ length text.now }
        ensures { (k : ℕ) → k < 128 → candidate self.now text.now (first + k) → IsTrue result }
    {
        self.may_pass(text, first)
    }

    /// The positions among 64 at which an occurrence may end.
    fn passing(&self, text: &[u8], first: usize) -> u64
        requires after { reaches self.now ≤ first }
        requires within { first + 63 ≤ length text.now }
        ensures { IsMaskOf (candidate self.now text.now) first 64 result };
}
