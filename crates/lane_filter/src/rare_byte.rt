//! A byte of a literal that is rare in usual text: where it does not stand, the literal does not end.
ghost use Rattle.std.specs.Prelude.{◌≡◌, ℕ, ◌+◌, ◌<◌, ◌≤◌, IfSome, IsSome, ◌↔◌, List, length, slice_index};
ghost use Rattle.lane_filter.specs.RareBytes.{IsEndOfByte, IsOnlyByteOf, IsRareByteOf, case_bit};
ghost use Rattle.lit_base.specs.declared.fold.Fold.{Fold};
ghost use Rattle.lit_base.specs.Literals.{lengths};
ghost use Rattle.lit_base.specs.Occurrences.{Occurs};

use crate::exact::ByteTest;
use byte_lanes::{EndTest, equal_bits, load, load_64, value_where, with_bits};
use lit_base::{Fold, LitList};
use std::simd::prelude::*;

/// A byte of a literal, and where it stands before an end.
#[derive(Clone, Copy, Debug, PartialEq, Eq)]
pub struct RareByte {
    byte: u8,
    /// The bit of case of a letter whose case does not count, otherwise 0.
    case_bit: u8,
    /// How many bytes stand between it and the end.
    pub(crate) after: u8,
}

impl RareByte {
    /// The byte at a place of a folded literal.
    pub(crate) fn at(fold: Fold, literal: &[u8], place: usize) -> RareByte
        requires within { place < length literal.now }
        requires near { length literal.now ≤ place + 256 }
        ensures { IsRareByteOf fold literal.now place result }
    {
        let byte = literal[place];
        RareByte {
            byte,
            case_bit: case_bit(fold, byte),
            after: (literal.len() - place - 1) as u8,
        }
    }

    /// The byte of the literal at a place, if it has no other. It stands before each end of it.
    pub(crate) fn only_of(list: &LitList, place: usize) -> Option<RareByte>
        requires { place < length list.now.texts }
        ensures alone { IsSome result ↔ slice_index (lengths list.now) place ≡ 1 }
        ensures byte { IfSome result (IsOnlyByteOf list.now place) }
        ensures stands { IfSome result (λ one. (text : List ℕ) (end : ℕ) → Occurs list.now text place end
            → IsEndOfByte one text end) }
    {
        let literal = list.get(place);
        if literal.len() != 1 {
            return None;
        }
        Some(RareByte::at(list.fold(), literal, 0))
    }
}

impl EndTest for RareByte {
    ghost use Rattle.std.specs.Prelude.{◌+◌};
    ghost use Rattle.lane_filter.specs.RareBytes.{IsEndOfByte};

    ghost candidate = { IsEndOfByte };

    ghost reaches = { λ rare. rare.after + 1 };

    fn reach(&self) -> usize {
        usize::from(self.after) + 1
    }

    fn is_candidate(&self, text: &[u8], end: usize) -> bool {
        self.reach() <= end && text[end - self.reach()] | self.case_bit == self.byte
    }

    fn local_law(&self, text: &[u8], longer: &[u8]) {}

    #[inline(always)]
    fn lanes(&self, text: &[u8], first: usize) -> u8x32 {
        let bytes = load(text, first - 1 - usize::from(self.after));
        value_where(with_bits(bytes, self.case_bit), self.byte, 255)
    }

    #[inline(always)]
    fn passing(&self, text: &[u8], first: usize) -> u64 {
        let bytes = load_64(text, first - 1 - usize::from(self.after));
        equal_bits(bytes, self.case_bit, self.byte)
    }
}

impl ByteTest for RareByte {
    ghost use Rattle.std.specs.Prelude.{◌==◌};

    ghost counts_case = { λ rare. rare.case_bit == 0 };

    #[inline(always)]
    fn is_exact(&self) -> bool {
        self.case_bit == 0
    }

    #[inline(always)]
    fn without_case_bits(&self) -> RareByte {
        RareByte {
            case_bit: 0,
            ..*self
        }
    }
}

/// The bit of case of a folded byte: 32 for a letter whose case does not count, otherwise 0.
fn case_bit(fold: Fold, byte: u8) -> u8
    ensures { result ≡ case_bit fold byte }
{
    match fold {
        Fold::Ascii if byte.is_ascii_lowercase() => 32,
        _ => 0,
    }
}
