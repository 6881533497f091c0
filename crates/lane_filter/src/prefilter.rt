//! The prefilter of a list: the positions of a text at which a literal may end.
ghost use Rattle.std.specs.Prelude.{◌≡◌, ℕ, List, length};
ghost use Rattle.lit_base.specs.Cuts.{IsCut};
ghost use Rattle.lit_base.specs.Literals.{Literals};
ghost use Rattle.nib_mask.specs.Candidates.{CoversBy, GivesFilterSets};
ghost use Rattle.lane_filter.specs.Prefilters.{AreThreePairs, AreTwoPairs, IsOneTriple, IsOnlyByte, IsPrefilterOf, Passes};

use crate::exact::Exact;
use crate::pair::{BytePair, pair_of};
use crate::rare_byte::RareByte;
use crate::triple::{ByteTriple, triple_of};
use byte_lanes::AnyOf;
use lit_base::{Ends, LitList};
use nib_mask::{ByteMasks, Masks};

/// A prefilter: it passes the positions of a text at which a literal may end. Each kind is searched by a loop of its
/// own.
#[derive(Clone, Copy, Debug)]
pub enum Prefilter {
    /// The tables of a filter of at most eight buckets, for any number of literals.
    Nibbles(ByteMasks),
    /// The tables of the first eight buckets, and the tables of the other buckets.
    TwoNibbles(ByteMasks, ByteMasks),
    /// The only byte of the only literal.
    OneByte(RareByte),
    /// The only byte of the only literal, case-sensitive.
    OneExactByte(Exact<RareByte>),
    /// Three bytes of the only literal.
    OneTriple(ByteTriple),
    /// Three bytes of the only literal, case-sensitive.
    OneExactTriple(Exact<ByteTriple>),
    /// Two bytes of each of two literals.
    TwoPairs(AnyOf<BytePair, BytePair>),
    /// Two bytes of each of two literals, case-sensitive.
    TwoExactPairs(AnyOf<Exact<BytePair>, Exact<BytePair>>),
    /// Two bytes of each of three literals.
    ThreePairs(AnyOf<BytePair, AnyOf<BytePair, BytePair>>),
    /// Two bytes of each of three literals, case-sensitive.
    ThreeExactPairs(AnyOf<Exact<BytePair>, AnyOf<Exact<BytePair>, Exact<BytePair>>>),
}

impl Prefilter {
    /// The prefilter that suits the literals of a list, where each run of the cut is a bucket.
    pub fn of(list: &LitList, ends: &Ends) -> Prefilter
        requires { IsCut 16 (length list.now.texts) ends.now.items }
        ensures prefilter { IsPrefilterOf list.now ends.now.items result }
        ensures covers { CoversBy list.now (Passes result) }
    {
        list.normal_law();
        match list.len() {
            1 => match RareByte::only_of(list, 0) {
                Some(byte) => Prefilter::of_byte(byte),
                None => Prefilter::of_one(triple_of(list, 0)),
            },
            2 => Prefilter::of_two(pair_of(list, 0), pair_of(list, 1)),
            3 => Prefilter::of_three(pair_of(list, 0), pair_of(list, 1), pair_of(list, 2)),
            _ => Prefilter::of_masks(&Masks::of(list, ends), ends.len()),
        }
    }

    /// By the tables of `buckets` buckets.
    fn of_masks(masks: &Masks, buckets: usize) -> Prefilter
        ensures { (l : Literals) (ends : List ℕ) → length ends ≡ buckets → GivesFilterSets l ends masks.now
            → IsPrefilterOf l ends result }
    {
        if buckets <= 8 {
            Prefilter::Nibbles(masks.first_eight())
        } else {
            Prefilter::TwoNibbles(masks.first_eight(), masks.last_eight())
        }
    }

    /// By the only byte of the only literal.
    fn of_byte(one: RareByte) -> Prefilter
        ensures { (l : Literals) (ends : List ℕ) → IsOnlyByte l one → IsPrefilterOf l ends result }
    {
        match Exact::of(one) {
            Some(exact) => Prefilter::OneExactByte(exact),
            None => Prefilter::OneByte(one),
        }
    }

    /// By three bytes of the only literal.
    fn of_one(triple: ByteTriple) -> Prefilter
        ensures { (l : Literals) (ends : List ℕ) → IsOneTriple l triple → IsPrefilterOf l ends result }
    {
        match Exact::of(triple) {
            Some(exact) => Prefilter::OneExactTriple(exact),
            None => Prefilter::OneTriple(triple),
        }
    }

    /// By a pair of each of two literals.
    fn of_two(one: BytePair, other: BytePair) -> Prefilter
        ensures { (l : Literals) (ends : List ℕ) → AreTwoPairs l one other → IsPrefilterOf l ends result }
    {
        match (Exact::of(one), Exact::of(other)) {
            (Some(one), Some(other)) => Prefilter::TwoExactPairs(AnyOf { one, other }),
            _ => Prefilter::TwoPairs(AnyOf { one, other }),
        }
    }

    /// By a pair of each of three literals.
    fn of_three(one: BytePair, two: BytePair, three: BytePair) -> Prefilter
        ensures { (l : Literals) (ends : List ℕ) → AreThreePairs l one two three
            → IsPrefilterOf l ends result }
    {
        match (Exact::of(one), Exact::of(two), Exact::of(three)) {
            (Some(one), Some(two), Some(three)) => Prefilter::ThreeExactPairs(AnyOf {
                one,
                other: AnyOf {
                    one: two,
                    other: three,
                },
            }),
            _ => Prefilter::ThreePairs(AnyOf {
                one,
                other: AnyOf {
                    one: two,
                    other: three,
                },
            }),
        }
    }
}
