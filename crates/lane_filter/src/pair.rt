//! Two bytes of a literal that are rare in usual text: where not both stand, it does not end.
ghost use Rattle.std.specs.Prelude.{◌≡◌, ◌≢◌, ℕ, ◌+◌, ◌-◌, ◌^◌, ◌<◌, ◌≤◌, IfSome, List, length, slice_index};
ghost use Rattle.lane_filter.specs.Pairs.{AreUnlike, IsPairEnd, IsPairOf};
ghost use Rattle.lit_base.specs.Occurrences.{Occurs};

use crate::rare_byte::RareByte;
use byte_lanes::AllOf;
use lit_base::{Fold, LitList};
use memchr::arch::all::packedpair::{DefaultFrequencyRank, HeuristicFrequencyRank};

/// How many of a literal's last bytes a pair, and a third byte, are chosen from. Ends nearer to a text's start are
/// tested one by one.
pub(crate) const CHOSEN_FROM: usize = 256;

/// Two bytes of a literal, the first of them as rare as any. They are one if it has no other.
pub type BytePair = AllOf<RareByte, RareByte>;

/// The two rarest of the last bytes of the literal at a place, by their frequency in usual text. They stand at two
/// places if the literal is longer than one byte, and differ if its last bytes do. They stand before each end of the
/// literal.
pub fn pair_of(list: &LitList, place: usize) -> BytePair
    requires { place < length list.now.texts }
    ensures pair { IsPairOf list.now place result }
    ensures stands { (text : List ℕ) (end : ℕ) → Occurs list.now text place end → IsPairEnd result text end }
{
    list.normal_law();
    let (fold, literal) = (list.fold(), list.get(place));
    let first = rarest(fold, literal, None);
    let second = rarest(fold, literal, Some(first));
    AllOf {
        one: RareByte::at(fold, literal, first),
        other: RareByte::at(fold, literal, second),
    }
}

/// The place of the rarest of a folded literal's last bytes. With a place chosen before, it is another place if there
/// is one, and has another byte if there is one.
fn rarest(fold: Fold, literal: &[u8], chosen: Option<usize>) -> usize
    requires some { 0 < length literal.now }
    requires chosen { IfSome chosen (λ first. first < length literal.now) }
    ensures within { result < length literal.now }
    ensures near { length literal.now ≤ result + 256 }
    ensures apart { IfSome chosen (λ first. 2 ≤ length literal.now → first ≢ result) }
    ensures unlike { IfSome chosen (λ first. AreUnlike literal.now first result) }
{
    let start = literal.len().saturating_sub(CHOSEN_FROM);
    let (mut least, mut found) = (u16::MAX, start);
    for place in start..literal.len() {
        let cost = cost_of(fold, literal, place, chosen);
        if cost < least {
            (least, found) = (cost, place);
        }
    }
    found
}

/// The cost of choosing the byte at a place: how common it is, and more if it repeats the byte chosen before.
fn cost_of(fold: Fold, literal: &[u8], place: usize, chosen: Option<usize>) -> u16
    requires within { place < length literal.now }
    requires chosen { IfSome chosen (λ first. first < length literal.now) }
    ensures short { result < 2 ^ 16 - 1 }
    ensures here { IfSome chosen (λ first. first ≡ place → 512 ≤ result) }
    ensures apart { IfSome chosen (λ first. first ≢ place → result < 512) }
    ensures like { IfSome chosen (λ first. slice_index literal.now place ≡ slice_index literal.now first → 256 ≤ result) }
    ensures unlike { IfSome chosen (λ first. slice_index literal.now place ≢ slice_index literal.now first → result < 256) }
{
    let byte = literal[place];
    let rank = usual_rank(fold, byte);
    match chosen {
        Some(other) if other == place => 512 + rank,
        Some(other) if literal[other] == byte => 256 + rank,
        _ => rank,
    }
}

/// How common a folded byte is in usual text, in either case of a letter.
pub(crate) fn usual_rank(fold: Fold, byte: u8) -> u16
    ensures { result < 256 }
{
    let ranks = DefaultFrequencyRank;
    let rank = ranks.rank(byte);
    match fold {
        Fold::No => u16::from(rank),
        Fold::Ascii => u16::from(rank.max(ranks.rank(byte.to_ascii_uppercase()))),
    }
}
