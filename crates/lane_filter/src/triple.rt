//! Three bytes of a literal that are rare in usual text: where not all of them stand, it does not end.
ghost use Rattle.std.specs.Prelude.{ℕ, ◌+◌, ◌-◌, ◌^◌, ◌<◌, ◌≤◌, List, length};
ghost use Rattle.lane_filter.specs.Pairs.{IsOneOf};
ghost use Rattle.lane_filter.specs.Triples.{IsTripleEnd, IsTripleOf};
ghost use Rattle.lit_base.specs.Occurrences.{Occurs};

use crate::pair::{BytePair, CHOSEN_FROM, pair_of, usual_rank};
use crate::rare_byte::RareByte;
use byte_lanes::AllOf;
use lit_base::{Fold, LitList};

/// A pair of bytes of a literal, and the rarest other byte. If the literal has no third byte, the third is one of the
/// pair.
///
/// A text may have some pairs of bytes eight times in a kilobyte, and three bytes together less than once. Measured
/// with sixteen rare words of each of four texts: four pairs stand more often than five times in a kilobyte.
/// `bench/CHANGES.md` has the times of a search by three bytes and by two.
pub type ByteTriple = AllOf<RareByte, BytePair>;

/// The pair of the literal at a place, and the rarest other of its last bytes, by their frequency in usual text. They
/// stand before each end of the literal.
pub fn triple_of(list: &LitList, place: usize) -> ByteTriple
    requires { place < length list.now.texts }
    ensures triple { IsTripleOf list.now place result }
    ensures stands { (text : List ℕ) (end : ℕ) → Occurs list.now text place end → IsTripleEnd result text end }
{
    let pair = pair_of(list, place);
    let (fold, literal) = (list.fold(), list.get(place));
    let third = rarest_beside(fold, literal, &pair);
    AllOf {
        one: pair.one,
        other: AllOf {
            one: pair.other,
            other: RareByte::at(fold, literal, third),
        },
    }
}

/// The place of the rarest of a folded literal's last bytes outside its pair, if there is one.
fn rarest_beside(fold: Fold, literal: &[u8], pair: &BytePair) -> usize
    requires some { 0 < length literal.now }
    ensures within { result < length literal.now }
    ensures near { length literal.now ≤ result + 256 }
    ensures apart { 3 ≤ length literal.now → ¬ IsOneOf pair.now (length literal.now - 1 - result) }
{
    let start = literal.len().saturating_sub(CHOSEN_FROM);
    let (mut least, mut found) = (u16::MAX, start);
    for place in start..literal.len() {
        let cost = cost_beside(fold, literal, place, pair);
        if cost < least {
            (least, found) = (cost, place);
        }
    }
    found
}

/// The cost of choosing the byte at a place: how common it is, and more if it is one of the pair.
fn cost_beside(fold: Fold, literal: &[u8], place: usize, pair: &BytePair) -> u16
    requires { place < length literal.now }
    ensures short { result < 2 ^ 16 - 1 }
    ensures here { IsOneOf pair.now (length literal.now - 1 - place) → 256 ≤ result }
    ensures apart { ¬ IsOneOf pair.now (length literal.now - 1 - place) → result < 256 }
{
    let rank = usual_rank(fold, literal[place]);
    let after = literal.len() - 1 - place;
    if usize::from(pair.one.after) == after || usize::from(pair.other.after) == after {
        256 + rank
    } else {
        rank
    }
}
