//! Factors of lists with short literals and with long ones, and of literals whose last bytes are frequent in a text.
//! Shift-or on the same literals.
use factor_search::Factors;
use list_index::ListIndex;
use lit_base::{Fold, LitList, RawList};
use shift_search::{ShiftOr, ShiftOrEnds, cut_runs};
use std::alloc::Global;
use std::sync::Arc;
use text_ends::{EndRate, EndWalk};

/// Literals of each length that is marked in its own way.
const WORDS: [&[u8]; 5] = [b"q", b"xy", b"fox", b"over", b"lazy dogs"];

/// Each of them in turn.
const WITH_WORDS: &[u8] = b"q xy fox over lazy dogs";

/// The same, with some capitals.
const WITH_CAPITALS: &[u8] = b"Q xY FOX oVer Lazy DOGS";

/// Where they end there.
const ENDS: [usize; 5] = [1, 4, 8, 13, 23];

/// Literals that are longer than their factors.
const LONG_WORDS: [&[u8]; 3] = [b"jumps over", b"lazy dog", b"the quick"];

/// Each of them in turn.
const WITH_LONG_WORDS: &[u8] = b"the quick..jumps over the lazy dog";

/// Where they end there.
const LONG_ENDS: [usize; 3] = [9, 21, 34];

/// The index of the literals.
pub(crate) fn index_of(alloc: Global, fold: Fold, literals: &[&[u8]]) -> Option<Arc<ListIndex>> {
    let mut raw = RawList::new(alloc);
    for literal in literals {
        raw.push(literal).ok()?;
    }
    let (list, _) = LitList::normal(alloc, &raw, fold).ok()?;
    ListIndex::new(alloc, list).ok()
}

/// These four bytes, 5,000 times.
pub(crate) fn sample_of(alloc: Global, bytes: [u8; 4]) -> Option<Vec<u8>> {
    let mut sample = Vec::new(alloc);
    for _ in 0..5000 {
        sample.extend_from_slice(&bytes).ok()?;
    }
    Some(sample)
}

/// The byte `back` places before one of a text, or 0 before its first.
fn byte_before(text: &[u8], at: usize, back: usize) -> u8 {
    match at.checked_sub(back) {
        Some(place) => text.get(place).copied().unwrap_or(0),
        None => 0,
    }
}

/// Whether a place of a text passes the masks.
fn passes(factors: &Factors, text: &[u8], at: usize) -> bool {
    let third = byte_before(text, at, 3);
    let second = byte_before(text, at, 2);
    let last = byte_before(text, at, 1);
    factors.masks().filter_byte(third, second, last) != 0
}

/// Whether the position `back` before an end passes the masks, and its hash bits have the end.
fn is_met_at(factors: &Factors, text: &[u8], end: usize, back: usize) -> bool {
    let Some(at) = end.checked_sub(back) else {
        return false;
    };
    if back >= 8 || at > text.len() {
        return false;
    }
    passes(factors, text, at) && (factors.hash_bits_at(text, at) >> back) & 1 == 1
}

/// Whether a search of the places that pass meets an end.
fn is_met(factors: &Factors, text: &[u8], end: usize) -> bool {
    (0..8usize).any(|back| is_met_at(factors, text, end, back))
}

/// Whether it meets each of the ends.
fn are_met(factors: &Factors, text: &[u8], ends: &[usize]) -> bool {
    ends.iter().all(|end| is_met(factors, text, *end))
}

/// Whether it does before it is tuned, and after a sample in which these four bytes come again and again.
fn meets(
    alloc: Global,
    index: Arc<ListIndex>,
    text: &[u8],
    ends: &[usize],
    bytes: [u8; 4],
) -> Option<(bool, bool)> {
    let sample = sample_of(alloc, bytes)?;
    let mut factors = Factors::new(alloc, index).ok()?;
    let before = are_met(&factors, text, ends);
    factors.tune(&sample, EndRate::nothing());
    Some((before, are_met(&factors, text, ends)))
}

/// That for short and long literals.
fn meets_words(alloc: Global, fold: Fold, text: &[u8]) -> Option<(bool, bool)> {
    let index = index_of(alloc, fold, &WORDS)?;
    meets(alloc, index, text, &ENDS, *b"dogs")
}

/// That for long literals alone.
fn meets_long_words(alloc: Global, bytes: [u8; 4]) -> Option<(bool, bool)> {
    let index = index_of(alloc, Fold::No, &LONG_WORDS)?;
    meets(alloc, index, WITH_LONG_WORDS, &LONG_ENDS, bytes)
}

#[test]
fn meets_short_and_long_literals(rt: HostRuntime) {
    assert_eq!(rt;
        meets_words(rt.alloc(), Fold::No, WITH_WORDS),
        Some((true, true))
    );
}

#[test]
fn meets_them_in_either_case(rt: HostRuntime) {
    assert_eq!(rt;
        meets_words(rt.alloc(), Fold::Ascii, WITH_CAPITALS),
        Some((true, true))
    );
}

#[test]
fn meets_long_literals(rt: HostRuntime) {
    assert_eq!(rt; meets_long_words(rt.alloc(), *b"...."), Some((true, true)));
}

#[test]
fn meets_long_literals_of_common_bytes(rt: HostRuntime) {
    assert_eq!(rt; meets_long_words(rt.alloc(), *b"y do"), Some((true, true)));
}

/// How many positions of a text pass the masks, and how many of these have hash bits.
fn count_passed(factors: &Factors, text: &[u8]) -> (usize, usize) {
    let (mut passed, mut marked) = (0usize, 0usize);
    for at in 3..text.len() {
        if passes(factors, text, at) {
            passed = passed.saturating_add(1);
            marked = marked.saturating_add(usize::from(factors.hash_bits_at(text, at) != 0));
        }
    }
    (passed, marked)
}

/// That for a sample of these four bytes: before it is tuned to it, and then.
fn passed_in(alloc: Global, literals: &[&[u8]], bytes: [u8; 4]) -> Option<[(usize, usize); 2]> {
    let sample = sample_of(alloc, bytes)?;
    let mut factors = Factors::new(alloc, index_of(alloc, Fold::No, literals)?).ok()?;
    let before = count_passed(&factors, &sample);
    factors.tune(&sample, EndRate::nothing());
    Some([before, count_passed(&factors, &sample)])
}

#[test]
fn moves_off_common_bytes(rt: HostRuntime) {
    assert_eq!(rt;
        passed_in(rt.alloc(), &[b"abcdxyzt"], *b"xyzt"),
        Some([(4999, 4999), (0, 0)])
    );
}

#[test]
fn stays_at_the_bytes_of_a_short_literal(rt: HostRuntime) {
    assert_eq!(rt;
        passed_in(rt.alloc(), &[b"ox", b"the quick fox"], *b"ox.."),
        Some([(4999, 4999), (4999, 4999)])
    );
}

/// Literals of four bytes, which probes at every second position know by all of them or by the first three.
pub(crate) const FOURS: [&[u8]; 2] = [b"wxyz", b"abcd"];

/// Some of them at even positions and at odd ones, and a beginning of one.
const WITH_FOURS: &[u8] = b"..wxyz.abcd..wxyz..wxy..abcdwxyz";

/// Where they end there.
const FOUR_ENDS: [usize; 5] = [6, 11, 17, 28, 32];

/// A search by shift-or in a text, tuned to a sample of the bytes: how many ends there are; how many of them it found;
/// and how many pending ends were false positives.
fn found_by(
    alloc: Global,
    fold: Fold,
    literals: &[&[u8]],
    bytes: [u8; 4],
    text: &[u8],
    ends: &[usize],
) -> Option<(usize, usize, usize)> {
    let index = index_of(alloc, fold, literals)?;
    let mut shift_or = ShiftOr::new(alloc, index).ok()?;
    shift_or.tune(&sample_of(alloc, bytes)?, EndRate::nothing());
    let mut walk = ShiftOrEnds::after(&shift_or, text, 0);
    let (mut found, mut met) = (0usize, 0usize);
    for _ in 0..text.len() {
        let Some((end, _)) = walk.next_end() else {
            return Some((found, met, walk.tally().false_positives));
        };
        found = found.saturating_add(1);
        if ends.contains(&end) {
            met = met.saturating_add(1);
        }
    }
    Some((found, met, walk.tally().false_positives))
}

/// The same for literals of four bytes.
fn found_fours(alloc: Global, bytes: [u8; 4]) -> Option<(usize, usize, usize)> {
    found_by(alloc, Fold::No, &FOURS, bytes, WITH_FOURS, &FOUR_ENDS)
}

#[test]
fn probes_each_place_where_prefixes_of_literals_are_many(rt: HostRuntime) {
    assert_eq!(rt; found_fours(rt.alloc(), *b"wxy."), Some((5, 5, 0)));
}

#[test]
fn probes_every_second_place_where_they_are_few(rt: HostRuntime) {
    assert_eq!(rt; found_fours(rt.alloc(), *b"...."), Some((5, 5, 1)));
}

/// The same three times over, so that one test probes thirty-two positions.
const WITH_MANY_FOURS: &[u8] =
    b"..wxyz.abcd..wxyz..wxy..abcdwxyz..wxyz.abcd..wxyz..wxy..abcdwxyz..wxyz.abcd..wxyz..wxy..abcdwxyz";

/// Where they end there.
const MANY_FOUR_ENDS: [usize; 15] = [6, 11, 17, 28, 32, 38, 43, 49, 60, 64, 70, 75, 81, 92, 96];

/// That in the longer text.
fn found_many_fours(alloc: Global, bytes: [u8; 4]) -> Option<(usize, usize, usize)> {
    found_by(
        alloc,
        Fold::No,
        &FOURS,
        bytes,
        WITH_MANY_FOURS,
        &MANY_FOUR_ENDS,
    )
}

#[test]
fn counts_each_prefix_that_it_verifies_in_vain(rt: HostRuntime) {
    assert_eq!(rt; found_many_fours(rt.alloc(), *b"wxy."), Some((15, 15, 0)));
    assert_eq!(rt; found_many_fours(rt.alloc(), *b"...."), Some((15, 15, 3)));
}

#[test]
fn finds_long_literals_and_verifies_few_ends(rt: HostRuntime) {
    assert_eq!(rt;
        found_by(
            rt.alloc(),
            Fold::No,
            &LONG_WORDS,
            *b"....",
            WITH_LONG_WORDS,
            &LONG_ENDS
        ),
        Some((3, 3, 0))
    );
}

#[test]
fn finds_short_literals_in_any_case(rt: HostRuntime) {
    assert_eq!(rt;
        found_by(
            rt.alloc(),
            Fold::Ascii,
            &WORDS,
            *b"....",
            WITH_CAPITALS,
            &ENDS
        ),
        Some((5, 5, 0))
    );
}

/// Whether a search by shift-or finds one end in a text, which is this.
fn finds_only(shift_or: &ShiftOr, text: &[u8], end: usize) -> bool {
    let mut walk = ShiftOrEnds::after(shift_or, text, 0);
    let Some((found, _)) = walk.next_end() else {
        return false;
    };
    found == end && walk.next_end().is_none()
}

/// `before` dots, a word, and dots up to `dots` bytes and the word.
fn dots_round(alloc: Global, word: &[u8], before: usize, dots: usize) -> Option<Vec<u8>> {
    let mut text = Vec::from_elem(alloc, b'.', before).ok()?;
    text.extend_from_slice(word).ok()?;
    text.resize(dots.saturating_add(word.len()), b'.').ok()?;
    Some(text)
}

/// At how many positions of these texts a search by shift-or misses a word, which it searches for together with another
/// one, tuned to a sample of the bytes.
fn count_missed(
    alloc: Global,
    fold: Fold,
    literal: &[u8],
    word: &[u8],
    bytes: [u8; 4],
) -> Option<usize> {
    count_missed_among(alloc, fold, literal, word, bytes, 0, 120)
}

/// The same in a text of dots, from some positions before the word on.
fn count_missed_among(
    alloc: Global,
    fold: Fold,
    literal: &[u8],
    word: &[u8],
    bytes: [u8; 4],
    first: usize,
    dots: usize,
) -> Option<usize> {
    let index = index_of(alloc, fold, &[literal, b"abcd"])?;
    let mut shift_or = ShiftOr::new(alloc, index).ok()?;
    shift_or.tune(&sample_of(alloc, bytes)?, EndRate::nothing());
    let mut missed = 0usize;
    for before in first..dots {
        let text = dots_round(alloc, word, before, dots)?;
        if !finds_only(
            &shift_or,
            text.as_slice(),
            before.saturating_add(word.len()),
        ) {
            missed = missed.saturating_add(1);
        }
    }
    Some(missed)
}

#[test]
fn finds_literals_at_each_place_by_probes_at_every_second_one(rt: HostRuntime) {
    assert_eq!(rt;
        count_missed(rt.alloc(), Fold::No, b"wxyz", b"wxyz", *b"...."),
        Some(0)
    );
    assert_eq!(rt;
        count_missed(rt.alloc(), Fold::No, b"wxyzuvwxyz", b"wxyzuvwxyz", *b"...."),
        Some(0)
    );
    assert_eq!(rt;
        count_missed(rt.alloc(), Fold::Ascii, b"wxyz", b"WxYZ", *b"...."),
        Some(0)
    );
}

#[test]
fn finds_literals_at_each_place_by_probes_at_each(rt: HostRuntime) {
    assert_eq!(rt;
        count_missed(rt.alloc(), Fold::No, b"wxyz", b"wxyz", *b"wxy."),
        Some(0)
    );
    assert_eq!(rt;
        count_missed(rt.alloc(), Fold::No, b"wx", b"wx", *b"w..."),
        Some(0)
    );
    assert_eq!(rt;
        count_missed(rt.alloc(), Fold::Ascii, b"wxyz", b"wXyZ", *b"wxy."),
        Some(0)
    );
}

/// How many of these words are missed, from before the first block of a text to after the third.
fn count_missed_in_blocks(alloc: Global, word: &[u8], bytes: [u8; 4]) -> Option<usize> {
    count_missed_among(alloc, Fold::No, word, word, bytes, 960, 4300)
}

#[test]
fn finds_literals_at_each_place_of_blocks(rt: HostRuntime) {
    assert_eq!(rt;
        count_missed_in_blocks(rt.alloc(), b"wxyz", *b"...."),
        Some(0)
    );
    assert_eq!(rt;
        count_missed_in_blocks(rt.alloc(), b"wxyzuvwxyz", *b"wxy."),
        Some(0)
    );
}

/// Where a search by shift-or finds the second of them without a sample.
fn second_untuned(alloc: Global) -> Option<usize> {
    let index = index_of(alloc, Fold::No, &FOURS)?;
    let shift_or = ShiftOr::new(alloc, index).ok()?;
    let mut walk = ShiftOrEnds::after(&shift_or, WITH_FOURS, FOUR_ENDS[0]);
    match walk.next_end() {
        Some((end, _)) => Some(end),
        None => None,
    }
}

#[test]
fn finds_what_ends_before_it_is_tuned(rt: HostRuntime) {
    assert_eq!(rt; second_untuned(rt.alloc()), Some(11));
}

/// The estimate of a search by shift-or for the literals, given a sample of the bytes.
fn cost_of(alloc: Global, literals: &[&[u8]], bytes: [u8; 4]) -> Option<usize> {
    let index = index_of(alloc, Fold::No, literals)?;
    let mut shift_or = ShiftOr::new(alloc, index).ok()?;
    Some(shift_or.tune(&sample_of(alloc, bytes)?, EndRate::nothing()))
}

#[test]
fn costs_more_where_ends_are_many(rt: HostRuntime) {
    assert_eq!(rt; cost_of(rt.alloc(), &FOURS, *b"...."), Some(2100));
    assert_eq!(rt; cost_of(rt.alloc(), &FOURS, *b"wxyz"), Some(27600));
}

#[test]
fn costs_more_where_literals_are_short(rt: HostRuntime) {
    assert_eq!(rt; cost_of(rt.alloc(), &FOURS, *b"w..."), Some(2100));
    assert_eq!(rt;
        cost_of(rt.alloc(), &[b"wx", b"abcd"], *b"w..."),
        Some(4300)
    );
}

/// The buckets of literals of the given lengths, in the given numbers.
fn runs_of(alloc: Global, lens: &[(usize, u8)]) -> Option<Vec<u8>> {
    let mut raw = RawList::new(alloc);
    for (len, count) in lens {
        for number in 0..*count {
            let literal = Vec::from_elem(alloc, number, *len).ok()?;
            raw.push(literal.as_slice()).ok()?;
        }
    }
    let (list, _) = LitList::normal(alloc, &raw, Fold::No).ok()?;
    let mut buckets = Vec::from_elem(alloc, 0, list.len()).ok()?;
    cut_runs(&list, &mut buckets);
    Some(buckets)
}

/// How many literals each bucket has.
fn counts_of(buckets: &Vec<u8>) -> [usize; 8] {
    let mut counts = [0usize; 8];
    for bucket in buckets {
        let place = usize::from(*bucket) % 8;
        counts[place] = counts[place].saturating_add(1);
    }
    counts
}

#[test]
fn cuts_short_literals_off_and_long_ones_in_parts(rt: HostRuntime) {
    assert_eq!(rt;
        runs_of(rt.alloc(), &[(2, 4), (4, 16), (9, 200)]).map(|buckets| counts_of(&buckets)),
        Some([2, 2, 4, 4, 4, 4, 100, 100])
    );
}
