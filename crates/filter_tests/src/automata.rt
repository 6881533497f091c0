//! What no clause says: that tables are made, and for which lists they are not.
use list_index::ListIndex;
use lit_base::{Fold, LitList, RawList};
use std::alloc::Global;
use std::sync::Arc;
use text_automaton::{Automaton, AutomatonEnds};
use text_ends::EndWalk;

/// Literals, some of them the end of others, and some the beginning.
const NESTED: [&[u8]; 8] = [
    b"a", b"aa", b"aaa", b"ab", b"ba", b"bab", b"abc", b"cababab",
];

/// Literals of either case, and with bytes that have none.
const CASED: [&[u8]; 4] = [b"Over", b"LAZY", b"q", b"1\xff"];

/// The index of the literals.
fn index_of(alloc: Global, fold: Fold, literals: &[&[u8]]) -> Option<Arc<ListIndex>> {
    let mut raw = RawList::new(alloc);
    for literal in literals {
        raw.push(literal).ok()?;
    }
    let (list, _) = LitList::normal(alloc, &raw, fold).ok()?;
    ListIndex::new(alloc, list).ok()
}

/// Whether the automaton of the literals is made.
fn is_made(alloc: Global, fold: Fold, literals: &[&[u8]]) -> Option<bool> {
    let index = index_of(alloc, fold, literals)?;
    let mut automaton = Automaton::new(alloc, index).ok()?;
    let is_made = automaton.build();
    let is_read = AutomatonEnds::after(&automaton, b"", 0).is_some();
    if is_made == is_read && automaton.build() == is_made {
        Some(is_made)
    } else {
        None
    }
}

#[test]
fn makes_the_tables_of_a_list(rt: HostRuntime) {
    let alloc = rt.alloc();
    assert_eq!(rt; is_made(alloc, Fold::No, &NESTED), Some(true));
    assert_eq!(rt; is_made(alloc, Fold::No, &CASED), Some(true));
    assert_eq!(rt; is_made(alloc, Fold::Ascii, &CASED), Some(true));
    assert_eq!(rt; is_made(alloc, Fold::No, &[]), Some(true));
}

/// Where the literals of a list end in a text: how many hits there are, and the sum of the positions of the ends.
fn ends_in(alloc: Global, fold: Fold, literals: &[&[u8]], text: &[u8]) -> Option<(usize, usize)> {
    let index = index_of(alloc, fold, literals)?;
    let mut automaton = Automaton::new(alloc, index).ok()?;
    let _is_made = automaton.build();
    let mut hits = Vec::new(alloc);
    let (mut sum, mut from) = (0usize, 0);
    for _ in 0..=text.len().min(100_000) {
        if from > text.len() {
            return None;
        }
        let mut ends = AutomatonEnds::after(&automaton, text, from)?;
        let Some((end, state)) = ends.next_end() else {
            return Some((hits.len(), sum));
        };
        ends.add_hits_at(end, state, end as u64, &mut hits).ok()?;
        sum = sum.saturating_add(end);
        from = end;
    }
    None
}

#[test]
fn reports_all_that_end_at_a_place(rt: HostRuntime) {
    let alloc = rt.alloc();
    assert_eq!(rt;
        ends_in(alloc, Fold::No, &NESTED, b"cababab"),
        Some((11, 27))
    );
    assert_eq!(rt;
        ends_in(alloc, Fold::No, &CASED, b"oVer1\xffq"),
        Some((2, 13))
    );
    assert_eq!(rt;
        ends_in(alloc, Fold::Ascii, &CASED, b"oVer1\xffQ"),
        Some((3, 17))
    );
}

/// Dots, with a word after `dots` of them.
fn text_with(alloc: Global, dots: usize, word: &[u8], len: usize) -> Option<Vec<u8>> {
    let mut text = Vec::new(alloc);
    for _ in 0..dots.min(20_000) {
        text.push(b'.').ok()?;
    }
    text.extend_from_slice(word).ok()?;
    for _ in 0..len.saturating_sub(dots).min(20_000) {
        text.push(b'.').ok()?;
    }
    Some(text)
}

/// The ends of a word after `dots` dots.
fn ends_after(alloc: Global, dots: usize) -> Option<(usize, usize)> {
    let text = text_with(alloc, dots, b"bababa", 9_000)?;
    ends_in(alloc, Fold::No, &[b"ababa", b"x"], text.as_slice())
}

#[test]
fn reads_each_lane_from_before_its_first_place(rt: HostRuntime) {
    for dots in [
        0, 1_015, 1_020, 1_024, 2_043, 3_069, 4_090, 4_093, 4_096, 8_190,
    ] {
        assert_eq!(rt; ends_after(rt.alloc(), dots), Some((1, dots + 6)));
    }
}

/// The index of `count` literals of three bytes, no two beginning alike, and of a longer literal.
fn wide_index(alloc: Global, count: usize, long: &[u8]) -> Option<Arc<ListIndex>> {
    let mut raw = RawList::new(alloc);
    raw.push(long).ok()?;
    for number in 0..count.min(250) {
        raw.push(&[number as u8, 7, 9]).ok()?;
    }
    let (list, _) = LitList::normal(alloc, &raw, Fold::No).ok()?;
    ListIndex::new(alloc, list).ok()
}

/// Whether an automaton of a list like that is made.
fn is_wide_made(alloc: Global, count: usize, long: &[u8]) -> Option<bool> {
    let index = wide_index(alloc, count, long)?;
    let mut automaton = Automaton::new(alloc, index).ok()?;
    Some(automaton.build())
}

/// Whether an automaton is made of eight literals of 4,095 bytes and `count` of one byte. It has a state for each byte,
/// and one for the empty prefix.
fn is_long_made(alloc: Global, count: usize) -> Option<bool> {
    let mut raw = RawList::new(alloc);
    for letter in b'a'..=b'h' {
        raw.push(&[letter; 4095]).ok()?;
    }
    for number in 0..count.min(20) {
        raw.push(&[number as u8]).ok()?;
    }
    let (list, _) = LitList::normal(alloc, &raw, Fold::No).ok()?;
    let index = ListIndex::new(alloc, list).ok()?;
    let mut automaton = Automaton::new(alloc, index).ok()?;
    Some(automaton.build())
}

#[test]
fn is_refused_where_bytes_or_prefixes_are_too_many(rt: HostRuntime) {
    let alloc = rt.alloc();
    assert_eq!(rt; is_wide_made(alloc, 127, b"\x01"), Some(true));
    assert_eq!(rt; is_wide_made(alloc, 128, b"\x01"), Some(false));
    assert_eq!(rt; is_long_made(alloc, 7), Some(true));
    assert_eq!(rt; is_long_made(alloc, 8), Some(false));
}
