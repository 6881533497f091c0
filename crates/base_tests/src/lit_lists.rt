//! Worked lists, the limits by their numbers, and literals found by where they end.
mod nested;
mod spoilt;

use list_index::ListIndex;
use lit_base::{Fold, LitList, Normal, RawList};
use std::alloc::Global;
use std::process::Abort;
use std::sync::Arc;

/// A raw list of the patterns.
fn raw_of(alloc: Global, patterns: &[&[u8]]) -> Option<RawList> {
    let mut raw = RawList::new(alloc);
    for pattern in patterns {
        raw.push(pattern).ok()?;
    }
    Some(raw)
}

/// The index of the normal form of a raw list.
fn index_of(alloc: Global, raw: &RawList, fold: Fold) -> Option<Arc<ListIndex>> {
    let (list, _) = LitList::normal(alloc, raw, fold).ok()?;
    ListIndex::new(alloc, list).ok()
}

/// Whether these are the list's literals, in order.
fn has_literals(list: &LitList, literals: &[&[u8]]) -> bool {
    if list.len() != literals.len() {
        return false;
    }
    for (place, literal) in literals.iter().enumerate() {
        if place >= list.len() || list.get(place) != *literal {
            return false;
        }
    }
    true
}

/// Whether patterns stand at these places of a normal form, and a null one where a place is none.
fn stand_at(normal: &Normal, places: &[Option<u16>]) -> bool {
    let is_right = normal.has_empty == places.contains(&None);
    is_right && normal.place_of.as_slice() == places
}

/// Whether these patterns have these literals in normal form, and stand there at these places.
fn is_normal_form(
    alloc: Global,
    fold: Fold,
    patterns: &[&[u8]],
    literals: &[&[u8]],
    places: &[Option<u16>],
) -> Option<bool> {
    let raw = raw_of(alloc, patterns)?;
    let (list, normal) = LitList::normal(alloc, &raw, fold).ok()?;
    let is_list = has_literals(&list, literals) && list.fold() == fold;
    Some(is_list && stand_at(&normal, places))
}

#[test]
fn folds_drops_repeats_and_sets_null_aside(rt: HostRuntime) {
    let patterns: [&[u8]; 3] = [b"Cat", b"cat", b""];
    let places = [Some(0), Some(0), None];
    let is_right = is_normal_form(rt.alloc(), Fold::Ascii, &patterns, &[b"cat"], &places);
    assert_eq!(rt; is_right, Some(true));
}

#[test]
fn orders_by_length_and_then_by_bytes(rt: HostRuntime) {
    let patterns: [&[u8]; 6] = [b"horse", b"b", b"dog", b"a", b"cat", b"dog"];
    let literals: [&[u8]; 5] = [b"a", b"b", b"cat", b"dog", b"horse"];
    let places = [Some(4), Some(1), Some(3), Some(0), Some(2), Some(3)];
    let is_right = is_normal_form(rt.alloc(), Fold::No, &patterns, &literals, &places);
    assert_eq!(rt; is_right, Some(true));
}

#[test]
fn takes_a_list_without_literals(rt: HostRuntime) {
    let is_right = is_normal_form(rt.alloc(), Fold::No, &[b""], &[], &[None]);
    assert_eq!(rt; is_right, Some(true));
}

/// `count` patterns of two bytes, each different and the first 1,024 without letters, and two of one letter that differ
/// in case.
fn pairs(alloc: Global, count: u16) -> Option<RawList> {
    let mut raw = RawList::new(alloc);
    for number in 0..count {
        let [_, high] = (number / 32).to_be_bytes();
        let [_, low] = (number % 32).to_be_bytes();
        raw.push(&[high, low]).ok()?;
    }
    raw.push(b"A").ok()?;
    raw.push(b"a").ok()?;
    Some(raw)
}

/// How many literals a list like that has, or the number of its refusal.
fn literals_of_pairs(alloc: Global, count: u16, fold: Fold) -> Option<Result<usize, u8>> {
    let raw = pairs(alloc, count)?;
    match LitList::normal(alloc, &raw, fold) {
        Ok((list, _)) => Some(Ok(list.len())),
        Err(fault) => Some(Err(fault.number())),
    }
}

/// Asserts that number of literals, or that refusal.
fn assert_pairs<R: Abort + AllocGlobal>(rt: &R, count: u16, fold: Fold, wanted: Result<usize, u8>) {
    assert_eq!(*rt; literals_of_pairs(rt.alloc(), count, fold), Some(wanted));
}

#[test]
fn takes_as_many_literals_as_patterns(rt: HostRuntime) {
    assert_pairs(&rt, 1023, Fold::Ascii, Ok(1024));
    assert_pairs(&rt, 1023, Fold::No, Ok(1025));
    assert_pairs(&rt, 1024, Fold::Ascii, Ok(1025));
    assert_pairs(&rt, 4094, Fold::No, Ok(4096));
}

/// `count` patterns of 256 bytes; 1,024 of them differ.
fn megabyte(alloc: Global, count: u16) -> Option<RawList> {
    let mut raw = RawList::new(alloc);
    for number in 0..count {
        let mut pattern = vec![in alloc; b'x'; 254].ok()?;
        pattern
            .extend_from_slice(&(number % 1024).to_be_bytes())
            .ok()?;
        raw.push(&pattern).ok()?;
    }
    Some(raw)
}

/// How many literals they have, and the place of the last.
fn last_of_megabyte(alloc: Global) -> Option<(usize, Option<u16>)> {
    let raw = megabyte(alloc, 4096)?;
    let (list, normal) = LitList::normal(alloc, &raw, Fold::No).ok()?;
    Some((list.len(), normal.place_of.last().copied().flatten()))
}

#[test]
fn stands_for_a_megabyte_of_patterns(rt: HostRuntime) {
    assert_eq!(rt; last_of_megabyte(rt.alloc()), Some((1024, Some(1023))));
}

/// How many literals end at a place of the text, by one walk over them.
fn count_at(list: &ListIndex, text: &[u8], end: usize) -> usize {
    let mut count = 0usize;
    let mut from = 0;
    for _ in 0..list.len() {
        if end > text.len() {
            return count;
        }
        let Some(place) = list.next_ending(text, end, from) else {
            return count;
        };
        count = count.wrapping_add(1);
        from = place.wrapping_add(1);
    }
    count
}

/// How many end at each place up to the eighth, a digit each.
fn digits_in(list: &ListIndex, text: &[u8]) -> u64 {
    let mut digits = 0u64;
    for end in 1..=8 {
        let count = count_at(list, text, end) as u64;
        digits = digits.wrapping_mul(10).wrapping_add(count);
    }
    digits
}

/// The same for the normal form of the patterns.
fn digits_of(alloc: Global, fold: Fold, patterns: &[&[u8]], text: &[u8]) -> Option<u64> {
    let list = index_of(alloc, &raw_of(alloc, patterns)?, fold)?;
    Some(digits_in(&list, text))
}

/// Asserts that they are these.
fn assert_digits<R: Abort + AllocGlobal>(
    rt: &R,
    fold: Fold,
    patterns: &[&[u8]],
    text: &[u8],
    digits: u64,
) {
    assert_eq!(*rt;
        digits_of(rt.alloc(), fold, patterns, text),
        Some(digits),
        "{text:?}"
    );
}

const PRONOUNS: [&[u8]; 4] = [b"he", b"his", b"she", b"hers"];

#[test]
fn finds_what_ends_at_each_place(rt: HostRuntime) {
    assert_digits(&rt, Fold::No, &PRONOUNS, b"ushers", 2_0100);
    assert_digits(&rt, Fold::No, &PRONOUNS, b"usHers", 0);
    assert_digits(&rt, Fold::Ascii, &PRONOUNS, b"UsHers", 2_0100);
    assert_digits(&rt, Fold::No, &[b"ab"], b"ab.abab", 100_1010);
    assert_digits(&rt, Fold::No, &[], b"abababab", 0);
}

/// Sixty patterns of letters `a`, each by one longer than the one before.
fn letters(alloc: Global) -> Option<RawList> {
    let mut raw = RawList::new(alloc);
    let mut text = Vec::new(alloc);
    for _ in 0..60 {
        text.push(b'a').ok()?;
        raw.push(&text).ok()?;
    }
    Some(raw)
}

/// How many of them end at a position of `count` letters `a`.
fn letters_at(alloc: Global, count: usize, end: usize) -> Option<usize> {
    let list = index_of(alloc, &letters(alloc)?, Fold::No)?;
    let text = vec![in alloc; b'a'; count].ok()?;
    Some(count_at(&list, &text, end))
}

/// Asserts how many end at a position of 80.
fn assert_letters<R: Abort + AllocGlobal>(rt: &R, end: usize, wanted: usize) {
    assert_eq!(*rt; letters_at(rt.alloc(), 80, end), Some(wanted));
}

#[test]
fn finds_literals_that_end_in_one_another(rt: HostRuntime) {
    assert_letters(&rt, 7, 7);
    assert_letters(&rt, 59, 59);
    assert_letters(&rt, 80, 60);
}
