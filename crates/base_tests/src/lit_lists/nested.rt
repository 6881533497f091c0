//! Literals that end in one another, all of them at each position, compared with a search that compares each.
use super::spoilt::stands_before;
use super::{index_of, raw_of};
use list_index::{Endings, ListIndex};
use lit_base::Fold;
use std::alloc::Global;
use std::process::Abort;

/// Literals of a few bytes. In order they are `a`, `aa`, `ba`, `aaa` and `cba`.
const SHORT: [&[u8]; 5] = [b"a", b"aa", b"aaa", b"ba", b"cba"];

/// Literals with the same last eight bytes, and one of fewer.
const LONG: [&[u8]; 5] = [
    b"ha",
    b"bcdefgha",
    b"abcdefgha",
    b"cbcdefgha",
    b"aabcdefgha",
];

/// More literals with the same last eight bytes than a short chain has, one of fewer, and some with the same last 64.
const ALIKE: [&[u8]; 25] = [
    b"fgha",
    b"bcdefgha",
    b"abcdefgha",
    b"cbcdefgha",
    b"dbcdefgha",
    b"ebcdefgha",
    b"fbcdefgha",
    b"gbcdefgha",
    b"hbcdefgha",
    b"ibcdefgha",
    b"jbcdefgha",
    b"kbcdefgha",
    b"lbcdefgha",
    b"mbcdefgha",
    b"nbcdefgha",
    b"obcdefgha",
    b"pbcdefgha",
    b"qbcdefgha",
    b"aabcdefgha",
    b"abbcdefgha",
    b"qqaabcdefgha",
    b"xxxxxxxxxxxxxxxxxxxxxxxxxxxxxxxxxxxxxxxxxxxxxxxxxxxxxxxxxxxxbcdefgha",
    b"1xxxxxxxxxxxxxxxxxxxxxxxxxxxxxxxxxxxxxxxxxxxxxxxxxxxxxxxxxxxxbcdefgha",
    b"21xxxxxxxxxxxxxxxxxxxxxxxxxxxxxxxxxxxxxxxxxxxxxxxxxxxxxxxxxxxxbcdefgha",
    b"3xxxxxxxxxxxxxxxxxxxxxxxxxxxxxxxxxxxxxxxxxxxxxxxxxxxxxxxxxxxxbcdefgha",
];

/// Some literals, and then the remaining ones, at most `most`.
fn with_rest(first: Vec<usize>, endings: &mut Endings, most: usize) -> Option<Vec<usize>> {
    let mut places = first;
    for _ in 0..most {
        let Some(place) = endings.next() else {
            return Some(places);
        };
        places.push(place).ok()?;
    }
    Some(places)
}

/// The literals from one on that end at a place, as the list gives them.
fn given(
    alloc: Global,
    list: &ListIndex,
    text: &[u8],
    end: usize,
    from: usize,
) -> Option<Vec<usize>> {
    if end > text.len() {
        return None;
    }
    let mut places = Vec::new(alloc);
    match list.next_ending(text, end, from) {
        Some(first) => {
            places.push(first).ok()?;
            with_rest(
                places,
                &mut list.endings_after(text, end, first),
                list.len(),
            )
        }
        None => Some(places),
    }
}

/// Those after the first, if one ends there.
fn given_after(alloc: Global, list: &ListIndex, text: &[u8], end: usize) -> Option<Vec<usize>> {
    if end > text.len() {
        return None;
    }
    let places = Vec::new(alloc);
    match list.first_ending(text, end) {
        Some(first) => with_rest(
            places,
            &mut list.endings_after(text, end, first),
            list.len(),
        ),
        None => Some(places),
    }
}

/// The literals from one on that end at a place, by comparing each.
fn compared(
    alloc: Global,
    list: &ListIndex,
    text: &[u8],
    end: usize,
    from: usize,
) -> Option<Vec<usize>> {
    let mut places = Vec::new(alloc);
    for place in from..list.len() {
        if place < list.len() && stands_before(list.fold(), list.get(place), text, end) {
            places.push(place).ok()?;
        }
    }
    Some(places)
}

/// How often the list gives others, at each place of the text.
fn differences(alloc: Global, fold: Fold, patterns: &[&[u8]], text: &[u8]) -> Option<usize> {
    let list = index_of(alloc, &raw_of(alloc, patterns)?, fold)?;
    let mut count = 0usize;
    for end in 0..=text.len() {
        for from in 0..=list.len() {
            let wanted = compared(alloc, &list, text, end, from)?;
            if given(alloc, &list, text, end, from)?.as_slice() != wanted.as_slice() {
                count = count.wrapping_add(1);
            }
        }
        let all = compared(alloc, &list, text, end, 0)?;
        let wanted = all.get(1..).unwrap_or_default();
        if given_after(alloc, &list, text, end)?.as_slice() != wanted {
            count = count.wrapping_add(1);
        }
    }
    Some(count)
}

/// Asserts that there are none, whether case counts or not.
fn assert_none_differ<R: Abort + AllocGlobal>(rt: &R, patterns: &[&[u8]], text: &[u8]) {
    for fold in [Fold::No, Fold::Ascii] {
        assert_eq!(*rt;
            differences(rt.alloc(), fold, patterns, text),
            Some(0),
            "{text:?}"
        );
    }
}

#[test]
fn gives_all_that_end_at_each_place(rt: HostRuntime) {
    assert_none_differ(&rt, &SHORT, b"aaa.cbaaa.cBAaA");
    assert_none_differ(&rt, &LONG, b"ha.aabcdefgha.cbcdefghA.ccbcdefgha");
    assert_none_differ(&rt, &[b"ba"], b"cba.Ba");
}

#[test]
fn gives_all_of_many_that_end_alike(rt: HostRuntime) {
    assert_none_differ(
        &rt,
        &ALIKE,
        b"a.fgha.bcdefgha.zbcdefgha.aaBcdefgha.qqaabcdefgha.q21xxxxxxxxxxxxxxxxxxxxxxxxxxxxxxxxxxxxxxxxxxxxxxxxxxxxxxxxxxxxbcdefghA.33xxxxxxxxxxxxxxxxxxxxxxxxxxxxxxxxxxxxxxxxxxxxxxxxxxxxxxxxxxxxbcdefgha",
    );
}

/// Whether the literals that end with a text of three bytes stand at these places.
fn are_given(alloc: Global, text: &[u8; 3], places: &[usize]) -> Option<bool> {
    let list = index_of(alloc, &raw_of(alloc, &SHORT)?, Fold::No)?;
    Some(given(alloc, &list, text, 3, 0)?.as_slice() == places)
}

#[test]
fn gives_them_in_order(rt: HostRuntime) {
    assert_eq!(rt; are_given(rt.alloc(), b"aaa", &[0, 1, 3]), Some(true));
    assert_eq!(rt; are_given(rt.alloc(), b"cba", &[0, 2, 4]), Some(true));
}
