//! Scans of near-misses: texts made of the literals, most of them with one byte changed, compared with a search that
//! compares each literal.
use super::{are_of_text, hit, plan_of};
use flow_scan::{Compiled, Hit};
use lit_base::{Fold, LitList};
use std::alloc::Global;

/// Literals in order of length. Some end with others.
const WORDS: [&[u8]; 8] = [
    b"tion",
    b"ation",
    b"nation",
    b"session",
    b"sessions",
    b"connection",
    b"a connection",
    b"the planner of it",
];

/// These words, each with the byte at each of its places changed, except at each seventh.
fn spoilt_text(alloc: Global, words: &[&[u8]], spoilt: u8) -> Option<Vec<u8>> {
    let mut text = Vec::new(alloc);
    for word in words {
        for place in 0..word.len() {
            let mut copy = Vec::from_slice(alloc, word).ok()?;
            if let Some(byte) = copy.get_mut(place) {
                *byte ^= if place % 7 == 6 { 0 } else { spoilt };
            }
            text.extend_from_slice(&copy).ok()?;
        }
    }
    Some(text)
}

/// Whether a literal ends at a place of the text.
fn stands_before(literal: &[u8], text: &[u8], end: usize) -> bool {
    let Some(start) = end.checked_sub(literal.len()) else {
        return false;
    };
    match text.get(start..end) {
        Some(bytes) => bytes == literal,
        None => false,
    }
}

/// All hits in a text, by comparing each literal at each place.
fn plain_hits(alloc: Global, list: &LitList, text: &[u8]) -> Option<Vec<Hit>> {
    let mut hits = Vec::new(alloc);
    for end in 1..=text.len() {
        for place in 0..list.len() {
            if place < list.len() && stands_before(list.get(place), text, end) {
                hits.push(hit(place as u16, end as u64)).ok()?;
            }
        }
    }
    Some(hits)
}

/// Whether a scan finds the same.
pub(super) fn finds_the_same(alloc: Global, compiled: &Compiled, text: &[u8]) -> Option<bool> {
    let wanted = plain_hits(alloc, compiled.list(), text)?;
    are_of_text(alloc, compiled, text, wanted.as_slice())
}

/// Whether it does in a text of the words, changed so.
fn distinguishes(alloc: Global, words: &[&[u8]], spoilt: u8) -> Option<bool> {
    let compiled = plan_of(alloc, Fold::No, words)?;
    let text = spoilt_text(alloc, words, spoilt)?;
    finds_the_same(alloc, &compiled, text.as_slice())
}

#[test]
fn distinguishes_words_from_near_misses(rt: HostRuntime) {
    let (_, long) = WORDS.split_at(4);
    for spoilt in [0, 1, 2, 0x20] {
        assert_eq!(rt; distinguishes(rt.alloc(), &WORDS, spoilt), Some(true));
        assert_eq!(rt; distinguishes(rt.alloc(), long, spoilt), Some(true));
    }
}
