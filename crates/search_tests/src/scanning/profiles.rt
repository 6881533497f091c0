//! Scans by plans of more than eight runs and of more than 1,024 literals, compared with a search that compares each
//! literal.
use super::plan_under;
use super::spoilt::finds_the_same;
use flow_scan::Compiled;
use list_index::ListIndex;
use lit_base::{Fold, LitList, Profile, RawList};
use run_planner::plan;
use std::alloc::Global;

/// More literals of one byte than a plan has runs, and one of three that begins with another letter.
const LETTERS: [&[u8]; 19] = [
    b"a", b"b", b"c", b"d", b"e", b"f", b"g", b"h", b"i", b"j", b"k", b"l", b"m", b"n", b"o", b"p",
    b"q", b"r", b"the",
];

/// A text in which each of them ends, among other bytes.
const TEXT: &[u8] =
    b"........ the quick brown fox jumps over a lazy dog; 0123456789 ................";

/// How many runs the plan of the letters has, and whether a scan of the text finds what ends in it.
fn runs_of_letters(alloc: Global, profile: Profile, fold: Fold) -> Option<(usize, bool)> {
    let compiled = plan_under(alloc, profile, fold, &LETTERS)?;
    let is_same = finds_the_same(alloc, &compiled, TEXT)?;
    Some((compiled.certificate().ends.len(), is_same))
}

#[test]
fn finds_letters_by_sixteen_runs(rt: HostRuntime) {
    let found = runs_of_letters(rt.alloc(), Profile::Sixteen, Fold::No);
    assert_eq!(rt; found, Some((16, true)));
    let found = runs_of_letters(rt.alloc(), Profile::Sixteen, Fold::Ascii);
    assert_eq!(rt; found, Some((16, true)));
}

#[test]
fn finds_letters_by_eight_runs(rt: HostRuntime) {
    let found = runs_of_letters(rt.alloc(), Profile::Eight, Fold::No);
    assert_eq!(rt; found, Some((8, true)));
}

/// The plan of `count` numbers of two bytes.
fn plan_of_numbers(alloc: Global, profile: Profile, count: u16) -> Option<Compiled> {
    let mut raw = RawList::new(alloc);
    for number in 0..count {
        raw.push(&number.to_be_bytes()).ok()?;
    }
    let (list, _) = LitList::normal(alloc, &raw, Fold::No).ok()?;
    let certificate = plan(alloc, &list, profile).ok()?;
    Compiled::new(ListIndex::new(alloc, list).ok()?, certificate).ok()
}

/// Some of them one after the other, with a byte between that none of them has.
fn text_of_numbers(alloc: Global, count: u16) -> Option<Vec<u8>> {
    let mut text = Vec::new(alloc);
    for turn in 0..200_u16 {
        let number = turn.wrapping_mul(37) % count.max(1);
        text.extend_from_slice(&number.to_be_bytes()).ok()?;
        text.push(b'\xff').ok()?;
    }
    Some(text)
}

/// Whether a scan finds each of `count` numbers in a text of them.
fn finds_numbers(alloc: Global, profile: Profile, count: u16) -> Option<bool> {
    let compiled = plan_of_numbers(alloc, profile, count)?;
    let text = text_of_numbers(alloc, count)?;
    finds_the_same(alloc, &compiled, &text)
}

#[test]
fn finds_more_than_a_thousand_literals(rt: HostRuntime) {
    let found = finds_numbers(rt.alloc(), Profile::Eight, 1025);
    assert_eq!(rt; found, Some(true));
    let found = finds_numbers(rt.alloc(), Profile::Sixteen, 4096);
    assert_eq!(rt; found, Some(true));
}
