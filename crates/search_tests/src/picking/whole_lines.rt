//! Searches for whole lines, compared with lines that are compared one by one.
use super::{Kept, Mood, WHOLE, emitted_in_pieces};
use flow_scan::Compiled;
use line_pick::{LineRule, Picker, Sink, is_in_lines};
use list_plan::compile;
use lit_base::{Fold, Lines, LitList, Profile, RawList};
use std::alloc::{AllocError, Global};

/// Literals, some of them the end of others, or as long as others.
const LITERALS: [&[u8]; 5] = [b"a", b"ab", b"bb", b"aab", b"bab"];

/// More bytes than one comparison of a line takes.
const LONG: &[u8] =
    b"........................................................................................................................................ab";

/// What lines are made of: literals, more than literals, parts of them, their other case, nothing.
const LINES: [&[u8]; 12] = [
    b"", b"a", b"ab", b"bb", b"aab", b"bab", b"b", b"xab", b"abx", b"baab", b"AB", LONG,
];

/// How many lines a text has, and in pieces of how many bytes it comes.
const COUNT: usize = 300;

const SIZES: [usize; 5] = [1, 3, 64, 200, 100_000];

/// Lines in an order that a seed gives. The last one has no newline.
fn text_of(alloc: Global, seed: u32) -> Result<Vec<u8>, AllocError> {
    let mut text = Vec::new(alloc);
    let mut state = seed;
    for _ in 0..COUNT {
        state = state.wrapping_mul(1_103_515_245).wrapping_add(12_345);
        let place = (state >> 16) as usize % LINES.len();
        text.extend_from_slice(LINES[place])?;
        text.push(b'\n')?;
    }
    text.extend_from_slice(b"ab")?;
    Ok(text)
}

fn plan_of(alloc: Global, fold: Fold) -> Option<Compiled> {
    let mut raw = RawList::new(alloc);
    for literal in LITERALS {
        raw.push(literal).ok()?;
    }
    let (list, _) = LitList::normal(alloc, &raw, fold).ok()?;
    compile(alloc, list, Profile::Eight).ok()
}

/// Whether a line is one of the literals, or empty where the null pattern is there.
fn is_pattern(line: &[u8], fold: Fold, has_empty: bool) -> bool {
    if line.is_empty() {
        return has_empty;
    }
    LITERALS.iter().any(|literal| match fold {
        Fold::No => *literal == line,
        Fold::Ascii => literal.eq_ignore_ascii_case(line),
    })
}

/// The lines kept of a text whose lines are compared one by one.
fn kept_one_by_one(
    alloc: Global,
    text: &[u8],
    fold: Fold,
    has_empty: bool,
    invert: bool,
) -> Option<Vec<u8>> {
    let mut sink = Kept::new(alloc, Mood::Takes);
    let mut number = 0u64;
    for line in Lines::new(text) {
        number = number.saturating_add(1);
        if is_pattern(line, fold, has_empty) != invert {
            sink.line(number, line).ok()?;
        }
    }
    Some(sink.text)
}

/// The lines kept by a picker that gets the text in pieces of `size` bytes.
fn kept_in_pieces(
    alloc: Global,
    compiled: &Compiled,
    has_empty: bool,
    rule: LineRule,
    text: &[u8],
    size: usize,
) -> Option<Vec<u8>> {
    if !is_in_lines(compiled) {
        return None;
    }
    let mut picker = Picker::new(alloc, Some(compiled), has_empty, rule);
    emitted_in_pieces(alloc, &mut picker, text, size)
}

/// Whether both keep the same lines, in whatever pieces the text comes.
fn are_same(alloc: Global, fold: Fold, has_empty: bool, invert: bool) -> Option<bool> {
    let compiled = plan_of(alloc, fold)?;
    let text = text_of(alloc, 7).ok()?;
    let wanted = kept_one_by_one(alloc, text.as_slice(), fold, has_empty, invert)?;
    let rule = LineRule { invert, ..WHOLE };
    for size in SIZES {
        let kept = kept_in_pieces(alloc, &compiled, has_empty, rule, text.as_slice(), size)?;
        if kept.as_slice() != wanted.as_slice() {
            return Some(false);
        }
    }
    Some(true)
}

#[test]
fn selects_whole_lines(rt: HostRuntime) {
    assert_eq!(rt; are_same(rt.alloc(), Fold::No, false, false), Some(true));
    assert_eq!(rt; are_same(rt.alloc(), Fold::No, false, true), Some(true));
}

#[test]
fn selects_whole_lines_in_either_case(rt: HostRuntime) {
    assert_eq!(rt; are_same(rt.alloc(), Fold::Ascii, false, false), Some(true));
    assert_eq!(rt; are_same(rt.alloc(), Fold::Ascii, false, true), Some(true));
}

#[test]
fn selects_empty_lines_too(rt: HostRuntime) {
    assert_eq!(rt; are_same(rt.alloc(), Fold::No, true, false), Some(true));
    assert_eq!(rt; are_same(rt.alloc(), Fold::No, true, true), Some(true));
}
