//! The kernel and the cursor compared with the filter position by position, over lengths round each boundary.
ghost use Rattle.std.specs.Prelude.{◌<◌, ◌≤◌, length};

use lane_filter::{Candidates, Prefilter, any_set, filter};
use lit_base::{Ends, Fault, Fold, LitList, Profile, RawList, is_cut};
use nib_mask::{Masks, plain_byte};
use std::alloc::{AllocError, Global};
use std::test::Fail;

/// Tables that let nothing through.
const EMPTY: Masks = Masks {
    low: [[0; 16]; 3],
    high: [[0; 16]; 3],
};

/// Numbers that look random, the same in each run.
fn next_number(state: &mut u64) -> u64 {
    *state = state
        .wrapping_mul(6_364_136_223_846_793_005)
        .wrapping_add(1_442_695_040_888_963_407);
    *state >> 33
}

/// Bytes, most of them letters.
fn bytes(alloc: Global, len: usize) -> Result<Vec<u8>, AllocError> {
    let letters = b"abcdefghij ABCDEF.\x00\xff\x81";
    let mut state = 7;
    let mut bytes = Vec::new(alloc);
    for _ in 0..len {
        let place = next_number(&mut state) % letters.len() as u64;
        bytes.push(letters.get(place as usize).copied().unwrap_or(0))?;
    }
    Ok(bytes)
}

/// A list of `count` words of one to eight letters.
fn words(alloc: Global, fold: Fold, count: usize) -> Result<LitList, Fault> {
    let mut state = 11;
    let mut raw = RawList::new(alloc);
    for _ in 0..count {
        let mut word = [0; 8];
        for letter in word.iter_mut() {
            *letter = b'a' + (next_number(&mut state) % 10) as u8;
        }
        let len = 1 + (next_number(&mut state) % 8) as usize;
        raw.push(&word[..len])?;
    }
    let (list, _) = LitList::normal(alloc, &raw, fold)?;
    Ok(list)
}

/// `runs` runs of nearly equal numbers of the literals of a list.
fn runs_of(list: &LitList, runs: usize) -> Ends {
    let mut ends = Ends::new();
    for run in 1..=runs {
        if let Ok(end) = u16::try_from(list.len().saturating_mul(run) / runs.max(1)) {
            if end > 0 && ends.last().is_none_or(|last| *last < end) {
                let _pushed = ends.try_push(end);
            }
        }
    }
    ends
}

/// The tables of a list, cut into `runs` runs of nearly equal numbers.
fn masks_of(list: &LitList, runs: usize) -> Masks {
    let ends = runs_of(list, runs);
    if is_cut(list, Profile::Sixteen, &ends) {
        Masks::of(list, &ends)
    } else {
        EMPTY
    }
}

/// The tables of lists of 1, 8, 100 and 1,000 words in at most eight and sixteen runs, under both folds.
fn all_masks(alloc: Global) -> Result<Vec<Masks>, Fault> {
    let mut all = Vec::new(alloc);
    for fold in [Fold::No, Fold::Ascii] {
        for (count, runs) in [(1, 8), (8, 8), (100, 8), (1000, 8), (100, 16), (1000, 16)] {
            all.push(masks_of(&words(alloc, fold, count)?, runs))?;
        }
    }
    Ok(all)
}

/// The prefilter of a list, cut into runs of nearly equal numbers.
fn prefilter_of(list: &LitList) -> Prefilter {
    let ends = runs_of(list, 8);
    if is_cut(list, Profile::Sixteen, &ends) {
        Prefilter::of(list, &ends)
    } else {
        Prefilter::Nibbles(EMPTY.first_eight())
    }
}

/// A test of an end, unfiltered: by the filter number of the three bytes before it, by its last byte being one of two,
/// or by each of the three being one of two.
#[derive(Clone, Copy)]
enum PlainTest {
    Filter(Masks),
    LastOf([u8; 2]),
    WordOf([[u8; 2]; 3]),
}

impl PlainTest {
    fn passes(&self, text: &[u8], end: usize) -> bool {
        let last = before(text, end, 1);
        match self {
            PlainTest::Filter(masks) => {
                plain_byte(masks, before(text, end, 3), before(text, end, 2), last) != 0
            }
            PlainTest::LastOf(bytes) => is_one_of(last, *bytes),
            PlainTest::WordOf(word) => {
                is_one_of(before(text, end, 3), word[0])
                    && is_one_of(before(text, end, 2), word[1])
                    && is_one_of(last, word[2])
            }
        }
    }
}

/// A prefilter, and the test of the ends that it passes.
#[derive(Clone, Copy)]
struct Case {
    prefilter: Prefilter,
    plain: PlainTest,
}

/// By all tables, and by the byte of lists of one byte, with case and without.
fn all_cases(alloc: Global) -> Result<Vec<Case>, Fault> {
    let mut all = Vec::new(alloc);
    for masks in &all_masks(alloc)? {
        all.push(Case {
            prefilter: Prefilter::TwoNibbles(masks.first_eight(), masks.last_eight()),
            plain: PlainTest::Filter(*masks),
        })?;
    }
    for (fold, bytes) in [
        (Fold::No, *b"aa"),
        (Fold::No, *b"AA"),
        (Fold::Ascii, *b"aA"),
        (Fold::Ascii, *b".."),
        (Fold::Ascii, *b"\xff\xff"),
    ] {
        let mut raw = RawList::new(alloc);
        raw.push(&bytes[..1])?;
        let (list, _) = LitList::normal(alloc, &raw, fold)?;
        all.push(Case {
            prefilter: prefilter_of(&list),
            plain: PlainTest::LastOf(bytes),
        })?;
    }
    Ok(all)
}

/// By the three bytes of a list's only word, with case and without.
fn word_cases(alloc: Global) -> Result<Vec<Case>, Fault> {
    let mut all = Vec::new(alloc);
    for (fold, word) in [
        (Fold::No, [*b"cc", *b"aa", *b"tt"]),
        (Fold::Ascii, [*b"cC", *b"aA", *b"tT"]),
    ] {
        let mut raw = RawList::new(alloc);
        raw.push(b"cat")?;
        let (list, _) = LitList::normal(alloc, &raw, fold)?;
        all.push(Case {
            prefilter: prefilter_of(&list),
            plain: PlainTest::WordOf(word),
        })?;
    }
    Ok(all)
}

/// Whether a byte is one of two.
fn is_one_of(byte: u8, two: [u8; 2]) -> bool {
    byte == two[0] || byte == two[1]
}

/// The byte `back` places before an end, zero before the text.
fn before(text: &[u8], end: usize, back: usize) -> u8 {
    end.checked_sub(back)
        .and_then(|place| text.get(place).copied())
        .unwrap_or(0)
}

/// The first end after a place that passes the plain test.
fn plain_next(plain: &PlainTest, text: &[u8], from: usize) -> Option<usize> {
    (from..text.len())
        .map(|end| end + 1)
        .find(|end| plain.passes(text, *end))
}

/// Whether the kernel gives the plain filter numbers at `len` positions from an offset on.
fn kernel_agrees(masks: &Masks, bytes: &[u8], offset: usize, len: usize) -> bool
    requires offset { offset < 1000 }
    requires len { len ≤ 200 }
{
    let (Some(x0), Some(x1), Some(x2)) = (
        bytes.get(offset..offset + len),
        bytes.get(offset + 1..offset + 1 + len),
        bytes.get(offset + 2..offset + 2 + len),
    ) else {
        return false;
    };
    let mut found = [7; 200];
    filter(masks, x0, x1, x2, &mut found[..len]);
    x0.iter().zip(x1).zip(x2).zip(found.iter()).all(|(((a, b), c), number)| *number
        == plain_byte(masks, *a, *b, *c))
}

/// Whether a cursor gives the candidates after a place, in order, and then none.
fn cursor_agrees(case: &Case, text: &[u8], from: usize) -> bool
    requires { from ≤ length text.now }
{
    let mut cursor = Candidates::new(&case.prefilter, text, from);
    let mut last = from;
    for _ in 0..=text.len() {
        let wanted = plain_next(&case.plain, text, last);
        if cursor.next() != wanted {
            return false;
        }
        let Some(end) = wanted else {
            return cursor.next().is_none();
        };
        last = end;
    }
    false
}

/// Whether a cursor that has given the first candidate after a place gives the first one after another.
fn skip_agrees(case: &Case, text: &[u8], from: usize, place: usize) -> bool
    requires from { from ≤ length text.now }
    requires place { place ≤ length text.now }
{
    let mut cursor = Candidates::new(&case.prefilter, text, from);
    let _first = cursor.next();
    cursor.skip_to(place);
    cursor.next() == plain_next(&case.plain, text, place)
}

#[test]
fn finds_one_literal_past_the_last_full_vector(rt: HostRuntime) -> Result<(), Fail> {
    let mut raw = RawList::new(rt.alloc());
    raw.push(b"ab")?;
    let (list, _) = LitList::normal(rt.alloc(), &raw, Fold::No)?;
    let masks = masks_of(&list, 8);
    let (mut x0, mut x1, mut x2) = ([b'.'; 33], [b'.'; 33], [b'.'; 33]);
    (x0[32], x1[32], x2[32]) = (b'x', b'a', b'b');
    let mut wanted = [0; 33];
    wanted[32] = 1;
    let mut out = [7; 33];
    filter(&masks, &x0, &x1, &x2, &mut out);
    assert_eq!(rt; out, wanted);
    filter(&masks, &[], &[], &[], &mut []);
    Ok(())
}

#[test]
fn shows_whether_a_byte_is_set(rt: HostRuntime) -> Result<(), Fail> {
    let mut bytes = [0; 33];
    assert!(rt; !any_set(&bytes));
    bytes[32] = 1;
    assert!(rt; any_set(&bytes));
    let mut many = [0; 200];
    assert!(rt; !any_set(&many) && !any_set(&[]));
    for place in 0..200 {
        many[place] = 32768;
        assert!(rt; any_set(&many), "at {place}");
        many[place] = 0;
    }
    Ok(())
}

#[test]
fn kernel_gives_the_plain_filter_number(rt: HostRuntime) -> Result<(), Fail> {
    let bytes = bytes(rt.alloc(), 270)?;
    for masks in &all_masks(rt.alloc())? {
        for offset in 0..65 {
            for len in 0..=200 {
                let agree = kernel_agrees(masks, &bytes, offset, len);
                assert!(rt; agree, "{len} bytes from {offset}");
            }
        }
    }
    Ok(())
}

#[test]
fn cursor_gives_each_candidate_once(rt: HostRuntime) -> Result<(), Fail> {
    let bytes = bytes(rt.alloc(), 270)?;
    for case in &all_cases(rt.alloc())? {
        for len in 0..=200usize {
            let offset = len % 65;
            let text = bytes.get(offset..offset + len).unwrap_or_default();
            for from in [0, 1, 2, 3, 63, 64, 65, 66, 67, 130, len] {
                let agree = from > text.len() || cursor_agrees(case, text, from);
                assert!(rt; agree, "{len} bytes from {from}");
            }
        }
    }
    Ok(())
}

#[test]
fn cursor_goes_on_after_any_place(rt: HostRuntime) -> Result<(), Fail> {
    let bytes = bytes(rt.alloc(), 270)?;
    for case in &all_cases(rt.alloc())? {
        for from in [0, 1, 62, 63, 64, 65, 130, 205] {
            for place in 0..=270 {
                let agree = place > bytes.len()
                    || from > bytes.len()
                    || skip_agrees(case, &bytes, from, place);
                assert!(rt; agree, "after {place}, from {from}");
            }
        }
    }
    Ok(())
}

#[test]
fn cursor_finds_a_letter_at_any_place(rt: HostRuntime) -> Result<(), Fail> {
    for case in &all_cases(rt.alloc())? {
        let mut text = [b'-'; 400];
        for place in 0..400 {
            text[place] = b'a';
            text[399 - place] = b'A';
            assert!(rt; cursor_agrees(case, &text, 0), "at {place}");
            text[place] = b'-';
            text[399 - place] = b'-';
        }
    }
    Ok(())
}

#[test]
fn cursor_finds_a_word_at_any_place(rt: HostRuntime) -> Result<(), Fail> {
    for case in &word_cases(rt.alloc())? {
        for place in 0..395usize {
            // A word, one in other letters, and two that lack a byte.
            let mut text = [b'-'; 400];
            let words = [b"cat--", b"-cAT-", b"cot--", b"--caT"];
            let word = words[place % 4];
            for (back, byte) in word.iter().enumerate() {
                text[place + back] = *byte;
            }
            assert!(rt; cursor_agrees(case, &text, 0), "at {place}");
        }
    }
    Ok(())
}

/// A text of `len` bytes, with a word at a position, and before it one of its letters alone, `apart` bytes from the
/// next.
fn text_with_word_at(
    alloc: Global,
    len: usize,
    place: usize,
    apart: usize,
) -> Result<Vec<u8>, AllocError> {
    let letters = b"cat";
    let mut text = Vec::new(alloc);
    for at in 0..len {
        let byte = match at.checked_sub(place) {
            Some(after) => letters.get(after).copied().unwrap_or(b'-'),
            None if at % apart.max(1) == 0 => letters.get(at % 3).copied().unwrap_or(b'-'),
            None => b'-',
        };
        text.push(byte)?;
    }
    Ok(text)
}

/// By three bytes of one word, and by two bytes of each of two or three words; of them only `cat` stands in the text.
fn far_prefilters(alloc: Global) -> Result<Vec<Prefilter>, Fault> {
    let mut all = Vec::new(alloc);
    for fold in [Fold::No, Fold::Ascii] {
        for count in 1..=3 {
            let mut raw = RawList::new(alloc);
            for word in [b"cat", b"dog", b"emu"].iter().take(count) {
                raw.push(word.as_slice())?;
            }
            let (list, _) = LitList::normal(alloc, &raw, fold)?;
            all.push(prefilter_of(&list))?;
        }
    }
    Ok(all)
}

#[test]
fn cursor_finds_a_word_far_on(rt: HostRuntime) -> Result<(), Fail> {
    // Letters this far apart stand in each block, each second one, each tenth, and hardly ever. The word stands before
    // and after the positions from which on one letter is searched for alone, and this is tried again.
    for apart in [100, 250, 1300, 30_000] {
        for place in [8100, 8300, 9000, 20_001, 50_000, 90_000, 131_000] {
            let text = text_with_word_at(rt.alloc(), 131_100, place, apart)?;
            for prefilter in &far_prefilters(rt.alloc())? {
                let mut cursor = Candidates::new(prefilter, &text, 0);
                let found = cursor.next();
                assert_eq!(rt; found, Some(place + 3), "letters each {apart}");
                assert!(rt; cursor.next().is_none(), "a second one after {place}");
            }
        }
    }
    Ok(())
}
