//! Searches for one literal, and for one among two or three.
use super::plan_of;
use flow_scan::{Compiled, first_end_after};
use lit_base::Fold;
use std::alloc::{AllocError, Global};

/// How many bytes the texts have besides the searched bytes.
const SPARE: [usize; 8] = [0, 1, 62, 63, 64, 65, 129, 192];

/// Small letters, and bytes that are found for them where case is ignored.
const FOLDED: [(&[u8], &[u8]); 4] = [
    (b"z", b"Z"),
    (b"-", b"-"),
    (b"ee", b"eE"),
    (b"the quick", b"tHE Quick"),
];

/// `len` dots, with these bytes at one position.
fn text_with(alloc: Global, bytes: &[u8], place: usize, len: usize) -> Result<Vec<u8>, AllocError> {
    let mut text = vec![in alloc; b'.'; len]?;
    for (dot, byte) in text.iter_mut().skip(place).zip(bytes.iter()) {
        *dot = *byte;
    }
    Ok(text)
}

/// Whether an end is the only one, for a search from each position.
fn is_only_end(compiled: &Compiled, text: &[u8], end: usize) -> bool {
    first_end_after(compiled, text, 0) == Some(end)
        && first_end_after(compiled, text, end / 2) == Some(end)
        && first_end_after(compiled, text, end.saturating_sub(1)) == Some(end)
        && first_end_after(compiled, text, end).is_none()
}

/// Whether the plan finds these bytes at a place of a text, and there alone.
fn finds_at(
    alloc: Global,
    compiled: &Compiled,
    bytes: &[u8],
    place: usize,
    len: usize,
) -> Option<bool> {
    let text = text_with(alloc, bytes, place, len).ok()?;
    Some(is_only_end(compiled, &text, bytes.len().saturating_add(place)))
}

/// Whether it finds them at each place of the texts.
fn finds_everywhere(alloc: Global, compiled: &Compiled, bytes: &[u8]) -> Option<bool> {
    for spare in SPARE {
        let len = bytes.len().saturating_add(spare);
        for place in 0..=spare {
            if !finds_at(alloc, compiled, bytes, place, len)? {
                return Some(false);
            }
        }
    }
    Some(true)
}

/// Whether a search for literals finds these bytes at each position, in texts that hold only the first literal.
fn finds(alloc: Global, fold: Fold, literals: &[&[u8]], bytes: &[u8]) -> Option<bool> {
    let compiled = plan_of(alloc, fold, literals)?;
    finds_everywhere(alloc, &compiled, bytes)
}

/// Where a literal ends first in a text, case-sensitive.
fn first_end(alloc: Global, literal: &[u8], text: &[u8]) -> Option<Option<usize>> {
    let compiled = plan_of(alloc, Fold::No, &[literal])?;
    Some(first_end_after(&compiled, text, 0))
}

#[test]
fn finds_short_literals_at_every_place(rt: HostRuntime) {
    let literals: [&[u8]; 5] = [b"z", b"-", b"ee", b"k3\xff", b"the quick"];
    for literal in literals {
        assert_eq!(rt;
            finds(rt.alloc(), Fold::No, &[literal], literal),
            Some(true)
        );
    }
}

#[test]
fn finds_short_literals_in_either_case(rt: HostRuntime) {
    for (literal, bytes) in FOLDED {
        assert_eq!(rt;
            finds(rt.alloc(), Fold::Ascii, &[literal], bytes),
            Some(true)
        );
    }
}

#[test]
fn finds_one_of_two_and_of_three_at_every_place(rt: HostRuntime) {
    let alloc = rt.alloc();
    assert_eq!(rt; finds(alloc, Fold::No, &[b"z", b"@@"], b"z"), Some(true));
    assert_eq!(rt;
        finds(alloc, Fold::Ascii, &[b"ee", b"@@"], b"eE"),
        Some(true)
    );
    assert_eq!(rt;
        finds(
            alloc,
            Fold::No,
            &[b"the quick", b"@@", b"~!~!"],
            b"the quick"
        ),
        Some(true)
    );
    assert_eq!(rt;
        finds(alloc, Fold::Ascii, &[b"ee", b"@@", b"~!~!"], b"eE"),
        Some(true)
    );
}

#[test]
fn finds_long_literals_at_every_place(rt: HostRuntime) {
    let alloc = rt.alloc();
    let (short, long, capitals) = ([b'q'; 70], [b'q'; 300], [b'Q'; 300]);
    assert_eq!(rt; finds(alloc, Fold::No, &[&short], &short), Some(true));
    assert_eq!(rt; finds(alloc, Fold::Ascii, &[&long], &capitals), Some(true));
}

#[test]
fn wants_more_than_the_two_bytes(rt: HostRuntime) {
    let alloc = rt.alloc();
    assert_eq!(rt;
        first_end(alloc, b"quiz", b"quoz quaz quipquit QUIZ"),
        Some(None)
    );
    assert_eq!(rt;
        first_end(alloc, b"quiz", b"quoz quaz quiz"),
        Some(Some(14))
    );
}
