//! Which lists are refused, in figures.
use lit_base::{Fault, RawList};
use std::alloc::Global;

/// Whether these are the patterns of the list.
fn are_patterns(raw: &RawList, patterns: &[&[u8]]) -> bool {
    if raw.len() != patterns.len() {
        return false;
    }
    for place in 0..raw.len() {
        if patterns.get(place).copied() != Some(raw.get(place)) {
            return false;
        }
    }
    true
}

/// The answer to a pattern, and how many patterns the list has then, the first two as before.
fn pushed(raw: &mut RawList, pattern: &[u8]) -> (Result<(), Fault>, usize, bool) {
    let answer = raw.push(pattern);
    let are_kept = raw.len() >= 2 && raw.get(0) == b"a".as_slice() && raw.get(1).is_empty();
    (answer, raw.len(), are_kept)
}

/// That for the third pattern of a list.
fn third_of(alloc: Global, len: usize) -> Option<(Result<(), Fault>, usize, bool)> {
    let mut raw = RawList::new(alloc);
    raw.push(b"a").ok()?;
    raw.push(b"").ok()?;
    let pattern = vec![in alloc; b'x'; len].ok()?;
    Some(pushed(&mut raw, &pattern))
}

#[test]
fn takes_patterns_up_to_the_longest(rt: HostRuntime) {
    assert_eq!(rt; third_of(rt.alloc(), 4095), Some((Ok(()), 3, true)));
    let refusal = Err(Fault::LiteralTooLong { place: 2 });
    assert_eq!(rt; third_of(rt.alloc(), 4096), Some((refusal, 2, true)));
}

/// Whether the lists of options have these patterns together.
fn lists_have(alloc: Global, lists: &[&[u8]], patterns: &[&[u8]]) -> Option<bool> {
    let mut raw = RawList::new(alloc);
    for list in lists {
        raw.add_text_list(list).ok()?;
    }
    Some(are_patterns(&raw, patterns))
}

#[test]
fn reads_an_option_list_strictly(rt: HostRuntime) {
    let patterns: [&[u8]; 6] = [b"a", b"", b"", b"b", b"", b"c"];
    let lists: [&[u8]; 3] = [b"a\n", b"", b"b\n\nc"];
    assert_eq!(rt; lists_have(rt.alloc(), &lists, &patterns), Some(true));
}

/// Whether pattern files have these patterns together.
fn files_have(alloc: Global, files: &[&[u8]], patterns: &[&[u8]]) -> Option<bool> {
    let mut raw = RawList::new(alloc);
    for file in files {
        raw.add_file_bytes(file).ok()?;
    }
    Some(are_patterns(&raw, patterns) && raw.is_empty() == patterns.is_empty())
}

#[test]
fn reads_a_pattern_file_by_lines(rt: HostRuntime) {
    let files: [&[u8]; 3] = [b"", b"a\n\nb", b"c\n"];
    let patterns: [&[u8]; 4] = [b"a", b"", b"b", b"c"];
    assert_eq!(rt; files_have(rt.alloc(), &files, &patterns), Some(true));
    assert_eq!(rt; files_have(rt.alloc(), &[b""], &[]), Some(true));
}

/// The numbers of the refusals of an option's list and a pattern file of `len` newlines; 0 for none.
fn refusals_of(alloc: Global, len: usize) -> Option<(u8, u8)> {
    let newlines = vec![in alloc; b'\n'; len].ok()?;
    let mut raw = RawList::new(alloc);
    let of_list = raw.add_text_list(&newlines);
    let of_file = raw.add_file_bytes(&newlines);
    Some((number_of(of_list), number_of(of_file)))
}

/// The number of a refusal, 0 of none.
fn number_of(answer: Result<(), Fault>) -> u8 {
    match answer {
        Ok(()) => 0,
        Err(fault) => fault.number(),
    }
}

#[test]
fn refuses_a_text_by_its_length_and_then_by_its_patterns(rt: HostRuntime) {
    assert_eq!(rt; refusals_of(rt.alloc(), 1_052_672), Some((2, 2)));
    assert_eq!(rt; refusals_of(rt.alloc(), 1_052_673), Some((7, 7)));
}

/// The numbers of all refusals.
fn numbers() -> [u8; 5] {
    [
        Fault::OutOfMemory.number(),
        Fault::TooManyPatterns.number(),
        Fault::LiteralTooLong { place: 7 }.number(),
        Fault::TooManyLiterals.number(),
        Fault::ListTooLarge.number(),
    ]
}

#[test]
fn numbers_its_refusals(rt: HostRuntime) {
    assert_eq!(rt; numbers(), [1, 2, 3, 6, 7]);
}
