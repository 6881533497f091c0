//! Texts of near-misses: literals with one byte changed, compared with a search that compares each literal.
use super::index_of;
use list_index::ListIndex;
use lit_base::{Fold, RawList, fold_byte};
use std::alloc::Global;
use std::process::Abort;
use std::sync::Arc;

/// The changes of a byte: none, another byte in its place, and its letter in the other case.
const KEPT: u8 = 0;

const CHANGED: u8 = 1;

const TURNED: u8 = 0x20;

/// A word of `len` bytes, letters and backquotes.
fn word_of(alloc: Global, len: u8) -> Option<Vec<u8>> {
    let mut word = Vec::new(alloc);
    for at in 0..len {
        let step = len.wrapping_mul(7).wrapping_add(at.wrapping_mul(5)) % 27;
        word.push(b'`' + step).ok()?;
    }
    Some(word)
}

/// The list of the words of `shortest` bytes and more, up to twenty.
fn words_from(alloc: Global, shortest: u8, fold: Fold) -> Option<Arc<ListIndex>> {
    let mut raw = RawList::new(alloc);
    for len in shortest..21 {
        raw.push(&word_of(alloc, len)?).ok()?;
    }
    index_of(alloc, &raw, fold)
}

/// The word of `len` bytes, with the byte at a place changed.
fn spoilt_word(alloc: Global, len: u8, place: u8, spoilt: u8) -> Option<Vec<u8>> {
    let mut word = word_of(alloc, len)?;
    if let Some(byte) = word.get_mut(place as usize) {
        *byte ^= spoilt;
    }
    Some(word)
}

/// A text of the words, each once with the byte at each of its places changed.
fn spoilt_words(alloc: Global, shortest: u8, spoilt: u8) -> Option<Vec<u8>> {
    let mut text = Vec::new(alloc);
    for len in shortest..21 {
        for place in 0..len {
            text.extend_from_slice(&spoilt_word(alloc, len, place, spoilt)?)
                .ok()?;
        }
    }
    Some(text)
}

/// Whether a literal ends at a place of the text.
pub(super) fn stands_before(fold: Fold, literal: &[u8], text: &[u8], end: usize) -> bool {
    let Some(start) = end.checked_sub(literal.len()) else {
        return false;
    };
    let Some(bytes) = text.get(start..end) else {
        return false;
    };
    bytes
        .iter()
        .zip(literal.iter())
        .all(|(byte, letter)| fold_byte(fold, *byte) == *letter)
}

/// The first literal that ends there, by comparing each.
fn plain_first(list: &ListIndex, text: &[u8], end: usize) -> Option<usize> {
    for place in 0..list.len() {
        if place < list.len() && stands_before(list.fold(), list.get(place), text, end) {
            return Some(place);
        }
    }
    None
}

/// At how many positions of the text the list gives another literal.
fn differences_in(list: &ListIndex, text: &[u8]) -> usize {
    let mut count = 0usize;
    for end in 0..text.len() {
        if list.next_ending(text, end, 0) != plain_first(list, text, end) {
            count = count.wrapping_add(1);
        }
    }
    count
}

/// The same for the words of `shortest` bytes and more, changed so.
fn differences(alloc: Global, fold: Fold, shortest: u8, spoilt: u8) -> Option<usize> {
    let list = words_from(alloc, shortest, fold)?;
    let text = spoilt_words(alloc, shortest, spoilt)?;
    Some(differences_in(&list, text.as_slice()))
}

/// Asserts that there are none, for the words of one byte and more, or of more bytes, changed in each way.
fn assert_none_differ<R: Abort + AllocGlobal>(rt: &R, fold: Fold) {
    for shortest in [1, 4, 7, 9] {
        for spoilt in [KEPT, CHANGED, TURNED] {
            assert_eq!(*rt; differences(rt.alloc(), fold, shortest, spoilt), Some(0));
        }
    }
}

#[test]
fn distinguishes_words_from_near_misses(rt: HostRuntime) {
    assert_none_differ(&rt, Fold::No);
}

#[test]
fn distinguishes_words_from_near_misses_in_either_case(rt: HostRuntime) {
    assert_none_differ(&rt, Fold::Ascii);
}
