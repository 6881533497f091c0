//! Searches of one text that continue after each end, compared with searches that begin anew.
ghost use Rattle.std.specs.Prelude.{◌≡◌};

use super::finding::{CAPITALS, Summary, WORDS, agree_in, with_end};
use crate::tests::owning::How;
use lit_base::Fold;
use lit_plan::Compiled;
use std::alloc::Global;
use text_search::{EndFinder, TextSearch, first_end_after};

/// The ends that one search of a text by a finder finds, each more than `skip` bytes after the one before.
fn by_finder(compiled: &Compiled, finder: &mut EndFinder, text: &[u8], skip: usize) -> Summary
    requires { finder.old ≡ compiled.now.literals }
    ensures { finder.new ≡ compiled.now.literals }
{
    let (mut summary, mut from) = ((0, 0), 0);
    let mut search = TextSearch::new(compiled, text);
    'ends: for _ in 0..=text.len() {
        let Some(end) = finder.next_end_in(&mut search, from) else {
            return summary;
        };
        summary = with_end(summary, end);
        from = end.saturating_add(skip);
    }
    summary
}

/// The ends that one search by the plan alone finds.
fn by_plan(compiled: &Compiled, text: &[u8], skip: usize) -> Summary {
    let (mut summary, mut from) = ((0, 0), 0);
    let mut search = TextSearch::new(compiled, text);
    'ends: for _ in 0..=text.len() {
        let Some(end) = search.next_end_after(from) else {
            return summary;
        };
        summary = with_end(summary, end);
        from = end.saturating_add(skip);
    }
    summary
}

/// The ends that a new search after each end finds.
fn anew(compiled: &Compiled, text: &[u8], skip: usize) -> Summary {
    let (mut summary, mut from) = ((0, 0), 0);
    for _ in 0..=text.len() {
        let Some(end) = first_end_after(compiled, text, from) else {
            return summary;
        };
        summary = with_end(summary, end);
        from = end.saturating_add(skip);
    }
    summary
}

/// Whether all three find the same at each distance.
pub(super) fn go_on_the_same(compiled: &Compiled, finder: &mut EndFinder, text: &[u8]) -> bool
    requires { finder.old ≡ compiled.now.literals }
{
    'skips: for skip in [0, 1, 7, 31, 61, 62, 63, 64, 65, 66, 127, 128, 129, 1000] {
        let wanted = anew(compiled, text, skip);
        let tuned = by_finder(compiled, finder, text, skip);
        if by_plan(compiled, text, skip) != wanted || tuned != wanted {
            return false;
        }
    }
    true
}

/// Whether all three agree in a text of words, for pieces of it.
fn agree(alloc: Global, fold: Fold, halves: [&[&[u8]]; 2], least: usize) -> Option<bool> {
    agree_in(alloc, How::EndsGoingOn, fold, halves, least, 1, 3)
}

#[test]
fn goes_on_after_each_end(rt: HostRuntime) {
    assert_eq!(rt;
        agree(rt.alloc(), Fold::No, [&WORDS, &WORDS], 4),
        Some(true)
    );
}

#[test]
fn goes_on_after_each_end_of_longer_ones(rt: HostRuntime) {
    assert_eq!(rt;
        agree(rt.alloc(), Fold::No, [&WORDS, &WORDS], 9),
        Some(true)
    );
}

#[test]
fn goes_on_after_short_ends_in_either_case(rt: HostRuntime) {
    assert_eq!(rt;
        agree(rt.alloc(), Fold::Ascii, [&CAPITALS, &CAPITALS], 2),
        Some(true)
    );
}
