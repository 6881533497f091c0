//! Scans by a finder and by the plan alone give the same hits.
ghost use Rattle.std.specs.Prelude.{◌≡◌};

use crate::scanning::{scan_after, scan_all};
use crate::tests::finding::{CAPITALS, FIGURES, WORDS, agree_in, plan_of};
use crate::tests::owning::How;
use lit_base::Fold;
use lit_plan::Compiled;
use std::alloc::Global;
use text_ends::Hit;
use text_search::EndFinder;

/// How many of the text's hits end after a position.
fn count_after(hits: &[Hit], from: usize) -> usize {
    hits.iter().filter(|hit| hit.end_at > from as u64).count()
}

/// Whether a scan by a finder gives exactly the hits of a text that end after a position.
fn are_found(
    alloc: Global,
    compiled: &Compiled,
    finder: &mut EndFinder,
    text: &[u8],
    from: usize,
    wanted: &[Hit],
) -> Option<bool>
    requires { finder.old ≡ compiled.now.literals }
    ensures { finder.new ≡ compiled.now.literals }
{
    let start = from.min(text.len());
    let hits = scan_after(finder, alloc, compiled, text, start).ok()?;
    let (_, after) = wanted.split_at_checked(wanted.len().checked_sub(hits.len())?)?;
    Some(hits.as_slice() == after && hits.len() == count_after(wanted, from))
}

/// Whether a finder gives the hits of a text four times, and then the hits after a position. There have to be more than
/// 100.
pub(super) fn scans_the_same(
    alloc: Global,
    compiled: &Compiled,
    finder: &mut EndFinder,
    text: &[u8],
) -> Option<bool>
    requires { finder.old ≡ compiled.now.literals }
{
    let wanted = scan_all(alloc, compiled, text).ok()?;
    'times: for _ in 0..4 {
        if !are_found(alloc, compiled, finder, text, 0, &wanted)? {
            return Some(false);
        }
    }
    let are_after = are_found(alloc, compiled, finder, text, 70_001, &wanted)?;
    Some(wanted.len() > 100 && are_after)
}

/// Whether a list of this length has a finder, unless it is short.
fn has_finder(alloc: Global, literals: &[&[u8]]) -> Option<bool> {
    let compiled = plan_of(alloc, literals)?;
    Some(EndFinder::new_unless_few(alloc, &compiled).ok()?.is_some())
}

#[test]
fn has_no_finder_for_three_literals(rt: HostRuntime) {
    let (few, _) = WORDS.split_at(3);
    assert_eq!(rt; has_finder(rt.alloc(), few), Some(false));
    assert_eq!(rt; has_finder(rt.alloc(), &WORDS), Some(true));
}

/// Whether scans by a finder and by the plan alone agree.
fn agree(alloc: Global, fold: Fold, halves: [&[&[u8]]; 2], least: usize) -> Option<bool> {
    agree_in(alloc, How::Hits, fold, halves, least, 1, 7)
}

#[test]
fn finds_the_hits_of_the_plan_alone(rt: HostRuntime) {
    assert_eq!(rt;
        agree(rt.alloc(), Fold::No, [&WORDS, &FIGURES], 4),
        Some(true)
    );
}

#[test]
fn finds_short_hits_in_either_case(rt: HostRuntime) {
    assert_eq!(rt;
        agree(rt.alloc(), Fold::Ascii, [&CAPITALS, &WORDS], 2),
        Some(true)
    );
}
