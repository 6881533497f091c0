//! Searches that change their engine at random positions of a text: the plan alone, factors that a piece of the text
//! chooses, shift-or, the automaton, a finder. Together they find what the plan alone finds.
ghost use Rattle.std.specs.Prelude.{◌≡◌, ◌≤◌, length};

use crate::tests::finding::{
    CAPITALS, Draws, FIGURES, Progress, Summary, WORDS, agree_in, more_by_finder, plain_in,
    with_end,
};
use crate::tests::owning::How;
use factor_search::{FactorEnds, Factors};
use lit_base::Fold;
use lit_plan::Compiled;
use shift_search::{ShiftOr, ShiftOrEnds};
use std::alloc::Global;
use text_automaton::{Automaton, AutomatonEnds};
use text_ends::{EndRate, EndWalk};
use text_search::EndFinder;

/// The length in bytes of the samples.
const SAMPLE: usize = 20_000;

/// At most `count` more ends of a walk through a text.
fn more_ends<E: EndWalk>(ends: &mut E, text: &[u8], progress: Progress, count: usize) -> Progress {
    let (mut from, mut summary) = progress;
    for _ in 0..count {
        let Some((end, _)) = ends.next_end() else {
            return (text.len(), summary);
        };
        summary = with_end(summary, end);
        from = end;
    }
    (from, summary)
}

/// At most `count` more ends, by factors that a sample chooses.
fn by_factors(
    alloc: Global,
    compiled: &Compiled,
    text: &[u8],
    sample: &[u8],
    progress: Progress,
    count: usize,
) -> Option<Progress>
    requires { progress.0 ≤ length text.now }
{
    let mut factors = Factors::new(alloc, compiled.shared_index().ok()?).ok()?;
    factors.tune(sample, EndRate::nothing());
    let mut ends = FactorEnds::after(&factors, text, progress.0);
    Some(more_ends(&mut ends, text, progress, count))
}

/// At most `count` more ends, by shift-or with a stride that a sample chooses.
fn by_shift_or(
    alloc: Global,
    compiled: &Compiled,
    text: &[u8],
    sample: &[u8],
    progress: Progress,
    count: usize,
) -> Option<Progress> {
    let mut shift_or = ShiftOr::new(alloc, compiled.shared_index().ok()?).ok()?;
    shift_or.tune(sample, EndRate::nothing());
    let mut ends = ShiftOrEnds::after(&shift_or, text, progress.0);
    Some(more_ends(&mut ends, text, progress, count))
}

/// At most `count` more ends, by the automaton.
fn by_automaton(
    alloc: Global,
    compiled: &Compiled,
    text: &[u8],
    progress: Progress,
    count: usize,
) -> Option<Progress>
    requires { progress.0 ≤ length text.now }
{
    let mut automaton = Automaton::new(alloc, compiled.shared_index().ok()?).ok()?;
    automaton.build();
    let mut ends = AutomatonEnds::after(&automaton, text, progress.0)?;
    Some(more_ends(&mut ends, text, progress, count))
}

/// A sample of a text from a random offset on.
fn sample_of<'t>(draws: &mut Draws, text: &'t [u8]) -> Option<&'t [u8]> {
    let (_, after) = text.split_at_checked(draws.below(text.len()))?;
    let (sample, _) = after.split_at_checked(SAMPLE.min(after.len()))?;
    Some(sample)
}

/// The ends that a search with changes finds in a text.
fn changing_in(
    alloc: Global,
    compiled: &Compiled,
    finder: &mut EndFinder,
    draws: &mut Draws,
    text: &[u8],
) -> Option<Summary>
    requires { finder.old ≡ compiled.now.literals }
{
    let mut progress = (0, (0, 0));
    'changes: for _ in 0..text.len() {
        let (from, summary) = progress;
        if from >= text.len() {
            return Some(summary);
        }
        let count = draws.below(100).saturating_add(1);
        let sample = sample_of(draws, text)?;
        progress = match draws.below(5) {
            0 => more_ends(
                &mut compiled.prefilter_ends(text, from),
                text,
                progress,
                count,
            ),
            1 => more_by_finder(compiled, finder, text, progress, count),
            2 => by_shift_or(alloc, compiled, text, sample, progress, count)?,
            3 => by_automaton(alloc, compiled, text, progress, count)?,
            _ => by_factors(alloc, compiled, text, sample, progress, count)?,
        };
    }
    None
}

/// Whether a search with changes, drawn from a seed, finds what the plan alone finds.
pub(super) fn changes_the_same(
    alloc: Global,
    compiled: &Compiled,
    finder: &mut EndFinder,
    text: &[u8],
    seed: u64,
) -> Option<bool>
    requires { finder.old ≡ compiled.now.literals }
{
    let mut draws = Draws { state: seed };
    let wanted = plain_in(compiled, text, text.len());
    Some(changing_in(alloc, compiled, finder, &mut draws, text)? == wanted)
}

/// Whether a search with changes agrees with the plan alone.
fn agree(
    alloc: Global,
    fold: Fold,
    halves: [&[&[u8]]; 2],
    least: usize,
    seed: u64,
) -> Option<bool> {
    agree_in(alloc, How::Changing(seed), fold, halves, least, 1, seed)
}

#[test]
fn loses_no_end_between_two_choices(rt: HostRuntime) {
    for seed in 1..3 {
        assert_eq!(rt;
            agree(rt.alloc(), Fold::No, [&WORDS, &FIGURES], 4, seed),
            Some(true)
        );
    }
}

#[test]
fn loses_no_short_end_between_two_choices(rt: HostRuntime) {
    for seed in 1..3 {
        assert_eq!(rt;
            agree(rt.alloc(), Fold::No, [&FIGURES, &WORDS], 2, seed),
            Some(true)
        );
    }
}

#[test]
fn loses_no_end_in_either_case_between_two_choices(rt: HostRuntime) {
    for seed in 1..3 {
        assert_eq!(rt;
            agree(rt.alloc(), Fold::Ascii, [&CAPITALS, &WORDS], 4, seed),
            Some(true)
        );
    }
}
