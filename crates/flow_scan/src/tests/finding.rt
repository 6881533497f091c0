//! Searches by a finder and by the plan alone, in random texts of words: both find the same. The literals are pieces of
//! the text, so that it has many near-misses.
ghost use Rattle.std.specs.Prelude.{◌≡◌};

use crate::tests::owning::{How, agrees};
use list_index::ListIndex;
use lit_base::{Fold, LitList, Profile, RawList};
use lit_plan::Compiled;
use run_planner::plan;
use std::alloc::Global;
use text_search::{EndFinder, Engine, TextSearch, first_end_after};

/// The words of texts.
pub(super) const WORDS: [&[u8]; 12] = [
    b"con", b"nect", b"ion ", b"sess", b"the ", b"plan", b"ner ", b"of ", b"it", b"ation",
    b"search", b"ed ",
];

/// The same words, some in capitals.
pub(super) const CAPITALS: [&[u8]; 6] = [b"CON", b"nect", b"Ion ", b"sEss", b"the ", b"PLAN"];

/// The words of texts of another kind.
pub(super) const FIGURES: [&[u8]; 6] = [b"0x", b"1f", b"07", b", ", b"00", b"\xff\xfe"];

/// The least length of a text in bytes.
const LEN: usize = 200_000;

/// The length of its first half in bytes.
const HALF_LEN: usize = 100_000;

/// Random numbers, the same each time.
#[derive(Drop)]
pub(super) struct Draws {
    pub(super) state: u64,
}

impl Draws {
    /// A number below this one.
    pub(super) fn below(&mut self, count: usize) -> usize {
        self.state = self
            .state
            .wrapping_mul(6_364_136_223_846_793_005)
            .wrapping_add(1_442_695_040_888_963_407);
        (self.state >> 33) as usize % count.max(1)
    }
}

/// Adds random words, until a text has this many bytes.
fn add_words(text: &mut Vec<u8>, draws: &mut Draws, words: &[&[u8]], len: usize) -> Option<()> {
    for _ in 0..len {
        if text.len() >= len {
            return Some(());
        }
        let word = words.get(draws.below(words.len()))?;
        text.extend_from_slice(word).ok()?;
    }
    Some(())
}

/// A text whose halves consist of the given words.
pub(super) fn text_of(
    alloc: Global,
    draws: &mut Draws,
    first: &[&[u8]],
    second: &[&[u8]],
) -> Option<Vec<u8>> {
    let mut text = Vec::new(alloc);
    add_words(&mut text, draws, first, HALF_LEN)?;
    add_words(&mut text, draws, second, LEN)?;
    Some(text)
}

/// A piece of a text from a random position on, with one byte changed by `spoilt`.
fn piece_of(
    alloc: Global,
    draws: &mut Draws,
    text: &[u8],
    len: usize,
    spoilt: u8,
) -> Option<Vec<u8>> {
    let (_, after) = text.split_at_checked(draws.below(text.len()))?;
    let (piece, _) = after.split_at_checked(len.min(after.len()))?;
    let mut copy = Vec::from_slice(alloc, piece).ok()?;
    if let Some(byte) = copy.get_mut(draws.below(len)) {
        *byte ^= spoilt;
    }
    Some(copy)
}

/// Forty pieces of a text with at least `least` bytes, if the text has as many there; every second one has a changed
/// byte.
pub(super) fn pieces_of(
    alloc: Global,
    draws: &mut Draws,
    text: &[u8],
    least: usize,
    spoilt: u8,
) -> Option<RawList> {
    let mut raw = RawList::new(alloc);
    for _ in 0..20 {
        let len = least.saturating_add(draws.below(9));
        let whole = piece_of(alloc, draws, text, len, 0)?;
        raw.push(&whole).ok()?;
        let other = piece_of(alloc, draws, text, len, spoilt)?;
        raw.push(&other).ok()?;
    }
    Some(raw)
}

/// The plan of the literals.
pub(super) fn plan_of_pieces(alloc: Global, raw: &RawList, fold: Fold) -> Option<Compiled> {
    let (list, _) = LitList::normal(alloc, raw, fold).ok()?;
    let certificate = plan(alloc, &list, Profile::Eight).ok()?;
    Compiled::new(ListIndex::new(alloc, list).ok()?, certificate).ok()
}

/// The plan of the literals, in which case counts.
pub(super) fn plan_of(alloc: Global, literals: &[&[u8]]) -> Option<Compiled> {
    let mut raw = RawList::new(alloc);
    for literal in literals {
        raw.push(literal).ok()?;
    }
    plan_of_pieces(alloc, &raw, Fold::No)
}

/// The number of ends, and a sum that depends on their positions.
pub(super) type Summary = (usize, u64);

/// The position that a search has reached, and its ends so far.
pub(super) type Progress = (usize, Summary);

/// With one end more.
pub(super) fn with_end(summary: Summary, end: usize) -> Summary {
    let (count, sum) = summary;
    (
        count.saturating_add(1),
        sum.wrapping_mul(31).wrapping_add(end as u64),
    )
}

/// At most `count` more ends, by a finder whose search begins anew after each.
pub(super) fn more_by_finder(
    compiled: &Compiled,
    finder: &mut EndFinder,
    text: &[u8],
    progress: Progress,
    count: usize,
) -> Progress
    requires { finder.old ≡ compiled.now.literals }
    ensures { finder.new ≡ compiled.now.literals }
{
    let (mut from, mut summary) = progress;
    'ends: for _ in 0..count {
        let Some(end) = finder.next_end_in(&mut TextSearch::new(compiled, text), from) else {
            return (text.len(), summary);
        };
        summary = with_end(summary, end);
        from = end;
    }
    (from, summary)
}

/// The ends that the plan alone finds in a text, one after another.
fn add_plain(summary: Summary, compiled: &Compiled, text: &[u8]) -> Summary {
    let mut summary = summary;
    let mut from = 0;
    for _ in 0..=text.len() {
        let Some(end) = first_end_after(compiled, text, from) else {
            return summary;
        };
        summary = with_end(summary, end);
        from = end;
    }
    summary
}

/// The ends that a finder finds in the pieces of a text, each a text of its own.
fn tuned_in(compiled: &Compiled, finder: &mut EndFinder, text: &[u8], size: usize) -> Summary
    requires { finder.old ≡ compiled.now.literals }
    ensures { finder.new ≡ compiled.now.literals }
{
    let mut summary = (0, 0);
    'pieces: for piece in text.chunks(size.max(1)) {
        (_, summary) = more_by_finder(compiled, finder, piece, (0, summary), usize::MAX);
    }
    summary
}

/// The ends that the plan alone finds in the pieces of a text.
pub(super) fn plain_in(compiled: &Compiled, text: &[u8], size: usize) -> Summary {
    let mut summary = (0, 0);
    for piece in text.chunks(size.max(1)) {
        summary = add_plain(summary, compiled, piece);
    }
    summary
}

/// Whether both find the same in a whole text, four times, and then in pieces of this length.
pub(super) fn find_the_same(
    compiled: &Compiled,
    finder: &mut EndFinder,
    text: &[u8],
    size: usize,
) -> bool
    requires { finder.old ≡ compiled.now.literals }
{
    let wanted = plain_in(compiled, text, text.len());
    'times: for _ in 0..4 {
        if tuned_in(compiled, finder, text, text.len()) != wanted {
            return false;
        }
    }
    tuned_in(compiled, finder, text, size) == plain_in(compiled, text, size)
}

/// Whether a finder finds what the plan alone does. The halves of the text consist of the given words, and the literals
/// are forty pieces of it, as in `pieces_of`.
pub(super) fn agree_in(
    alloc: Global,
    how: How,
    fold: Fold,
    halves: [&[&[u8]]; 2],
    least: usize,
    spoilt: u8,
    seed: u64,
) -> Option<bool> {
    let [first, second] = halves;
    let mut draws = Draws { state: seed };
    let text = text_of(alloc, &mut draws, first, second)?;
    let raw = pieces_of(alloc, &mut draws, &text, least, spoilt)?;
    let compiled = plan_of_pieces(alloc, &raw, fold)?;
    agrees(alloc, &compiled, &text, how)
}

/// Whether a finder finds the same ends as the plan alone, at last in pieces of this length.
fn agree(
    alloc: Global,
    fold: Fold,
    halves: [&[&[u8]]; 2],
    least: usize,
    spoilt: u8,
    size: usize,
) -> Option<bool> {
    agree_in(alloc, How::Ends(size), fold, halves, least, spoilt, 1)
}

#[test]
fn finds_pieces_of_the_text(rt: HostRuntime) {
    assert_eq!(rt;
        agree(rt.alloc(), Fold::No, [&WORDS, &WORDS], 4, 0, 50_000),
        Some(true)
    );
}

#[test]
fn finds_short_ones_too(rt: HostRuntime) {
    assert_eq!(rt;
        agree(rt.alloc(), Fold::No, [&WORDS, &WORDS], 2, 0, 50_000),
        Some(true)
    );
}

#[test]
fn distinguishes_them_from_near_misses(rt: HostRuntime) {
    assert_eq!(rt;
        agree(rt.alloc(), Fold::No, [&WORDS, &WORDS], 4, 1, 50_000),
        Some(true)
    );
}

#[test]
fn finds_them_in_either_case(rt: HostRuntime) {
    assert_eq!(rt;
        agree(
            rt.alloc(),
            Fold::Ascii,
            [&CAPITALS, &CAPITALS],
            4,
            1,
            50_000
        ),
        Some(true)
    );
}

#[test]
fn goes_on_where_the_text_changes(rt: HostRuntime) {
    assert_eq!(rt;
        agree(rt.alloc(), Fold::No, [&WORDS, &FIGURES], 4, 1, 50_000),
        Some(true)
    );
}

#[test]
fn finds_them_in_texts_of_few_bytes(rt: HostRuntime) {
    assert_eq!(rt;
        agree(rt.alloc(), Fold::No, [&WORDS, &WORDS], 2, 1, 13),
        Some(true)
    );
}

/// Whether a finder that finds what the plan alone does in pieces of a text, twice, searches by factors then.
pub(super) fn goes_over_to_factors(
    compiled: &Compiled,
    finder: &mut EndFinder,
    text: &[u8],
    size: usize,
) -> bool
    requires { finder.old ≡ compiled.now.literals }
{
    let wanted = plain_in(compiled, text, size);
    let first = tuned_in(compiled, finder, text, size);
    let second = tuned_in(compiled, finder, text, size);
    first == wanted && second == wanted && finder.engine() == Engine::Factors
}

/// Literals whose last bytes do not show which of them a text has.
const LONG_WORDS: [&[u8]; 4] = [b"jumps over", b"lazy dog", b"the quick", b"brown fox"];

/// The last bytes of one of them, 25,000 times.
fn near_misses(alloc: Global) -> Option<Vec<u8>> {
    let mut text = Vec::new(alloc);
    for _ in 0..25_000 {
        text.extend_from_slice(b"....over").ok()?;
    }
    Some(text)
}

/// Whether it does for these literals, in pieces of this length.
fn goes_over_at_near_misses(alloc: Global, size: usize) -> Option<bool> {
    let text = near_misses(alloc)?;
    let compiled = plan_of(alloc, &LONG_WORDS)?;
    agrees(alloc, &compiled, &text, How::NearMisses(size))
}

#[test]
fn searches_by_factors_where_false_positives_are_many(rt: HostRuntime) {
    assert_eq!(rt; goes_over_at_near_misses(rt.alloc(), 200_000), Some(true));
    assert_eq!(rt; goes_over_at_near_misses(rt.alloc(), 4_096), Some(true));
}
