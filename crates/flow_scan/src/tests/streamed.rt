//! Streams that are searched by a finder have the hits of the whole text.
ghost use Rattle.std.specs.Prelude.{◌≡◌};

use super::finding::{CAPITALS, FIGURES, WORDS, agree_in};
use crate::scanner::Scanner;
use crate::scanning::scan_all;
use crate::tests::owning::How;
use lit_base::Fold;
use lit_plan::Compiled;
use std::alloc::Global;
use text_ends::Hit;
use text_search::{EndFinder, Engine};

/// Feeds a piece in two: up to the first end by which a hundred hits were gained, and the rest.
fn feed(
    scanner: &mut Scanner<'_>,
    finder: &mut EndFinder,
    piece: &[u8],
    hits: &mut Vec<Hit>,
) -> Option<()>
    requires { finder.old ≡ scanner.old.plan.literals }
    ensures scan { scanner.new.plan ≡ scanner.old.plan }
    ensures finder { finder.new ≡ finder.old }
{
    let count = scanner.feed_until(finder, piece, 100, hits).ok()?;
    let (_, rest) = piece.split_at(count);
    scanner.feed_until(finder, rest, usize::MAX, hits).ok()?;
    Some(())
}

/// Whether a text in pieces of this length has these hits.
fn are_fed(
    scanner: Scanner<'_>,
    finder: &mut EndFinder,
    hits: Vec<Hit>,
    text: &[u8],
    size: usize,
    wanted: &[Hit],
) -> Option<bool>
    requires { finder.old ≡ scanner.plan.literals }
    ensures { finder.new ≡ finder.old }
{
    let (mut scanner, mut hits) = (scanner, hits);
    'pieces: for piece in text.chunks(size.max(1)) {
        feed(&mut scanner, finder, piece, &mut hits)?;
    }
    Some(hits.as_slice() == wanted)
}

/// Whether streams of one text, in pieces of all these lengths and one after another by the same finder, have the
/// text's hits. There have to be more than 100.
pub(super) fn feed_the_same(
    alloc: Global,
    compiled: &Compiled,
    finder: &mut EndFinder,
    text: &[u8],
) -> Option<bool>
    requires { finder.old ≡ compiled.now.literals }
{
    let wanted = scan_all(alloc, compiled, text).ok()?;
    'sizes: for size in [65536, 20_000, 65536, 1000, 61] {
        let scanner = Scanner::new(alloc, compiled).ok()?;
        if !are_fed(scanner, finder, Vec::new(alloc), text, size, &wanted)? {
            return Some(false);
        }
    }
    Some(wanted.len() > 100)
}

/// Whether streams agree with the whole text.
fn agree(alloc: Global, fold: Fold, halves: [&[&[u8]]; 2], least: usize) -> Option<bool> {
    agree_in(alloc, How::Stream, fold, halves, least, 1, 11)
}

#[test]
fn finds_the_hits_of_the_whole_text(rt: HostRuntime) {
    assert_eq!(rt;
        agree(rt.alloc(), Fold::No, [&WORDS, &FIGURES], 4),
        Some(true)
    );
}

#[test]
fn finds_short_hits_of_a_stream_in_either_case(rt: HostRuntime) {
    assert_eq!(rt;
        agree(rt.alloc(), Fold::Ascii, [&CAPITALS, &WORDS], 2),
        Some(true)
    );
}

/// Whether a finder tunes itself to a text in pieces of this length, and finds the text's hits.
pub(super) fn tunes_in_pieces(
    alloc: Global,
    compiled: &Compiled,
    finder: &mut EndFinder,
    text: &[u8],
    size: usize,
) -> Option<bool>
    requires { finder.old ≡ compiled.now.literals }
{
    let wanted = scan_all(alloc, compiled, text).ok()?;
    let scanner = Scanner::new(alloc, compiled).ok()?;
    let are_fed = are_fed(scanner, finder, Vec::new(alloc), text, size, &wanted)?;
    Some(are_fed && finder.engine() != Engine::Prefilter)
}

/// Whether it does in a text of words.
fn tunes(alloc: Global, size: usize) -> Option<bool> {
    let how = How::StreamTuned(size);
    agree_in(alloc, how, Fold::No, [&WORDS, &WORDS], 4, 1, 23)
}

#[test]
fn tunes_to_small_pieces(rt: HostRuntime) {
    for size in [16_384, 4_096, 1_000] {
        assert_eq!(rt; tunes(rt.alloc(), size), Some(true));
    }
}
