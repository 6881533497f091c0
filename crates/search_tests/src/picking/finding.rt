//! Pickers with a finder that tunes itself to the text, compared with pickers by the plan alone.
ghost use Rattle.std.specs.Prelude.{◌≡◌, Some};
ghost use Rattle.line_pick.specs.Matching.{list_of};

use super::*;
use text_search::Engine;

/// Literals, some of them in the text below, and pieces of the others.
const WORDS: &[u8] = b"cats\nbirds\nhorse\nhens\n";

/// Lines; two of them hold a literal.
const LINES: &[u8] = b"a cat or a bird\nbirds\nhouses and hen\nthe horse\n";

/// Literals whose last bytes do not show which of them a text has.
const PHRASES: &[u8] = b"jumps over\nlazy dog\nthe quick\nbrown fox\n";

/// The plan of these literals.
fn plan_of(alloc: Global, literals: &[u8]) -> Option<Compiled> {
    let mut raw = RawList::new(alloc);
    raw.add_file_bytes(literals).ok()?;
    let (list, _) = LitList::normal(alloc, &raw, Fold::No).ok()?;
    compile(alloc, list, Profile::Eight).ok()
}

/// The lines, 10,000 times.
fn long_text(alloc: Global) -> Option<Vec<u8>> {
    let mut text = Vec::new(alloc);
    for _ in 0..10_000 {
        text.extend_from_slice(LINES).ok()?;
    }
    Some(text)
}

/// When a picker gets a finder.
#[derive(Clone, Copy, PartialEq, Eq)]
enum Tuned {
    Never,
    AtFirst,
    Halfway,
}

/// What a picker emits of a text: of the first half in one piece, of the rest in pieces of 20,000 bytes.
fn emitted_by(
    alloc: Global,
    compiled: &Compiled,
    picker: &mut Picker<'_>,
    tuned: Tuned,
    text: &[u8],
) -> Option<Vec<u8>>
    requires { list_of picker.old.plan ≡ Some compiled.now.literals }
{
    let (prefix, rest) = text.split_at(text.len() / 2);
    if tuned == Tuned::AtFirst {
        picker.tune_by(EndFinder::new(alloc, compiled).ok()?);
    }
    let mut sink = Kept::new(alloc, Mood::Takes);
    picker.feed(prefix, &mut sink).ok()?;
    if tuned == Tuned::Halfway {
        picker.tune_by(EndFinder::new(alloc, compiled).ok()?);
    }
    for piece in rest.chunks(20_000) {
        picker.feed(piece, &mut sink).ok()?;
    }
    picker.finish(&mut sink).ok()?;
    Some(sink.text)
}

/// What a picker emitted, and the engine of its finder at the end.
#[derive(Drop)]
struct Outcome {
    text: Vec<u8>,
    engine: Option<Engine>,
}

/// What a picker for this plan emits of a text.
fn emitted(
    alloc: Global,
    compiled: &Compiled,
    rule: LineRule,
    tuned: Tuned,
    text: &[u8],
) -> Option<Outcome> {
    if !is_in_lines(compiled) {
        return None;
    }
    let mut picker = Picker::new(alloc, Some(compiled), false, rule);
    let text = emitted_by(alloc, compiled, &mut picker, tuned, text);
    let engine = engine_of(picker.into_finder());
    Some(Outcome {
        text: text?,
        engine,
    })
}

/// The engine of a finder.
fn engine_of(finder: Option<EndFinder>) -> Option<Engine> {
    Some(finder?.engine())
}

/// Whether pickers without a finder, with one, and with one from the middle on emit the same, and some lines.
fn emit_the_same(alloc: Global, rule: LineRule, text: &[u8]) -> Option<bool> {
    let compiled = plan_of(alloc, WORDS)?;
    let plain = emitted(alloc, &compiled, rule, Tuned::Never, text)?;
    let tuned = emitted(alloc, &compiled, rule, Tuned::AtFirst, text)?;
    let late = emitted(alloc, &compiled, rule, Tuned::Halfway, text)?;
    let are_alike = plain.text.as_slice() == tuned.text.as_slice()
        && plain.text.as_slice() == late.text.as_slice();
    let hand_back = plain.engine.is_none() && tuned.engine.is_some() && late.engine.is_some();
    Some(!plain.text.is_empty() && are_alike && hand_back)
}

/// Whether they do in many short lines.
fn emit_the_same_lines(alloc: Global, rule: LineRule) -> Option<bool> {
    emit_the_same(alloc, rule, &long_text(alloc)?)
}

#[test]
fn emits_the_same_lines_as_it_tunes(rt: HostRuntime) {
    assert_eq!(rt; emit_the_same_lines(rt.alloc(), PARTS), Some(true));
}

#[test]
fn emits_the_same_whole_lines_as_it_tunes(rt: HostRuntime) {
    assert_eq!(rt; emit_the_same_lines(rt.alloc(), WHOLE), Some(true));
}

/// Adds 65,520 bytes without a literal.
fn add_filling(text: &mut Vec<u8>) -> Option<()> {
    for _ in 0..4_368 {
        text.extend_from_slice(b"houses and hen ").ok()?;
    }
    Some(())
}

/// Twenty lines of 131,000 bytes and more. Every second one has a literal that begins before its byte 65,536 and ends after
/// it.
fn long_lines(alloc: Global) -> Option<Vec<u8>> {
    let mut text = Vec::new(alloc);
    for number in 0..20 {
        add_filling(&mut text)?;
        if number % 2 == 0 {
            text.extend_from_slice(b"for some the horse").ok()?;
        }
        add_filling(&mut text)?;
        text.push(b'\n').ok()?;
    }
    Some(text)
}

/// Whether they do in a few long lines.
fn emit_the_same_long_lines(alloc: Global) -> Option<bool> {
    emit_the_same(alloc, PARTS, &long_lines(alloc)?)
}

#[test]
fn emits_the_same_long_lines_in_pieces(rt: HostRuntime) {
    assert_eq!(rt; emit_the_same_long_lines(rt.alloc()), Some(true));
}

/// Lines that hold the last bytes of one of the phrases, and none of them.
fn near_misses(alloc: Global) -> Option<Vec<u8>> {
    let mut text = Vec::new(alloc);
    for _ in 0..8_000 {
        text.extend_from_slice(b"....over....over\n").ok()?;
    }
    Some(text)
}

/// Whether a picker's finder leaves the prefilter in such lines.
fn tunes(alloc: Global) -> Option<bool> {
    let compiled = plan_of(alloc, PHRASES)?;
    let text = near_misses(alloc)?;
    let tuned = emitted(alloc, &compiled, PARTS, Tuned::AtFirst, &text)?;
    Some(tuned.text.is_empty() && tuned.engine? != Engine::Prefilter)
}

#[test]
fn tunes_to_many_false_positives(rt: HostRuntime) {
    assert_eq!(rt; tunes(rt.alloc()), Some(true));
}
