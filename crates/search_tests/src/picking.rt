//! What no clause says: worked rows, and the texts of faults.
mod columns;
mod finding;
mod numbers;
mod whole_lines;

use flow_scan::{Compiled, EndFinder};
use line_pick::{Fault, LineRule, Next, Picker, Sink, is_in_lines, standing_law};
use list_plan::compile;
use lit_base::{Fold, LitList, Profile, RawList};
use std::alloc::{AllocError, Global};
use std::test::Fail;

const PARTS: LineRule = LineRule {
    invert: false,
    whole: false,
};

const WHOLE: LineRule = LineRule {
    invert: false,
    whole: true,
};

/// What a sink answers to a line.
#[derive(Clone, Copy)]
enum Mood {
    Takes,
    StopsAt(u64),
    FailsAt(u64, Fault),
}

/// A sink that keeps each line after its number.
#[derive(Drop)]
struct Kept {
    alloc: Global,
    text: Vec<u8>,
    mood: Mood,
}

impl Kept {
    fn new(alloc: Global, mood: Mood) -> Kept {
        Kept {
            alloc,
            text: Vec::new(alloc),
            mood,
        }
    }

    fn keep(&mut self, number: u64, bytes: &[u8]) -> Result<(), AllocError> {
        let prefix = format!(in self.alloc; "{number}:")?;
        self.text.extend_from_slice(prefix.as_bytes())?;
        self.text.extend_from_slice(bytes)?;
        self.text.push(b'\n')?;
        Ok(())
    }
}

impl Sink for Kept {
    ghost takes = { λ _ _ _ _ _. Unit {0} };

    fn line(&mut self, number: u64, bytes: &[u8]) -> Result<Next, Fault> {
        self.keep(number, bytes)?;
        match self.mood {
            Mood::StopsAt(last) if last == number => Ok(Next::Stop),
            Mood::FailsAt(last, Fault::WriteFault) if last == number => Err(Fault::WriteFault),
            Mood::FailsAt(last, _) if last == number => Err(Fault::OutOfMemory),
            _ => Ok(Next::More),
        }
    }
}

/// The plan of one literal, case-sensitive.
fn plan_of_one(alloc: Global, literal: &[u8]) -> Option<Compiled> {
    plan_under(alloc, literal, Fold::No)
}

/// The plan of one literal under a fold.
fn plan_under(alloc: Global, literal: &[u8], fold: Fold) -> Option<Compiled> {
    let mut raw = RawList::new(alloc);
    raw.push(literal).ok()?;
    let (list, _) = LitList::normal(alloc, &raw, fold).ok()?;
    compile(alloc, list, Profile::Eight).ok()
}

/// A call of a picker, with a piece or at the end, and its answer with what the sink has kept then.
type Turn = (Option<&'static [u8]>, Result<Next, Fault>, &'static [u8]);

/// The first of the turns, from 0, whose answer or kept lines are others.
fn first_wrong(
    picker: &mut Picker<'_>,
    sink: &mut Kept,
    turns: &[Turn],
) -> Result<Option<usize>, AllocError> {
    for (place, turn) in turns.iter().enumerate() {
        let (piece, answer, kept) = *turn;
        let given = match piece {
            Some(piece) => picker.feed(piece, sink),
            None => picker.finish(sink),
        };
        if given == answer && sink.text.as_slice() == kept {
            continue;
        }
        if given == Err(Fault::OutOfMemory) && kept.starts_with(sink.text.as_slice()) {
            return Err(AllocError);
        }
        return Ok(Some(place));
    }
    Ok(None)
}

/// What a picker emits of a text in pieces of `size` bytes. A function that owns a picker has to prove at each of its
/// exits that the whole picker may be dropped, which takes long, so this one borrows it.
fn emitted_in_pieces(
    alloc: Global,
    picker: &mut Picker<'_>,
    text: &[u8],
    size: usize,
) -> Option<Vec<u8>> {
    let mut sink = Kept::new(alloc, Mood::Takes);
    for piece in text.chunks(size.max(1)) {
        picker.feed(piece, &mut sink).ok()?;
    }
    picker.finish(&mut sink).ok()?;
    Some(sink.text)
}

/// What stands for the first wrong turn where a plan is none of a picker's.
const NO_PICKER: Option<usize> = Some(usize::MAX);

/// The first wrong turn of a picker by this plan, with a sink of this mood.
fn first_wrong_by(
    alloc: Global,
    compiled: &Compiled,
    rule: LineRule,
    mood: Mood,
    turns: &[Turn],
) -> Result<Option<usize>, AllocError> {
    if !is_in_lines(compiled) {
        return Ok(NO_PICKER);
    }
    let mut picker = Picker::new(alloc, Some(compiled), false, rule);
    let mut sink = Kept::new(alloc, mood);
    first_wrong(&mut picker, &mut sink, turns)
}

/// The same of a picker for this literal.
fn first_wrong_of(
    alloc: Global,
    literal: &[u8],
    rule: LineRule,
    mood: Mood,
    turns: &[Turn],
) -> Result<Option<usize>, AllocError> {
    match plan_of_one(alloc, literal) {
        Some(compiled) => first_wrong_by(alloc, &compiled, rule, mood, turns),
        None => Err(AllocError),
    }
}

/// Turns at which the sink gets the second line alone.
static IN_PIECES: [Turn; 6] = [
    (Some(b"conc"), Ok(Next::More), b""),
    (Some(b"at\nca"), Ok(Next::More), b""),
    (Some(b"t"), Ok(Next::More), b""),
    (None, Ok(Next::More), b"2:cat\n"),
    (None, Ok(Next::Stop), b"2:cat\n"),
    (Some(b"cat\n"), Ok(Next::Stop), b"2:cat\n"),
];

#[test]
fn compares_a_line_in_pieces_as_a_whole(rt: HostRuntime) -> Result<(), Fail> {
    let wrong = first_wrong_of(rt.alloc(), b"cat", WHOLE, Mood::Takes, &IN_PIECES)?;
    assert_eq!(rt; wrong, None);
    Ok(())
}

/// Turns at which the sink gets the empty line alone.
static EMPTY_LINE: [Turn; 2] = [
    (Some(b"\na\n"), Ok(Next::More), b"1:\n"),
    (None, Ok(Next::More), b"1:\n"),
];

#[test]
fn takes_the_null_pattern_as_the_empty_line(rt: HostRuntime) -> Result<(), Fail> {
    let mut picker = Picker::new(rt.alloc(), None, true, WHOLE);
    let mut sink = Kept::new(rt.alloc(), Mood::Takes);
    assert_eq!(rt; first_wrong(&mut picker, &mut sink, &EMPTY_LINE)?, None);
    Ok(())
}

/// Turns that go on after a stop.
static STOPPED: [Turn; 3] = [
    (Some(b"a\nb\na\na\n"), Ok(Next::Stop), b"1:a\n3:a\n"),
    (Some(b"a\n"), Ok(Next::Stop), b"1:a\n3:a\n"),
    (None, Ok(Next::Stop), b"1:a\n3:a\n"),
];

#[test]
fn emits_nothing_after_a_stop(rt: HostRuntime) -> Result<(), Fail> {
    let wrong = first_wrong_of(rt.alloc(), b"a", PARTS, Mood::StopsAt(3), &STOPPED)?;
    assert_eq!(rt; wrong, None);
    Ok(())
}

/// Turns that go on after a line that cannot be written.
static UNWRITTEN: [Turn; 4] = [
    (Some(b"a"), Ok(Next::More), b""),
    (Some(b"\naa\na\n"), Err(Fault::WriteFault), b"1:a\n2:aa\n"),
    (Some(b"a\n"), Err(Fault::WriteFault), b"1:a\n2:aa\n"),
    (None, Err(Fault::WriteFault), b"1:a\n2:aa\n"),
];

/// Turns that go on after a line for which there is no memory.
static UNKEPT: [Turn; 4] = [
    (Some(b"a"), Ok(Next::More), b""),
    (Some(b"\naa\na\n"), Err(Fault::OutOfMemory), b"1:a\n2:aa\n"),
    (Some(b"a\n"), Err(Fault::OutOfMemory), b"1:a\n2:aa\n"),
    (None, Err(Fault::OutOfMemory), b"1:a\n2:aa\n"),
];

#[test]
fn answers_a_fault_of_the_sink_again(rt: HostRuntime) -> Result<(), Fail> {
    let unwritten = Mood::FailsAt(2, Fault::WriteFault);
    let wrong = first_wrong_of(rt.alloc(), b"a", PARTS, unwritten, &UNWRITTEN)?;
    assert_eq!(rt; wrong, None);
    let unkept = Mood::FailsAt(2, Fault::OutOfMemory);
    let wrong = first_wrong_of(rt.alloc(), b"a", PARTS, unkept, &UNKEPT)?;
    assert_eq!(rt; wrong, None);
    Ok(())
}

/// Whether a fault has this number and text.
fn is_named(alloc: Global, fault: Fault, number: u8, text: &str) -> Option<bool> {
    let shown = format!(in alloc; "{fault}").ok()?;
    Some(fault.number() == number && shown.as_str() == text)
}

#[test]
fn names_its_faults(rt: HostRuntime) {
    let alloc = rt.alloc();
    standing_law();
    assert_eq!(rt;
        is_named(alloc, Fault::OutOfMemory, 1, "out of memory"),
        Some(true)
    );
    assert_eq!(rt;
        is_named(alloc, Fault::WriteFault, 18, "a write failed"),
        Some(true)
    );
    let too_long = is_named(alloc, Fault::StreamTooLong, 20, "the stream is too long");
    assert_eq!(rt; too_long, Some(true));
}
