//! Runs over known sources.
use crate::borrowed_texts::{BorrowedTexts, Text};
use crate::kept_files::KeptFiles;
use byte_io::{ByteIn, CutOut, Failed, Missing, Opener};
use grep_run::{GrepOptions, Status, Stop, run};
use lit_base::Fold;
use std::alloc::{AllocError, Global};
use std::process::Abort;

/// Options by the letters of flags, with one pattern list.
fn options_by(
    alloc: Global,
    flags: &str,
    list: &str,
    operands: &[&str],
) -> Result<GrepOptions, AllocError> {
    Ok(GrepOptions {
        fold: Fold::No,
        invert: flags.contains('v'),
        whole: flags.contains('x'),
        count: flags.contains('c'),
        list: flags.contains('l'),
        number: flags.contains('n'),
        quiet: flags.contains('q'),
        silent: flags.contains('s'),
        lists: texts(alloc, &[list])?,
        files: Vec::new(alloc),
        operands: texts(alloc, operands)?,
    })
}

fn texts(alloc: Global, words: &[&str]) -> Result<Vec<String>, AllocError> {
    let mut copies = Vec::new(alloc);
    for word in words {
        copies.push(String::from_str(alloc, word)?)?;
    }
    Ok(copies)
}

/// `f` with a line, `g` with another, `none`, and a standard input that fails after `a\nba`.
fn borrowed(alloc: Global) -> Result<BorrowedTexts<'static>, AllocError> {
    let f = ("f", Some(Text::whole(b"a cat\ndog\n")));
    let g = ("g", Some(Text::whole(b"b\na")));
    Ok(BorrowedTexts {
        named: vec![in alloc; f, g, ("none", None)]?,
        standard: vec![in alloc; Text::cut(b"a\nba")]?,
    })
}

const OUT_OF_MEMORY: &[u8] = b"litgrep: out of memory\n";

/// Whether messages are a prefix of the wanted ones, and after them the one on want of memory.
fn is_starved(messages: &[u8], wanted: &[u8]) -> bool {
    if !messages.ends_with(OUT_OF_MEMORY) {
        return false;
    }
    let (before, _) = messages.split_at(messages.len() - OUT_OF_MEMORY.len());
    wanted.starts_with(before)
}

/// What a run leaves: its status, whether its output and its messages are these, and whether it asked for
/// these operands alone.
type Ran = (Status, bool, bool, bool);

/// Searches operands for `a`. `OutOfMemory` where the last message is on want of memory, and all before it is a prefix
/// of what is wanted.
fn ran<R: Abort + AllocGlobal>(
    rt: &R,
    flags: &str,
    operands: &[&str],
    asked: &[&str],
    output: &[u8],
    messages: &[u8],
) -> Result<Ran, Stop> {
    let options = options_by(rt.alloc(), flags, "a", operands)?;
    let mut files = KeptFiles::new(rt, borrowed(rt.alloc())?);
    let (mut out_room, mut err_room) = ([0; 200], [0; 200]);
    let mut out = CutOut::within(&mut out_room);
    let mut err = CutOut::within(&mut err_room);
    let status = run(rt.alloc(), &options, &mut files, &mut out, &mut err);
    let is_prefix = output.starts_with(out.written()) && files.was_asked_within(asked);
    if status == Status::Trouble && is_prefix && is_starved(err.written(), messages) {
        return Err(Stop::OutOfMemory);
    }
    let is_output = out.written() == output;
    let is_message = err.written() == messages;
    Ok((status, is_output, is_message, files.was_asked_for(asked)))
}

const UNREADABLE: &[u8] = b"litgrep: (standard input): cannot be read\n";

/// What a run leaves that is as wanted.
fn as_wanted(status: Status) -> Result<Ran, Stop> {
    Ok((status, true, true, true))
}

#[test]
fn shows_the_lines_before_a_fault(rt: HostRuntime) {
    let got = ran(&rt, "", &[], &["-"], b"a\n", UNREADABLE);
    assert_eq!(rt; got, as_wanted(Status::Trouble));
}

#[test]
fn counts_the_lines_before_a_fault(rt: HostRuntime) {
    let got = ran(&rt, "c", &[], &["-"], b"1\n", UNREADABLE);
    assert_eq!(rt; got, as_wanted(Status::Trouble));
}

#[test]
fn names_an_input_that_fails_after_a_line(rt: HostRuntime) {
    let got = ran(&rt, "l", &[], &["-"], b"(standard input)\n", b"");
    assert_eq!(rt; got, as_wanted(Status::Selected));
}

#[test]
fn asks_for_operands_in_order(rt: HostRuntime) {
    let operands = ["g", "none", "f", "f"];
    let output = b"g:2:a\nf:1:a cat\n";
    let messages = b"litgrep: none: cannot be read\nlitgrep: f: cannot be read\n";
    let got = ran(&rt, "n", &operands, &operands, output, messages);
    assert_eq!(rt; got, as_wanted(Status::Trouble));
}

#[test]
fn asks_for_nothing_after_a_line_if_quiet(rt: HostRuntime) {
    let got = ran(&rt, "q", &["f", "g", "-"], &["f"], b"", b"");
    assert_eq!(rt; got, as_wanted(Status::Selected));
}

/// The status of a run whose output takes nothing, and whether it is silent.
fn ran_full<R: Abort + AllocGlobal>(rt: &R, flags: &str) -> Result<(Status, bool), Stop> {
    let options = options_by(rt.alloc(), flags, "a", &[])?;
    let mut files = KeptFiles::new(rt, borrowed(rt.alloc())?);
    let mut err_room = [0; 200];
    let mut out = CutOut::within(&mut []);
    let mut err = CutOut::within(&mut err_room);
    let status = run(rt.alloc(), &options, &mut files, &mut out, &mut err);
    if status == Status::Trouble && is_starved(err.written(), b"") {
        return Err(Stop::OutOfMemory);
    }
    Ok((status, err.written().is_empty()))
}

#[test]
fn says_nothing_of_an_input_whose_count_is_not_written(rt: HostRuntime) {
    assert_eq!(rt; ran_full(&rt, "c"), Ok((Status::Trouble, true)));
}

/// An input that may be read once, and then has the lines `a` and `b`.
#[derive(Drop)]
struct OneRead<'a, R> {
    rt: &'a R,
    given: usize,
}

impl<R: Abort> ByteIn for OneRead<'_, R> {
    ghost use Rattle.std.specs.Prelude.{None, false};

    ghost coming = { λ _. None };

    ghost given = { λ d. d.given };

    ghost has_failed = { λ _. false };

    fn read_some(&mut self, buf: &mut [u8]) -> Result<usize, Failed> {
        assert!(*self.rt; self.given == 0, "it is read once");
        let lines = b"a\nb\n";
        let count = lines.len().min(buf.len());
        buf[..count].copy_from_slice(&lines[..count]);
        self.given = count;
        Ok(count)
    }
}

/// A standard input that may be read once.
#[derive(Drop)]
struct OneInput<'a, R> {
    rt: &'a R,
}

impl<'a, R: Abort> Opener for OneInput<'a, R> {
    type Input = OneRead<'a, R>;

    ghost use Rattle.std.specs.Prelude.{None};

    ghost sources = { λ _. None };

    fn open_named(&mut self, _name: &str) -> Result<OneRead<'a, R>, Missing> {
        Err(Missing)
    }

    fn standard_input(&mut self) -> OneRead<'a, R> {
        OneRead {
            rt: self.rt,
            given: 0,
        }
    }
}

/// The status of a run over that standard input, and whether this is its output.
fn ran_once<R: Abort + AllocGlobal>(
    rt: &R,
    flags: &str,
    output: &[u8],
) -> Result<(Status, bool), Stop> {
    let options = options_by(rt.alloc(), flags, "a", &[])?;
    let (mut out_room, mut err_room) = ([0; 200], [0; 200]);
    let mut out = CutOut::within(&mut out_room);
    let mut err = CutOut::within(&mut err_room);
    let status = run(
        rt.alloc(),
        &options,
        &mut OneInput { rt },
        &mut out,
        &mut err,
    );
    if status == Status::Trouble && is_starved(err.written(), b"") {
        return Err(Stop::OutOfMemory);
    }
    Ok((status, out.written() == output && err.written().is_empty()))
}

#[test]
fn reads_no_more_after_a_line_if_quiet(rt: HostRuntime) {
    assert_eq!(rt; ran_once(&rt, "q", b""), Ok((Status::Selected, true)));
}

#[test]
fn reads_no_more_after_a_line_for_its_name(rt: HostRuntime) {
    let wanted = Ok((Status::Selected, true));
    assert_eq!(rt; ran_once(&rt, "l", b"(standard input)\n"), wanted);
}
