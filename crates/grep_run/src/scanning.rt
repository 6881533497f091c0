//! The lines of one input, from its first byte to its end, its fault, or the last line that is wanted.
ghost use Rattle.std.specs.Prelude.{◌≡◌, ℕ, ◌<◌, ◌||◌, Bool, List, [], IfOk, IfSome, Ok, Some, false, is_some, length, true};
ghost use Rattle.byte_io.specs.Sources.{Content, IsShort, coming_of};
ghost use Rattle.grep_run.specs.Growing.{are_shown};
ghost use Rattle.grep_run.specs.Requests.{test_of};
ghost use Rattle.line_pick.specs.Matching.{list_of};
ghost use Rattle.grep_run.specs.Scanning.{FeedsPiece, HasFed, ReadsLines, StandsAfter};
ghost use Rattle.grep_run.specs.declared.options.GrepOptions.{GrepOptions};
ghost use Rattle.grep_run.specs.Writers.{Writer, is_write_fault, writer};

use crate::block::Block;
use crate::options::GrepOptions;
use crate::request::{End, Request};
use crate::status::Stop;
use byte_io::{ByteIn, ByteOut, Failed, MAX_TURNS};
use line_pick::{Fault, LineRule, Next, Picker};
use std::alloc::AllocError;
use text_search::EndFinder;

/// A finder that tunes itself to the inputs of a request, if the request has enough literals to gain by it.
fn finder_for(request: &Request<'_>) -> Result<Option<EndFinder>, AllocError>
    ensures { IfOk result (λ finder. IfSome finder (λ list. list_of request.now.patterns.now.plan ≡ Some list)) }
{
    match request.patterns.plan.as_ref() {
        Some(plan) => EndFinder::new_unless_few(request.alloc, plan),
        None => Ok(None),
    }
}

/// A picker of the lines that a request selects, before any text, with the finder of the inputs before. It counts lines
/// only where their numbers are written, and keeps open lines only where lines are.
pub fn picker_for<'a>(request: &Request<'a>, finder: Option<EndFinder>) -> Picker<'a>
    requires { IfSome finder (λ list. list_of request.now.patterns.now.plan ≡ Some list) }
    ensures fed { HasFed (test_of request.now) [] result }
    ensures numbers { result.is_numbered ≡ request.now.options.now.number }
    ensures seen { result.has_bytes ≡ are_shown request.now.options.now }
    ensures plan { result.plan ≡ request.now.patterns.now.plan }
    ensures tunes { result.tunes ≡ is_some finder }
{
    let picker = line_picker_for(request, finder);
    if shows_lines(request.options) {
        picker
    } else {
        picker.without_bytes()
    }
}

/// Whether lines are written, and not names, counts or nothing.
pub fn shows_lines(options: &GrepOptions) -> bool
    ensures { result ≡ are_shown options.now }
{
    !(options.quiet || options.list || options.count)
}

/// A picker that keeps open lines, and counts lines where their numbers are written.
fn line_picker_for<'a>(request: &Request<'a>, finder: Option<EndFinder>) -> Picker<'a>
    requires { IfSome finder (λ list. list_of request.now.patterns.now.plan ≡ Some list) }
    ensures fed { HasFed (test_of request.now) [] result }
    ensures numbers { result.is_numbered ≡ request.now.options.now.number }
    ensures seen { result.has_bytes ≡ true }
    ensures plan { result.plan ≡ request.now.patterns.now.plan }
    ensures tunes { result.tunes ≡ is_some finder }
{
    let picker = numbered_picker_for(request, finder);
    if request.options.number {
        picker
    } else {
        picker.without_numbers()
    }
}

/// A picker that counts lines.
fn numbered_picker_for<'a>(request: &Request<'a>, finder: Option<EndFinder>) -> Picker<'a>
    requires { IfSome finder (λ list. list_of request.now.patterns.now.plan ≡ Some list) }
    ensures fed { HasFed (test_of request.now) [] result }
    ensures numbers { result.is_numbered ≡ true }
    ensures seen { result.has_bytes ≡ true }
    ensures plan { result.plan ≡ request.now.patterns.now.plan }
    ensures tunes { result.tunes ≡ is_some finder }
{
    let mut picker = plain_picker_for(request);
    match finder {
        Some(finder) => {
            picker.tune_by(finder);
            picker
        }
        None => picker,
    }
}

/// A picker that counts lines, without a finder.
fn plain_picker_for<'a>(request: &Request<'a>) -> Picker<'a>
    ensures fed { HasFed (test_of request.now) [] result }
    ensures numbers { result.is_numbered ≡ true }
    ensures seen { result.has_bytes ≡ true }
    ensures plan { result.plan ≡ request.now.patterns.now.plan }
    ensures tunes { result.tunes ≡ false }
{
    let rule = LineRule {
        invert: request.options.invert,
        whole: request.options.whole,
    };
    let patterns = request.patterns;
    let plan = patterns.plan.as_ref();
    Picker::new(request.alloc, plan, patterns.has_empty, rule)
}

/// Reads the lines of an input into the block, as far as they are wanted. It writes the lines of a piece before it
/// reads more, since the next read may wait. At the end the block holds at most the text of the last line. In a long
/// run, or after the first piece, the search tunes itself.
pub fn read_lines<'a, I: ByteIn, W: ByteOut>(
    request: &Request<'a>,
    is_long_run: bool,
    picker: &mut Picker<'a>,
    input: &mut I,
    block: &mut Block<'a>,
    piece: &mut [u8],
    out: &mut W,
) -> Result<End, Stop>
    requires some { 0 < length piece.old }
    requires plan { picker.old.plan ≡ request.now.patterns.now.plan }
    ensures answer { (o : GrepOptions) (test : List ℕ → Bool) (name : List ℕ) (c : Content) (before : Writer)
        → StandsAfter o test name [] picker.old block.old before (writer W.written W.has_failed out.old)
        → I.coming input.old ≡ Some (coming_of c) → IsShort c
        → ReadsLines o test name c result block.new before (writer W.written W.has_failed out.new) }
    ensures plan { picker.new.plan ≡ picker.old.plan }
    ensures flag { W.has_failed out.new ≡ (W.has_failed out.old || is_write_fault result) }

    // A read that failed is not tried again, whatever is known of the input.
    ensures unread { result ≡ Ok End.Clean → I.has_failed input.new ≡ I.has_failed input.old }
{
    for turn in 0..MAX_TURNS {
        match input.read_some(piece) {
            Err(Failed) => return Ok(End::Fault),
            Ok(0) => return end_lines(picker, block),
            Ok(count) => {
                let is_long = is_long_run || turn > 0;
                if let Some(end) = feed(request, is_long, picker, &piece[..count], block, out)? {
                    return Ok(end);
                }
            }
        }
    }
    Ok(End::Fault)
}

/// Takes the next piece of an input, and writes the lines that it ends. Returns `Some` if no further piece is wanted,
/// or if there are too many bytes. If the input is long, the search tunes itself to it.
fn feed<'a, W: ByteOut>(
    request: &Request<'a>,
    is_long: bool,
    picker: &mut Picker<'a>,
    piece: &[u8],
    block: &mut Block<'a>,
    out: &mut W,
) -> Result<Option<End>, Stop>
    requires { picker.old.plan ≡ request.now.patterns.now.plan }
    ensures answer { (o : GrepOptions) (test : List ℕ → Bool) (name text : List ℕ) (before : Writer)
        → StandsAfter o test name text picker.old block.old before (writer W.written W.has_failed out.old)
        → FeedsPiece o test name text piece.now result picker.new block.new before (writer W.written W.has_failed out.new) }
    ensures plan { picker.new.plan ≡ picker.old.plan }
    ensures flag { W.has_failed out.new ≡ (W.has_failed out.old || is_write_fault result) }
{
    tune_if(is_long, request, picker);
    match picker.feed(piece, block) {
        Ok(Next::More) => {
            block.write(out)?;
            Ok(None)
        }
        Ok(Next::Stop) => Ok(Some(End::Clean)),
        Err(Fault::StreamTooLong) => Ok(Some(End::Fault)),
        Err(_) => Err(Stop::OutOfMemory),
    }
}

/// Gives a picker a finder from now on, if the input is long and there is memory for one. Measured when a finder's
/// tables were written at once, and not since they are written late: to make it took half a millisecond, as much as a
/// whole run over a small input.
fn tune_if<'a>(is_long: bool, request: &Request<'a>, picker: &mut Picker<'a>)
    requires { picker.old.plan ≡ request.now.patterns.now.plan }
    ensures { picker.new ≡ record picker.old { tunes = picker.new.tunes } }
{
    if !is_long || picker.tunes() {
        return;
    }
    if let Ok(Some(finder)) = finder_for(request) {
        picker.tune_by(finder);
    }
}

/// Takes the last line of an input, if no newline ends it.
fn end_lines<'a>(picker: &mut Picker<'a>, block: &mut Block<'a>) -> Result<End, Stop>
    ensures answer { (o : GrepOptions) (test : List ℕ → Bool) (name : List ℕ) (c : Content) (before out : Writer)
        → c.is_faulty ≡ false → IsShort c → StandsAfter o test name c.text picker.old block.old before out
        → ReadsLines o test name c result block.new before out }
    ensures plan { picker.new.plan ≡ picker.old.plan }
    ensures flag { is_write_fault result ≡ false }
{
    match picker.finish(block) {
        Ok(_) => Ok(End::Clean),
        Err(_) => Err(Stop::OutOfMemory),
    }
}
