//! Inputs searched one after another: their blocks, their messages, and what was found.
ghost use Rattle.std.specs.Prelude.{◌≡◌, ◌+◌, ◌<◌, ◌≤◌, ◌||◌, ◌&&◌, [], IfOk, IfSome, IsOk, None, OnErr, OnOk, Some, false, if◌then◌else◌, map, not, string_bytes, true, vec_len};
ghost use Rattle.std.proofs.Props.{props};
ghost use Rattle.byte_io.specs.Sources.{Content, IsShort, ask_of, coming_of};
ghost use Rattle.byte_io.specs.Devices.{IfKnown};
ghost use Rattle.grep_run.specs.Messages.{unreadable};
ghost use Rattle.grep_run.specs.Options.{searched_of};
ghost use Rattle.grep_run.specs.Requests.{test_of};
ghost use Rattle.grep_run.specs.Searching.{Searches, SearchesAsk, SearchesAsks};
ghost use Rattle.grep_run.specs.declared.searcher.TheConstants.{LEAST_READ_SIZE, READ_SIZE, UNUSED};
ghost use Rattle.grep_run.specs.Writers.{Writer, Writes, WritesPrefix, is_write_fault, writer};
ghost use Rattle.line_pick.specs.Matching.{list_of};

use crate::block::Block;
use crate::message::say_unreadable;
use crate::names::shown_name;
use crate::options::GrepOptions;
use crate::request::{Found, Request};
use crate::scanning::{picker_for, read_lines, shows_lines};
use crate::status::Stop;
use crate::tuning::MANY_INPUTS;
use byte_io::{ByteIn, ByteOut, Opener, open_operand};
use std::alloc::AllocError;
use text_search::EndFinder;

/// How many bytes are read at once, at most. With pieces of a quarter of that a run that shows numbers takes 1.05 times
/// as long, since each piece is written alone.
const READ_SIZE: usize = 128 * 1024;

/// How many bytes are read at once, at least.
const LEAST_READ_SIZE: usize = 1024;

/// The number of unused bytes before a piece. The C library places a block of 128 KiB and more sixteen bytes after the
/// start of a page. With these bytes the piece begins at the start of a cache line, and the system copies what a run
/// reads in 0.91 to 0.93 of the time.
const UNUSED: usize = 48;

/// How many bytes may be held of names, numbers and newlines, before the lines of a piece are written.
/// The lines themselves take no more than the piece.
const MOST_HELD: usize = 4 * 1024 * 1024;

/// The bytes that a line takes besides its name and itself: a number, a colon after each, and its newline.
const NUMBER_SIZE: usize = 23;

/// Searches the inputs of the operands in order, or standard input alone where there is none. Under -q
/// the first selected line ends it.
pub fn search_all<O: Opener, W: ByteOut, E: ByteOut>(
    request: Request<'_>,
    opener: &mut O,
    out: &mut W,
    err: &mut E,
) -> Result<Found, Stop>
    ensures answer { IfKnown (O.sources opener.old) (O.sources opener.new)
        (SearchesAsks request.entry (searched_of request.entry.options.now) result
        (writer W.written W.has_failed out.old) (writer W.written W.has_failed out.new)
        (writer E.written E.has_failed err.old) (writer E.written E.has_failed err.new)) }
    ensures flag { (W.has_failed out.new || E.has_failed err.new)
        ≡ (W.has_failed out.old || E.has_failed err.old || is_write_fault result) }
{
    let mut searcher = Searcher::new(request)?;
    if request.options.operands.as_slice().is_empty() {
        return searcher.search_operand("-", opener, out, err);
    }
    searcher.search_operands(opener, out, err)
}

/// How many bytes of the input of this name are read at once: fewer where lines are shown after a long name, so that
/// the held text stays small also where all lines are empty.
fn read_size(options: &GrepOptions, name: &str) -> usize
    ensures least { LEAST_READ_SIZE ≤ result }
    ensures most { result ≤ READ_SIZE }
{
    if options.operands.len() <= 1 || !shows_lines(options) {
        return READ_SIZE;
    }
    let line = name.len().saturating_add(NUMBER_SIZE);
    (MOST_HELD / line).clamp(LEAST_READ_SIZE, READ_SIZE)
}

/// Searches inputs one after another. All share one buffer to read into and one to write from.
#[derive(Drop)]
struct Searcher<'a> {
    request: Request<'a>,
    /// The finder, tuned to the inputs so far, once one was long enough, if the request gains by that.
    finder: Option<EndFinder>,
    /// How many inputs were searched before.
    searched: usize,
    block: Block<'a>,
    /// Memory for a piece, after the unused bytes.
    memory: Vec<u8>,
    ghost room: { vec_len memory ≡ UNUSED + READ_SIZE },
    ghost plan: { IfSome finder (λ list. list_of request.patterns.now.plan ≡ Some list) } by { Prim.hlevel props },
}

impl<'a> Searcher<'a> {
    /// A searcher before any input. The only error is a refused growth.
    fn new(request: Request<'a>) -> Result<Searcher<'a>, AllocError>
        ensures { IfOk result (λ searcher. searcher.request ≡ request.entry) }
    {
        let memory = vec![in request.alloc; 0u8; UNUSED + READ_SIZE]?;
        let block = Block::new(request.alloc, request.options);
        Ok(Searcher {
            request,
            finder: None,
            searched: 0,
            block,
            memory,
        })
    }

    /// Searches the inputs of all operands.
    fn search_operands<O: Opener, W: ByteOut, E: ByteOut>(
        &mut self,
        opener: &mut O,
        out: &mut W,
        err: &mut E,
    ) -> Result<Found, Stop>
        ensures answer { IfKnown (O.sources opener.old) (O.sources opener.new)
            (SearchesAsks self.old.request (map ask_of (map string_bytes self.old.request.options.now.operands.items)) result
            (writer W.written W.has_failed out.old) (writer W.written W.has_failed out.new)
            (writer E.written E.has_failed err.old) (writer E.written E.has_failed err.new)) }
        ensures flag { (W.has_failed out.new || E.has_failed err.new)
            ≡ (W.has_failed out.old || E.has_failed err.old || is_write_fault result) }
    {
        let options = self.request.options;
        let mut all = Found::nothing();
        for operand in options.operands.as_slice() {
            let one = self.search_operand(operand.as_str(), opener, out, err)?;
            all = all.with(one);
            if options.quiet && one.is_selected {
                return Ok(all);
            }
        }
        Ok(all)
    }

    /// Opens the input of an operand, and searches it.
    fn search_operand<O: Opener, W: ByteOut, E: ByteOut>(
        &mut self,
        operand: &'a str,
        opener: &mut O,
        out: &mut W,
        err: &mut E,
    ) -> Result<Found, Stop>
        ensures answer { IfKnown (O.sources opener.old) (O.sources opener.new)
            (SearchesAsk self.old.request (ask_of operand.now) result
            (writer W.written W.has_failed out.old) (writer W.written W.has_failed out.new)
            (writer E.written E.has_failed err.old) (writer E.written E.has_failed err.new)) }
        ensures same { self.new.request ≡ self.old.request }
        ensures flag { (W.has_failed out.new || E.has_failed err.new)
            ≡ (W.has_failed out.old || E.has_failed err.old || is_write_fault result) }
    {
        let name = shown_name(operand);
        match open_operand(opener, operand) {
            Ok(mut input) => self.search_input(name, &mut input, out, err),
            Err(_) => self.pass_over(name, err),
        }
    }

    /// Searches one input, which messages and prefixes call by this name. All that it gives is written
    /// before the next one is opened, since that may be long in coming.
    fn search_input<I: ByteIn, W: ByteOut, E: ByteOut>(
        &mut self,
        name: &'a str,
        input: &mut I,
        out: &mut W,
        err: &mut E,
    ) -> Result<Found, Stop>
        ensures answer { (c : Content) → I.coming input.old ≡ Some (coming_of c) → IsShort c
            → Searches self.old.request.options.now (test_of self.old.request) name.now (Some c) result
            (writer W.written W.has_failed out.old) (writer W.written W.has_failed out.new)
            (writer E.written E.has_failed err.old) (writer E.written E.has_failed err.new) }
        ensures same { self.new.request ≡ self.old.request }
        ensures flag { (W.has_failed out.new || E.has_failed err.new)
            ≡ (W.has_failed out.old || E.has_failed err.old || is_write_fault result) }

        // A read that failed is found, whatever is known of the input.
        ensures unread { IfOk result (λ found. found.is_error ≡ false → I.has_failed input.new ≡ I.has_failed input.old) }
    {
        self.block.begin(self.request.options, name);
        let mut picker = picker_for(&self.request, self.finder.take());
        let is_long_run = self.searched >= MANY_INPUTS;
        self.searched = self.searched.saturating_add(1);
        let size = read_size(self.request.options, name);
        let piece = &mut self.memory.as_mut_slice()[UNUSED..UNUSED + size];
        let end = read_lines(
            &self.request,
            is_long_run,
            &mut picker,
            input,
            &mut self.block,
            piece,
            out,
        )?;
        self.finder = picker.into_finder();
        self.block.finish(out)?;
        let found = Found {
            is_selected: self.block.count > 0,
            is_error: end.is_fault(),
        };
        self.report(name, found.is_error, err)?;
        Ok(found)
    }

    /// Says that an input cannot be opened.
    fn pass_over<E: ByteOut>(&self, name: &str, err: &mut E) -> Result<Found, Stop>
        ensures answer { (out : Writer) → Searches self.now.request.options.now (test_of self.now.request) name.now None result
            out out (writer E.written E.has_failed err.old) (writer E.written E.has_failed err.new) }
        ensures flag { E.has_failed err.new ≡ (E.has_failed err.old || is_write_fault result) }
    {
        self.report(name, true, err)?;
        Ok(Found {
            is_selected: false,
            is_error: true,
        })
    }

    /// Says that an input cannot be opened or read, if `is_error`, unless -s drops the message.
    fn report<E: ByteOut>(&self, name: &str, is_error: bool, err: &mut E) -> Result<(), Stop>
        ensures ok { OnOk result (Writes (writer E.written E.has_failed err.old) (writer E.written E.has_failed err.new)
            (if is_error && not self.now.request.options.now.silent then unreadable name.now else [])) }
        ensures err { OnErr result (WritesPrefix (writer E.written E.has_failed err.old) (writer E.written E.has_failed err.new)
            (if is_error && not self.now.request.options.now.silent then unreadable name.now else [])) }
        ensures starved { OnErr result (E.has_failed err.new ≡ false
            → Writes (writer E.written E.has_failed err.old) (writer E.written E.has_failed err.new) []) }
        ensures silent { self.now.request.options.now.silent ≡ true → IsOk result }
        ensures flag { E.has_failed err.new ≡ (E.has_failed err.old || is_write_fault result) }
    {
        if is_error && !self.request.options.silent {
            return say_unreadable(self.request.alloc, name, err);
        }
        Ok(())
    }
}
