//! What a command does.
ghost use Rattle.std.specs.Prelude.{◌≡◌, ◌≢◌, ◌||◌};
ghost use Rattle.byte_io.specs.Transfers.{SaysOrFails};
ghost use Rattle.grep_run.specs.Messages.{out_of_memory};
ghost use Rattle.program_words.specs.Words.{message_on};

use crate::operand_files::OperandFiles;
use crate::request::{Request, read_request};
use crate::standard_input::StandardInput;
use byte_io::{ByteOut, SystemFiles};
use grep_run::{GrepOptions, Status, run};
use program_words::{Fault, say_fault};
use std::io::Read;
use std::rt::{Env, Files};

/// Serves the words of the command line over a standard input, and returns how the program ends. A write that fails
/// ends it with `Trouble`.
pub fn serve<R: Env + Files + AllocGlobal, S: Read + Copy + Drop, W: ByteOut, E: ByteOut>(
    rt: &R,
    standard: S,
    out: &mut W,
    err: &mut E,
) -> Status
    ensures { result ≢ Status.Trouble
        → (W.has_failed out.new || E.has_failed err.new) ≡ (W.has_failed out.old || E.has_failed err.old) }
{
    match read_request(rt) {
        Ok(Request { options, unnamed }) => {
            let mut files = OperandFiles {
                files: files_for(rt, standard, &options),
                unnamed: unnamed.as_slice(),
            };
            run(rt.alloc(), &options, &mut files, out, err)
        }
        Err(fault) => refuse(&fault, err),
    }
}

/// The files of the system that a run may read. The file that its lines go to is missing, and standard input cannot be
/// read if it is this file: the file would grow as it is read, without end.
fn files_for<'a, R: Files, S: Read + Copy + Drop>(
    rt: &'a R,
    standard: S,
    options: &GrepOptions,
) -> SystemFiles<'a, R, StandardInput<S>> {
    if options.count || options.list || options.quiet {
        SystemFiles::new(rt, StandardInput::Readable(standard))
    } else {
        SystemFiles::new(rt, StandardInput::apart_from_output(rt, standard)).without_output()
    }
}

/// Writes the message on words that are refused. Where that cannot be written, only the status shows it.
fn refuse<E: ByteOut>(fault: &Fault, err: &mut E) -> Status
    ensures status { result ≡ Status.Trouble }
    ensures said { SaysOrFails (E.has_failed err.old) (E.has_failed err.new)
        (E.written err.old) (E.written err.new) (message_on out_of_memory fault.now) }
{
    say_fault(fault, "litgrep: out of memory\n", err);
    Status::Trouble
}
