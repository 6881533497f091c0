//! What a command does.
ghost use Rattle.std.specs.Prelude.{◌≡◌, ◌≢◌, ◌||◌};
ghost use Rattle.byte_io.specs.Devices.{IfKnown};
ghost use Rattle.byte_io.specs.Sources.{AreShort};
ghost use Rattle.byte_io.specs.Transfers.{Says, SaysOrFails};
ghost use Rattle.litplan.specs.Commands.{EndsSomehow};
ghost use Rattle.plan_run.specs.Messages.{out_of_memory};
ghost use Rattle.program_words.specs.Words.{message_on};

use crate::requests::requested;
use byte_io::{ByteOut, Files};
use plan_run::{Status, run};
use program_words::{Fault, say_fault, words};
use std::alloc::Global;
use std::rt::Env;
use std::thread::Threads;

/// Serves the words of the command line: the answer goes to `out`, messages to `err`. A write that failed gives
/// `Trouble`.
pub fn serve<R: Env + Threads + Sync + AllocGlobal, F: Files, W: ByteOut, E: ByteOut>(
    rt: &R,
    files: &mut F,
    out: &mut W,
    err: &mut E,
) -> Status
    ensures ends { IfKnown (F.sources files.old) (F.sources files.new) (λ s left. AreShort s
        → EndsSomehow F.Output.written F.Output.has_failed s left result (W.has_failed out.old) (W.has_failed out.new) (E.has_failed err.new)
        (W.written out.old) (W.written out.new) (E.written err.old) (E.written err.new)) }

    // A write that failed shows in the status, whatever is known of the files.
    ensures fault { result ≢ Status.Trouble
        → (W.has_failed out.new || E.has_failed err.new) ≡ (W.has_failed out.old || E.has_failed err.old) }
{
    match words(rt, "litplan") {
        Ok(words) => command(rt, rt.alloc(), &words, files, out, err),
        Err(fault) => refuse(&fault, err),
    }
}

/// Serves the words after the program's name: some request is served, or a message says why there is
/// none. A scan waits for the workers that it starts.
pub fn command<R: Threads + Sync, F: Files, W: ByteOut, E: ByteOut>(
    rt: &R,
    alloc: Global,
    words: &[String],
    files: &mut F,
    out: &mut W,
    err: &mut E,
) -> Status
    ensures ends { IfKnown (F.sources files.old) (F.sources files.new) (λ s left. AreShort s
        → EndsSomehow F.Output.written F.Output.has_failed s left result (W.has_failed out.old) (W.has_failed out.new) (E.has_failed err.new)
        (W.written out.old) (W.written out.new) (E.written err.old) (E.written err.new)) }

    // A write that failed shows in the status, whatever is known of the files.
    ensures fault { result ≢ Status.Trouble
        → (W.has_failed out.new || E.has_failed err.new) ≡ (W.has_failed out.old || E.has_failed err.old) }
{
    match requested(alloc, words) {
        Ok(request) => run(rt, alloc, &request, files, out, err),
        Err(fault) => refuse(&fault, err),
    }
}

/// Writes the message on words that are refused. Where that cannot be written, only the status shows it.
fn refuse<E: ByteOut>(fault: &Fault, err: &mut E) -> Status
    ensures status { result ≡ Status.Trouble }
    ensures said { Says (E.has_failed err.new) (E.written err.old) (E.written err.new) (message_on out_of_memory fault.now) }
    ensures exact { SaysOrFails (E.has_failed err.old) (E.has_failed err.new)
        (E.written err.old) (E.written err.new) (message_on out_of_memory fault.now) }
{
    say_fault(fault, "litplan: refused (1)\n", err);
    Status::Trouble
}
