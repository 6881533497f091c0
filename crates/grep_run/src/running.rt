//! A run of grep.
ghost use Rattle.std.specs.Prelude.{◌≡◌, ◌≢◌, ◌||◌, [], IfOk, OnErr, OnOk, false};
ghost use Rattle.byte_io.specs.Sources.{AreShort};
ghost use Rattle.byte_io.specs.Devices.{IfKnown};
ghost use Rattle.grep_run.specs.Gathering.{Refuses};
ghost use Rattle.grep_run.specs.Grep.{status_where};
ghost use Rattle.grep_run.specs.Messages.{patterns_refused};
ghost use Rattle.grep_run.specs.Running.{RunsTo, Ends};
ghost use Rattle.grep_run.specs.Writers.{Writes, WritesPrefix, is_write_fault, writer};

use crate::message::{say_out_of_memory, say_refused, say_unreadable};
use crate::options::GrepOptions;
use crate::patterns::{NoPatterns, gathered};
use crate::request::{Found, Request};
use crate::searcher::search_all;
use crate::status::{Status, Stop};
use byte_io::{ByteOut, Opener};
use lit_base::Fault;
use std::alloc::Global;

/// Runs grep: its output goes to `out`, its messages to `err`.
///
/// A write that fails ends the run with `Trouble` and no further message. After want of memory a
/// message says so, and the status is `Trouble`.
pub fn run<O: Opener, W: ByteOut, E: ByteOut>(
    alloc: Global,
    options: &GrepOptions,
    opener: &mut O,
    out: &mut W,
    err: &mut E,
) -> Status
    ensures ends { IfKnown (O.sources opener.old) (O.sources opener.new) (λ s left. AreShort s
        → Ends options.now s left result
        (writer W.written W.has_failed out.old) (writer W.written W.has_failed out.new)
        (writer E.written E.has_failed err.old) (writer E.written E.has_failed err.new)) }

    // A write that failed shows in the status, whatever is known of the sources.
    ensures fault { result ≢ Status.Trouble
        → (W.has_failed out.new || E.has_failed err.new) ≡ (W.has_failed out.old || E.has_failed err.old) }
{
    match answer(alloc, options, opener, out, err) {
        Ok(status) => status,
        Err(Stop::WriteFault) => Status::Trouble,
        Err(Stop::OutOfMemory) => {
            let _ = say_out_of_memory(err);
            Status::Trouble
        }
    }
}

/// Runs grep as far as writes and memory allow.
///
/// # Errors
/// - `WriteFault`, where a write to `out` or `err` failed.
/// - `OutOfMemory`, where a growth was refused.
///
/// After either, a prefix of the output and of the messages was written.
pub fn answer<O: Opener, W: ByteOut, E: ByteOut>(
    alloc: Global,
    options: &GrepOptions,
    opener: &mut O,
    out: &mut W,
    err: &mut E,
) -> Result<Status, Stop>
    ensures answer { IfKnown (O.sources opener.old) (O.sources opener.new) (λ s left. AreShort s
        → RunsTo options.now s left result
        (writer W.written W.has_failed out.old) (writer W.written W.has_failed out.new)
        (writer E.written E.has_failed err.old) (writer E.written E.has_failed err.new)) }

    // A write fault is answered only where a write failed, and a write that failed is answered so.
    ensures flag { (W.has_failed out.new || E.has_failed err.new)
        ≡ (W.has_failed out.old || E.has_failed err.old || is_write_fault result) }
{
    match gathered(alloc, options, opener) {
        Ok(patterns) => {
            let request = Request {
                alloc,
                options,
                patterns: &patterns,
            };
            let found = search_all(request, opener, out, err)?;
            Ok(status_of(options.quiet, found))
        }
        Err(why) => refuse(alloc, why, err),
    }
}

/// Says why there are no patterns. The status is `Trouble`.
fn refuse<E: ByteOut>(alloc: Global, why: NoPatterns<'_>, err: &mut E) -> Result<Status, Stop>
    ensures status { IfOk result (λ status. status ≡ Status.Trouble) }
    ensures reported { Refuses why.entry result (writer E.written E.has_failed err.old) (writer E.written E.has_failed err.new) }
    ensures flag { E.has_failed err.new ≡ (E.has_failed err.old || is_write_fault result) }
{
    say(alloc, why, err)?;
    Ok(Status::Trouble)
}

/// Writes the message on why there are no patterns. Want of memory is returned, without a message.
fn say<E: ByteOut>(alloc: Global, why: NoPatterns<'_>, err: &mut E) -> Result<(), Stop>
    ensures reported { Refuses why.entry result (writer E.written E.has_failed err.old) (writer E.written E.has_failed err.new) }
    ensures flag { E.has_failed err.new ≡ (E.has_failed err.old || is_write_fault result) }
{
    match why {
        NoPatterns::Unreadable(name) => say_unreadable(alloc, name, err),
        NoPatterns::Refused(fault) => say_fault(alloc, fault, err),
    }
}

/// Writes the message on a refusal of the patterns. Want of memory is returned, without a message.
fn say_fault<E: ByteOut>(alloc: Global, fault: Fault, err: &mut E) -> Result<(), Stop>
    ensures other { OnOk result (fault ≢ Fault.OutOfMemory) }
    ensures ok { OnOk result (Writes (writer E.written E.has_failed err.old) (writer E.written E.has_failed err.new) (patterns_refused fault)) }
    ensures err { OnErr result (WritesPrefix (writer E.written E.has_failed err.old) (writer E.written E.has_failed err.new) (patterns_refused fault)) }
    ensures starved { OnErr result (E.has_failed err.new ≡ false
        → Writes (writer E.written E.has_failed err.old) (writer E.written E.has_failed err.new) []) }
    ensures unreported { fault ≡ Fault.OutOfMemory → Writes (writer E.written E.has_failed err.old) (writer E.written E.has_failed err.new) [] }
    ensures flag { E.has_failed err.new ≡ (E.has_failed err.old || is_write_fault result) }
{
    match fault {
        Fault::OutOfMemory => Err(Stop::OutOfMemory),
        _ => say_refused(alloc, fault, err),
    }
}

/// The status where all inputs were searched.
fn status_of(quiet: bool, found: Found) -> Status
    ensures { result ≡ status_where quiet found.is_selected found.is_error }
{
    if quiet && found.is_selected {
        return Status::Selected;
    }
    if found.is_error {
        return Status::Trouble;
    }
    if found.is_selected {
        Status::Selected
    } else {
        Status::NoneSelected
    }
}
