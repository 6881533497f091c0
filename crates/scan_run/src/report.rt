//! Reporting how connections ended.
ghost use Rattle.std.specs.Prelude.{◌≡◌, ◌≢◌, ◌<◌, ◌++◌, ◌||◌, IfOk, OnErr, OnOk, length, string_bytes};
ghost use Rattle.scan_run.specs.Reports.{IsStatusOf, Reports, line_text, lines_from, word_of};

use crate::status::Status;
use byte_io::{ByteOut, say_text, write_all};
use scan_serve::Ended;
use std::alloc::{AllocError, Global};
use std::fmt::Write;

/// Reports on `out` how connections ended, a line for each in order, and on `err` where accepting failed.
pub(crate) fn report<O: ByteOut, E: ByteOut>(
    alloc: Global,
    endings: &[Option<Ended>],
    accept_failed: bool,
    out: &mut O,
    err: &mut E,
) -> Status
    ensures reported { Reports endings.now accept_failed result (O.has_failed out.new)
        (E.has_failed err.old) (E.has_failed err.new)
        (O.written out.old) (O.written out.new) (E.written err.old) (E.written err.new) }

    // A write that failed shows in the status.
    ensures fault { result ≢ Status.Trouble
        → (O.has_failed out.new || E.has_failed err.new) ≡ (O.has_failed out.old || E.has_failed err.old) }
{
    let Ok(text) = lines(alloc, endings) else {
        say_text("scand: out of memory\n", err);
        return Status::Trouble;
    };
    let Ok(()) = write_all(out, text.as_bytes()) else {
        return Status::Trouble;
    };
    if accept_failed {
        say_text("scand: accept fault\n", err);
        return Status::Trouble;
    }
    status_of_all(endings)
}

/// The lines of connections, counted from 1.
fn lines(alloc: Global, endings: &[Option<Ended>]) -> Result<String, AllocError>
    ensures text { IfOk result (λ text. string_bytes text ≡ lines_from 1 endings.now) }
    ensures starved { OnErr result (0 < length endings.now) }
{
    let mut text = String::new(alloc);
    let mut number = 1_u64;
    for ended in endings {
        push_line(&mut text, number, word_of(*ended))?;
        number += 1;
    }
    Ok(text)
}

/// Adds the line of a connection.
fn push_line(text: &mut String, number: u64, word: &str) -> Result<(), AllocError>
    ensures { OnOk result (string_bytes text.new ≡ string_bytes text.old ++ line_text number word.now) }
{
    write!(text, "connection {number} {word}\n")
}

/// The word for how a connection ended.
fn word_of(ended: Option<Ended>) -> &'static str
    ensures { result.now ≡ word_of ended }
{
    match ended {
        None => "not-served",
        Some(Ended::Clean) => "clean",
        Some(Ended::Truncated) => "truncated",
        Some(Ended::Bad) => "bad",
        Some(Ended::ReadFault) => "read-fault",
        Some(Ended::WriteFault) => "write-fault",
        Some(Ended::OutOfMemory) => "out-of-memory",
    }
}

/// The status of connections: clean if all were.
fn status_of_all(endings: &[Option<Ended>]) -> Status
    ensures { IsStatusOf endings.now result }
{
    if endings.iter().all(|ended| *ended == Some(Ended::Clean)) {
        Status::Clean
    } else {
        Status::Unclean
    }
}
