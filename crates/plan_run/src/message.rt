//! Messages on standard error, each a line after the program's name.
ghost use Rattle.std.specs.Prelude.{◌≡◌, IfOk, string_bytes};
ghost use Rattle.plan_pack.specs.Messages.{message_on, refused};
ghost use Rattle.plan_run.specs.Running.{SaysStop};

use crate::stop::Stop;
use byte_io::{ByteOut, say_text};
use plan_pack::Refusal;
use std::alloc::{AllocError, Global};

/// Says why a run stopped. Where there is no memory for a message, that is said in its place. A message that cannot be
/// written is not tried again: only the status shows it.
pub fn say<E: ByteOut>(alloc: Global, stop: Stop<'_>, err: &mut E)
    ensures { SaysStop stop.entry (E.has_failed err.new) (E.written err.old) (E.written err.new) }
{
    match stop {
        Stop::Refused(refusal) => say_refusal(alloc, refusal, err),
        Stop::WriteFault => say_text("litplan: refused (18)\n", err),
        Stop::OutOfMemory => say_text("litplan: refused (1)\n", err),
    }
}

/// Writes the message on a refusal, or that there is no memory for it.
fn say_refusal<E: ByteOut>(alloc: Global, refusal: Refusal<'_>, err: &mut E)
    ensures { SaysStop (Stop.Refused refusal.entry) (E.has_failed err.new) (E.written err.old) (E.written err.new) }
{
    match message_of(alloc, refusal) {
        Ok(message) => say_text(message.as_str(), err),
        Err(_) => say_text("litplan: refused (1)\n", err),
    }
}

/// The message on a refusal.
fn message_of(alloc: Global, refusal: Refusal<'_>) -> Result<String, AllocError>
    ensures { IfOk result (λ text. string_bytes text ≡ message_on refusal.entry) }
{
    match refusal {
        Refusal::Unusable(name) => format!(in alloc; "litplan: {name}: cannot be used\n"),
        Refusal::Patterns(fault) => refused(alloc, fault.number()),
        Refusal::NotHex { file, line } => {
            format!(in alloc; "litplan: {file}: line {line} is not hexadecimal\n")
        }
        Refusal::NoLiterals => refused(alloc, 5),
        Refusal::NoCertificate { .. } => refused(alloc, 9),
        Refusal::NoPlanFile { .. } => refused(alloc, 10),
        Refusal::NoPlan { file, place } => format!(in alloc; "litplan: {file}: no plan {place}\n"),
    }
}

/// The message on a refusal of this number.
fn refused(alloc: Global, number: u8) -> Result<String, AllocError>
    ensures { IfOk result (λ text. string_bytes text ≡ refused number) }
{
    format!(in alloc; "litplan: refused ({number})\n")
}
