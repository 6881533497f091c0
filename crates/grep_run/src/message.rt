//! Messages on standard error, each a line after the program's name.
ghost use Rattle.std.specs.Prelude.{◌≡◌, ◌||◌, [], IfOk, OnErr, OnOk, false, string_bytes};
ghost use Rattle.grep_run.specs.Messages.{out_of_memory, patterns_refused, unreadable};
ghost use Rattle.grep_run.specs.Writers.{Writes, WritesPrefix, is_write_fault, writer};

use crate::status::Stop;
use byte_io::{ByteOut, write_all};
use lit_base::Fault;
use std::alloc::{AllocError, Global};

/// Says that a file cannot be opened or read. After a failed write a prefix of the message may be written; for want of
/// memory nothing is.
pub fn say_unreadable<E: ByteOut>(alloc: Global, name: &str, err: &mut E) -> Result<(), Stop>
    ensures ok { OnOk result (Writes (writer E.written E.has_failed err.old) (writer E.written E.has_failed err.new) (unreadable name.now)) }
    ensures err { OnErr result (WritesPrefix (writer E.written E.has_failed err.old) (writer E.written E.has_failed err.new) (unreadable name.now)) }
    ensures starved { OnErr result (E.has_failed err.new ≡ false
        → Writes (writer E.written E.has_failed err.old) (writer E.written E.has_failed err.new) []) }
    ensures flag { E.has_failed err.new ≡ (E.has_failed err.old || is_write_fault result) }
{
    let text = unreadable_text(alloc, name)?;
    write_whole(text.as_bytes(), err)
}

/// Says that the patterns are refused, and by which refusal. After a failed write a prefix of the message may be
/// written; for want of memory nothing is.
pub fn say_refused<E: ByteOut>(alloc: Global, fault: Fault, err: &mut E) -> Result<(), Stop>
    ensures ok { OnOk result (Writes (writer E.written E.has_failed err.old) (writer E.written E.has_failed err.new) (patterns_refused fault)) }
    ensures err { OnErr result (WritesPrefix (writer E.written E.has_failed err.old) (writer E.written E.has_failed err.new) (patterns_refused fault)) }
    ensures starved { OnErr result (E.has_failed err.new ≡ false
        → Writes (writer E.written E.has_failed err.old) (writer E.written E.has_failed err.new) []) }
    ensures flag { E.has_failed err.new ≡ (E.has_failed err.old || is_write_fault result) }
{
    let text = refused_text(alloc, fault)?;
    write_whole(text.as_bytes(), err)
}

/// The message on a file that cannot be opened or read.
fn unreadable_text(alloc: Global, name: &str) -> Result<String, AllocError>
    ensures { IfOk result (λ text. string_bytes text ≡ unreadable name.now) }
{
    format!(in alloc; "litgrep: {name}: cannot be read\n")
}

/// The message on patterns that are refused, with the number of the refusal.
fn refused_text(alloc: Global, fault: Fault) -> Result<String, AllocError>
    ensures { IfOk result (λ text. string_bytes text ≡ patterns_refused fault) }
{
    let number = fault.number();
    format!(in alloc; "litgrep: patterns refused ({number})\n")
}

/// Says that memory ran out. It takes none itself. The only error is `WriteFault`; a prefix of the message may be
/// written then.
pub(crate) fn say_out_of_memory<E: ByteOut>(err: &mut E) -> Result<(), Stop>
    ensures ok { OnOk result (Writes (writer E.written E.has_failed err.old) (writer E.written E.has_failed err.new) out_of_memory) }
    ensures err { OnErr result (WritesPrefix (writer E.written E.has_failed err.old) (writer E.written E.has_failed err.new) out_of_memory) }
    ensures fault { OnErr result (result ≡ Err Stop.WriteFault) }
    ensures flag { E.has_failed err.new ≡ (E.has_failed err.old || is_write_fault result) }
{
    write_whole(b"litgrep: out of memory\n", err)
}

/// Writes the whole text. The only error is `WriteFault`; a prefix of the text may be written then.
pub(crate) fn write_whole<W: ByteOut>(text: &[u8], out: &mut W) -> Result<(), Stop>
    ensures ok { OnOk result (Writes (writer W.written W.has_failed out.old) (writer W.written W.has_failed out.new) text.now) }
    ensures err { OnErr result (WritesPrefix (writer W.written W.has_failed out.old) (writer W.written W.has_failed out.new) text.now) }
    ensures fault { OnErr result (result ≡ Err Stop.WriteFault) }
    ensures flag { W.has_failed out.new ≡ (W.has_failed out.old || is_write_fault result) }
{
    write_all(out, text)?;
    Ok(())
}
