//! Reporting the port that the system chose.
ghost use Rattle.std.specs.Prelude.{◌≡◌, ◌||◌, OnErr, OnOk, is_err};
ghost use Rattle.std.specs.Io.KnownBytes.{Appends};
ghost use Rattle.byte_io.specs.Transfers.{AppendsPart};
ghost use Rattle.scan_run.specs.Messages.{port_line};

use crate::message::say_number;
use byte_io::{ByteOut, Failed};

/// Writes the line `scand: port P`. It takes no memory.
///
/// # Errors
/// `Failed` where a write failed: a prefix of the line was written, and not all.
pub fn say_port<E: ByteOut>(port: u16, err: &mut E) -> Result<(), Failed>
    ensures ok { OnOk result (Appends (E.written err.old) (E.written err.new) (port_line port)) }
    ensures err { OnErr result (AppendsPart (E.written err.old) (E.written err.new) (port_line port)) }
    ensures flag { E.has_failed err.new ≡ (E.has_failed err.old || is_err result) }
{
    say_number(b"scand: port ", u64::from(port), err)
}
