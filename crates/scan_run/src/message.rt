//! Lines on standard error. They take no memory.
ghost use Rattle.std.specs.Prelude.{◌≡◌, ◌++◌, ◌||◌, OnErr, OnOk, codes, decimal, is_err};
ghost use Rattle.std.specs.Io.KnownBytes.{Appends};
ghost use Rattle.byte_io.specs.Transfers.{AppendsPart};

use byte_io::{ByteOut, Failed, write_all};
use itoa::Buffer;

/// Writes a line that ends in a number.
pub(crate) fn say_number<E: ByteOut>(prefix: &[u8], number: u64, err: &mut E) -> Result<(), Failed>
    ensures ok { OnOk result (Appends (E.written err.old) (E.written err.new) (prefix.now ++ (decimal number ++ codes "\n"))) }
    ensures err { OnErr result (AppendsPart (E.written err.old) (E.written err.new) (prefix.now ++ (decimal number ++ codes "\n"))) }
    ensures flag { E.has_failed err.new ≡ (E.has_failed err.old || is_err result) }
{
    let mut digits = Buffer::new();
    say(prefix, digits.format(number).as_bytes(), b"\n", err)
}

/// Writes a line that is given in three parts.
pub(crate) fn say<E: ByteOut>(
    prefix: &[u8],
    middle: &[u8],
    end: &[u8],
    err: &mut E,
) -> Result<(), Failed>
    ensures ok { OnOk result (Appends (E.written err.old) (E.written err.new) (prefix.now ++ (middle.now ++ end.now))) }
    ensures err { OnErr result (AppendsPart (E.written err.old) (E.written err.new) (prefix.now ++ (middle.now ++ end.now))) }
    ensures flag { E.has_failed err.new ≡ (E.has_failed err.old || is_err result) }
{
    write_all(err, prefix)?;
    write_all(err, middle)?;
    write_all(err, end)
}
