//! What moves between a device and a list of bytes in many calls.
ghost use Rattle.std.specs.Prelude.{◌≡◌, ◌≢◌, ◌+◌, ◌^◌, ◌<◌, ◌≤◌, ◌||◌, ◌⊎◌, vec_len, length, IsTrue, IfOk, IfSome, OnOk, OnErr, is_err};
ghost use Rattle.std.specs.Io.KnownBytes.{Appends};
ghost use Rattle.byte_io.specs.Devices.{EndsHere, MayFail, IfKnown};
ghost use Rattle.byte_io.specs.Transfers.{AppendsPart, FaultFollows, ReadsAll, ReadsInto, Says, SaysOrFails};

use crate::device::{ByteIn, ByteOut, Failed};
use crate::limits::MAX_TURNS;
use std::alloc::{AllocError, Allocator};

/// How many bytes are read at once.
const CHUNK: usize = 16 * 1024;

/// Why a reader was not read to its end.
#[derive(Clone, Copy, Debug, PartialEq, Eq)]
pub enum ReadError {
    /// A read failed, or the turns ran out.
    Failed,
    /// There were more bytes than the limit.
    TooLong,
    /// There was no memory for the bytes.
    OutOfMemory,
}

impl From<AllocError> for ReadError {
    ghost use Rattle.byte_io.specs.declared.transfer.ReadError.TheVariants.{OutOfMemory};

    ghost from_gives = { λ _ e. e ≡ OutOfMemory };

    fn from(_error: AllocError) -> ReadError {
        ReadError::OutOfMemory
    }
}

/// Writes the whole piece, in as many calls as it takes.
///
/// After an `Err` some of its bytes may be written, from its start, and never all.
pub fn write_all<W: ByteOut>(out: &mut W, piece: &[u8]) -> Result<(), Failed>
    ensures ok { OnOk result (Appends (W.written out.old) (W.written out.new) piece.now) }
    ensures err { OnErr result (AppendsPart (W.written out.old) (W.written out.new) piece.now) }
    ensures flag { W.has_failed out.new ≡ (W.has_failed out.old || is_err result) }
{
    let mut rest = piece;
    while !rest.is_empty() {
        let taken = out.write_some(rest)?;
        rest = &rest[taken..];
    }
    Ok(())
}

/// Writes a text, as far as that is possible. What cannot be written is not tried again: only the flag of the device
/// shows it.
pub fn say_text<W: ByteOut>(text: &str, out: &mut W)
    ensures said { Says (W.has_failed out.new) (W.written out.old) (W.written out.new) text.now }
    ensures exact { SaysOrFails (W.has_failed out.old) (W.has_failed out.new)
        (W.written out.old) (W.written out.new) text.now }
{
    let _ = write_all(out, text.as_bytes());
}

/// Reads to the end, and appends the bytes to `text`: at most `limit` bytes.
///
/// # Errors
/// - `Failed` where a read failed, or the end did not come in `MAX_TURNS` reads.
/// - `TooLong` as soon as one byte more than `limit` is read. It reads no further.
/// - `OutOfMemory` where `text` could not grow.
///
/// Whatever the answer, `text` gains exactly the bytes that were read, so that none is lost.
pub fn read_to_end<R: ByteIn, A: Allocator>(
    input: &mut R,
    limit: usize,
    text: &mut Vec<u8, A>,
) -> Result<(), ReadError>
    ensures bytes { ReadsInto (R.coming input.old) (R.coming input.new)
        text.old.items text.new.items }
    ensures count { R.given input.new + vec_len text.old ≡ R.given input.old + vec_len text.new }

    // The bytes, if they are known.
    ensures ok { OnOk result
        (IfSome (R.coming input.old) (ReadsAll limit text.old.items text.new.items)) }
    ensures failed { result ≡ Err ReadError.Failed → IfSome (R.coming input.old)
        (λ c. length c.text < 2 ^ 40 → FaultFollows limit text.old.items text.new.items c) }
    ensures too_long { result ≡ Err ReadError.TooLong
        → IfSome (R.coming input.old) (λ c. limit < length c.text) }

    // How many bytes are read, of any device.
    ensures within { result ≢ Err ReadError.TooLong
        → vec_len text.new ≤ vec_len text.old + limit }
    ensures one_more { result ≡ Err ReadError.TooLong
        → vec_len text.new ≡ vec_len text.old + limit + 1 }

    // The flag, or the turns, show a failure.
    ensures flag { result ≢ Err ReadError.Failed
        → R.has_failed input.new ≡ R.has_failed input.old }
    ensures fault { result ≡ Err ReadError.Failed → IsTrue (R.has_failed input.new)
        ⊎ ((R.has_failed input.new ≡ R.has_failed input.old)
        × (R.given input.old + 2 ^ 40 ≤ R.given input.new)) }
{
    let mut room = limit;
    for _turn in 0..MAX_TURNS {
        let count = read_chunk(input, room.min(CHUNK - 1) + 1, text)?;
        if count == 0 {
            return Ok(());
        }
        if count > room {
            return Err(ReadError::TooLong);
        }
        room -= count;
    }
    Err(ReadError::Failed)
}

/// One read of at most `most` bytes to the end of `text`. The room for them is made first.
fn read_chunk<R: ByteIn, A: Allocator>(
    input: &mut R,
    most: usize,
    text: &mut Vec<u8, A>,
) -> Result<usize, ReadError>
    requires some { 0 < most }
    requires few { most ≤ CHUNK }
    ensures bytes { ReadsInto (R.coming input.old) (R.coming input.new)
        text.old.items text.new.items }
    ensures count { R.given input.new + vec_len text.old ≡ R.given input.old + vec_len text.new }
    ensures ok { IfOk result (λ n. (vec_len text.new ≡ vec_len text.old + n) × (n ≤ most)) }
    ensures end { result ≡ Ok 0
        → IfKnown (R.coming input.old) (R.coming input.new) (λ _ c. EndsHere c) }
    ensures err { OnErr result (text.new.items ≡ text.old.items) }
    ensures failed { result ≡ Err ReadError.Failed
        → IfKnown (R.coming input.old) (R.coming input.new) (λ _ c. MayFail c) }
    ensures fault { result ≡ Err ReadError.Failed → IsTrue (R.has_failed input.new) }
    ensures not_long { result ≢ Err ReadError.TooLong }
    ensures flag { result ≢ Err ReadError.Failed
        → R.has_failed input.new ≡ R.has_failed input.old }
{
    let start = text.len();
    text.resize(start + most, 0)?;
    match input.read_some(&mut text[start..]) {
        Ok(count) => {
            text.truncate(start + count);
            Ok(count)
        }
        Err(Failed) => {
            text.truncate(start);
            Err(ReadError::Failed)
        }
    }
}
