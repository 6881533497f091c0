//! Std's readers and writers as devices: signals, faults, and the count of bytes.
ghost use Rattle.std.specs.Prelude.{◌≤◌, IfOk};

use super::*;
use crate::transfer::{ReadError, read_to_end, write_all};
use std::alloc::Global;
use std::io;
use std::io::Cursor;
use std::process::Abort;

/// A reader and writer that does at each call what the next letter of its script says: `i` is interrupted by a signal,
/// `e` fails, and a digit moves at most that many bytes. After its script it moves none.
#[derive(Drop)]
struct Scripted {
    script: &'static [u8],
    call: usize,
    moved: usize,
}

impl Scripted {
    fn new(script: &'static [u8]) -> Self {
        Scripted {
            script,
            call: 0,
            moved: 0,
        }
    }

    fn step(&mut self, len: usize) -> io::Result<usize>
        ensures { IfOk result (λ n. n ≤ len) }
    {
        let letter = self.script.get(self.call).copied().unwrap_or(b'0');
        self.call = self.call.saturating_add(1);
        match letter {
            b'i' => Err(ErrorKind::Interrupted.into()),
            b'e' => Err(ErrorKind::Other.into()),
            digit => {
                let count = len.min((digit & 0xf) as usize);
                self.moved = self.moved.saturating_add(count);
                Ok(count)
            }
        }
    }
}

impl Read for Scripted {
    fn read(&mut self, buf: &mut [u8]) -> io::Result<usize> {
        let count = self.step(buf.len())?;
        buf[..count].fill(b'x');
        Ok(count)
    }
}

impl Write for Scripted {
    fn write(&mut self, buf: &[u8]) -> io::Result<usize> {
        self.step(buf.len())
    }

    fn flush(&mut self) -> io::Result<()> {
        Ok(())
    }
}

/// The answer to a reading or writing, how many bytes it moved, and whether the device has failed.
type Moved<E> = (Result<(), E>, usize, bool);

/// Reads by a script.
fn read_by(alloc: Global, script: &'static [u8]) -> Result<Moved<ReadError>, ReadError> {
    let mut input = FromRead::new(Scripted::new(script));
    let mut text = Vec::new(alloc);
    match read_to_end(&mut input, 100, &mut text) {
        Err(ReadError::OutOfMemory) => Err(ReadError::OutOfMemory),
        answer => Ok((answer, text.len(), input.has_failed)),
    }
}

/// Asserts that a script reads `len` bytes before a fault, or to the end.
fn assert_read<R: Abort + AllocGlobal>(
    rt: &R,
    script: &'static [u8],
    answer: Result<(), ReadError>,
    len: usize,
) {
    let moved = (answer, len, answer.is_err());
    assert_eq!(*rt; read_by(rt.alloc(), script), Ok(moved), "{script:?}");
}

#[test]
fn reads_again_after_a_signal_and_stops_at_a_fault(rt: HostRuntime) {
    assert_read(&rt, b"", Ok(()), 0);
    assert_read(&rt, b"23", Ok(()), 5);
    assert_read(&rt, b"ii2i3i", Ok(()), 5);
    assert_read(&rt, b"e", Err(ReadError::Failed), 0);
    assert_read(&rt, b"i2ie3", Err(ReadError::Failed), 2);
}

/// Writes seven bytes by a script.
fn written_by(script: &'static [u8]) -> Moved<Failed> {
    let mut out = ToWrite::new(Scripted::new(script));
    let answer = write_all(&mut out, b"abcdefg");
    let has_failed = out.has_failed;
    (answer, out.into_inner().moved, has_failed)
}

/// Asserts that a script writes `len` bytes before a fault, or all.
fn assert_written<R: Abort>(rt: &R, script: &'static [u8], answer: Result<(), Failed>, len: usize) {
    let moved = (answer, len, answer.is_err());
    assert_eq!(*rt; written_by(script), moved, "{script:?}");
}

#[test]
fn writes_again_after_a_signal_and_stops_where_nothing_is_taken(rt: HostRuntime) {
    assert_written(&rt, b"9", Ok(()), 7);
    assert_written(&rt, b"333", Ok(()), 7);
    assert_written(&rt, b"ii3i9", Ok(()), 7);
    assert_written(&rt, b"0", Err(Failed), 0);
    assert_written(&rt, b"30", Err(Failed), 3);
    assert_written(&rt, b"2i2e9", Err(Failed), 4);
}

/// The bytes of two readers in memory.
fn read_in_memory(alloc: Global) -> Result<Vec<u8>, ReadError> {
    let mut text = Vec::new(alloc);
    read_to_end(&mut FromRead::new(b"abc".as_slice()), 9, &mut text)?;
    let cursor = Cursor::new(b"def".as_slice());
    read_to_end(&mut FromRead::new(cursor), 9, &mut text)?;
    Ok(text)
}

/// What a writer in memory holds of the text, and of none after it.
fn written_in_memory(alloc: Global, text: &[u8]) -> Result<Vec<u8>, ReadError> {
    let mut out = ToWrite::new(Vec::with_capacity(alloc, text.len())?);
    if write_all(&mut out, text).is_err() || write_all(&mut out, b"").is_err() {
        return Err(ReadError::Failed);
    }
    Ok(out.into_inner())
}

/// Whether the bytes that are read are written.
fn are_moved_in_memory(alloc: Global) -> Result<bool, ReadError> {
    let text = read_in_memory(alloc)?;
    Ok(written_in_memory(alloc, &text)?.as_slice() == b"abcdef".as_slice())
}

#[test]
fn reads_and_writes_bytes_in_memory(rt: HostRuntime) {
    assert_eq!(rt; are_moved_in_memory(rt.alloc()), Ok(true));
}

/// The answers to reads where three more bytes can be counted, and whether the first one failed the device.
fn answers_at_the_last_count() -> (Result<usize, Failed>, bool, [Result<usize, Failed>; 3]) {
    let mut input = FromRead::new(b"abcdef".as_slice());
    input.given = u64::MAX - 3;
    let mut buf = [0; 4];
    let first = input.read_some(&mut buf);
    let has_failed = input.has_failed;
    let second = input.read_some(&mut buf[..3]);
    let third = input.read_some(&mut buf[..0]);
    (
        first,
        has_failed,
        [second, third, input.read_some(&mut buf[..1])],
    )
}

#[test]
fn fails_where_the_count_of_bytes_could_overflow(rt: HostRuntime) {
    let wanted = (Err(Failed), true, [Ok(3), Ok(0), Err(Failed)]);
    assert_eq!(rt; answers_at_the_last_count(), wanted);
}

/// How many of `len` bytes are written and read again, and the last of them.
fn moved_of(alloc: Global, len: usize) -> Result<(usize, usize, Option<u8>), ReadError> {
    let text = vec![in alloc; b'x'; len]?;
    let written = written_in_memory(alloc, &text)?;
    let mut read = Vec::new(alloc);
    let mut input = FromRead::new(written.as_slice());
    read_to_end(&mut input, len, &mut read)?;
    Ok((written.len(), read.len(), read.last().copied()))
}

#[test]
fn reads_and_writes_64_mebibytes(rt: HostRuntime) {
    let len = mebibytes(64);
    assert_eq!(rt; moved_of(rt.alloc(), len), Ok((len, len, Some(b'x'))));
}

fn mebibytes(count: u8) -> usize {
    (count as usize) << 20
}
