//! Devices over std's readers and writers.
ghost use Rattle.std.specs.Prelude.{◌≡◌, ◌+◌, ◌<◌, ◌≤◌, ◌↔◌, length, false, IfOk, IsTrue};
ghost use Rattle.std.specs.IoError.{error_kind};
ghost use Rattle.std.specs.Io.KnownBytes.{ReadConsumes, WriteAppends};
ghost use Rattle.byte_io.specs.Devices.{count_of, unsure};

use crate::device::{ByteIn, ByteOut, Failed};
use crate::limits::MAX_TURNS;
use std::io;
use std::io::{Error, ErrorKind, Read, Write};

/// A file or standard input, as one reader. Its known bytes are the known bytes of either.
#[derive(Drop)]
pub enum FileOrInput<F: Drop, S: Drop> {
    /// A file.
    File(F),
    /// Standard input.
    Input(S),
}

impl<F: Read + Drop, S: Read + Drop> Read for FileOrInput<F, S> {
    ghost use Rattle.byte_io.specs.Readers.{remaining_in};

    ghost remaining = { remaining_in F.remaining S.remaining };

    fn read(&mut self, buf: &mut [u8]) -> io::Result<usize> {
        match self {
            FileOrInput::File(file) => file.read(buf),
            FileOrInput::Input(input) => input.read(buf),
        }
    }
}

/// A reader of std's as a device, with no buffer of its own.
///
/// A call that a signal interrupts is made again: that is no fault, unless it comes `MAX_TURNS`
/// times in a row. One device gives fewer than 2^64 bytes, and fails where a buffer could lead past
/// them.
#[derive(Drop)]
pub struct FromRead<R: Read + Drop> {
    reader: R,
    given: u64,
    has_failed: bool,
}

impl<R: Read + Drop> FromRead<R> {
    /// The device over a reader. If the reader's bytes are known, so are the device's, but not how they end, since a
    /// reader of std's may fail all the same.
    pub fn new(reader: R) -> Self
        ensures coming { ⟦<FromRead<R> as ByteIn>⟧.coming result
            ≡ unsure (R.remaining reader) }
        ensures given { ⟦<FromRead<R> as ByteIn>⟧.given result ≡ 0 }
        ensures flag { ⟦<FromRead<R> as ByteIn>⟧.has_failed result ≡ false }
    {
        FromRead {
            reader,
            given: 0,
            has_failed: false,
        }
    }

    /// One read that is counted. The caller sets the flag.
    fn read_counted(&mut self, buf: &mut [u8]) -> Result<usize, Failed>
        ensures within { IfOk result (λ n. n ≤ length buf.new) }
        ensures bytes { ReadConsumes (R.remaining self.old.reader)
            (R.remaining self.new.reader) result buf.new }
        ensures count { self.new.given ≡ self.old.given + count_of result }
        ensures flag { self.new.has_failed ≡ self.old.has_failed }
    {
        if u64::MAX - self.given < buf.len() as u64 {
            return Err(Failed);
        }
        let count = read_untiring(&mut self.reader, buf)?;
        self.given += count as u64;
        Ok(count)
    }
}

impl<R: Read + Drop> ByteIn for FromRead<R> {
    ghost coming = { λ d. unsure (R.remaining d.reader) };

    ghost given = { λ d. d.given };

    ghost has_failed = { λ d. d.has_failed };

    fn read_some(&mut self, buf: &mut [u8]) -> Result<usize, Failed> {
        let given = self.read_counted(buf);
        self.has_failed |= given.is_err();
        given
    }
}

/// A writer of std's as a device, with no buffer of its own.
///
/// A call that a signal interrupts is made again: that is no fault, unless it comes `MAX_TURNS`
/// times in a row. A call that takes nothing of a nonempty piece is one.
#[derive(Drop)]
pub struct ToWrite<W: Write + Drop> {
    writer: W,
    has_failed: bool,
}

impl<W: Write + Drop> ToWrite<W> {
    /// The device over a writer. Its bytes are known if the writer's are.
    pub fn new(writer: W) -> Self
        ensures written { ⟦<ToWrite<W> as ByteOut>⟧.written result ≡ W.contents writer }
        ensures flag { ⟦<ToWrite<W> as ByteOut>⟧.has_failed result ≡ false }
    {
        ToWrite {
            writer,
            has_failed: false,
        }
    }

    /// Gives the writer back. It is not flushed.
    pub fn into_inner(self) -> W
        ensures { W.contents result ≡ ⟦<ToWrite<W> as ByteOut>⟧.written self }
    {
        let ToWrite {
            writer,
            has_failed: _,
        } = self;
        writer
    }
}

impl<W: Write + Drop> ByteOut for ToWrite<W> {
    ghost written = { λ d. W.contents d.writer };

    ghost has_failed = { λ d. d.has_failed };

    fn write_some(&mut self, piece: &[u8]) -> Result<usize, Failed> {
        let taken = write_untiring(&mut self.writer, piece);
        self.has_failed |= taken.is_err();
        taken
    }
}

/// One read, made again where a signal interrupts it.
fn read_untiring<R: Read>(reader: &mut R, buf: &mut [u8]) -> Result<usize, Failed>
    ensures within { IfOk result (λ n. n ≤ length buf.new) }
    ensures bytes { ReadConsumes (R.remaining reader.old) (R.remaining reader.new) result buf.new }
{
    for _ in 0..MAX_TURNS {
        match reader.read(buf) {
            Ok(count) => return Ok(count),
            Err(error) => {
                if !is_interrupted(&error) {
                    return Err(Failed);
                }
            }
        }
    }
    Err(Failed)
}

/// One write, made again where a signal interrupts it.
fn write_untiring<W: Write>(writer: &mut W, piece: &[u8]) -> Result<usize, Failed>
    ensures within { IfOk result (λ n. n ≤ length piece.now) }
    ensures takes { 0 < length piece.now → IfOk result (λ n. 0 < n) }
    ensures bytes { WriteAppends (W.contents writer.old) (W.contents writer.new) result piece.now }
{
    for _ in 0..MAX_TURNS {
        match writer.write(piece) {
            Ok(0) if !piece.is_empty() => return Err(Failed),
            Ok(count) => return Ok(count),
            Err(error) => {
                if !is_interrupted(&error) {
                    return Err(Failed);
                }
            }
        }
    }
    Err(Failed)
}

/// Whether a signal came before anything was read or written.
fn is_interrupted(error: &Error) -> bool
    ensures { IsTrue result ↔ (error_kind error.now ≡ ErrorKind.Interrupted) }
{
    error.kind() == ErrorKind::Interrupted
}

#[cfg(test)]
mod tests;
