//! The bytes that were read and not yet answered.
ghost use Rattle.std.specs.Prelude.{◌≡◌, ◌<◌, ◌≤◌, ◌+◌, ◌||◌, [], drop, length, min, take, vec_capacity, IfOk, IsTrue, OnErr, is_err};
ghost use Rattle.byte_io.specs.Devices.{EndsHere, IfKnown, count_of};
ghost use Rattle.byte_io.specs.Transfers.{ReadsInto};
ghost use Rattle.scan_serve.specs.declared.window.TheConstants.{ROOM};

use byte_io::{ByteIn, Failed};
use std::alloc::{AllocError, Global};
use std::marker::Model;

/// The room of a window: four of the longest frames.
const ROOM: usize = 262_180;

/// The room at first: the longest frame, and some of what follows it. A client that asks for little
/// needs no more.
const FIRST_ROOM: usize = 73_728;

/// Bytes that were read and not yet answered, in one buffer that is made once. A small part of it is
/// used at first, and more as reads fill it: memory that is never written is only set aside.
#[derive(Drop)]
pub(crate) struct Window {
    buffer: Vec<u8>,
    len: usize,
}

impl Model for Window {
    ghost use Rattle.std.specs.Prelude.{◌≡◌, ℕ, ◌<◌, ◌≤◌, ◌⊎◌, List, length, take, vec_capacity};
    ghost use Rattle.scan_serve.specs.declared.window.TheConstants.{ROOM};

    ghost Value = { List ℕ };

    ghost view = { λ w. take w.len w.buffer.items };

    ghost invariant = { λ w. (w.len ≤ length w.buffer.items)
        × ((w.len < length w.buffer.items) ⊎ (ROOM ≤ length w.buffer.items))
        × (ROOM ≤ vec_capacity w.buffer) × (length w.buffer.items ≤ ROOM) };
}

/// Doubles the room, up to `ROOM` bytes. That much was set aside at first, so it cannot be refused.
fn enlarge(buffer: &mut Vec<u8>)
    requires room { ROOM ≤ vec_capacity buffer.old }
    requires few { length buffer.old.items ≤ ROOM }
    ensures kept { take (length buffer.old.items) buffer.new.items ≡ buffer.old.items }
    ensures more { min ROOM (length buffer.old.items + length buffer.old.items) ≤ length buffer.new.items }
    ensures capacity { ROOM ≤ vec_capacity buffer.new }
    ensures few { length buffer.new.items ≤ ROOM }
{
    let len = buffer.len();
    if len < ROOM {
        let _ = buffer.resize(ROOM.min(len * 2), 0);
    }
}

impl Window {
    /// A window into which nothing was read.
    pub fn new(alloc: Global) -> Result<Window, AllocError>
        ensures { IfOk result (λ window. window ≡ []) }
    {
        let mut buffer = Vec::with_capacity(alloc, ROOM)?;
        buffer.resize(FIRST_ROOM, 0)?;
        Ok(Window { buffer, len: 0 })
    }

    /// The bytes that were read and not yet answered.
    pub fn bytes(&self) -> &[u8]
        ensures value { result.now ≡ self.now }
        ensures few { length result.now ≤ 262180 }
    {
        &self.buffer[..self.len]
    }

    /// Removes `count` bytes from the start.
    pub fn skip(&mut self, count: usize)
        requires { count ≤ length self.old }
        ensures { self.new ≡ drop count self.old }
    {
        self.buffer.copy_within(count..self.len, 0);
        self.len -= count;
    }

    /// Reads once after the held bytes, and takes no memory. Returns how many bytes were read, 0 at the end; `Err` if
    /// the read failed.
    pub fn read_from<R: ByteIn>(&mut self, input: &mut R) -> Result<usize, Failed>
        requires { length self.old < 65545 }
        ensures bytes { ReadsInto (R.coming input.old) (R.coming input.new) self.old self.new }
        ensures count { IfOk result (λ n. length self.new ≡ length self.old + n) }
        ensures given { R.given input.new ≡ R.given input.old + count_of result }
        ensures end { result ≡ Ok 0
            → IfKnown (R.coming input.old) (R.coming input.new) (λ _ c. EndsHere c) }
        ensures err { OnErr result (self.new ≡ self.old) }
        ensures fault { OnErr result (IsTrue (R.has_failed input.new)) }
        ensures flag { R.has_failed input.new ≡ (R.has_failed input.old || is_err result) }
    {
        match input.read_some(&mut self.buffer[self.len..]) {
            Ok(count) => {
                self.len += count;
                if self.len == self.buffer.len() {
                    enlarge(&mut self.buffer);
                }
                Ok(count)
            }
            Err(Failed) => Err(Failed),
        }
    }
}
