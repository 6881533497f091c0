//! The bytes at the boundary of two pieces of a stream.
ghost use Rattle.std.specs.Prelude.{◌≡◌, ◌+◌, ◌^◌, ◌<◌, ◌≤◌, ◌⊎◌, ◌++◌, [], IfOk, drop, length, max, take, vec_len};
ghost use Rattle.flow_scan.specs.declared.boundary.TheConstants.{SHORT};
ghost use Rattle.flow_scan.specs.Boundaries.{AreOffered, Joining};
ghost use Rattle.flow_scan.specs.Tails.{last_bytes};

use std::alloc::{AllocError, Global};
use std::marker::Model;

/// Bytes. A piece of at most this length is offered whole, so that it is searched once and not in two parts.
const SHORT: usize = 256;

/// The last bytes of a stream, at most `carry`, followed by the first bytes of the next piece. It takes all its memory
/// when it is made.
#[derive(Drop)]
pub(crate) struct Boundary {
    /// Room for the overlap and as many bytes again or more, so that bytes are rarely moved to the start.
    room: Vec<u8>,
    carry: usize,
    /// How many bytes of the stream it holds; the last of them count.
    held: usize,
    /// How many bytes of the next piece follow them.
    ahead: usize,
}

impl Model for Boundary {
    ghost use Rattle.std.specs.Prelude.{◌≡◌, ◌+◌, ◌<◌, ◌≤◌, ◌^◌, drop, take, vec_len};
    ghost use Rattle.flow_scan.specs.Boundaries.{IsBoundary, Joining};
    ghost use Rattle.flow_scan.specs.Tails.{last_bytes};

    ghost Value = { Joining };

    ghost view = { λ s. record {
      carry = s.carry;
      tail = last_bytes s.carry (take s.held s.room.items);
      prefix = take s.ahead (drop s.held s.room.items);
    } };

    ghost invariant = { λ s. IsBoundary (vec_len s.room) s.carry s.held s.ahead };
}

impl Boundary {
    /// A boundary without bytes.
    pub(crate) fn new(alloc: Global, carry: usize) -> Result<Boundary, AllocError>
        requires { carry < 2 ^ 32 }
        ensures { IfOk result (λ s. s ≡ record { carry = carry; tail = []; prefix = [] }) }
    {
        Ok(Boundary {
            room: vec![in alloc; 0; carry + carry.max(SHORT)]?,
            carry,
            held: 0,
            ahead: 0,
        })
    }

    /// How many bytes the tail has.
    pub(crate) fn tail_len(&self) -> usize
        ensures { result ≡ length self.now.tail }
    {
        self.held.min(self.carry)
    }

    /// How many bytes of the next piece it has.
    pub(crate) fn ahead(&self) -> usize
        ensures { result ≡ length self.now.prefix }
    {
        self.ahead
    }

    /// The tail, followed by the first bytes of the next piece.
    pub(crate) fn text(&self) -> &[u8]
        ensures { result.now ≡ self.now.tail ++ self.now.prefix }
    {
        &self.room[self.held - self.tail_len()..self.held + self.ahead]
    }

    /// Writes the first bytes of the next piece after the tail: all of them if it is short, otherwise `carry` of them.
    pub(crate) fn offer(&mut self, piece: &[u8])
        ensures carry { self.new.carry ≡ self.old.carry }
        ensures tail { self.new.tail ≡ self.old.tail }
        ensures prefix { AreOffered self.old.carry piece.now self.new.prefix }
    {
        let ahead = offered(self.carry, piece.len());
        let (prefix, _) = piece.split_at(ahead);
        self.held = make_room(&mut self.room, self.carry, self.held, ahead);
        write(&mut self.room, self.held, prefix);
        self.ahead = ahead;
    }

    /// Adds the first `count` bytes of the offered piece to the stream.
    pub(crate) fn commit(&mut self, piece: &[u8], count: usize)
        requires offered { AreOffered self.old.carry piece.now self.old.prefix }
        requires within { count ≤ length piece.now }
        ensures { self.new ≡ record self.old { tail = last_bytes self.old.carry (self.old.tail ++ take count piece.now); prefix = [] } }
    {
        let (prefix, _) = piece.split_at(count);
        self.held = keep_last(&mut self.room, self.carry, self.held, self.ahead, prefix);
        self.ahead = 0;
    }

    /// Forgets all bytes.
    pub(crate) fn restart(&mut self)
        ensures { self.new ≡ record self.old { tail = []; prefix = [] } }
    {
        self.held = 0;
        self.ahead = 0;
    }

    /// An equal boundary.
    pub(crate) fn copy(&self) -> Result<Boundary, AllocError>
        ensures { IfOk result (λ s. s ≡ self.now) }
    {
        Ok(Boundary {
            room: self.room.clone()?,
            carry: self.carry,
            held: self.held,
            ahead: self.ahead,
        })
    }
}

/// How many bytes of a piece of `len` bytes are offered.
fn offered(carry: usize, len: usize) -> usize
    ensures enough { (result ≡ len) ⊎ (result ≡ carry) }
    ensures within { result ≤ len }
    ensures few { result ≤ max carry SHORT }
{
    if len <= carry.max(SHORT) { len } else { carry }
}

/// Makes room for `more` bytes after the held bytes. If they would not fit, it keeps only the tail, at the start.
/// Returns how many bytes it then holds.
fn make_room(room: &mut Vec<u8>, carry: usize, held: usize, more: usize) -> usize
    requires room { carry + more ≤ vec_len room.old }
    requires held { held ≤ vec_len room.old }
    ensures tail { last_bytes carry (take result room.new.items) ≡ last_bytes carry (take held room.old.items) }
    ensures fits { result + more ≤ vec_len room.new }
    ensures len { vec_len room.new ≡ vec_len room.old }
{
    if held + more <= room.len() {
        return held;
    }
    room.copy_within(held - carry..held, 0);
    carry
}

/// Keeps the last bytes of the held bytes and a piece. A piece of at most `ahead` bytes already follows the held bytes.
/// Returns how many bytes it then holds.
fn keep_last(room: &mut Vec<u8>, carry: usize, held: usize, ahead: usize, piece: &[u8]) -> usize
    requires room { carry ≤ vec_len room.old }
    requires held { held + ahead ≤ vec_len room.old }
    requires prefix { length piece.now ≤ ahead → take (length piece.now) (drop held room.old.items) ≡ piece.now }
    requires long { ahead < length piece.now → carry ≤ length piece.now }
    ensures tail { last_bytes carry (take result room.new.items) ≡ last_bytes carry (take held room.old.items ++ piece.now) }
    ensures fits { result ≤ vec_len room.new }
    ensures len { vec_len room.new ≡ vec_len room.old }
{
    if piece.len() <= ahead {
        return held + piece.len();
    }
    write(room, 0, &piece[piece.len() - carry..]);
    carry
}

/// Writes the bytes into the room at an offset.
fn write(room: &mut Vec<u8>, at: usize, bytes: &[u8])
    requires { at + length bytes.now ≤ vec_len room.old }
    ensures items { room.new.items ≡ take at room.old.items ++ bytes.now ++ drop (at + length bytes.now) room.old.items }
    ensures len { vec_len room.new ≡ vec_len room.old }
{
    room[at..at + bytes.len()].copy_from_slice(bytes);
}
