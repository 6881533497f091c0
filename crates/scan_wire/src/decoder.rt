//! Reading requests from a stream that comes in pieces.
ghost use Rattle.std.specs.Prelude.{◌≡◌, ◌↔◌, ◌+◌, ◌<◌, ◌≤◌, [], drop, length, IfErr, IfOk, IfSome, IsOkUnless, IsTrue, MatchOption, OnErr, OnOk};
ghost use Rattle.scan_wire.specs.declared.fault.Fault.TheVariants.{BadFrame, OutOfMemory};
ghost use Rattle.scan_wire.specs.Causes.{HasCause, IfBadFrame, Waits};
ghost use Rattle.scan_wire.specs.Decoders.{IsFed, MeetsBadFrame};
ghost use Rattle.scan_wire.specs.Reading.{GainsRequests};

use crate::fault::{Cause, Fault};
use crate::frames::first_request;
use crate::message::Request;
use std::alloc::Global;
use std::marker::Model;

/// The room for bytes with which a decoder begins: enough for a frame that carries a few hundred
/// bytes.
const FIRST_ROOM: usize = 512;

/// Reads requests from a stream that comes in pieces, cut anywhere. Between pieces it keeps the
/// bytes after the last whole frame.
#[derive(Drop)]
pub struct Decoder {
    alloc: Global,
    rest: Vec<u8>,
    cause: Option<Cause>,
}

impl Model for Decoder {
    ghost use Rattle.scan_wire.specs.Decoders.{DecoderParts};

    ghost Value = { DecoderParts };

    ghost view = { λ d. record { rest = d.rest.items; cause = d.cause } };
}

impl Decoder {
    /// A decoder that nothing was fed to. The only refusal is `OutOfMemory`.
    pub fn new(alloc: Global) -> Result<Decoder, Fault>
        ensures ok { IfOk result (λ decoder. decoder ≡ record { rest = []; cause = None }) }
        ensures refused { IsOkUnless result OutOfMemory }
    {
        let rest = Vec::with_capacity(alloc, FIRST_ROOM)?;
        Ok(Decoder {
            alloc,
            rest,
            cause: None,
        })
    }

    /// Takes the next piece of the stream, and adds each request whose frame is whole now to `out`.
    ///
    /// # Errors
    /// - `BadFrame` with its first cause, where a bad frame comes after the requests. Those before
    ///   it are added, and from then on each call returns this fault and does nothing else.
    /// - `OutOfMemory`, where a growth was refused. Decoder and `out` are then as before.
    pub fn feed(&mut self, piece: &[u8], out: &mut Vec<Request>) -> Result<(), Fault>
        ensures ok { OnOk result
            (IsFed self.old self.new piece.now out.old.items out.new.items) }
        ensures bad { IfErr result (IfBadFrame (λ cause. self.old.cause ≡ None
            → MeetsBadFrame self.old self.new cause piece.now out.old.items out.new.items)) }

        // A bad frame is reported by each later call.
        ensures again { IfSome self.old.cause (λ cause. result ≡ Err (BadFrame cause)) }
        ensures same_again { IfSome self.old.cause (λ _.
            (self.new ≡ self.old) × (out.new.items ≡ out.old.items)) }

        ensures same { result ≡ Err OutOfMemory
            → (self.new ≡ self.old) × (out.new.items ≡ out.old.items) }
    {
        if let Some(cause) = self.cause {
            return Err(Fault::BadFrame { cause });
        }
        self.feed_good(piece, out)
    }

    /// Takes the piece, where no bad frame was found before.
    fn feed_good(&mut self, piece: &[u8], out: &mut Vec<Request>) -> Result<(), Fault>
        requires { self.old.cause ≡ None }
        ensures ok { OnOk result
            (IsFed self.old self.new piece.now out.old.items out.new.items) }
        ensures bad { IfErr result (IfBadFrame (λ cause.
            MeetsBadFrame self.old self.new cause piece.now out.old.items out.new.items)) }
        ensures same { result ≡ Err OutOfMemory
            → (self.new ≡ self.old) × (out.new.items ≡ out.old.items) }
    {
        let held = self.rest.len();
        let out_len = out.len();
        self.rest.extend_from_slice(piece)?;
        let mut place = 0;
        let read = read_requests(self.alloc, &self.rest, &mut place, out);
        match read {
            Ok(()) => {
                drop_first(&mut self.rest, place);
                Ok(())
            }
            Err(Fault::BadFrame { cause }) => {
                drop_first(&mut self.rest, place);
                self.cause = Some(cause);
                Err(Fault::BadFrame { cause })
            }
            Err(Fault::OutOfMemory) => {
                self.rest.truncate(held);
                out.truncate(out_len);
                Err(Fault::OutOfMemory)
            }
        }
    }

    /// Whether no part of a frame is held.
    pub fn between(&self) -> bool
        ensures { IsTrue result ↔ (self.now.rest ≡ []) }
    {
        self.rest.is_empty()
    }
}

/// Removes `count` bytes from the start.
fn drop_first(bytes: &mut Vec<u8>, count: usize)
    requires { count ≤ length bytes.old.items }
    ensures { bytes.new.items ≡ drop count bytes.old.items }
{
    let len = bytes.len();
    bytes.copy_within(count..len, 0);
    bytes.truncate(len - count);
}

/// Reads the request at the place, where its frame is whole, and adds it to `out`. Returns how many bytes its frame
/// has.
fn read_request(
    alloc: Global,
    bytes: &[u8],
    place: usize,
    out: &mut Vec<Request>,
) -> Result<Option<usize>, Fault>
    requires { place ≤ length bytes.now }
    ensures found { IfOk result (λ found. MatchOption found
        ((out.new.items ≡ out.old.items) × Waits (drop place bytes.now))
        (λ len. (0 < len) × GainsRequests bytes.now place (place + len) out.old.items out.new.items)) }
    ensures wrong { IfErr result (IfBadFrame (λ cause. HasCause cause (drop place bytes.now))) }
    ensures same { OnErr result (out.new.items ≡ out.old.items) }
{
    let (_, rest) = bytes.split_at(place);
    let Some((request, len)) = first_request(alloc, rest)? else {
        return Ok(None);
    };
    out.push(request.into_request(alloc)?)?;
    Ok(Some(len))
}

/// Reads the requests from the place on, as far as their frames are whole, and moves the place
/// after them.
fn read_requests(
    alloc: Global,
    bytes: &[u8],
    place: &mut usize,
    out: &mut Vec<Request>,
) -> Result<(), Fault>
    requires { place.old ≤ length bytes.now }
    ensures reads { GainsRequests bytes.now place.old place.new out.old.items out.new.items }
    ensures ok { OnOk result (Waits (drop place.new bytes.now)) }
    ensures wrong { IfErr result (IfBadFrame (λ cause. HasCause cause (drop place.new bytes.now))) }
{
    while let Some(len) = read_request(alloc, bytes, *place, out)? {
        *place += len;
    }
    Ok(())
}
