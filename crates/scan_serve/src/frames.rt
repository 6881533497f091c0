//! The frames that were read, answered in order.
ghost use Rattle.std.specs.Prelude.{◌≡◌, ◌≢◌, ◌+◌, ◌<◌, ◌≤◌, drop, length, IfErr, IfOk, IsTrue, MatchOption, OnOk};
ghost use Rattle.scan_wire.specs.Causes.{BeginsWithFrame, HasCause, Waits};
ghost use Rattle.scan_wire.specs.Messages.{borrowed_parts};
ghost use Rattle.scan_wire.specs.Reading.{StartsWith};
ghost use Rattle.scan_serve.specs.Answering.{AnswersAll, AnswersPrefix};
ghost use Rattle.scan_serve.specs.Stops.{OnHalt};

use crate::answer::Answer;
use crate::outbox::Outbox;
use crate::stop::{Halt, Stop};
use byte_io::ByteOut;
use scan_wire::{Borrowed, Fault, first_request};
use std::alloc::Global;

/// The request at the start, where its frame is whole, and how many bytes that has.
fn request_at(alloc: Global, bytes: &[u8]) -> Result<Option<(Borrowed<'_>, usize)>, Halt>
    ensures found { IfOk result (λ request. MatchOption request
        (Waits bytes.now × (length bytes.now < 65545))
        (λ x. StartsWith bytes.now (borrowed_parts x.0) x.1)) }
    ensures halt { IfErr result (OnHalt (λ cause. HasCause cause bytes.now) (BeginsWithFrame bytes.now)) }
    ensures fault { result ≢ Err (Halt.Stopped Stop.WriteFault) }
{
    match first_request(alloc, bytes) {
        Ok(request) => Ok(request),
        Err(Fault::BadFrame { cause }) => Err(Halt::Bad(cause)),
        Err(Fault::OutOfMemory) => Err(Halt::Stopped(Stop::OutOfMemory)),
    }
}

/// Answers the request at the place, where its frame is whole, and returns how many bytes the frame has.
fn answer_one<S: Answer, W: ByteOut>(
    alloc: Global,
    session: &mut S,
    bytes: &[u8],
    place: usize,
    outbox: &mut Outbox,
    out: &mut W,
) -> Result<Option<usize>, Halt>
    requires { place ≤ length bytes.now }
    ensures found { IfOk result (λ found. MatchOption found
        (Waits (drop place bytes.now) × (length (drop place bytes.now) < 65545)
        × AnswersAll S.step session.old session.new bytes.now place place
        (W.written out.old) (W.written out.new) outbox.old outbox.new)
        (λ len. (0 < len) × AnswersAll S.step session.old session.new bytes.now place (place + len)
        (W.written out.old) (W.written out.new) outbox.old outbox.new)) }
    ensures halt { IfErr result (OnHalt
        (λ cause. HasCause cause (drop place bytes.now)
        × AnswersAll S.step session.old session.new bytes.now place place
        (W.written out.old) (W.written out.new) outbox.old outbox.new)
        (AnswersPrefix S.step session.old bytes.now place
        (W.written out.old) (W.written out.new) outbox.old)) }
    ensures fault { result ≡ Err (Halt.Stopped Stop.WriteFault) → IsTrue (W.has_failed out.new) }
    ensures flag { result ≢ Err (Halt.Stopped Stop.WriteFault) → W.has_failed out.new ≡ W.has_failed out.old }
{
    let (_, rest) = bytes.split_at(place);
    let Some((request, len)) = request_at(alloc, rest)? else {
        return Ok(None);
    };
    session.answer(request, outbox, out)?;
    Ok(Some(len))
}

/// Answers the requests from the place on, as far as their frames are whole, and moves the place after them. `Err` says
/// that the next frame is bad, or why the replies cannot be written.
pub fn answer_all<S: Answer, W: ByteOut>(
    alloc: Global,
    session: &mut S,
    bytes: &[u8],
    place: &mut usize,
    outbox: &mut Outbox,
    out: &mut W,
) -> Result<(), Halt>
    requires { place.old ≤ length bytes.now }
    ensures ok { OnOk result (Waits (drop place.new bytes.now)
        × (length (drop place.new bytes.now) < 65545)
        × AnswersAll S.step session.old session.new bytes.now place.old place.new
        (W.written out.old) (W.written out.new) outbox.old outbox.new) }
    ensures halt { IfErr result (OnHalt
        (λ cause. HasCause cause (drop place.new bytes.now)
        × AnswersAll S.step session.old session.new bytes.now place.old place.new
        (W.written out.old) (W.written out.new) outbox.old outbox.new)
        (AnswersPrefix S.step session.old bytes.now place.old
        (W.written out.old) (W.written out.new) outbox.old)) }
    ensures fault { result ≡ Err (Halt.Stopped Stop.WriteFault) → IsTrue (W.has_failed out.new) }
    ensures flag { result ≢ Err (Halt.Stopped Stop.WriteFault) → W.has_failed out.new ≡ W.has_failed out.old }
{
    while let Some(len) = answer_one(alloc, session, bytes, *place, outbox, out)? {
        *place += len;
    }
    Ok(())
}
