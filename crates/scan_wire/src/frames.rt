//! A frame at the start of a text, and the request that it is.
ghost use Rattle.std.specs.Prelude.{◌≡◌, ◌≢◌, ◌^◌, ◌<◌, ◌∷◌, ◌++◌, length, IfErr, IfNone, IfOk, IfSome, MatchOption};
ghost use Rattle.scan_wire.specs.declared.fault.Fault.TheVariants.{OutOfMemory};
ghost use Rattle.scan_wire.specs.Causes.{BeginsWithList, HasCause, IfBadFrame, IsWrong, TakesMemory, Waits};
ghost use Rattle.scan_wire.specs.Frames.{HasFields, request_frame};
ghost use Rattle.scan_wire.specs.Messages.{borrowed_parts};
ghost use Rattle.scan_wire.specs.Numbers.{u32_text};
ghost use Rattle.scan_wire.specs.Reading.{StartsWith, StartsWithFrame, parts_of};

use crate::fault::{Cause, Fault};
use crate::kinds::{CLOSE_KIND, FEED_KIND, OPEN_KIND, PUBLISH_KIND, SHOW_PLAN_KIND};
use crate::message::Borrowed;
use crate::numbers::first_u32;
use crate::reading::{BAD_PAYLOAD, list_of, number_of};
use std::alloc::Global;

/// The least length in a frame: of its kind and its stream.
const LEAST_LEN: u32 = 5;

/// The greatest length in a frame.
const GREATEST_LEN: u32 = 65_541;

/// How many bytes of a frame are not its payload.
const HEAD_LEN: usize = 9;

/// A whole frame.
#[derive(Drop)]
struct Frame<'a> {
    kind: u8,
    stream: u32,
    payload: &'a [u8],
}

/// The frame whose bytes after its length these are, where they are enough.
fn frame_of(bytes: &[u8]) -> Option<Frame<'_>>
    ensures found { IfSome result (λ frame. (frame.kind < 2 ^ 8) × (frame.stream < 2 ^ 32)
        × (bytes.now ≡ frame.kind ∷ (u32_text frame.stream ++ frame.payload.now))) }
    ensures none { IfNone result (length bytes.now < 5) }
{
    let (kind, rest) = bytes.split_first()?;
    let (stream, payload) = first_u32(rest)?;
    Some(Frame {
        kind: *kind,
        stream,
        payload,
    })
}

/// The frame at the start, where it is whole.
fn first_frame(bytes: &[u8]) -> Result<Option<Frame<'_>>, Cause>
    ensures found { IfOk result (λ frame.
        MatchOption frame (Waits bytes.now) (λ f. StartsWithFrame bytes.now (parts_of f))) }
    ensures short { IfOk result (λ frame. IfNone frame (length bytes.now < 65545)) }
    ensures wrong { IfErr result (λ cause. HasCause cause bytes.now) }
{
    let Some((len, rest)) = first_u32(bytes) else {
        return Ok(None);
    };
    if len < LEAST_LEN || len > GREATEST_LEN {
        return Err(Cause::Length);
    }
    let len = len as usize;
    if rest.len() < len {
        return Ok(None);
    }
    let (frame, _) = rest.split_at(len);
    Ok(frame_of(frame))
}

/// The Publish that the frame is.
fn publish_of(alloc: Global, frame: Frame<'_>) -> Result<Borrowed<'_>, Fault>
    requires { frame.kind ≡ 0x01 }
    ensures found { IfOk result (λ request. HasFields (borrowed_parts request)
        × (request_frame (borrowed_parts request) ≡ parts_of frame.entry)) }
    ensures wrong { IfErr result (IfBadFrame (λ cause. IsWrong cause (parts_of frame.entry))) }
    ensures starved { result ≡ Err OutOfMemory → TakesMemory (parts_of frame.entry) }
{
    if frame.stream != 0 {
        return Err(Fault::BadFrame {
            cause: Cause::Stream,
        });
    }
    let (fold, profile, literals) = list_of(alloc, frame.payload)?;
    Ok(Borrowed::Publish {
        fold,
        profile,
        literals,
    })
}

/// The Open that the frame is.
fn open_of(frame: Frame<'_>) -> Result<Borrowed<'_>, Fault>
    requires { frame.kind ≡ 0x02 }
    ensures found { IfOk result (λ request. HasFields (borrowed_parts request)
        × (request_frame (borrowed_parts request) ≡ parts_of frame.entry)) }
    ensures wrong { IfErr result (IfBadFrame (λ cause. IsWrong cause (parts_of frame.entry))) }
    ensures no_memory { result ≢ Err OutOfMemory }
{
    let Some(number) = number_of(frame.payload) else {
        return Err(BAD_PAYLOAD);
    };
    Ok(Borrowed::Open {
        stream: frame.stream,
        number,
    })
}

/// The Close that the frame is.
fn close_of(frame: Frame<'_>) -> Result<Borrowed<'_>, Fault>
    requires { frame.kind ≡ 0x04 }
    ensures found { IfOk result (λ request. HasFields (borrowed_parts request)
        × (request_frame (borrowed_parts request) ≡ parts_of frame.entry)) }
    ensures wrong { IfErr result (IfBadFrame (λ cause. IsWrong cause (parts_of frame.entry))) }
    ensures no_memory { result ≢ Err OutOfMemory }
{
    if !frame.payload.is_empty() {
        return Err(BAD_PAYLOAD);
    }
    Ok(Borrowed::Close {
        stream: frame.stream,
    })
}

/// The ShowPlan that the frame is.
fn show_plan_of(frame: Frame<'_>) -> Result<Borrowed<'_>, Fault>
    requires { frame.kind ≡ 0x05 }
    ensures found { IfOk result (λ request. HasFields (borrowed_parts request)
        × (request_frame (borrowed_parts request) ≡ parts_of frame.entry)) }
    ensures wrong { IfErr result (IfBadFrame (λ cause. IsWrong cause (parts_of frame.entry))) }
    ensures no_memory { result ≢ Err OutOfMemory }
{
    if !frame.payload.is_empty() {
        return Err(BAD_PAYLOAD);
    }
    Ok(Borrowed::ShowPlan {
        stream: frame.stream,
    })
}

/// The request that the frame is.
fn request_of(alloc: Global, frame: Frame<'_>) -> Result<Borrowed<'_>, Fault>
    ensures found { IfOk result (λ request. HasFields (borrowed_parts request)
        × (request_frame (borrowed_parts request) ≡ parts_of frame.entry)) }
    ensures wrong { IfErr result (IfBadFrame (λ cause. IsWrong cause (parts_of frame.entry))) }
    ensures starved { result ≡ Err OutOfMemory → TakesMemory (parts_of frame.entry) }
{
    match frame.kind {
        PUBLISH_KIND => publish_of(alloc, frame),
        OPEN_KIND => open_of(frame),
        FEED_KIND => Ok(Borrowed::Feed {
            stream: frame.stream,
            bytes: frame.payload,
        }),
        CLOSE_KIND => close_of(frame),
        SHOW_PLAN_KIND => show_plan_of(frame),
        _ => Err(Fault::BadFrame { cause: Cause::Kind }),
    }
}

/// Reads the request whose frame stands at the start, and how many bytes the frame has. `None`: no
/// frame is whole there, and none is bad, so that more bytes have to come.
///
/// The piece of a Feed stays where it is, and nothing is copied but the literals of a Publish, whose
/// bytes are all there.
///
/// # Errors
/// - `BadFrame` with its first cause, where a bad frame stands at the start. A length out of range is reported once its
///   four bytes are there, the other causes once the frame is whole.
/// - `OutOfMemory`, where a growth was refused: only for a whole Publish that announces literals.
pub fn first_request(alloc: Global, bytes: &[u8]) -> Result<Option<(Borrowed<'_>, usize)>, Fault>
    ensures found { IfOk result (λ request. MatchOption request (Waits bytes.now)
        (λ x. StartsWith bytes.now (borrowed_parts x.0) x.1)) }
    ensures short { IfOk result (λ request. IfNone request (length bytes.now < 65545)) }
    ensures wrong { IfErr result (IfBadFrame (λ cause. HasCause cause bytes.now)) }
    ensures starved { result ≡ Err OutOfMemory → BeginsWithList bytes.now }
{
    match first_frame(bytes) {
        Ok(None) => Ok(None),
        Ok(Some(frame)) => {
            let len = HEAD_LEN + frame.payload.len();
            let request = request_of(alloc, frame)?;
            Ok(Some((request, len)))
        }
        Err(cause) => Err(Fault::BadFrame { cause }),
    }
}
