//! Answering all frames of a window that are whole, and writing the replies.
ghost use Rattle.std.specs.Prelude.{◌≡◌, ◌≢◌, [], IfOk, IsTrue, MatchOption, OnErr, OnOk};
ghost use Rattle.scan_wire.specs.Frames.{FitsReply, reply_text};
ghost use Rattle.scan_wire.specs.Messages.{reply_parts};
ghost use Rattle.scan_serve.specs.Answering.{AnswersTextPrefix, GoesOn, MeetsBad, bad_frame};
ghost use Rattle.scan_serve.specs.Sending.{Sends, SendsLess};

use crate::answer::Answer;
use crate::frames::answer_all;
use crate::outbox::Outbox;
use crate::stop::{Halt, Stop};
use crate::window::Window;
use byte_io::ByteOut;
use scan_wire::{Cause, Fault, Reply};
use std::alloc::Global;

/// The refusal of a bad frame.
fn refusal(cause: Cause) -> Reply
    ensures value { reply_parts result ≡ bad_frame cause }
    ensures fits { FitsReply (reply_parts result) }
{
    Reply::Refused {
        stream: 0,
        code: Fault::BadFrame { cause }.number(),
        detail: u16::from(cause.number()),
    }
}

/// Adds the refusal of a bad frame, and writes all that waits.
fn refuse<W: ByteOut>(cause: Cause, outbox: &mut Outbox, out: &mut W) -> Result<(), Stop>
    ensures empty { OnOk result (outbox.new ≡ []) }
    ensures ok { OnOk result (Sends (W.written out.old) (W.written out.new)
        outbox.old outbox.new (reply_text (bad_frame cause))) }
    ensures err { OnErr result (SendsLess (W.written out.old) (W.written out.new)
        outbox.old (reply_text (bad_frame cause))) }
    ensures fault { result ≡ Err Stop.WriteFault → IsTrue (W.has_failed out.new) }
    ensures flag { result ≢ Err Stop.WriteFault → W.has_failed out.new ≡ W.has_failed out.old }
{
    outbox.push(out, &refusal(cause))?;
    outbox.flush(out)
}

/// Answers the requests in the window, as far as their frames are whole, and writes all replies. If a bad frame
/// follows, it then writes the refusal of that frame and returns its cause; otherwise `None`.
pub fn answer_window<S: Answer, W: ByteOut>(
    alloc: Global,
    session: &mut S,
    window: &mut Window,
    outbox: &mut Outbox,
    out: &mut W,
) -> Result<Option<Cause>, Stop>
    requires { outbox.old ≡ [] }
    ensures empty { OnOk result (outbox.new ≡ []) }
    ensures answers { IfOk result (λ bad. MatchOption bad
        (GoesOn S.step session.old session.new
        (W.written out.old) (W.written out.new) window.old window.new)
        (MeetsBad S.step session.old session.new
        (W.written out.old) (W.written out.new) window.old window.new)) }
    ensures stop { OnErr result (AnswersTextPrefix S.step session.old
        (W.written out.old) (W.written out.new) window.old) }
    ensures fault { result ≡ Err Stop.WriteFault → IsTrue (W.has_failed out.new) }
    ensures flag { result ≢ Err Stop.WriteFault → W.has_failed out.new ≡ W.has_failed out.old }
{
    let mut place = 0;
    match answer_all(alloc, session, window.bytes(), &mut place, outbox, out) {
        Ok(()) => {
            outbox.flush(out)?;
            window.skip(place);
            Ok(None)
        }
        Err(Halt::Bad(cause)) => {
            refuse(cause, outbox, out)?;
            window.skip(place);
            Ok(Some(cause))
        }
        Err(Halt::Stopped(stop)) => Err(stop),
    }
}
