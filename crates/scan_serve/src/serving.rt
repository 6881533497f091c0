//! Serving a stream to its end.
ghost use Rattle.std.specs.Prelude.{◌≡◌, ◌≢◌, ◌+◌, ◌^◌, ◌<◌, ◌≤◌, ◌⊎◌, [], length, IfNone, IfOk, IfSome, IsTrue, OnErr, OnOk};
ghost use Rattle.scan_wire.specs.Causes.{Waits};
ghost use Rattle.scan_serve.specs.declared.ended.Ended.TheVariants.{OutOfMemory, ReadFault, WriteFault};
ghost use Rattle.scan_serve.specs.Serving.{EndsAs, GoesOnServing, IsServedPrefix};

use crate::answer::Answer;
use crate::answering::answer_window;
use crate::ended::Ended;
use crate::outbox::Outbox;
use crate::stop::Stop;
use crate::window::Window;
use byte_io::{ByteIn, ByteOut, MAX_TURNS};
use std::alloc::Global;

/// A read, and the answers to all frames that are whole then. `None`: the stream goes on.
fn turn<S: Answer, R: ByteIn, W: ByteOut>(
    alloc: Global,
    session: &mut S,
    window: &mut Window,
    outbox: &mut Outbox,
    input: &mut R,
    out: &mut W,
) -> Result<Option<Ended>, Stop>
    requires waits { Waits window.old }
    requires short { length window.old < 65545 }
    requires empty { outbox.old ≡ [] }
    ensures goes_on { IfOk result (λ ended. IfNone ended (GoesOnServing S.step
        session.old session.new (R.coming input.old) (R.coming input.new)
        (W.written out.old) (W.written out.new) window.old window.new)) }
    ensures empty { OnOk result (outbox.new ≡ []) }
    ensures more { IfOk result (λ ended. IfNone ended (R.given input.old < R.given input.new)) }
    ensures ends { IfOk result (λ ended. IfSome ended (EndsAs S.step
        session.old session.new (R.coming input.old) (R.coming input.new)
        (W.written out.old) (W.written out.new) window.old)) }
    ensures stop { OnErr result (IsServedPrefix S.step session.old
        (R.coming input.old) (R.coming input.new)
        (W.written out.old) (W.written out.new) window.old) }
    ensures no_stop { result ≢ Ok (Some WriteFault) }
    ensures not_starved { result ≢ Ok (Some OutOfMemory) }
    ensures read_fault { result ≡ Ok (Some ReadFault) → IsTrue (R.has_failed input.new) }
    ensures write_fault { result ≡ Err Stop.WriteFault → IsTrue (W.has_failed out.new) }
    ensures unread { result ≢ Ok (Some ReadFault) → R.has_failed input.new ≡ R.has_failed input.old }
    ensures unwritten { result ≢ Err Stop.WriteFault → W.has_failed out.new ≡ W.has_failed out.old }
{
    let Ok(count) = window.read_from(input) else {
        return Ok(Some(Ended::ReadFault));
    };
    if count == 0 {
        let ended = if window.bytes().is_empty() {
            Ended::Clean
        } else {
            Ended::Truncated
        };
        return Ok(Some(ended));
    }
    match answer_window(alloc, session, window, outbox, out)? {
        None => Ok(None),
        Some(_) => Ok(Some(Ended::Bad)),
    }
}

/// Turns until the stream ends, over a window in which nothing is held.
fn turns<S: Answer, R: ByteIn, W: ByteOut>(
    alloc: Global,
    session: &mut S,
    window: &mut Window,
    input: &mut R,
    out: &mut W,
) -> Result<Ended, Stop>
    requires { window.old ≡ [] }
    ensures ends { IfOk result (EndsAs S.step session.old session.new
        (R.coming input.old) (R.coming input.new)
        (W.written out.old) (W.written out.new) window.old) }
    ensures stop { OnErr result (IsServedPrefix S.step session.old
        (R.coming input.old) (R.coming input.new)
        (W.written out.old) (W.written out.new) window.old) }
    ensures no_stop { result ≢ Ok WriteFault }
    ensures read_fault { result ≡ Ok ReadFault
        → IsTrue (R.has_failed input.new) ⊎ (R.given input.old + 2 ^ 40 ≤ R.given input.new) }
    ensures write_fault { result ≡ Err Stop.WriteFault → IsTrue (W.has_failed out.new) }
    ensures unread { result ≢ Ok ReadFault → R.has_failed input.new ≡ R.has_failed input.old }
    ensures unwritten { result ≢ Err Stop.WriteFault → W.has_failed out.new ≡ W.has_failed out.old }
{
    let mut outbox = Outbox::new(alloc);
    for _turn in 0..MAX_TURNS {
        let ended = turn(alloc, session, window, &mut outbox, input, out)?;
        if let Some(ended) = ended {
            return Ok(ended);
        }
    }
    Ok(Ended::ReadFault)
}

/// Serves a stream to its end: reads requests, and answers each in order. The replies to all frames
/// that are whole are written before the next read.
///
/// It needs one buffer of 262,180 bytes for input, one for replies, and the literals of the Publish that it answers,
/// whatever the requests are. After `MAX_TURNS` reads it ends as if a read had failed.
pub fn serve<S: Answer, R: ByteIn, W: ByteOut>(
    alloc: Global,
    session: &mut S,
    input: &mut R,
    out: &mut W,
) -> Ended
    ensures ends { EndsAs S.step session.old session.new
        (R.coming input.old) (R.coming input.new)
        (W.written out.old) (W.written out.new) [] result }

    // A fault is reported only where the device's flag is set, or the turns ran out.
    ensures read_fault { result ≡ ReadFault
        → IsTrue (R.has_failed input.new) ⊎ (R.given input.old + 2 ^ 40 ≤ R.given input.new) }
    ensures write_fault { result ≡ WriteFault → IsTrue (W.has_failed out.new) }

    // Where no read fault is reported, no read failed. The same holds of writes.
    ensures unread { result ≢ ReadFault → R.has_failed input.new ≡ R.has_failed input.old }
    ensures unwritten { result ≢ WriteFault → W.has_failed out.new ≡ W.has_failed out.old }
{
    let Ok(mut window) = Window::new(alloc) else {
        return Ended::OutOfMemory;
    };
    match turns(alloc, session, &mut window, input, out) {
        Ok(ended) => ended,
        Err(stop) => Ended::from(stop),
    }
}
