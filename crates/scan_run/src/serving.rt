//! Serving a session of a store over a stream of frames.
ghost use Rattle.std.specs.Prelude.{◌≡◌, ◌≢◌, ◌+◌, ◌^◌, ◌≤◌, ◌⊎◌, [], All, IsTrue};
ghost use Rattle.plan_store.specs.Tickets.{IsOf};
ghost use Rattle.scan_serve.specs.Serving.{EndsAs};
ghost use Rattle.scan_core.specs.Sessions.{IsEvent, Serving, fresh};
ghost use Rattle.scan_core.specs.Steps.{SessionParts, new_session};
ghost use Rattle.scan_core.specs.Worlds.{Streamed};
ghost use Rattle.scan_run.specs.Beside.{IsEventBeside};
ghost use Rattle.scan_run.specs.Seen.{IsStepByBytes};

use crate::answering::answer_request;
use crate::loaded_store::LoadedStore;
use byte_io::{ByteIn, ByteOut};
use plan_store::{PlanStore, Ticket};
use scan_core::Session;
use scan_serve::{Answer, Ended, Outbox, Stop};
use scan_wire::Borrowed;
use std::alloc::Global;
use std::marker::Model;
use std::sync::Wait;
use text_ends::Hit;

/// A session, with the parts that it needs to answer over a stream.
#[derive(Drop)]
struct Served<'r, 's, R: Wait> {
    rt: &'r R,
    alloc: Global,
    session: Session<'s>,
    /// Tickets of plans of its store that were published before.
    loaded: &'r [Ticket],
    /// Hits that are not yet sent: fewer than two replies take.
    hits: Vec<Hit>,
}

/// A contract sees the session and the loaded tickets.
impl<'r, 's, R: Wait> Model for Served<'r, 's, R> {
    ghost use Rattle.std.specs.Prelude.{All};
    ghost use Rattle.plan_store.specs.Tickets.{IsOf};
    ghost use Rattle.scan_run.specs.Beside.{Beside};

    ghost Value = { Beside };

    ghost view = { λ s. record { session = s.session; loaded = s.loaded.now } };

    ghost invariant = { λ s. All (IsOf s.session.store) s.loaded.now };
}

impl<'r, 's, R: Wait> Answer for Served<'r, 's, R> {
    ghost use Rattle.scan_run.specs.Beside.{IsStepBeside};

    ghost step = { IsStepBeside };

    fn answer<W: ByteOut>(
        &mut self,
        request: Borrowed<'_>,
        outbox: &mut Outbox,
        out: &mut W,
    ) -> Result<(), Stop> {
        answer_request(
            self.rt,
            self.alloc,
            &mut self.session,
            self.loaded,
            &mut self.hits,
            request,
            outbox,
            out,
        )
    }
}

/// Serves a session as `serve_session` does. `loaded` are tickets of its store, whose plans were published before. No
/// plan that the session gains has the number of another loaded plan.
fn serve_beside<'s, R: Wait, I: ByteIn, O: ByteOut>(
    rt: &R,
    alloc: Global,
    session: Session<'s>,
    loaded: &[Ticket],
    input: &mut I,
    out: &mut O,
) -> (Ended, Session<'s>)
    requires { All (IsOf session.store) loaded.now }
    ensures ends { EndsAs (IsEventBeside loaded.now) session.entry result.1
        (I.coming input.old) (I.coming input.new)
        (O.written out.old) (O.written out.new) [] result.0 }
    ensures store { result.0 ≢ Ended.WriteFault → result.0 ≢ Ended.OutOfMemory
        → result.1.store ≡ session.entry.store }
    ensures read_fault { result.0 ≡ Ended.ReadFault
        → IsTrue (I.has_failed input.new) ⊎ (I.given input.old + 2 ^ 40 ≤ I.given input.new) }
    ensures write_fault { result.0 ≡ Ended.WriteFault → IsTrue (O.has_failed out.new) }
    ensures unread { result.0 ≢ Ended.ReadFault → I.has_failed input.new ≡ I.has_failed input.old }
    ensures unwritten { result.0 ≢ Ended.WriteFault → O.has_failed out.new ≡ O.has_failed out.old }
{
    let mut served = Served {
        rt,
        alloc,
        session,
        loaded,
        hits: Vec::new(alloc),
    };
    let ended = scan_serve::serve(alloc, &mut served, input, out);
    let Served {
        session,
        hits: _hits,
        ..
    } = served;
    (ended, session)
}

/// Serves a session over a stream of frames to its end, and returns it. Requests are read from `input`, and answered in
/// order on `out`. The replies to all frames that are whole are written before the next read.
///
/// The session continues with its published plans and its open streams; all its tickets afterwards are of its store.
/// After `WriteFault` and `OutOfMemory` it is of no use any more.
///
/// Whatever the requests, it holds at most 262,180 bytes of input and 106,506 bytes of replies, which are written once
/// they are 65,536. It also holds a few thousand hits, the literals of the Publish that it answers, a finder for long
/// streams, up to 9.4 MiB, the plans that it publishes, and the tails of its streams. Only a Publish may wait for another
/// thread.
pub fn serve_session<'s, R: Wait, I: ByteIn, O: ByteOut>(
    rt: &R,
    alloc: Global,
    session: Session<'s>,
    input: &mut I,
    out: &mut O,
) -> (Ended, Session<'s>)
    ensures ends { EndsAs IsEvent session.entry result.1
        (I.coming input.old) (I.coming input.new)
        (O.written out.old) (O.written out.new) [] result.0 }
    ensures store { result.0 ≢ Ended.WriteFault → result.0 ≢ Ended.OutOfMemory
        → result.1.store ≡ session.entry.store }
    ensures read_fault { result.0 ≡ Ended.ReadFault
        → IsTrue (I.has_failed input.new) ⊎ (I.given input.old + 2 ^ 40 ≤ I.given input.new) }
    ensures write_fault { result.0 ≡ Ended.WriteFault → IsTrue (O.has_failed out.new) }
    ensures unread { result.0 ≢ Ended.ReadFault → I.has_failed input.new ≡ I.has_failed input.old }
    ensures unwritten { result.0 ≢ Ended.WriteFault → O.has_failed out.new ≡ O.has_failed out.old }
{
    serve_beside(rt, alloc, session, &[], input, out)
}

/// Serves a session of the store as `serve` does. No plan that the session publishes or opens has the number of another
/// loaded plan, and an Open finds each of them.
pub fn serve_loaded<R: Wait, I: ByteIn, O: ByteOut>(
    rt: &R,
    alloc: Global,
    loaded: LoadedStore<'_>,
    input: &mut I,
    out: &mut O,
) -> Ended
    ensures ends { (after : Serving) × EndsAs (IsEventBeside loaded.entry.tickets.now) (fresh loaded.entry.store.now) after
        (I.coming input.old) (I.coming input.new)
        (O.written out.old) (O.written out.new) [] result }
    ensures read_fault { result ≡ Ended.ReadFault
        → IsTrue (I.has_failed input.new) ⊎ (I.given input.old + 2 ^ 40 ≤ I.given input.new) }
    ensures write_fault { result ≡ Ended.WriteFault → IsTrue (O.has_failed out.new) }
    ensures unread { result ≢ Ended.ReadFault → I.has_failed input.new ≡ I.has_failed input.old }
    ensures unwritten { result ≢ Ended.WriteFault → O.has_failed out.new ≡ O.has_failed out.old }
{
    let session = Session::new(loaded.store);
    let (ended, _session) = serve_beside(rt, alloc, session, loaded.tickets, input, out);
    ended
}

/// Serves a session of the store over a stream of frames to its end: requests are read from `input`,
/// and answered in order on `out`. The replies to all frames that are whole are written before the
/// next read.
///
/// It is `serve_session` of a session that has published nothing. It drops the session, and holds no more.
pub fn serve<R: Wait, I: ByteIn, O: ByteOut>(
    rt: &R,
    alloc: Global,
    store: &PlanStore,
    input: &mut I,
    out: &mut O,
) -> Ended
    ensures ends { (after : Serving) × EndsAs IsEvent (fresh store.now) after
        (I.coming input.old) (I.coming input.new)
        (O.written out.old) (O.written out.new) [] result }

    // The same, seen by all bytes that each stream was fed since its Open.
    ensures bytes { (after : SessionParts Streamed) × EndsAs IsStepByBytes new_session after
        (I.coming input.old) (I.coming input.new)
        (O.written out.old) (O.written out.new) [] result }
    ensures read_fault { result ≡ Ended.ReadFault
        → IsTrue (I.has_failed input.new) ⊎ (I.given input.old + 2 ^ 40 ≤ I.given input.new) }
    ensures write_fault { result ≡ Ended.WriteFault → IsTrue (O.has_failed out.new) }
    ensures unread { result ≢ Ended.ReadFault → I.has_failed input.new ≡ I.has_failed input.old }
    ensures unwritten { result ≢ Ended.WriteFault → O.has_failed out.new ≡ O.has_failed out.old }
{
    let (ended, _session) = serve_session(rt, alloc, Session::new(store), input, out);
    ended
}
