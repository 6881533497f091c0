//! Answering the requests of a session beside plans that were published before it.
ghost use Rattle.std.specs.Prelude.{◌≡◌, ◌≢◌, [], ◌∷◌, All, IsTrue, OnErr, OnOk};
ghost use Rattle.plan_store.specs.Tickets.{IsOf};
ghost use Rattle.scan_wire.specs.Messages.{Open, Publish, ShowPlan, borrowed_parts, reply_parts, texts_of};
ghost use Rattle.scan_serve.specs.Answering.{Answered, Stopped};
ghost use Rattle.scan_core.specs.Sessions.{IsEvent};
ghost use Rattle.scan_core.specs.Together.{AgreesWith};
ghost use Rattle.scan_run.specs.Beside.{AgreeOn, AgreeReplied, IsEventBeside};

use crate::feeding::answer_feed;
use byte_io::ByteOut;
use lit_base::{Fold, Profile};
use plan_store::Ticket;
use scan_core::{Session, agrees_with};
use scan_serve::{Outbox, Stop};
use scan_wire::{Borrowed, Reply};
use std::alloc::Global;
use std::sync::Wait;
use text_ends::Hit;

/// The law that tickets of a number agree with each ticket of a session of their store. It takes no memory.
fn agree_on(loaded: &[Ticket], number: u64, session: &Session<'_>)
    requires { All (IsOf session.now.store) loaded.now }
    ensures { AgreeOn loaded.now number session.now }
{
    let mut place = 0;
    while place < loaded.len() {
        agree_of(&loaded[place], number, session);
        place += 1;
    }
}

/// The law for one ticket, if it has the number.
fn agree_of(ticket: &Ticket, number: u64, session: &Session<'_>)
    requires { IsOf session.now.store ticket.now }
    ensures { ticket.now.number ≡ number → AgreesWith ticket.now session.now }
{
    if session.store().number(ticket) == number {
        agrees_with(ticket, session);
    }
}

/// The law for the number of a plan that was published.
fn agree_replied(loaded: &[Ticket], reply: &Reply, session: &Session<'_>)
    requires { All (IsOf session.now.store) loaded.now }
    ensures { AgreeReplied loaded.now (reply_parts reply.now ∷ []) session.now }
{
    if let Reply::Published { number } = reply {
        agree_on(loaded, *number, session);
    }
}

/// Answers a request of a session. `loaded` are tickets of its store: no plan that the session gains has the number of
/// another loaded plan, and an Open finds each of them.
pub(crate) fn answer_request<R: Wait, W: ByteOut>(
    rt: &R,
    alloc: Global,
    session: &mut Session<'_>,
    loaded: &[Ticket],
    hits: &mut Vec<Hit>,
    request: Borrowed<'_>,
    outbox: &mut Outbox,
    out: &mut W,
) -> Result<(), Stop>
    requires { All (IsOf session.old.store) loaded.now }
    ensures ok { OnOk result (Answered (IsEventBeside loaded.now) session.old session.new (borrowed_parts request.entry)
        (W.written out.old) (W.written out.new) outbox.old outbox.new) }
    ensures err { OnErr result (Stopped (IsEventBeside loaded.now) session.old (borrowed_parts request.entry)
        (W.written out.old) (W.written out.new) outbox.old) }
    ensures fault { result ≡ Err Stop.WriteFault → IsTrue (W.has_failed out.new) }
    ensures flag { result ≢ Err Stop.WriteFault → W.has_failed out.new ≡ W.has_failed out.old }
    ensures store { session.new.store ≡ session.old.store }
{
    match request {
        Borrowed::Feed { stream, bytes } => {
            answer_feed(alloc, session, hits, stream, bytes, outbox, out)
        }
        Borrowed::Publish {
            fold,
            profile,
            literals,
        } => answer_publish(
            rt, alloc, session, loaded, fold, profile, &literals, outbox, out,
        ),
        Borrowed::Open { stream, number } => {
            answer_open(alloc, session, loaded, stream, number, outbox, out)
        }
        Borrowed::Close { stream } => outbox.push(out, &session.close(stream)),
        Borrowed::ShowPlan { stream } => answer_show_plan(session, stream, outbox, out),
    }
}

/// Answers a Publish. It may wait for another thread.
fn answer_publish<R: Wait, W: ByteOut>(
    rt: &R,
    alloc: Global,
    session: &mut Session<'_>,
    loaded: &[Ticket],
    fold: Fold,
    profile: Profile,
    literals: &[Vec<u8>],
    outbox: &mut Outbox,
    out: &mut W,
) -> Result<(), Stop>
    requires { All (IsOf session.old.store) loaded.now }
    ensures ok { OnOk result (Answered (IsEventBeside loaded.now) session.old session.new (Publish fold profile (texts_of literals.now))
        (W.written out.old) (W.written out.new) outbox.old outbox.new) }
    ensures err { OnErr result (Stopped (IsEventBeside loaded.now) session.old (Publish fold profile (texts_of literals.now))
        (W.written out.old) (W.written out.new) outbox.old) }
    ensures fault { result ≡ Err Stop.WriteFault → IsTrue (W.has_failed out.new) }
    ensures flag { result ≢ Err Stop.WriteFault → W.has_failed out.new ≡ W.has_failed out.old }
    ensures store { session.new.store ≡ session.old.store }
{
    let Ok(reply) = session.publish(rt, alloc, fold, profile, literals) else {
        return Err(Stop::OutOfMemory);
    };
    agree_replied(loaded, &reply, session);
    outbox.push(out, &reply)
}

/// Answers an Open. If memory runs out, nobody needs the ticket that comes with the fault.
fn answer_open<W: ByteOut>(
    alloc: Global,
    session: &mut Session<'_>,
    loaded: &[Ticket],
    stream: u32,
    number: u64,
    outbox: &mut Outbox,
    out: &mut W,
) -> Result<(), Stop>
    requires { All (IsOf session.old.store) loaded.now }
    ensures ok { OnOk result (Answered (IsEventBeside loaded.now) session.old session.new (Open stream number)
        (W.written out.old) (W.written out.new) outbox.old outbox.new) }
    ensures err { OnErr result (Stopped (IsEventBeside loaded.now) session.old (Open stream number)
        (W.written out.old) (W.written out.new) outbox.old) }
    ensures fault { result ≡ Err Stop.WriteFault → IsTrue (W.has_failed out.new) }
    ensures flag { result ≢ Err Stop.WriteFault → W.has_failed out.new ≡ W.has_failed out.old }
    ensures store { session.new.store ≡ session.old.store }
{
    let Ok(reply) = session.open(alloc, loaded, stream, number) else {
        return Err(Stop::OutOfMemory);
    };
    agree_on(loaded, number, session);
    outbox.push(out, &reply)
}

/// Answers a ShowPlan.
fn answer_show_plan<W: ByteOut>(
    session: &Session<'_>,
    stream: u32,
    outbox: &mut Outbox,
    out: &mut W,
) -> Result<(), Stop>
    ensures ok { OnOk result (Answered IsEvent session.now session.now (ShowPlan stream)
        (W.written out.old) (W.written out.new) outbox.old outbox.new) }
    ensures err { OnErr result (Stopped IsEvent session.now (ShowPlan stream)
        (W.written out.old) (W.written out.new) outbox.old) }
    ensures fault { result ≡ Err Stop.WriteFault → IsTrue (W.has_failed out.new) }
    ensures flag { result ≢ Err Stop.WriteFault → W.has_failed out.new ≡ W.has_failed out.old }
{
    let Ok(reply) = session.show_plan(stream) else {
        return Err(Stop::OutOfMemory);
    };
    outbox.push(out, &reply)
}
