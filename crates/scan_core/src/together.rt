//! How sessions of one store fit into one world.
ghost use Rattle.std.specs.Prelude.{◌≡◌, ◌++◌, [], IfOk, IsOkUnless, Ok};
ghost use Rattle.plan_store.specs.Tickets.{IsOf};
ghost use Rattle.scan_wire.specs.Messages.{request_parts};
ghost use Rattle.scan_core.specs.Sessions.{GainsEvent};
ghost use Rattle.scan_core.specs.Steps.{IsSound};
ghost use Rattle.scan_core.specs.Together.{AgreeAll, ShowSound, TogetherLaw, known_to, world_of};
ghost use Rattle.scan_core.specs.Worlds.{IsFirst};
ghost use Rattle.scan_core.specs.declared.fault.Fault.TheVariants.{OutOfMemory};

use crate::fault::Fault;
use crate::session::Session;
use crate::tickets::agrees_with;
use plan_store::{PlanStore, Ticket};
use scan_wire::{Reply, Request};
use std::alloc::Global;
use std::sync::Wait;
use std::thread::{Threads, join};

/// A session after a request, and the replies.
#[derive(Drop)]
pub struct Answered<'s> {
    /// The session after the request.
    pub session: Session<'s>,
    /// The replies to the request, in order.
    pub replies: Vec<Reply>,
}

/// The law of two sessions of one store in two threads: each answers a request, both at once. Each has one event of its
/// own, and after them the entries that the two know are entries of one world. The only refusal is `OutOfMemory`.
pub fn answered_at_once<'s, R: Threads + Wait + Sync>(
    rt: &R,
    alloc: Global,
    one: Session<'s>,
    asked_of_one: Request,
    other: Session<'s>,
    asked_of_other: Request,
) -> Result<(Answered<'s>, Answered<'s>), Fault>
    requires { one.store ≡ other.store }
    ensures first { IfOk result (λ met. GainsEvent one.entry (request_parts asked_of_one) [] met.0.replies.items met.0.session) }
    ensures second { IfOk result (λ met. GainsEvent other.entry (request_parts asked_of_other) [] met.1.replies.items met.1.session) }
    ensures fit { IfOk result (λ met. IsFirst (world_of (known_to met.0.session ++ known_to met.1.session))) }
    ensures store { IfOk result (λ met. (met.0.session.store ≡ one.entry.store) × (met.1.session.store ≡ one.entry.store)) }
    ensures fault { IsOkUnless result OutOfMemory }
{
    let (first, second) = join(
        rt,
        move || answer_of(rt, alloc, one, asked_of_one),
        move || answer_of(rt, alloc, other, asked_of_other),
    );
    let (first, second) = both(first, second)?;
    fit_law(&first.session, &second.session);
    Ok((first, second))
}

/// Both values, or the first fault. It is generic to keep its proof short: to drop a type parameter takes the proof one
/// step, to drop an `Answered` dozens.
fn both<T: Drop>(first: Result<T, Fault>, second: Result<T, Fault>) -> Result<(T, T), Fault>
    ensures first { IfOk result (λ met. first ≡ Ok met.0) }
    ensures second { IfOk result (λ met. second ≡ Ok met.1) }
    ensures fault { IsOkUnless result OutOfMemory }
{
    let first = first?;
    let second = second?;
    Ok((first, second))
}

/// Answers a request of a session, and returns the session and the replies.
fn answer_of<'s, R: Wait>(
    rt: &R,
    alloc: Global,
    mut session: Session<'s>,
    request: Request,
) -> Result<Answered<'s>, Fault>
    ensures ok { IfOk result (λ met. GainsEvent session.entry (request_parts request) [] met.replies.items met.session) }
    ensures fault { IsOkUnless result OutOfMemory }
{
    let mut replies = Vec::new(alloc);
    session.handle(rt, alloc, request, &mut replies)?;
    Ok(Answered { session, replies })
}

/// The law that two sessions of one store live in one world, in whatever threads they are. The entries that they know,
/// by the plans that they published and by their open streams, are the entries of a world before any event. So a number
/// has one plan in both. It takes no memory.
pub fn fit_law<'s>(one: &Session<'s>, other: &Session<'s>)
    requires { one.now.store ≡ other.now.store }
    ensures { IsFirst (world_of (known_to one.now ++ known_to other.now)) }
{
    agree_all(one, one);
    agree_all(one, other);
    agree_all(other, other);
    show_sound(one);
    show_sound(other);
}

/// The law that each ticket of a session agrees with each ticket of another session of the store.
fn agree_all<'s>(one: &Session<'s>, other: &Session<'s>)
    requires { one.now.store ≡ other.now.store }
    ensures { AgreeAll one.now other.now }
{
    let mut place = 0;
    while place < one.ticket_count() {
        agrees_with(one.ticket_at(place), other);
        place += 1;
    }
}

/// The law that each ticket of a session shows a plan that holds.
fn show_sound(session: &Session<'_>)
    ensures { ShowSound session.now }
{
    let mut place = 0;
    while place < session.ticket_count() {
        shows_sound(session.store(), session.ticket_at(place));
        place += 1;
    }
}

/// The law that a ticket shows a plan that holds.
fn shows_sound(store: &PlanStore, ticket: &Ticket)
    requires { IsOf store.now ticket.now }
    ensures { IsSound ticket.now.plan }
{
    store.at(ticket).list().normal_law();
}

/// The law of events of several sessions, in any order. If the entries that they meet are of one set, with one plan for
/// each number, then the events are a run of one world. So `world_law` holds of them together.
pub fn together_law()
    ensures { TogetherLaw }
{}
