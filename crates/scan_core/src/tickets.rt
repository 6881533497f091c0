//! Tickets of a number: among those of a session, which are of the plans that it published and of its open streams, and
//! among others of its store.
ghost use Rattle.std.specs.Prelude.{◌≡◌, All, Contains, IfNone, IfSome, map};
ghost use Rattle.plan_store.specs.Tickets.{IsOf};
ghost use Rattle.scan_core.specs.Together.{AgreesWith, tickets_of};

use crate::session::Session;
use plan_store::{PlanStore, Ticket};

/// A ticket of a number among the tickets of a session.
pub(crate) fn known_ticket(session: &Session<'_>, number: u64) -> Option<Ticket>
    ensures here { IfSome result (λ ticket. IsOf session.now.store ticket) }
    ensures number { IfSome result (λ ticket. ticket.number ≡ number) }
    ensures stranger { IfNone result (¬ Contains (map (λ ticket. ticket.number) (tickets_of session.now)) number) }
{
    let mut place = 0;
    while place < session.ticket_count() {
        let ticket = session.ticket_at(place);
        if session.store().number(ticket) == number {
            return Some(ticket.again());
        }
        place += 1;
    }
    None
}

/// A ticket of a number among tickets of a store.
pub(crate) fn ticket_among(store: &PlanStore, tickets: &[Ticket], number: u64) -> Option<Ticket>
    requires { All (IsOf store.now) tickets.now }
    ensures here { IfSome result (λ ticket. IsOf store.now ticket) }
    ensures number { IfSome result (λ ticket. ticket.number ≡ number) }
    ensures stranger { IfNone result (¬ Contains (map (λ ticket. ticket.number) tickets.now) number) }
{
    let mut place = 0;
    while place < tickets.len() {
        let ticket = &tickets[place];
        if store.number(ticket) == number {
            return Some(ticket.again());
        }
        place += 1;
    }
    None
}

/// The law that a ticket agrees with each of a session of its store. It takes no memory.
pub fn agrees_with(ticket: &Ticket, session: &Session<'_>)
    requires { IsOf session.now.store ticket.now }
    ensures { AgreesWith ticket.now session.now }
{
    let mut place = 0;
    while place < session.ticket_count() {
        session.store().agree(ticket, session.ticket_at(place));
        place += 1;
    }
}
