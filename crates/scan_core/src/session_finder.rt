//! The finder of a session, which tunes itself to the bytes of its streams.
ghost use Rattle.std.specs.Prelude.{◌≡◌, ◌+◌, ◌++◌, ◌^◌, ◌<◌, IfOk, IfSome, IsOk, IsOkUnless, IsTrue, None, OnErr, length, take};
ghost use Rattle.lit_base.specs.NextEnds.{NoEndAfter};
ghost use Rattle.plan_store.specs.Tickets.{IsOf};
ghost use Rattle.flow_scan.specs.Scanners.{fed};
ghost use Rattle.flow_scan.specs.Tails.{StopsIn};
ghost use Rattle.scan_core.specs.declared.fault.Fault.TheVariants.{OutOfMemory};

use crate::fault::Fault;
use crate::tuning::MOST_FED_TO_OTHERS;
use flow_scan::{EndFinder, Hit, HitSearch, LEAST_WITH_FINDER, PrefilterSearch, Scanner};
use plan_store::{PlanStore, Ticket};
use std::alloc::Global;
use std::marker::Model;

/// A finder by the plan of a ticket.
#[derive(Drop)]
struct TicketFinder {
    ticket: Ticket,
    finder: EndFinder,
}

/// A contract sees the ticket.
impl Model for TicketFinder {
    ghost use Rattle.std.specs.Prelude.{◌≡◌};
    ghost use Rattle.plan_store.specs.Tickets.{TicketParts};

    ghost Value = { TicketParts };

    ghost view = { λ l. l.ticket };

    ghost invariant = { λ l. l.finder ≡ l.ticket.plan.literals };
}

impl TicketFinder {
    /// A finder before any text, if the plan has literals enough for it and there is memory.
    fn by_plan_of(alloc: Global, store: &PlanStore, ticket: &Ticket) -> Option<TicketFinder>
        requires { IsOf store.now ticket.now }
        ensures { IfSome result (λ own. own ≡ ticket.now) }
    {
        match EndFinder::new_unless_few(alloc, store.at(ticket)) {
            Ok(Some(finder)) => Some(TicketFinder {
                ticket: ticket.again(),
                finder,
            }),
            _ => None,
        }
    }

    /// Whether it is by the plan of a ticket of the same store.
    fn is_by(&self, store: &PlanStore, ticket: &Ticket) -> bool
        requires own { IsOf store.now self.now }
        requires ticket { IsOf store.now ticket.now }
        ensures { IsTrue result → self.now.plan ≡ ticket.now.plan }
    {
        store.agree(&self.ticket, ticket);
        store.number(&self.ticket) == store.number(ticket)
    }
}

/// At most one finder, for all streams of a session that are scanned by its plan.
#[derive(Drop)]
pub(crate) struct SessionFinder {
    own: Option<TicketFinder>,
    /// How many bytes were fed to streams of other plans since a stream of its own plan was fed.
    fed_to_others: usize,
}

/// A contract sees the ticket of its plan.
impl Model for SessionFinder {
    ghost use Rattle.std.specs.Prelude.{Option};
    ghost use Rattle.plan_store.specs.Tickets.{TicketParts};

    ghost Value = { Option TicketParts };

    ghost view = { λ l. l.own };
}

impl SessionFinder {
    /// No finder. It takes no memory.
    pub(crate) fn new() -> SessionFinder
        ensures { result ≡ None }
    {
        SessionFinder {
            own: None,
            fed_to_others: 0,
        }
    }

    /// Prepares for a feed to a stream by the plan of a ticket. `place` is the stream's position. From
    /// `LEAST_WITH_FINDER` on there is a finder by this plan, unless a finder of another plan is in use, the plan has
    /// too few literals, or memory is short. Without a finder the stream is scanned by the plan alone.
    pub(crate) fn prepare(&mut self, alloc: Global, store: &PlanStore, ticket: &Ticket, place: u64)
        requires own { IfSome self.old (IsOf store.now) }
        requires ticket { IsOf store.now ticket.now }
        ensures { IfSome self.new (IsOf store.now) }
    {
        if self.is_by(store, ticket) {
            self.fed_to_others = 0;
        } else if place >= LEAST_WITH_FINDER {
            self.make_if_due(alloc, store, ticket);
        }
    }

    /// Makes a finder by the plan of a ticket where there is none, or the finder of another plan is out of use. That one
    /// stays if none is made.
    fn make_if_due(&mut self, alloc: Global, store: &PlanStore, ticket: &Ticket)
        requires own { IfSome self.old (IsOf store.now) }
        requires ticket { IsOf store.now ticket.now }
        ensures { IfSome self.new (IsOf store.now) }
    {
        if self.own.is_none() || self.fed_to_others >= MOST_FED_TO_OTHERS {
            if let Some(own) = TicketFinder::by_plan_of(alloc, store, ticket) {
                self.own = Some(own);
            }
            self.fed_to_others = 0;
        }
    }

    /// Whether it is by the plan of a ticket.
    fn is_by(&self, store: &PlanStore, ticket: &Ticket) -> bool
        requires own { IfSome self.now (IsOf store.now) }
        requires ticket { IsOf store.now ticket.now }
    {
        match &self.own {
            Some(own) => own.is_by(store, ticket),
            None => false,
        }
    }

    /// Feeds a prefix of a piece to a scan by the plan of a ticket, as `feed_until` of the scan does, with the finder
    /// if it is by the same plan.
    pub(crate) fn feed(
        &mut self,
        store: &PlanStore,
        ticket: &Ticket,
        scanner: &mut Scanner<'_>,
        piece: &[u8],
        most: usize,
        out: &mut Vec<Hit>,
    ) -> Result<usize, Fault>
        requires own { IfSome self.old (IsOf store.now) }
        requires ticket { IsOf store.now ticket.now }
        requires plan { scanner.old.plan ≡ ticket.now.plan }
        requires room { scanner.old.place + length piece.now < 2 ^ 64 }
        ensures same { self.new ≡ self.old }
        ensures ok { IfOk result (λ count. scanner.new ≡ fed scanner.old (take count piece.now)) }
        ensures hits { IfOk result (λ count. StopsIn scanner.old.plan.literals scanner.old.tail piece.now scanner.old.place most count out.old.items out.new.items) }
        ensures same_plan { scanner.new.plan ≡ scanner.old.plan }
        ensures same_scan { OnErr result (scanner.new ≡ scanner.old) }
        ensures same_hits { OnErr result (out.new.items ≡ out.old.items) }
        ensures fault { IsOkUnless result OutOfMemory }
        ensures quiet { NoEndAfter scanner.old.plan.literals (scanner.old.tail ++ piece.now) (length scanner.old.tail) → IsOk result }
    {
        match &mut self.own {
            Some(own) if own.is_by(store, ticket) => {
                feed_by(&mut own.finder, scanner, piece, most, out)
            }
            _ => {
                let count = feed_by(&mut PrefilterSearch, scanner, piece, most, out)?;
                self.fed_to_others = self.fed_to_others.saturating_add(count);
                Ok(count)
            }
        }
    }
}

/// Feeds a prefix of a piece to a scan, by a search.
fn feed_by<S: HitSearch>(
    search: &mut S,
    scanner: &mut Scanner<'_>,
    piece: &[u8],
    most: usize,
    out: &mut Vec<Hit>,
) -> Result<usize, Fault>
    requires plan { S.serves search.old scanner.old.plan.literals }
    requires room { scanner.old.place + length piece.now < 2 ^ 64 }
    ensures plan { S.serves search.new scanner.old.plan.literals }
    ensures ok { IfOk result (λ count. scanner.new ≡ fed scanner.old (take count piece.now)) }
    ensures hits { IfOk result (λ count. StopsIn scanner.old.plan.literals scanner.old.tail piece.now scanner.old.place most count out.old.items out.new.items) }
    ensures same_plan { scanner.new.plan ≡ scanner.old.plan }
    ensures same_scan { OnErr result (scanner.new ≡ scanner.old) }
    ensures same_hits { OnErr result (out.new.items ≡ out.old.items) }
    ensures fault { IsOkUnless result OutOfMemory }
    ensures quiet { NoEndAfter scanner.old.plan.literals (scanner.old.tail ++ piece.now) (length scanner.old.tail) → IsOk result }
{
    let Ok(count) = scanner.feed_until(search, piece, most, out) else {
        return Err(Fault::OutOfMemory);
    };
    Ok(count)
}
