//! An open stream.
ghost use Rattle.std.specs.Prelude.{◌≡◌, ◌+◌, ◌++◌, ◌^◌, ◌≤◌, ◌<◌, IfOk, IfSome, IsOk, IsOkUnless, MatchOption, None, OnErr, length, nat_eq};
ghost use Rattle.lit_base.specs.NextEnds.{NoEndAfter};
ghost use Rattle.plan_store.specs.Tickets.{IsOf};
ghost use Rattle.flow_scan.specs.Scanners.{started};
ghost use Rattle.scan_wire.specs.Messages.{reply_parts};
ghost use Rattle.scan_core.specs.Sessions.{IsBound};
ghost use Rattle.scan_core.specs.Steps.{IsSound, plan_reply};
ghost use Rattle.scan_core.specs.Prefixes.{IsKept, MovesUpTo};
ghost use Rattle.scan_core.specs.Streams.{StandsAt, MovesTo};
ghost use Rattle.scan_core.specs.declared.fault.Fault.TheVariants.{OutOfMemory};
ghost use Rattle.std.specs.Map.{lookup};

use crate::bounded_vec::BoundedVec;
use crate::fault::Fault;
use crate::session_finder::SessionFinder;
use flow_scan::{Compiled, Fault as ScanFault, Hit, Scanner};
use plan_store::{PlanStore, Ticket};
use scan_wire::Reply;
use std::alloc::Global;
use std::marker::Model;

/// An open stream: its number, the ticket of its plan, the plan, and its scan.
#[derive(Drop)]
pub(crate) struct Stream<'s> {
    pub(crate) number: u32,
    ticket: Ticket,
    plan: &'s Compiled,
    scanner: Scanner<'s>,
}

/// A contract sees its number, its ticket and its scan.
impl<'s> Model for Stream<'s> {
    ghost use Rattle.std.specs.Prelude.{◌≡◌, ℕ};
    ghost use Rattle.scan_core.specs.Sessions.{Bound};

    ghost Value = { ℕ × Bound };

    ghost view = { λ s. (s.number, record { ticket = s.ticket; scan = s.scanner }) };

    ghost invariant = { λ s. s.scanner.plan ≡ s.plan.now };
}

impl<'s> Stream<'s> {
    /// The ticket of its plan.
    pub(crate) fn ticket(&self) -> &Ticket
        ensures { result.now ≡ self.now.1.ticket }
    {
        &self.ticket
    }

    /// A stream by the plan of a ticket, before any bytes.
    pub(crate) fn open(
        alloc: Global,
        store: &'s PlanStore,
        number: u32,
        ticket: Ticket,
    ) -> Result<Stream<'s>, Fault>
        requires { IsOf store.now ticket }
        ensures ok { IfOk result (λ s. s ≡ (number, record { ticket = ticket; scan = started ticket.plan 0 })) }
        ensures sound { IsSound ticket.plan }
        ensures fault { IsOkUnless result OutOfMemory }
    {
        let plan = store.at(&ticket);
        plan.list().normal_law();
        let Ok(scanner) = Scanner::new(alloc, plan) else {
            return Err(Fault::OutOfMemory);
        };
        Ok(Stream {
            number,
            ticket,
            plan,
            scanner,
        })
    }

    /// The stream after one more piece, whose hits `out` gains; none where its place would pass
    /// 2^64 - 1.
    pub(crate) fn fed(&self, piece: &[u8], out: &mut Vec<Hit>) -> Result<Option<Stream<'s>>, Fault>
        ensures ok { IfOk result (λ next. MatchOption next
            (2 ^ 64 ≤ self.now.1.scan.place + length piece.now)
            (MovesTo self.now piece.now out.old.items out.new.items)) }
        ensures fault { IsOkUnless result OutOfMemory }
    {
        let Ok(mut scanner) = self.scanner.copy() else {
            return Err(Fault::OutOfMemory);
        };
        match scanner.feed(piece, out) {
            Ok(()) => {}
            Err(ScanFault::StreamTooLong) => return Ok(None),
            Err(_) => return Err(Fault::OutOfMemory),
        }
        Ok(Some(Stream {
            number: self.number,
            ticket: self.ticket.again(),
            plan: self.plan,
            scanner,
        }))
    }

    /// Feeds a prefix of a piece, and returns how many bytes that has. The piece is fed up to the first end by which
    /// `out` gained at least `most` hits, or whole, with the finder if that is by the stream's plan. Memory is refused
    /// only where a hit was found; the stream and `out` are then as they were.
    pub(crate) fn feed_prefix(
        &mut self,
        store: &PlanStore,
        finder: &mut SessionFinder,
        piece: &[u8],
        most: usize,
        out: &mut Vec<Hit>,
    ) -> Result<usize, Fault>
        requires bound { IsBound store.now self.old.1 }
        requires own { IfSome finder.old (IsOf store.now) }
        requires room { self.old.1.scan.place + length piece.now < 2 ^ 64 }
        ensures finder { finder.new ≡ finder.old }
        ensures bound { IsBound store.now self.new.1 }
        ensures ok { IfOk result (λ count. MovesUpTo self.old piece.now most count out.old.items out.new.items self.new) }
        ensures same { OnErr result (self.new ≡ self.old) }
        ensures same_hits { OnErr result (out.new.items ≡ out.old.items) }
        ensures fault { IsOkUnless result OutOfMemory }
        ensures quiet { NoEndAfter self.old.1.scan.plan.literals (self.old.1.scan.tail ++ piece.now) (length self.old.1.scan.tail) → IsOk result }
    {
        finder.feed(store, &self.ticket, &mut self.scanner, piece, most, out)
    }

    /// The place after a piece; none where it would pass 2^64 - 1.
    pub(crate) fn place_after(&self, piece: &[u8]) -> Option<u64>
        ensures place { MatchOption result
            (2 ^ 64 ≤ self.now.1.scan.place + length piece.now)
            (λ place. (place ≡ self.now.1.scan.place + length piece.now) × (place < 2 ^ 64)) }
        ensures kept { IsKept self.now.1.scan }
    {
        // Read here, the bound on the lengths of literals is known below.
        let _carry = self.plan.carry();
        self.scanner.place().checked_add(piece.len() as u64)
    }

    /// How many bytes were fed.
    pub(crate) fn place(&self) -> u64
        ensures { result ≡ self.now.1.scan.place }
    {
        self.scanner.place()
    }

    /// The reply that shows the plan.
    pub(crate) fn plan_reply(&self) -> Result<Reply, Fault>
        ensures ok { IfOk result (λ reply. reply_parts reply ≡ plan_reply self.now.0 self.now.1.scan.plan) }
        ensures fault { IsOkUnless result OutOfMemory }
    {
        let list = self.plan.list();
        let certificate = self.plan.certificate();
        list.normal_law();
        Ok(Reply::Plan {
            stream: self.number,
            fold: list.fold(),
            profile: certificate.profile,
            count: list.len() as u16,
            cost: certificate.cost,
            ends: certificate.ends.clone()?,
        })
    }
}

/// The place of the first stream of a number.
pub(crate) fn find_stream(streams: &BoundedVec<Stream<'_>>, number: u32) -> Option<usize>
    ensures { MatchOption result (lookup (nat_eq number) streams.now ≡ None) (StandsAt number streams.now) }
{
    let mut place = 0;
    while place < streams.len() {
        if streams.get(place).number == number {
            return Some(place);
        }
        place += 1;
    }
    None
}
