//! A session: what one client has published and opened, and how it is answered.
ghost use Rattle.std.specs.Prelude.{◌≡◌, ◌≢◌, ◌∷◌, ◌++◌, ◌<◌, [], All, IfErr, IfNone, IfOk, IfSome, None, Some, IsOk, IsOkUnless, OnErr, OnOk, Contains, length, map};
ghost use Rattle.std.specs.List.{slice_get};
ghost use Rattle.lit_base.specs.NextEnds.{NoEndAfter};
ghost use Rattle.plan_store.specs.Tickets.{IsOf};
ghost use Rattle.scan_wire.specs.Messages.{Close, Feed, Open, Publish, ShowPlan, reply_parts, request_parts, texts_of};
ghost use Rattle.scan_core.specs.Prefixes.{FeedsPrefix, MayFeed};
ghost use Rattle.scan_core.specs.Refusals.{publish_refusal};
ghost use Rattle.scan_core.specs.Sessions.{GainsEvent, IsEvent, by_tails, fresh, parts_of};
ghost use Rattle.scan_core.specs.Steps.{refusal_of, refused_reply, stream_at};
ghost use Rattle.scan_core.specs.Together.{tickets_of};
ghost use Rattle.scan_core.specs.declared.fault.Fault.TheVariants.{OutOfMemory};
ghost use Rattle.scan_core.specs.declared.refusal.Refusal.TheVariants.{NoSuchPlan};

use crate::answering::push_answer;
use crate::bounded_vec::BoundedVec;
use crate::fault::Fault;
use crate::limits::MAX_STREAMS;
use crate::publishing::planned;
use crate::refusal::{Refusal, refusal_of_literals};
use crate::session_finder::SessionFinder;
use crate::stream::{Stream, find_stream};
use crate::tickets::{agrees_with, known_ticket, ticket_among};
use flow_scan::Hit;
use lit_base::{Fold, Profile};
use plan_store::{PlanStore, Ticket};
use scan_wire::{Reply, Request};
use std::alloc::Global;
use std::marker::Model;
use std::sync::Wait;

/// What one client has published and opened. All sessions of a store see its plans.
#[derive(Drop)]
pub struct Session<'s> {
    store: &'s PlanStore,
    published_plans: BoundedVec<Ticket>,
    streams: BoundedVec<Stream<'s>>,
    finder: SessionFinder,
}

/// A contract sees the store, the tickets of the published plans and the open streams. The finder changes no answer.
impl<'s> Model for Session<'s> {
    ghost use Rattle.scan_core.specs.Sessions.{IsSession, Serving};

    ghost Value = { Serving };

    ghost view = { λ s. record { store = s.store.now; published_plans = s.published_plans; streams = s.streams } };

    ghost invariant = { λ s. IsSession record { store = s.store.now; published_plans = s.published_plans; streams = s.streams } s.finder };
}

impl<'s> Session<'s> {
    /// A session that has published nothing and has no open stream. It takes no memory.
    pub fn new(store: &'s PlanStore) -> Session<'s>
        ensures { result ≡ fresh store.entry.now }
    {
        Session {
            store,
            published_plans: BoundedVec::new(),
            streams: BoundedVec::new(),
            finder: SessionFinder::new(),
        }
    }

    /// The store of this session.
    pub fn store(&self) -> &'s PlanStore
        ensures { result.now ≡ self.now.store }
    {
        self.store
    }

    /// How many tickets it has: of the plans that it published, and of its open streams.
    pub(crate) fn ticket_count(&self) -> usize
        ensures { result ≡ length (tickets_of self.now) }
    {
        self.published_plans.len() + self.streams.len()
    }

    /// The ticket at a place: first come the tickets of the plans that it published.
    pub(crate) fn ticket_at(&self, place: usize) -> &Ticket
        requires { place < length (tickets_of self.now) }
        ensures at { slice_get (tickets_of self.now) place ≡ Some result.now }
        ensures here { IsOf self.now.store result.now }
    {
        if place < self.published_plans.len() {
            self.published_plans.get(place)
        } else {
            self.streams
                .get(place - self.published_plans.len())
                .ticket()
        }
    }

    /// Answers one request: `out` gains its replies. A Publish stores the plan of its literals. An Open binds a stream
    /// to the plan of a number. A Feed returns the hits of a piece, in blocks that are all full except the last, and
    /// the place. A Close forgets a stream, and a ShowPlan shows its plan. A refused request gets one Refused reply,
    /// and changes nothing.
    ///
    /// Only a Publish may wait for another thread. The only fault is `OutOfMemory`: session and `out` are
    /// then as they were, and the request is given up.
    pub fn handle(
        &mut self,
        rt: &impl Wait,
        alloc: Global,
        request: Request,
        out: &mut Vec<Reply>,
    ) -> Result<(), Fault>
        ensures ok { OnOk result (GainsEvent self.old (request_parts request) out.old.items out.new.items self.new) }
        ensures same { OnErr result (self.new ≡ self.old) }
        ensures same_replies { OnErr result (out.new.items ≡ out.old.items) }
        ensures fault { IsOkUnless result OutOfMemory }
    {
        match request {
            Request::Publish {
                fold,
                profile,
                literals,
            } => {
                out.reserve(1)?;
                let reply = self.publish(rt, alloc, fold, profile, &literals)?;
                out.push_reserved(reply);
                Ok(())
            }
            Request::Open { stream, number } => {
                out.reserve(1)?;
                let Ok(reply) = self.open(alloc, &[], stream, number) else {
                    return Err(Fault::OutOfMemory);
                };
                out.push_reserved(reply);
                Ok(())
            }
            Request::Feed { stream, bytes } => self.feed(alloc, stream, &bytes, out),
            Request::Close { stream } => {
                out.reserve(1)?;
                out.push_reserved(self.close(stream));
                Ok(())
            }
            Request::ShowPlan { stream } => {
                let reply = self.show_plan(stream)?;
                out.push(reply)?;
                Ok(())
            }
        }
    }

    /// The reply to a Publish, whose plan by the profile is stored. After the one step that shows it to
    /// all sessions nothing can fail. It may wait for another thread. The only fault is `OutOfMemory`: a
    /// refusal takes no memory.
    pub fn publish(
        &mut self,
        rt: &impl Wait,
        alloc: Global,
        fold: Fold,
        profile: Profile,
        literals: &[Vec<u8>],
    ) -> Result<Reply, Fault>
        ensures ok { IfOk result (λ reply. IsEvent self.old (Publish fold profile (texts_of literals.now)) (reply_parts reply ∷ []) self.new) }
        ensures same { OnErr result (self.new ≡ self.old) }
        ensures fault { IsOkUnless result OutOfMemory }
        ensures accepted { OnErr result (publish_refusal (length self.old.published_plans) (texts_of literals.now) ≡ None) }
    {
        if let Some(refusal) = refusal_of_literals(self.published_plans.len(), literals) {
            return Ok(refusal.reply(0));
        }
        let plan = planned(alloc, fold, profile, literals)?;
        let Ok(ticket) = self.store.publish(rt, plan) else {
            return Err(Fault::OutOfMemory);
        };
        let number = self.store.number(&ticket);
        agrees_with(&ticket, self);
        self.published_plans.push(ticket);
        Ok(Reply::Published { number })
    }

    /// Opens a stream by the plan of a number, and returns the reply. It always finds the number of a plan that this
    /// session published, or by which it has an open stream, and the number of each of `loaded`, tickets of its store.
    /// The only fault is `OutOfMemory`, with a ticket of the number; it comes only if nothing is refused.
    pub fn open(
        &mut self,
        alloc: Global,
        loaded: &[Ticket],
        stream: u32,
        number: u64,
    ) -> Result<Reply, (Fault, Ticket)>
        requires { All (IsOf self.old.store) loaded.now }
        ensures ok { IfOk result (λ reply. IsEvent self.old (Open stream number) (reply_parts reply ∷ []) self.new) }
        ensures same { OnErr result (self.new ≡ self.old) }
        ensures fault { IfErr result (λ refusal. refusal.0 ≡ OutOfMemory) }
        ensures accepted { OnErr result (refusal_of by_tails (parts_of self.old) (Open stream number) ≡ None) }
        ensures found { IfErr result (λ refusal. IsOf self.old.store refusal.1) }
        ensures number { IfErr result (λ refusal. refusal.1.number ≡ number) }
        ensures loaded { IfOk result (λ reply. Contains (map (λ ticket. ticket.number) loaded.now) number
            → reply_parts reply ∷ [] ≢ refused_reply stream NoSuchPlan ∷ []) }
    {
        if find_stream(&self.streams, stream).is_some() {
            return Ok(Refusal::StreamInUse.reply(stream));
        }
        if self.streams.len() >= MAX_STREAMS {
            return Ok(Refusal::StreamQuota.reply(stream));
        }
        let Some(ticket) = self.ticket_of(loaded, number) else {
            return Ok(Refusal::NoSuchPlan.reply(stream));
        };
        agrees_with(&ticket, self);
        let Ok(opened) = Stream::open(alloc, self.store, stream, ticket.again()) else {
            return Err((Fault::OutOfMemory, ticket));
        };
        self.streams.push(opened);
        Ok(Reply::Opened { stream })
    }

    /// A ticket of a number: one of this session or of `loaded`, or else one of another session.
    fn ticket_of(&self, loaded: &[Ticket], number: u64) -> Option<Ticket>
        requires { All (IsOf self.now.store) loaded.now }
        ensures here { IfSome result (λ ticket. IsOf self.now.store ticket) }
        ensures number { IfSome result (λ ticket. ticket.number ≡ number) }
        ensures stranger { IfNone result (¬ Contains (map (λ ticket. ticket.number) (tickets_of self.now)) number) }
        ensures loaded { IfNone result (¬ Contains (map (λ ticket. ticket.number) loaded.now) number) }
    {
        let known = known_ticket(self, number);
        if known.is_some() {
            return known;
        }
        let among = ticket_among(self.store, loaded, number);
        if among.is_some() {
            return among;
        }
        self.store.find(number)
    }

    /// Answers a Feed: `out` gains the hits of the piece in blocks, and the place.
    fn feed(
        &mut self,
        alloc: Global,
        stream: u32,
        piece: &[u8],
        out: &mut Vec<Reply>,
    ) -> Result<(), Fault>
        ensures ok { OnOk result (GainsEvent self.old (Feed stream piece.now) out.old.items out.new.items self.new) }
        ensures same { OnErr result (self.new ≡ self.old) }
        ensures same_replies { OnErr result (out.new.items ≡ out.old.items) }
        ensures fault { IsOkUnless result OutOfMemory }
    {
        let Some(place) = find_stream(&self.streams, stream) else {
            out.push(Refusal::NoSuchStream.reply(stream))?;
            return Ok(());
        };
        let mut hits = Vec::new(alloc);
        let Some(next) = self.streams.get(place).fed(piece, &mut hits)? else {
            out.push(Refusal::StreamTooLong.reply(stream))?;
            return Ok(());
        };
        push_answer(stream, &hits, next.place(), out)?;
        self.streams.set(place, next);
        Ok(())
    }

    /// The place of a stream after a piece, or why a Feed of it is refused. It takes no memory.
    pub fn place_after(&self, stream: u32, piece: &[u8]) -> Result<u64, Refusal>
        ensures ok { IfOk result (λ place. MayFeed self.now stream piece.now place) }
        ensures refused { IfErr result (λ refusal. refusal_of by_tails (parts_of self.now) (Feed stream piece.now) ≡ Some refusal) }
    {
        let Some(place) = find_stream(&self.streams, stream) else {
            return Err(Refusal::NoSuchStream);
        };
        self.streams
            .get(place)
            .place_after(piece)
            .ok_or(Refusal::StreamTooLong)
    }

    /// Feeds a prefix of a piece to its stream: up to the first end by which `out` gained at least `most` hits, or the
    /// whole piece. So the caller of a Feed need not hold all of its hits. Returns how many bytes were fed. The only
    /// fault is `OutOfMemory`, and only where a hit was found: session and `out` are then as they were.
    ///
    /// A finder tunes itself to long streams: for one plan at a time, whose streams share it. Without memory for a
    /// finder the stream is searched without.
    pub fn feed_prefix(
        &mut self,
        alloc: Global,
        stream: u32,
        piece: &[u8],
        most: usize,
        out: &mut Vec<Hit>,
    ) -> Result<usize, Fault>
        requires { refusal_of by_tails (parts_of self.old) (Feed stream piece.now) ≡ None }
        ensures ok { IfOk result (λ count. FeedsPrefix self.old stream piece.now most count out.old.items out.new.items self.new) }
        ensures same { OnErr result (self.new ≡ self.old) }
        ensures same_hits { OnErr result (out.new.items ≡ out.old.items) }
        ensures fault { IsOkUnless result OutOfMemory }
        ensures quiet { IfSome (stream_at stream (parts_of self.old)) (λ state.
            NoEndAfter state.scan.plan.literals (state.scan.tail ++ piece.now) (length state.scan.tail) → IsOk result) }
    {
        let Some(place) = find_stream(&self.streams, stream) else {
            unreachable!()
        };
        let bound = self.streams.get_mut(place);
        self.finder
            .prepare(alloc, self.store, bound.ticket(), bound.place());
        let count = bound.feed_prefix(self.store, &mut self.finder, piece, most, out)?;
        Ok(count)
    }

    /// The reply to a Close, which forgets the stream. It takes no memory.
    pub fn close(&mut self, stream: u32) -> Reply
        ensures { IsEvent self.old (Close stream) (reply_parts result ∷ []) self.new }
    {
        let Some(place) = find_stream(&self.streams, stream) else {
            return Refusal::NoSuchStream.reply(stream);
        };
        self.streams.remove(place);
        Reply::Closed { stream }
    }

    /// The reply to a ShowPlan. The only fault is `OutOfMemory`, where the stream is open.
    pub fn show_plan(&self, stream: u32) -> Result<Reply, Fault>
        ensures ok { IfOk result (λ reply. IsEvent self.now (ShowPlan stream) (reply_parts reply ∷ []) self.now) }
        ensures fault { IsOkUnless result OutOfMemory }
        ensures accepted { OnErr result (refusal_of by_tails (parts_of self.now) (ShowPlan stream) ≡ None) }
    {
        let Some(place) = find_stream(&self.streams, stream) else {
            return Ok(Refusal::NoSuchStream.reply(stream));
        };
        self.streams.get(place).plan_reply()
    }
}
