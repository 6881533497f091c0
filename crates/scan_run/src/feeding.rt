//! Answering a Feed as its hits are found, so that they are never all held.
ghost use Rattle.std.specs.Prelude.{◌≡◌, ◌≢◌, ◌<◌, length, IfOk, IsTrue, None, OnErr, OnOk};
ghost use Rattle.scan_wire.specs.Messages.{Feed};
ghost use Rattle.scan_wire.specs.declared.message.TheConstants.{MAX_HITS};
ghost use Rattle.scan_serve.specs.Answering.{Answered, Stopped};
ghost use Rattle.scan_core.specs.Prefixes.{MayFeed};
ghost use Rattle.scan_core.specs.Sessions.{IsEvent, by_tails, parts_of};
ghost use Rattle.scan_core.specs.Steps.{refusal_of};
ghost use Rattle.scan_run.specs.Feeding.{FeedsOn, StopsFeeding};

use crate::sending::{send_full, send_last};
use byte_io::ByteOut;
use scan_core::Session;
use scan_serve::{Outbox, Stop};
use scan_wire::MAX_HITS;
use std::alloc::Global;
use text_ends::Hit;

/// Feeds a prefix of a piece, and writes the hits gained by then in full replies; fewer hits than a reply takes remain.
/// Returns how many bytes were fed.
fn feed_on<W: ByteOut>(
    alloc: Global,
    session: &mut Session<'_>,
    hits: &mut Vec<Hit>,
    stream: u32,
    piece: &[u8],
    outbox: &mut Outbox,
    out: &mut W,
) -> Result<usize, Stop>
    requires few { length hits.old.items < MAX_HITS }
    requires open { refusal_of by_tails (parts_of session.old) (Feed stream piece.now) ≡ None }
    ensures ok { IfOk result (λ count. FeedsOn session.old stream piece.now count hits.old.items hits.new.items session.new
        (W.written out.old) (W.written out.new) outbox.old outbox.new) }
    ensures err { OnErr result (StopsFeeding session.old stream piece.now hits.old.items
        (W.written out.old) (W.written out.new) outbox.old) }
    ensures fault { result ≡ Err Stop.WriteFault → IsTrue (W.has_failed out.new) }
    ensures flag { result ≢ Err Stop.WriteFault → W.has_failed out.new ≡ W.has_failed out.old }
    ensures store { session.new.store ≡ session.old.store }
{
    let most = MAX_HITS - hits.len();
    let Ok(count) = session.feed_prefix(alloc, stream, piece, most, hits) else {
        return Err(Stop::OutOfMemory);
    };
    send_full(stream, hits, outbox, out)?;
    Ok(count)
}

/// Answers a Feed that is not refused.
fn feed_whole<W: ByteOut>(
    alloc: Global,
    session: &mut Session<'_>,
    hits: &mut Vec<Hit>,
    stream: u32,
    piece: &[u8],
    place: u64,
    outbox: &mut Outbox,
    out: &mut W,
) -> Result<(), Stop>
    requires { MayFeed session.old stream piece.now place }
    ensures ok { OnOk result (Answered IsEvent session.old session.new (Feed stream piece.now)
        (W.written out.old) (W.written out.new) outbox.old outbox.new) }
    ensures err { OnErr result (Stopped IsEvent session.old (Feed stream piece.now)
        (W.written out.old) (W.written out.new) outbox.old) }
    ensures fault { result ≡ Err Stop.WriteFault → IsTrue (W.has_failed out.new) }
    ensures flag { result ≢ Err Stop.WriteFault → W.has_failed out.new ≡ W.has_failed out.old }
    ensures store { session.new.store ≡ session.old.store }
{
    hits.clear();
    let mut rest = piece;
    while !rest.is_empty() {
        let count = feed_on(alloc, session, hits, stream, rest, outbox, out)?;
        let (_, after) = rest.split_at(count);
        rest = after;
    }
    send_last(stream, hits, place, outbox, out)
}

/// Answers a Feed: the hits of the piece in replies that are all full except the last, written as they are found, and
/// the place.
pub(crate) fn answer_feed<W: ByteOut>(
    alloc: Global,
    session: &mut Session<'_>,
    hits: &mut Vec<Hit>,
    stream: u32,
    piece: &[u8],
    outbox: &mut Outbox,
    out: &mut W,
) -> Result<(), Stop>
    ensures ok { OnOk result (Answered IsEvent session.old session.new (Feed stream piece.now)
        (W.written out.old) (W.written out.new) outbox.old outbox.new) }
    ensures err { OnErr result (Stopped IsEvent session.old (Feed stream piece.now)
        (W.written out.old) (W.written out.new) outbox.old) }
    ensures fault { result ≡ Err Stop.WriteFault → IsTrue (W.has_failed out.new) }
    ensures flag { result ≢ Err Stop.WriteFault → W.has_failed out.new ≡ W.has_failed out.old }
    ensures store { session.new.store ≡ session.old.store }
{
    match session.place_after(stream, piece) {
        Ok(place) => feed_whole(alloc, session, hits, stream, piece, place, outbox, out),
        Err(refusal) => outbox.push(out, &refusal.reply(stream)),
    }
}
