//! Hits in frames, as they are found.
ghost use Rattle.std.specs.Prelude.{◌≡◌, ◌≢◌, ◌<◌, ◌≤◌, drop, length, map, IsTrue, OnErr, OnOk};
ghost use Rattle.scan_wire.specs.Frames.{replies_text};
ghost use Rattle.scan_wire.specs.Messages.{Hits};
ghost use Rattle.scan_wire.specs.declared.message.TheConstants.{MAX_HITS};
ghost use Rattle.scan_core.specs.Steps.{fed_replies};
ghost use Rattle.scan_serve.specs.Sending.{Sends, SendsLess};
ghost use Rattle.scan_run.specs.Feeding.{SendsFull, SendsFullPrefix, last_block};

use byte_io::ByteOut;
use scan_serve::{Outbox, Stop};
use scan_wire::{MAX_HITS, Reply};
use text_ends::Hit;

/// Removes `count` hits from the start.
fn drop_first(hits: &mut Vec<Hit>, count: usize)
    requires { count ≤ length hits.old.items }
    ensures { hits.new.items ≡ drop count hits.old.items }
{
    let len = hits.len();
    hits.copy_within(count..len, 0);
    hits.truncate(len - count);
}

/// Adds full replies with hits, as long as there are enough, and keeps the remaining hits.
///
/// After an `Err` a prefix of the waiting bytes and of the new replies was written, never all.
pub(crate) fn send_full<W: ByteOut>(
    stream: u32,
    hits: &mut Vec<Hit>,
    outbox: &mut Outbox,
    out: &mut W,
) -> Result<(), Stop>
    ensures few { OnOk result (length hits.new.items < MAX_HITS) }
    ensures ok { OnOk result (SendsFull stream hits.old.items hits.new.items
        (W.written out.old) (W.written out.new) outbox.old outbox.new) }
    ensures err { OnErr result (SendsFullPrefix stream hits.old.items
        (W.written out.old) (W.written out.new) outbox.old) }
    ensures fault { result ≡ Err Stop.WriteFault → IsTrue (W.has_failed out.new) }
    ensures flag { result ≢ Err Stop.WriteFault → W.has_failed out.new ≡ W.has_failed out.old }
{
    while hits.len() >= MAX_HITS {
        let (block, _) = hits.split_at(MAX_HITS);
        outbox.push_hits(out, stream, block)?;
        drop_first(hits, MAX_HITS);
    }
    Ok(())
}

/// Adds a reply with the remaining hits, if there are any.
fn send_rest<W: ByteOut>(
    stream: u32,
    hits: &[Hit],
    outbox: &mut Outbox,
    out: &mut W,
) -> Result<(), Stop>
    requires { length hits.now < MAX_HITS }
    ensures ok { OnOk result (Sends (W.written out.old) (W.written out.new)
        outbox.old outbox.new (replies_text (map (Hits stream) (last_block hits.now)))) }
    ensures err { OnErr result (SendsLess (W.written out.old) (W.written out.new)
        outbox.old (replies_text (map (Hits stream) (last_block hits.now)))) }
    ensures fault { result ≡ Err Stop.WriteFault → IsTrue (W.has_failed out.new) }
    ensures flag { result ≢ Err Stop.WriteFault → W.has_failed out.new ≡ W.has_failed out.old }
{
    if hits.is_empty() {
        return Ok(());
    }
    outbox.push_hits(out, stream, hits)
}

/// Adds the remaining hits, and the place reached.
///
/// After an `Err` a prefix of the waiting bytes and of the new replies was written, never all.
pub(crate) fn send_last<W: ByteOut>(
    stream: u32,
    hits: &[Hit],
    place: u64,
    outbox: &mut Outbox,
    out: &mut W,
) -> Result<(), Stop>
    requires { length hits.now < MAX_HITS }
    ensures ok { OnOk result (Sends (W.written out.old) (W.written out.new)
        outbox.old outbox.new (replies_text (fed_replies stream (last_block hits.now) place))) }
    ensures err { OnErr result (SendsLess (W.written out.old) (W.written out.new)
        outbox.old (replies_text (fed_replies stream (last_block hits.now) place))) }
    ensures fault { result ≡ Err Stop.WriteFault → IsTrue (W.has_failed out.new) }
    ensures flag { result ≢ Err Stop.WriteFault → W.has_failed out.new ≡ W.has_failed out.old }
{
    send_rest(stream, hits, outbox, out)?;
    outbox.push(out, &Reply::Fed { stream, place })
}
