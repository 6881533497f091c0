//! Replies that wait to be written.
ghost use Rattle.std.specs.Prelude.{◌≡◌, ◌≢◌, ◌<◌, ◌++◌, [], length, IsTrue, OnErr, OnOk};
ghost use Rattle.scan_wire.specs.Frames.{FitsReply, IsBlock, reply_text};
ghost use Rattle.scan_wire.specs.Messages.{Hits, reply_parts};
ghost use Rattle.scan_serve.specs.Sending.{Sends, SendsLess};

use crate::stop::Stop;
use byte_io::{ByteOut, Failed, write_all};
use scan_wire::{Reply, append_hits, append_reply};
use std::alloc::Global;
use std::marker::Model;
use text_ends::Hit;

/// The number of waiting bytes at which they are written.
const FULL: usize = 65_536;

/// The texts of replies that are not yet written. One buffer is used for all of them.
#[derive(Drop)]
pub struct Outbox {
    bytes: Vec<u8>,
}

impl Model for Outbox {
    ghost use Rattle.std.specs.Prelude.{ℕ, List};

    ghost Value = { List ℕ };

    ghost view = { λ o. o.bytes.items };
}

impl Outbox {
    /// An outbox in which nothing waits. It takes no memory.
    pub fn new(alloc: Global) -> Outbox
        ensures { result ≡ [] }
    {
        Outbox {
            bytes: Vec::new(alloc),
        }
    }

    /// Adds a reply. Once `FULL` bytes or more wait, it writes all of them.
    ///
    /// After an `Err` a prefix of all was written, never all. Without memory nothing was, and the outbox is as before.
    /// After a failed write all of it still waits.
    pub fn push<W: ByteOut>(&mut self, out: &mut W, reply: &Reply) -> Result<(), Stop>
        requires { FitsReply (reply_parts reply.now) }
        ensures ok { OnOk result (Sends (W.written out.old) (W.written out.new)
            self.old self.new (reply_text (reply_parts reply.now))) }
        ensures err { OnErr result (SendsLess (W.written out.old) (W.written out.new)
            self.old (reply_text (reply_parts reply.now))) }
        ensures starved { result ≡ Err Stop.OutOfMemory → (self.new ≡ self.old) × (out.new ≡ out.old) }
        ensures broken { result ≡ Err Stop.WriteFault → self.new ≡ self.old ++ reply_text (reply_parts reply.now) }
        ensures fault { result ≡ Err Stop.WriteFault → IsTrue (W.has_failed out.new) }
        ensures flag { result ≢ Err Stop.WriteFault → W.has_failed out.new ≡ W.has_failed out.old }
        ensures few { OnOk result (length self.new < 65536) }
    {
        let Ok(()) = append_reply(&mut self.bytes, reply) else {
            return Err(Stop::OutOfMemory);
        };
        self.flush_full(out)
    }

    /// Adds a reply with these hits. Once `FULL` bytes or more wait, it writes all of them.
    ///
    /// After an `Err` a prefix of all was written, never all. Without memory nothing was, and the outbox is as before.
    /// After a failed write all of it still waits.
    pub fn push_hits<W: ByteOut>(
        &mut self,
        out: &mut W,
        stream: u32,
        hits: &[Hit],
    ) -> Result<(), Stop>
        requires { IsBlock (length hits.now) }
        ensures ok { OnOk result (Sends (W.written out.old) (W.written out.new)
            self.old self.new (reply_text (Hits stream hits.now))) }
        ensures err { OnErr result (SendsLess (W.written out.old) (W.written out.new)
            self.old (reply_text (Hits stream hits.now))) }
        ensures starved { result ≡ Err Stop.OutOfMemory → (self.new ≡ self.old) × (out.new ≡ out.old) }
        ensures broken { result ≡ Err Stop.WriteFault → self.new ≡ self.old ++ reply_text (Hits stream hits.now) }
        ensures fault { result ≡ Err Stop.WriteFault → IsTrue (W.has_failed out.new) }
        ensures flag { result ≢ Err Stop.WriteFault → W.has_failed out.new ≡ W.has_failed out.old }
        ensures few { OnOk result (length self.new < 65536) }
    {
        let Ok(()) = append_hits(&mut self.bytes, stream, hits) else {
            return Err(Stop::OutOfMemory);
        };
        self.flush_full(out)
    }

    /// Writes all that waits, if it is `FULL` bytes or more.
    fn flush_full<W: ByteOut>(&mut self, out: &mut W) -> Result<(), Stop>
        ensures ok { OnOk result (Sends (W.written out.old) (W.written out.new) self.old self.new []) }
        ensures err { OnErr result (SendsLess (W.written out.old) (W.written out.new) self.old []) }
        ensures kept { OnErr result (self.new ≡ self.old) }
        ensures stopped { OnErr result (result ≡ Err Stop.WriteFault) }
        ensures fault { result ≡ Err Stop.WriteFault → IsTrue (W.has_failed out.new) }
        ensures flag { result ≢ Err Stop.WriteFault → W.has_failed out.new ≡ W.has_failed out.old }
        ensures few { OnOk result (length self.new < 65536) }
    {
        if self.bytes.len() < FULL {
            return Ok(());
        }
        self.flush(out)
    }

    /// Writes all that waits.
    ///
    /// After an `Err` a prefix of it was written, never all, and all of it still waits.
    pub fn flush<W: ByteOut>(&mut self, out: &mut W) -> Result<(), Stop>
        ensures empty { OnOk result (self.new ≡ []) }
        ensures ok { OnOk result (Sends (W.written out.old) (W.written out.new) self.old self.new []) }
        ensures err { OnErr result (SendsLess (W.written out.old) (W.written out.new) self.old []) }
        ensures kept { OnErr result (self.new ≡ self.old) }
        ensures stopped { OnErr result (result ≡ Err Stop.WriteFault) }
        ensures fault { result ≡ Err Stop.WriteFault → IsTrue (W.has_failed out.new) }
        ensures flag { result ≢ Err Stop.WriteFault → W.has_failed out.new ≡ W.has_failed out.old }
    {
        match write_all(out, &self.bytes) {
            Ok(()) => {
                self.bytes.clear();
                Ok(())
            }
            Err(Failed) => Err(Stop::WriteFault),
        }
    }
}
