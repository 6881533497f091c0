//! What answers requests.
ghost use Rattle.std.specs.Prelude.{◌≡◌, ◌≢◌, List, IsTrue, OnErr, OnOk};
ghost use Rattle.scan_wire.specs.Messages.{ReplyParts, RequestParts, borrowed_parts};
ghost use Rattle.scan_serve.specs.Answering.{Answered, Stopped};

use crate::outbox::Outbox;
use crate::stop::Stop;
use byte_io::ByteOut;
use scan_wire::Borrowed;

/// What answers requests.
pub trait Answer {
    /// How one request is answered: the state before, the request, the replies, the state after.
    ghost step: { Self → RequestParts → List ReplyParts → Self → Type 0 };

    /// Answers a request. Its replies go to the outbox, which writes them as it fills.
    ///
    /// After an `Err` nothing is written, or a prefix of the waiting bytes and of the replies, never all. Neither
    /// `self` nor the outbox is of any use then.
    fn answer<W: ByteOut>(
        &mut self,
        request: Borrowed<'_>,
        outbox: &mut Outbox,
        out: &mut W,
    ) -> Result<(), Stop>
        ensures ok { OnOk result (Answered step self.old self.new (borrowed_parts request.entry)
            (W.written out.old) (W.written out.new) outbox.old outbox.new) }
        ensures err { OnErr result (Stopped step self.old (borrowed_parts request.entry)
            (W.written out.old) (W.written out.new) outbox.old) }
        ensures fault { result ≡ Err Stop.WriteFault → IsTrue (W.has_failed out.new) }
        ensures flag { result ≢ Err Stop.WriteFault → W.has_failed out.new ≡ W.has_failed out.old };
}
