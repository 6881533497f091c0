//! Serving one stream.
ghost use Rattle.std.specs.Prelude.{◌≡◌, ◌≢◌};
ghost use Rattle.scan_run.specs.Alone.{EndsAlone, MayHaveFailed};

use crate::loaded_store::LoadedStore;
use crate::serving::serve_loaded;
use crate::status::Status;
use byte_io::{ByteIn, ByteOut};
use std::alloc::Global;
use std::sync::Wait;

/// Serves one stream of frames to its end, as a session of the store. The status says how it ended.
pub fn serve_alone<R: Wait, I: ByteIn, O: ByteOut>(
    rt: &R,
    alloc: Global,
    loaded: LoadedStore<'_>,
    input: &mut I,
    out: &mut O,
) -> Status
    ensures ends { EndsAlone loaded.entry.store.now loaded.entry.tickets.now result
        (MayHaveFailed (I.has_failed input.new) (I.given input.old) (I.given input.new)) (O.has_failed out.new)
        (I.coming input.old) (I.coming input.new) (O.written out.old) (O.written out.new) }

    // Where it ends well, or memory runs out, no read and no write has failed.
    ensures unread { result ≢ Status.Unclean → I.has_failed input.new ≡ I.has_failed input.old }
    ensures unwritten { result ≢ Status.Unclean → O.has_failed out.new ≡ O.has_failed out.old }
{
    Status::from(serve_loaded(rt, alloc, loaded, input, out))
}
