//! Serving one connection to its end.
use crate::loaded_store::LoadedStore;
use crate::serving::serve_loaded;
use byte_io::{FromRead, ToWrite};
use scan_serve::Ended;
use std::alloc::Global;
use std::io::Read;
use std::net::{Shutdown, TcpStream};
use std::sync::Wait;
use std::time::Duration;

/// Seconds that each read of a connection that is no longer served waits for the client, at most.
const DRAIN_SECONDS: u64 = 1;

/// Such reads, at most.
const DRAIN_READS: usize = 1024;

/// Serves a connection as a session of the store.
pub(crate) fn serve_connection<R: Wait>(
    rt: &R,
    alloc: Global,
    loaded: LoadedStore<'_>,
    stream: TcpStream,
) -> Ended {
    let ended = serve_loaded(
        rt,
        alloc,
        loaded,
        &mut FromRead::new(&stream),
        &mut ToWrite::new(&stream),
    );
    if ended == Ended::Bad || ended == Ended::OutOfMemory {
        drain(&stream);
    }
    ended
}

/// Sends the bytes that were written, and reads what the client still sends, as far as a bound on reads and waits lets
/// it. A connection that is closed before it was read is reset, and the client may then lose replies that it has not
/// read.
fn drain(stream: &TcpStream) {
    let mut piece = [0; 4096];
    if stream.shutdown(Shutdown::Write).is_err()
        || stream
            .set_read_timeout(Some(Duration::from_secs(DRAIN_SECONDS)))
            .is_err()
    {
        return;
    }
    let mut reader = stream;
    for _ in 0..DRAIN_READS {
        match reader.read(&mut piece) {
            Ok(0) | Err(_) => return,
            Ok(_) => {}
        }
    }
}
