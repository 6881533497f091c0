//! Serving many streams at once over one store, each in a thread of its own.
ghost use Rattle.std.specs.Prelude.{◌≡◌, ◌≢◌, ◌≤◌, ◌||◌, All, false, length};
ghost use Rattle.plan_store.specs.Tickets.{IsOf};
ghost use Rattle.scan_run.specs.Limits.{AreConnections};
ghost use Rattle.scan_run.specs.Reports.{ReportsSome};

use crate::connection::serve_connection;
use crate::connections::{Connections, MAX_CONNECTIONS};
use crate::loaded_store::LoadedStore;
use crate::report::report;
use crate::status::Status;
use arrayvec::ArrayVec;
use byte_io::ByteOut;
use plan_store::{PlanStore, Ticket};
use scan_serve::Ended;
use std::alloc::Global;
use std::net::{TcpListener, TcpStream};
use std::sync::Wait;
use std::thread::{self, JoinHandle, Scope, Threads};

/// Accepts the given number of connections, and serves each in a thread of its own, as a session of the store. When all
/// have ended, it reports on `out` how, a line for each in order of acceptance. Once the last one is accepted, or
/// accepting failed, the listener is closed, so that a late client is refused.
///
/// It waits for clients, and for as long as they keep their connections.
pub fn listen<R: Threads + Wait + Sync, O: ByteOut, E: ByteOut>(
    rt: &R,
    alloc: Global,
    loaded: LoadedStore<'_>,
    listener: TcpListener,
    connections: Connections,
    out: &mut O,
    err: &mut E,
) -> Status
    ensures reported { ReportsSome connections.count result (O.has_failed out.new)
        (E.has_failed err.old) (E.has_failed err.new)
        (O.written out.old) (O.written out.new) (E.written err.old) (E.written err.new) }

    // A write that failed shows in the status.
    ensures fault { result ≢ Status.Trouble
        → (O.has_failed out.new || E.has_failed err.new) ≡ (O.has_failed out.old || E.has_failed err.old) }
{
    let LoadedStore { store, tickets } = loaded;
    let served = serve_all(rt, alloc, store, tickets, listener, connections.count());
    report(alloc, &served.endings, served.accept_failed, out, err)
}

/// How the connections of a run ended.
#[derive(Drop)]
struct Outcome {
    /// How each ended, in order of acceptance; `None` where no thread could be started.
    endings: ArrayVec<Option<Ended>, MAX_CONNECTIONS>,
    /// Whether accepting failed before all had come.
    accept_failed: bool,
}

/// The threads that serve connections, in order of acceptance; `None` where none could be started.
type ServingThreads = ArrayVec<Option<JoinHandle<Ended>>, MAX_CONNECTIONS>;

/// The connections that were accepted.
#[derive(Drop)]
struct Arrivals {
    threads: ServingThreads,
    /// Whether accepting failed before all had come.
    accept_failed: bool,
}

/// Serves the connections to their ends. It takes the parts of a `LoadedStore`, since nothing would be known of the
/// result of a closure that captures one.
fn serve_all<R: Threads + Wait + Sync>(
    rt: &R,
    alloc: Global,
    store: &PlanStore,
    tickets: &[Ticket],
    listener: TcpListener,
    connections: usize,
) -> Outcome
    requires some { AreConnections connections }
    requires here { All (IsOf store.now) tickets.now }
    ensures few { length result.endings.items ≤ connections }
    ensures all { result.accept_failed ≡ false → length result.endings.items ≡ connections }
{
    thread::scope(
        thread::scope_env(),
        rt,
        |scope|
            requires { AreConnections connections × All (IsOf store.now) tickets.now }
        {
            let Arrivals {
                threads,
                accept_failed,
            } = accept_all(scope, rt, alloc, store, tickets, listener, connections);
            Outcome {
                endings: join_all(rt, threads),
                accept_failed,
            }
        },
    )
}

/// Accepts the connections, starts a thread for each, and closes the listener.
fn accept_all<'s, E, R: Threads + Wait + Sync>(
    scope: &'s Scope<'s, E>,
    rt: &'s R,
    alloc: Global,
    store: &'s PlanStore,
    tickets: &'s [Ticket],
    listener: TcpListener,
    connections: usize,
) -> Arrivals
    requires some { AreConnections connections }
    requires here { All (IsOf store.now) tickets.now }
    ensures few { length result.threads.items ≤ connections }
    ensures all { result.accept_failed ≡ false → length result.threads.items ≡ connections }
{
    let mut threads = ArrayVec::new();
    for _accepted in 0..connections {
        let Ok(stream) = accepted(&listener) else {
            return Arrivals {
                threads,
                accept_failed: true,
            };
        };
        let thread = scope.spawn(
            move || -> Ended
                requires { All (IsOf store.now) tickets.now }
            { serve_connection(rt, alloc, LoadedStore { store, tickets }, stream) },
        );
        threads.push(thread.ok());
    }
    Arrivals {
        threads,
        accept_failed: false,
    }
}

/// Waits for the threads, and returns how each connection ended.
fn join_all<R: Threads + Wait>(
    rt: &R,
    threads: ServingThreads,
) -> ArrayVec<Option<Ended>, MAX_CONNECTIONS>
    ensures { length result.items ≡ length threads.items }
{
    let mut endings = ArrayVec::new();
    for thread in threads {
        endings.push(thread.map(|thread| thread.join(rt)));
    }
    endings
}

/// The next connection, whose replies are sent at once.
fn accepted(listener: &TcpListener) -> std::io::Result<TcpStream> {
    let (stream, _) = listener.accept()?;
    let _ = stream.set_nodelay(true);
    Ok(stream)
}
