//! What a command does.
ghost use Rattle.std.specs.Prelude.{◌≡◌, ◌||◌, IfOk, string_bytes};
ghost use Rattle.byte_io.specs.Transfers.{Says, SaysOrFails};
ghost use Rattle.program_words.specs.Words.{message_on};
ghost use Rattle.scan_run.specs.Alone.{MayHaveFailed};
ghost use Rattle.scan_run.specs.Messages.{out_of_memory};
ghost use Rattle.scand.specs.Commands.{EndsSomehow, Runs, Serves, ServesPort, cannot_listen};

use crate::words::{Request, Service, requested};
use byte_io::{ByteIn, ByteOut, Failed, Opener};
use plan_store::PlanStore;
use program_words::{Fault, say_fault, words};
use scan_run::{Connections, LoadedStore, Status, listen, load_files, say_port, serve_alone};
use std::alloc::{AllocError, Global};
use std::net::{Ipv4Addr, Net, TcpListener, TcpStream};
use std::rt::Env;
use std::sync::Wait;
use std::thread::Threads;

/// Serves the words of the command line. The files of plans that they name are among `files`.
pub fn serve<R, F: Opener, I: ByteIn, O: ByteOut, E: ByteOut>(
    rt: &R,
    files: &mut F,
    input: &mut I,
    out: &mut O,
    err: &mut E,
) -> Status
where
    R: Env + AllocGlobal + Threads + Wait + Sync + Net<Listener = TcpListener, Stream = TcpStream>,
    ensures ends { EndsSomehow result (F.sources files.old) (F.sources files.new)
        (MayHaveFailed (I.has_failed input.new) (I.given input.old) (I.given input.new)) (O.has_failed out.new) (E.has_failed err.new)
        (I.coming input.old) (I.coming input.new) (O.written out.old) (O.written out.new) (E.written err.old) (E.written err.new) }

    // Where it ends well no read and no write has failed.
    ensures unread { result ≡ Status.Clean → I.has_failed input.new ≡ I.has_failed input.old }
    ensures fault { result ≡ Status.Clean
        → (O.has_failed out.new || E.has_failed err.new) ≡ (O.has_failed out.old || E.has_failed err.old) }
{
    match asked(rt) {
        Ok(request) => run(rt, &request, files, input, out, err),
        Err(fault) => refuse(&fault, err),
    }
}

/// What the words ask for.
fn asked<R: Env + AllocGlobal>(rt: &R) -> Result<Request, Fault> {
    requested(rt.alloc(), &words(rt, "scand")?)
}

/// Serves a request over a new store. The plans of the files that it names are published first; where
/// that fails, nothing is served.
fn run<R, F: Opener, I: ByteIn, O: ByteOut, E: ByteOut>(
    rt: &R,
    request: &Request,
    files: &mut F,
    input: &mut I,
    out: &mut O,
    err: &mut E,
) -> Status
where
    R: AllocGlobal + Threads + Wait + Sync + Net<Listener = TcpListener, Stream = TcpStream>,
    ensures runs { Runs request.now result (F.sources files.old) (F.sources files.new)
        (MayHaveFailed (I.has_failed input.new) (I.given input.old) (I.given input.new)) (O.has_failed out.new) (E.has_failed err.new)
        (I.coming input.old) (I.coming input.new) (O.written out.old) (O.written out.new) (E.written err.old) (E.written err.new) }
    ensures unread { result ≡ Status.Clean → I.has_failed input.new ≡ I.has_failed input.old }
    ensures fault { result ≡ Status.Clean
        → (O.has_failed out.new || E.has_failed err.new) ≡ (O.has_failed out.old || E.has_failed err.old) }
{
    let alloc = rt.alloc();
    let Ok(store) = PlanStore::new(alloc) else {
        return refuse(&Fault::OutOfMemory, err);
    };
    let mut tickets = Vec::new(alloc);
    match load_files(rt, alloc, &store, files, &request.plans, &mut tickets, err) {
        Ok(()) => {
            let loaded = LoadedStore {
                store: &store,
                tickets: tickets.as_slice(),
            };
            serve_over(rt, loaded, request.service, input, out, err)
        }
        Err(_) => Status::Trouble,
    }
}

/// Serves one client, or connections, over a store.
fn serve_over<R, I: ByteIn, O: ByteOut, E: ByteOut>(
    rt: &R,
    loaded: LoadedStore<'_>,
    service: Service,
    input: &mut I,
    out: &mut O,
    err: &mut E,
) -> Status
where
    R: AllocGlobal + Threads + Wait + Sync + Net<Listener = TcpListener, Stream = TcpStream>,
    ensures serves { Serves service loaded.entry.store.now loaded.entry.tickets.now result
        (MayHaveFailed (I.has_failed input.new) (I.given input.old) (I.given input.new)) (O.has_failed out.new) (E.has_failed err.new)
        (I.coming input.old) (I.coming input.new) (O.written out.old) (O.written out.new) (E.written err.old) (E.written err.new) }
    ensures unread { result ≡ Status.Clean → I.has_failed input.new ≡ I.has_failed input.old }
    ensures fault { result ≡ Status.Clean
        → (O.has_failed out.new || E.has_failed err.new) ≡ (O.has_failed out.old || E.has_failed err.old) }
{
    match service {
        Service::Alone => serve_alone(rt, rt.alloc(), loaded, input, out),
        Service::Listen { port, connections } => {
            serve_port(rt, loaded, port, connections, out, err)
        }
    }
}

/// Serves connections to a port of this machine. The system chooses it where it is 0.
fn serve_port<R, O: ByteOut, E: ByteOut>(
    rt: &R,
    loaded: LoadedStore<'_>,
    port: u16,
    connections: Connections,
    out: &mut O,
    err: &mut E,
) -> Status
where
    R: AllocGlobal + Threads + Wait + Sync + Net<Listener = TcpListener, Stream = TcpStream>,
    ensures serves { ServesPort port connections.count result (O.has_failed out.new) (E.has_failed err.new)
        (O.written out.old) (O.written out.new) (E.written err.old) (E.written err.new) }
    ensures fault { result ≡ Status.Clean
        → (O.has_failed out.new || E.has_failed err.new) ≡ (O.has_failed out.old || E.has_failed err.old) }
{
    let Ok(listener) = TcpListener::bind(rt, (Ipv4Addr::LOCALHOST, port)) else {
        return refuse(&Fault::usage(cannot_listen(rt.alloc(), port)), err);
    };
    if port == 0 {
        serve_chosen(rt, loaded, listener, connections, out, err)
    } else {
        listen(rt, rt.alloc(), loaded, listener, connections, out, err)
    }
}

/// Serves connections to a port that the system chose. The port is reported first; where it cannot be,
/// nothing is served.
fn serve_chosen<R, O: ByteOut, E: ByteOut>(
    rt: &R,
    loaded: LoadedStore<'_>,
    listener: TcpListener,
    connections: Connections,
    out: &mut O,
    err: &mut E,
) -> Status
where
    R: AllocGlobal + Threads + Wait + Sync + Net<Listener = TcpListener, Stream = TcpStream>,
    ensures serves { ServesPort 0 connections.count result (O.has_failed out.new) (E.has_failed err.new)
        (O.written out.old) (O.written out.new) (E.written err.old) (E.written err.new) }
    ensures fault { result ≡ Status.Clean
        → (O.has_failed out.new || E.has_failed err.new) ≡ (O.has_failed out.old || E.has_failed err.old) }
{
    let Ok(chosen) = listener.local_addr() else {
        return refuse(&Fault::usage(cannot_listen(rt.alloc(), 0)), err);
    };
    match say_port(chosen.port(), err) {
        Ok(()) => listen(rt, rt.alloc(), loaded, listener, connections, out, err),
        Err(Failed) => Status::Trouble,
    }
}

/// The message where a port cannot be listened on.
fn cannot_listen(alloc: Global, port: u16) -> Result<String, AllocError>
    ensures { IfOk result (λ text. string_bytes text ≡ cannot_listen port) }
{
    format!(in alloc; "scand: cannot listen on port {port}\n")
}

/// Writes the message on why nothing is served. If it cannot be written, only the status shows it.
fn refuse<E: ByteOut>(fault: &Fault, err: &mut E) -> Status
    ensures status { result ≡ Status.Trouble }
    ensures said { Says (E.has_failed err.new) (E.written err.old) (E.written err.new) (message_on out_of_memory fault.now) }
    ensures exact { SaysOrFails (E.has_failed err.old) (E.has_failed err.new)
        (E.written err.old) (E.written err.new) (message_on out_of_memory fault.now) }
{
    say_fault(fault, "scand: out of memory\n", err);
    Status::Trouble
}
