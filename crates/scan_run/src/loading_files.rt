//! Plans published from several plan files.
ghost use Rattle.std.specs.Prelude.{◌≡◌, ◌≢◌, IfErr, IsTrue, OnOk};
ghost use Rattle.scan_run.specs.LoadingFiles.{LoadsEach, StopsLoading, names_of, state};

use crate::loading::load_named;
use byte_io::{ByteOut, Opener};
use plan_file::Fault;
use plan_store::{PlanStore, Ticket};
use std::alloc::Global;
use std::sync::Wait;

/// Publishes the plans of the files with these names, in order, each as `load_named` does. `tickets` gains the tickets
/// of all plans, in order. With no names it does nothing.
///
/// # Errors
/// The errors of `load_named`, for the first file that is not loaded. No file after it is opened, and the plans of the
/// files before it stay.
pub fn load_files<R: Wait, F: Opener, E: ByteOut>(
    rt: &R,
    alloc: Global,
    store: &PlanStore,
    files: &mut F,
    names: &[String],
    tickets: &mut Vec<Ticket>,
    err: &mut E,
) -> Result<(), Fault>
    ensures ok { OnOk result (LoadsEach store.now (names_of names.now)
        (state (F.sources files.old) tickets.old.items (E.written err.old))
        (state (F.sources files.new) tickets.new.items (E.written err.new))) }
    ensures stops { IfErr result (StopsLoading store.now (names_of names.now)
        (state (F.sources files.old) tickets.old.items (E.written err.old))
        (state (F.sources files.new) tickets.new.items (E.written err.new))) }
    ensures broken { result ≡ Err Fault.WriteFault → IsTrue (E.has_failed err.new) }
    ensures flag { result ≢ Err Fault.WriteFault → E.has_failed err.new ≡ E.has_failed err.old }
{
    for name in names {
        load_named(rt, alloc, store, files, name.as_str(), tickets, err)?;
    }
    Ok(())
}
