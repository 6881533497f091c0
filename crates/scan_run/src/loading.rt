//! Plans published from a plan file, before anything is served.
ghost use Rattle.std.specs.Prelude.{◌≡◌, ◌≢◌, ◌++◌, ◌∷◌, ◌||◌, [], IfSome, IsTrue, OnErr, OnOk, is_err};
ghost use Rattle.std.specs.Io.KnownBytes.{Appends};
ghost use Rattle.byte_io.specs.Devices.{IfKnown};
ghost use Rattle.byte_io.specs.Sources.{Named, after};
ghost use Rattle.byte_io.specs.Transfers.{AppendsPart};
ghost use Rattle.scan_run.specs.Loading.{Judges, Loads, LoadsAll, LoadsFile, LoadsNamed, PublishesPrefix, IsMessage, is_write_fault, message_on, plan_line};

use crate::message::{say, say_number};
use byte_io::{ByteIn, ByteOut, Failed, Missing, Opener};
use lit_plan::Compiled;
use plan_file::{Fault, read_plans};
use plan_store::{PlanStore, Ticket};
use std::alloc::Global;
use std::sync::Wait;

/// Publishes the plans of a file in order, and writes the number of each to `err`, a line for each. The file is read
/// whole first. `tickets` gains the tickets of the plans, in order. It may wait as the store's `publish` does.
///
/// # Errors
/// - `ReadFault`, where a read failed, and `BadPlanFile`, where the file is none: no ticket is gained.
/// - `OutOfMemory`, where a growth was refused: the plans published so far stay.
/// - `WriteFault`, where a line or a message could not be written: the plans published so far stay, and no plan follows
///   the one of that line.
///
/// All but the last are reported on `err`, by the name of the file.
pub fn load_tickets<R: Wait, I: ByteIn, E: ByteOut>(
    rt: &R,
    alloc: Global,
    store: &PlanStore,
    input: &mut I,
    name: &str,
    tickets: &mut Vec<Ticket>,
    err: &mut E,
) -> Result<(), Fault>
    ensures loads { Loads store.now name.now (I.coming input.old) (I.coming input.new)
        tickets.old.items tickets.new.items (E.written err.old) (E.written err.new) result }
    ensures judged { IfSome (I.coming input.old) (λ x. Judges x result) }

    // A fault is returned only if a read or a write failed; if none is returned, none failed.
    ensures fault { result ≡ Err Fault.ReadFault → IsTrue (I.has_failed input.new) }
    ensures unread { result ≢ Err Fault.ReadFault → result ≢ Err Fault.WriteFault
        → I.has_failed input.new ≡ I.has_failed input.old }
    ensures broken { result ≡ Err Fault.WriteFault → IsTrue (E.has_failed err.new) }
    ensures flag { result ≢ Err Fault.WriteFault → E.has_failed err.new ≡ E.has_failed err.old }
{
    match publish_file(rt, alloc, store, input, tickets, err) {
        Ok(()) => Ok(()),
        Err(fault) => Err(refused(fault, name, err)),
    }
}

/// `load_tickets` without the tickets: the plans stay under the numbers that were written.
///
/// # Errors
/// The errors of `load_tickets`.
pub fn load_plans<R: Wait, I: ByteIn, E: ByteOut>(
    rt: &R,
    alloc: Global,
    store: &PlanStore,
    input: &mut I,
    name: &str,
    err: &mut E,
) -> Result<(), Fault>
    ensures loads { LoadsAll store.now name.now (I.coming input.old) (I.coming input.new)
        (E.written err.old) (E.written err.new) result }
    ensures judged { IfSome (I.coming input.old) (λ x. Judges x result) }
    ensures fault { result ≡ Err Fault.ReadFault → IsTrue (I.has_failed input.new) }
    ensures unread { result ≢ Err Fault.ReadFault → result ≢ Err Fault.WriteFault
        → I.has_failed input.new ≡ I.has_failed input.old }
    ensures broken { result ≡ Err Fault.WriteFault → IsTrue (E.has_failed err.new) }
    ensures flag { result ≢ Err Fault.WriteFault → E.has_failed err.new ≡ E.has_failed err.old }
{
    let mut tickets = Vec::new(alloc);
    load_tickets(rt, alloc, store, input, name, &mut tickets, err)
}

/// Opens the file of a name, whatever the name is, and publishes its plans: `-` is a file too. A file that cannot be
/// opened is treated like a file that cannot be read. `tickets` gains the tickets of the plans, in order.
///
/// # Errors
/// The errors of `load_tickets`.
pub fn load_named<R: Wait, F: Opener, E: ByteOut>(
    rt: &R,
    alloc: Global,
    store: &PlanStore,
    files: &mut F,
    name: &str,
    tickets: &mut Vec<Ticket>,
    err: &mut E,
) -> Result<(), Fault>
    ensures takes { IfKnown (F.sources files.old) (F.sources files.new) (λ old new. new ≡ after (Named name.now) old) }
    ensures loads { LoadsNamed store.now name.now (F.sources files.old) tickets.old.items tickets.new.items (E.written err.old) (E.written err.new) result }
    ensures broken { result ≡ Err Fault.WriteFault → IsTrue (E.has_failed err.new) }
    ensures flag { result ≢ Err Fault.WriteFault → E.has_failed err.new ≡ E.has_failed err.old }
{
    match files.open_named(name) {
        Ok(mut input) => load_tickets(rt, alloc, store, &mut input, name, tickets, err),
        Err(Missing) => Err(refused(Fault::ReadFault, name, err)),
    }
}

/// Says why a file is not loaded. Returns the fault, or `WriteFault` if the message could not be written.
fn refused<E: ByteOut>(fault: Fault, name: &str, err: &mut E) -> Fault
    ensures said { IsMessage (message_on name.now fault) fault result (E.written err.old) (E.written err.new) }
    ensures broken { result ≡ Fault.WriteFault → fault ≢ Fault.WriteFault → IsTrue (E.has_failed err.new) }
    ensures flag { result ≢ Fault.WriteFault → E.has_failed err.new ≡ E.has_failed err.old }
    ensures kept { fault ≡ Fault.WriteFault → E.has_failed err.new ≡ E.has_failed err.old }
    ensures fault { result ≢ Fault.WriteFault → result ≡ fault }
{
    let reason = match fault {
        Fault::OutOfMemory => ": refused (1)\n",
        Fault::BadPlanFile { .. } => ": refused (10)\n",
        Fault::ReadFault => ": cannot be read\n",
        Fault::WriteFault => return Fault::WriteFault,
    };
    match say(b"scand: ", name.as_bytes(), reason.as_bytes(), err) {
        Ok(()) => fault,
        Err(Failed) => Fault::WriteFault,
    }
}

/// Publishes the plans of a file, and writes the number of each, in order.
fn publish_file<R: Wait, I: ByteIn, E: ByteOut>(
    rt: &R,
    alloc: Global,
    store: &PlanStore,
    input: &mut I,
    tickets: &mut Vec<Ticket>,
    err: &mut E,
) -> Result<(), Fault>
    ensures loads { LoadsFile store.now (I.coming input.old) (I.coming input.new)
        tickets.old.items tickets.new.items (E.written err.old) (E.written err.new) result }
    ensures judged { IfSome (I.coming input.old) (λ x. Judges x result) }
    ensures fault { result ≡ Err Fault.ReadFault → IsTrue (I.has_failed input.new) }
    ensures unread { result ≢ Err Fault.ReadFault → I.has_failed input.new ≡ I.has_failed input.old }
    ensures flag { E.has_failed err.new ≡ (E.has_failed err.old || is_write_fault result) }
{
    let plans = read_plans(alloc, input)?;
    publish_plans(rt, store, plans, tickets, err)
}

/// Publishes plans in order, and says the number of each.
fn publish_plans<R: Wait, E: ByteOut>(
    rt: &R,
    store: &PlanStore,
    plans: Vec<Compiled>,
    tickets: &mut Vec<Ticket>,
    err: &mut E,
) -> Result<(), Fault>
    ensures prefix { PublishesPrefix store.now plans.items tickets.old.items tickets.new.items (E.written err.old) (E.written err.new) result }
    ensures flag { E.has_failed err.new ≡ (E.has_failed err.old || is_write_fault result) }
{
    for plan in plans {
        publish_plan(rt, store, plan, tickets, err)?;
    }
    Ok(())
}

/// Publishes a plan, and says its number.
fn publish_plan<R: Wait, E: ByteOut>(
    rt: &R,
    store: &PlanStore,
    plan: Compiled,
    tickets: &mut Vec<Ticket>,
    err: &mut E,
) -> Result<(), Fault>
    ensures prefix { PublishesPrefix store.now (plan ∷ []) tickets.old.items tickets.new.items (E.written err.old) (E.written err.new) result }
    ensures flag { E.has_failed err.new ≡ (E.has_failed err.old || is_write_fault result) }
{
    tickets.reserve(1)?;
    let Ok(ticket) = store.publish(rt, plan) else {
        return Err(Fault::OutOfMemory);
    };
    let number = store.number(&ticket);
    tickets.push_reserved(ticket);
    match say_number(b"scand: plan ", number, err) {
        Ok(()) => Ok(()),
        Err(Failed) => Err(Fault::WriteFault),
    }
}
