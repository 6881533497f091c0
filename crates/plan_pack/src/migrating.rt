//! Plans of sixteen buckets in place of others.
ghost use Rattle.std.specs.Prelude.{◌≡◌, ◌+◌, ◌++◌, ◌∷◌, ◌≤◌, [], IfErr, IfOk, IfSome, OnOk, false, length};
ghost use Rattle.byte_io.specs.Devices.{IfKnown};
ghost use Rattle.byte_io.specs.Sources.{AreShort, Created, ask_of};
ghost use Rattle.plan_pack.specs.Asking.{AsksAfterReads, LeavesMigrate, UnlessStarved};
ghost use Rattle.plan_pack.specs.Migrated.{AreMigrated, IsMigrated, migrated_line, migrated_lines};
ghost use Rattle.plan_pack.specs.Migrating.{MakesMigrated, Migrates};
ghost use Rattle.plan_pack.specs.Packing.{NoneIfStarved, answer_of};
ghost use Rattle.plan_pack.specs.Stops.{is_refusal, ran_out};
ghost use Rattle.plan_pack.specs.Taken.{OpensBeforeMemory};

use crate::fault::Fault;
use crate::packing::{Unmade, make};
use crate::reading::plans_of;
use crate::stop::Stop;
use byte_io::{Files, push_number};
use lit_base::Profile;
use lit_plan::Compiled;
use run_planner::plan;
use std::alloc::{AllocError, Global};

/// Migrates the plans of a plan file to another. Returns a line for each plan, and the new file as it was written. The
/// first file is read whole, and all that takes memory is done, before the other is made.
///
/// # Errors
/// - `Refused` with the fault of the first file; else with the other's name, where it cannot be made or not be written
///   to its end.
/// - `OutOfMemory`, where a growth was refused, once the first file is open: then no file is made.
///
/// With them comes the file that was made, if one was. A write to it failed, and it holds a prefix of the plan file, and
/// not all of it.
pub fn migrate_file<'a, F: Files>(
    alloc: Global,
    input: &'a str,
    output: &'a str,
    files: &mut F,
) -> Result<(Vec<u8>, F::Output), Unmade<'a, F::Output>>
    ensures migrated { IfKnown (F.sources files.old) (F.sources files.new) (λ s left. AreShort s
        → UnlessStarved (ran_out (answer_of result)) (LeavesMigrate input.now output.now s left) (ask_of input.now ∷ []) s left
        × Migrates F.Output.written input.now output.now s left result) }
    ensures opens { OpensBeforeMemory (F.sources files.old) (ask_of input.now) (answer_of result) }

    // Whatever is known of the files, no write failed to a file that is returned, and one did to a file that is
    // refused.
    ensures flag { IfOk result (λ done. F.Output.has_failed done.1 ≡ false) }
    ensures broken { IfErr result (λ stopped. IfSome stopped.1 (λ made. F.Output.has_failed made ≡ is_refusal stopped.0)) }
    ensures starved { NoneIfStarved result }
{
    match plans_of(alloc, input, files) {
        Ok(plans) => migrate_to(alloc, plans.as_slice(), output, files),
        Err(stop) => Err((stop, None)),
    }
}

/// Migrates plans to the plan file of a name. Returns what `migrate_file` returns.
fn migrate_to<'a, F: Files>(
    alloc: Global,
    plans: &[Compiled],
    name: &'a str,
    files: &mut F,
) -> Result<(Vec<u8>, F::Output), Unmade<'a, F::Output>>
    requires { length plans.now ≤ 64 }
    ensures migrated { IfKnown (F.sources files.old) (F.sources files.new) (λ s left.
        AsksAfterReads (ran_out (answer_of result)) (Created name.now ∷ []) [] s left
        × MakesMigrated F.Output.written plans.now name.now s left result) }
    ensures flag { IfOk result (λ done. F.Output.has_failed done.1 ≡ false) }
    ensures broken { IfErr result (λ stopped. IfSome stopped.1 (λ made. F.Output.has_failed made ≡ is_refusal stopped.0)) }
    ensures starved { NoneIfStarved result }
{
    match migrate_with_lines(alloc, plans) {
        Ok((new, lines)) => match make(alloc, new.as_slice(), name, files) {
            Ok(made) => Ok((lines, made)),
            Err(unmade) => Err(unmade),
        },
        Err(Fault::OutOfMemory) => Err((Stop::OutOfMemory, None)),
    }
}

/// The migrated plans, and a line for each.
fn migrate_with_lines(alloc: Global, plans: &[Compiled]) -> Result<(Vec<Compiled>, Vec<u8>), Fault>
    requires { length plans.now ≤ 64 }
    ensures plans { IfOk result (λ found. AreMigrated plans.now found.0.items) }
    ensures lines { IfOk result (λ found. found.1.items ≡ migrated_lines 0 plans.now found.0.items) }
{
    let new = migrate(alloc, plans)?;
    let mut lines = Vec::new(alloc);
    push_lines(0, plans, new.as_slice(), &mut lines)?;
    Ok((new, lines))
}

/// Plans the lists of plans anew, each for sixteen buckets, in their order. No new plan costs more than the old one.
///
/// # Errors
/// `OutOfMemory`, where a growth was refused.
pub fn migrate(alloc: Global, plans: &[Compiled]) -> Result<Vec<Compiled>, Fault>
    ensures { IfOk result (λ new. AreMigrated plans.now new.items) }
{
    let mut new = Vec::new(alloc);
    for plan in plans {
        new.push(migrated(alloc, plan)?)?;
    }
    Ok(new)
}

/// The plan of sixteen buckets of a plan's list, which both plans share.
fn migrated(alloc: Global, old: &Compiled) -> Result<Compiled, AllocError>
    ensures { IfOk result (IsMigrated old.now) }
{
    // What its certificate shows is needed below: no cut into eight runs or sixteen is cheaper than the new one.
    let _certificate = old.certificate();
    match plan(alloc, old.list(), Profile::Sixteen) {
        Ok(certificate) => Ok(Compiled::certified(old.shared_index()?, certificate)),
        Err(run_planner::Fault::OutOfMemory) => Err(AllocError),
        // A list that has a plan has a literal.
        Err(run_planner::Fault::NoLiterals) => unreachable!(),
    }
}

/// Appends the lines of plans; the first has this place.
fn push_lines(
    place: usize,
    old: &[Compiled],
    new: &[Compiled],
    lines: &mut Vec<u8>,
) -> Result<(), AllocError>
    requires { place + length old.now ≤ 64 }
    ensures { OnOk result (lines.new.items ≡ lines.old.items ++ migrated_lines place old.now new.now) }
{
    match old {
        [] => Ok(()),
        [from, old @ ..] => match new {
            [] => Ok(()),
            [to, new @ ..] => {
                push_line(place, from, to, lines)?;
                push_lines(place + 1, old, new, lines)
            }
        },
    }
}

/// Appends the line of a plan: its place, its cost, and the cost of the new one.
fn push_line(
    place: usize,
    old: &Compiled,
    new: &Compiled,
    lines: &mut Vec<u8>,
) -> Result<(), AllocError>
    ensures { OnOk result (lines.new.items ≡ lines.old.items ++ migrated_line place old.now new.now) }
{
    lines.extend_from_slice(b"plan ")?;
    push_number(place as u64, b' ', lines)?;
    push_number(old.certificate().cost, b' ', lines)?;
    push_number(new.certificate().cost, b'\n', lines)
}
