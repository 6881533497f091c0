//! The plan of a file of patterns.
ghost use Rattle.std.specs.Prelude.{◌≡◌, ◌⊎◌, IfErr};
ghost use Rattle.byte_io.specs.Devices.{IfKnown};
ghost use Rattle.byte_io.specs.Sources.{AreShort, after, ask_of, taken_by};
ghost use Rattle.plan_pack.specs.Taken.{NamesStop, OpensBeforeMemory, PlansList, TakesPlan};
ghost use Rattle.plan_pack.specs.declared.stop.Refusal.TheVariants.{NoLiterals};
ghost use Rattle.plan_pack.specs.declared.stop.Stop.TheVariants.{OutOfMemory, Refused};

use crate::notation::Reading;
use crate::reading::list_of;
use crate::stop::{Refusal, Stop};
use byte_io::Files;
use list_plan::compile;
use lit_base::{LitList, Profile};
use lit_plan::Compiled;
use run_planner::Fault;
use std::alloc::Global;

/// The plan of a file's patterns, ready for a scan.
///
/// # Errors
/// - `Refused` as `list_of` refuses, or with `NoLiterals`, where no pattern has a byte.
/// - `OutOfMemory`, where a growth was refused, once the file is open.
pub fn plan_of<'a, F: Files>(
    alloc: Global,
    reading: Reading,
    profile: Profile,
    file: &'a str,
    files: &mut F,
) -> Result<Compiled, Stop<'a>>
    ensures plan { IfKnown (F.sources files.old) (F.sources files.new) (λ s left. AreShort s
        → (left ≡ after (ask_of file.now) s) × TakesPlan reading profile file.now (taken_by (ask_of file.now) s) result) }

    // Where patterns are refused, the refusal names one.
    ensures named { IfErr result (λ stop. IfKnown (F.sources files.old) (F.sources files.new) (λ s left. AreShort s
        → NamesStop reading (taken_by (ask_of file.now) s) stop)) }
    ensures starved { OpensBeforeMemory (F.sources files.old) (ask_of file.now) result }
{
    match list_of(alloc, reading, file, files) {
        Ok(list) => planned(alloc, profile, list),
        Err(stop) => Err(stop),
    }
}

/// The plan of a list.
fn planned<'a>(alloc: Global, profile: Profile, list: LitList) -> Result<Compiled, Stop<'a>>
    ensures plan { PlansList profile list result }
    ensures faults { IfErr result (λ stop. (stop ≡ Refused NoLiterals) ⊎ (stop ≡ OutOfMemory)) }
{
    match compile(alloc, list, profile) {
        Ok(compiled) => Ok(compiled),
        Err(Fault::NoLiterals) => Err(Stop::Refused(Refusal::NoLiterals)),
        Err(Fault::OutOfMemory) => Err(Stop::OutOfMemory),
    }
}
