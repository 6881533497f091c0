//! Making a plan file.
ghost use Rattle.std.specs.Prelude.{◌≤◌, ◌+◌, ◌++◌, ◌∷◌, ◌≡◌, [], IfErr, IfOk, IfSome, false, length, map, string_bytes};
ghost use Rattle.byte_io.specs.Devices.{IfKnown};
ghost use Rattle.byte_io.specs.Sources.{AreShort, Created, can_create};
ghost use Rattle.plan_pack.specs.Asking.{AsksAfterReads, asks_for_plans, is_file, pack_asks, pack_reads, reads_file};
ghost use Rattle.plan_pack.specs.Packing.{MakesFile, MakesPack, NamesPack, NoneIfStarved, PacksFiles, answer_of};
ghost use Rattle.plan_pack.specs.Stops.{is_refusal, ran_out};

use crate::notation::Reading;
use crate::planning::plan_of;
use crate::stop::{Refusal, Stop};
use byte_io::{Failed, Files, write_all};
use lit_base::Profile;
use lit_plan::Compiled;
use plan_file::encode;
use std::alloc::{AllocError, Global};

/// Why a plan file was not made whole, and the file as far as it was made.
pub type Unmade<'a, O> = (Stop<'a>, Option<O>);

/// Why a plan file was not made whole. The file itself is dropped.
pub fn stop_of<O: Drop>(unmade: Unmade<'_, O>) -> Stop<'_>
    ensures { result ≡ unmade.entry.0 }
{
    let (stop, _begun) = unmade;
    stop
}

/// Makes the plan file of files of patterns, with a plan for each, in order. Returns the file as it was written. The
/// patterns of all files are read and planned, and the plan file's text is made, before the file is.
///
/// # Errors
/// - `Refused` with the plan file's name, where it is also the name of a file of patterns: then nothing is read. Else
///   with the refusal of the first file that gives no plan. Else with the plan file's name, where
///   it cannot be made or not be written to its end.
/// - `OutOfMemory`, where a growth was refused: then no file is made.
///
/// With them comes the file that was made, if one was. A write to it failed, and it holds a prefix of the plan file, and
/// not all of it.
pub fn pack<'a, F: Files>(
    alloc: Global,
    reading: Reading,
    profile: Profile,
    names: &'a [String],
    output: &'a str,
    files: &mut F,
) -> Result<F::Output, Unmade<'a, F::Output>>
    requires { length names.now ≤ 64 }
    ensures packed { IfKnown (F.sources files.old) (F.sources files.new) (λ s left. AreShort s
        → AsksAfterReads (ran_out (answer_of result)) (pack_asks reading (map string_bytes names.now) output.now s)
        (pack_reads reading (map string_bytes names.now) output.now s) s left
        × PacksFiles F.Output.written reading profile (map string_bytes names.now) output.now s left result) }

    // Where patterns are refused, the refusal names one of the first file that gives no plan.
    ensures named { IfErr result (λ stopped. IfKnown (F.sources files.old) (F.sources files.new) (λ s left. AreShort s
        → NamesPack reading (map string_bytes names.now) s stopped.0)) }

    // Whatever is known of the files, no write failed to a file that is returned, and one did to a file that is
    // refused.
    ensures flag { IfOk result (λ made. F.Output.has_failed made ≡ false) }
    ensures broken { IfErr result (λ stopped. IfSome stopped.1 (λ made. F.Output.has_failed made ≡ is_refusal stopped.0)) }
    ensures starved { NoneIfStarved result }
{
    if reads_file(names, output) {
        return Err((Stop::Refused(Refusal::Unusable(output)), None));
    }
    pack_with(
        alloc,
        reading,
        profile,
        Vec::new(alloc),
        names,
        output,
        files,
    )
}

/// Whether the file of a name is one of the operands.
fn reads_file(operands: &[String], name: &str) -> bool
    ensures { result ≡ reads_file (map string_bytes operands.now) name.now }
{
    match operands {
        [] => false,
        [operand, rest @ ..] => is_file(operand.as_str(), name) || reads_file(rest, name),
    }
}

/// Whether an operand is the file of a name: `-` is standard input.
fn is_file(operand: &str, name: &str) -> bool
    ensures { result ≡ is_file operand.now name.now }
{
    if operand == "-" {
        false
    } else {
        operand == name
    }
}

/// Makes the plan file of these plans and then of the plans of the files of patterns.
fn pack_with<'a, F: Files>(
    alloc: Global,
    reading: Reading,
    profile: Profile,
    plans: Vec<Compiled>,
    names: &'a [String],
    output: &'a str,
    files: &mut F,
) -> Result<F::Output, Unmade<'a, F::Output>>
    requires { length plans.items + length names.now ≤ 64 }
    ensures packed { IfKnown (F.sources files.old) (F.sources files.new) (λ s left. AreShort s
        → AsksAfterReads (ran_out (answer_of result)) (asks_for_plans reading (map string_bytes names.now) (Created output.now ∷ []) s)
        (asks_for_plans reading (map string_bytes names.now) [] s) s left
        × MakesPack F.Output.written reading profile plans.items (map string_bytes names.now) output.now s left result) }
    ensures named { IfErr result (λ stopped. IfKnown (F.sources files.old) (F.sources files.new) (λ s left. AreShort s
        → NamesPack reading (map string_bytes names.now) s stopped.0)) }
    ensures flag { IfOk result (λ made. F.Output.has_failed made ≡ false) }
    ensures broken { IfErr result (λ stopped. IfSome stopped.1 (λ made. F.Output.has_failed made ≡ is_refusal stopped.0)) }
    ensures starved { NoneIfStarved result }
{
    match names {
        [] => make(alloc, plans.as_slice(), output, files),
        [name, rest @ ..] => match plan_of(alloc, reading, profile, name.as_str(), files) {
            Ok(plan) => match with_plan(plans, plan) {
                Ok(more) => pack_with(alloc, reading, profile, more, rest, output, files),
                Err(_) => Err((Stop::OutOfMemory, None)),
            },
            Err(stop) => Err((stop, None)),
        },
    }
}

/// The plans and then one more.
fn with_plan(mut plans: Vec<Compiled>, plan: Compiled) -> Result<Vec<Compiled>, AllocError>
    ensures { IfOk result (λ more. more.items ≡ plans.items ++ plan ∷ []) }
{
    match plans.push(plan) {
        Ok(()) => Ok(plans),
        Err(_) => Err(AllocError),
    }
}

/// Makes the plan file of plans, at most 64, under a name, and returns it as it was written.
///
/// # Errors
/// - `OutOfMemory`, where a growth was refused: then no file is made.
/// - `Refused` with the name, where the file cannot be made or not be written to its end.
///
/// With them comes the file that was made, if one was, as with the errors of `pack`.
pub fn make<'a, F: Files>(
    alloc: Global,
    plans: &[Compiled],
    name: &'a str,
    files: &mut F,
) -> Result<F::Output, Unmade<'a, F::Output>>
    requires { length plans.now ≤ 64 }
    ensures made { IfKnown (F.sources files.old) (F.sources files.new) (λ s left.
        AsksAfterReads (ran_out (answer_of result)) (Created name.now ∷ []) [] s left
        × MakesFile F.Output.written plans.now name.now (can_create name.now s.creatable) result) }
    ensures flag { IfOk result (λ made. F.Output.has_failed made ≡ false) }
    ensures broken { IfErr result (λ stopped. IfSome stopped.1 (λ made. F.Output.has_failed made ≡ is_refusal stopped.0)) }
    ensures starved { NoneIfStarved result }
{
    // The text comes first, so that want of memory leaves a file of this name as it is.
    let Ok(text) = encode(alloc, plans) else {
        return Err((Stop::OutOfMemory, None));
    };
    let unusable = Stop::Refused(Refusal::Unusable(name));
    match files.create_named(name) {
        Ok(mut made) => match write_all(&mut made, &text) {
            Ok(()) => Ok(made),
            Err(Failed) => Err((unusable, Some(made))),
        },
        Err(_) => Err((unusable, None)),
    }
}
