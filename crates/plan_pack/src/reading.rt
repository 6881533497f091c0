//! Reading a file of patterns, a plan file, a certificate, and the input of a search.
ghost use Rattle.std.specs.Prelude.{◌≡◌, ◌≢◌, ◌≤◌, ◌↔◌, [], length, Contains, IfErr, IfOk, IsTrue, MatchResult, None, Some};
ghost use Rattle.byte_io.specs.Devices.{IfKnown};
ghost use Rattle.byte_io.specs.Sources.{AreShort, Content, IsShort, Named, after, ask_of, coming_of, taken_by};
ghost use Rattle.plan_pack.specs.Lists.{ArePlaces, literals_of};
ghost use Rattle.plan_pack.specs.Notations.{list_refusal, patterns_of};
ghost use Rattle.plan_pack.specs.Taken.{NamesStop, OpensBeforeMemory, PicksPlan, TakesCertificate, TakesList, TakesPlaces, TakesPlanAt, TakesPlans, TakesText};

use crate::notation::Reading;
use crate::patterns::{Unlisted, patterns_of};
use crate::stop::{Refusal, Stop};
use byte_io::{ByteIn, Files, ReadError, open_operand, read_to_end};
use lit_base::{Fault, LitList, Normal};
use lit_cert::{Certificate, read_cert};
use lit_plan::Compiled;
use plan_file::read_plans;
use std::alloc::Global;

/// The list of a file of patterns, which is read to its end unless it is too large; `-` is standard input.
///
/// # Errors
/// - `Refused` with the file's name, where it cannot be opened or read; with the first line that should be hexadecimal
///   and is not; or with the fault of the first pattern that is refused. A file longer than its notation allows is
///   refused as `ListTooLarge`.
/// - `OutOfMemory`, where a growth was refused, once the file is open.
pub fn list_of<'a, F: Files>(
    alloc: Global,
    reading: Reading,
    file: &'a str,
    files: &mut F,
) -> Result<LitList, Stop<'a>>
    ensures list { IfKnown (F.sources files.old) (F.sources files.new) (λ s left. AreShort s
        → (left ≡ after (ask_of file.now) s) × TakesList reading file.now (taken_by (ask_of file.now) s) result) }

    // Where patterns are refused, the refusal names one.
    ensures named { IfErr result (λ stop. IfKnown (F.sources files.old) (F.sources files.new) (λ s left. AreShort s
        → NamesStop reading (taken_by (ask_of file.now) s) stop)) }
    ensures starved { OpensBeforeMemory (F.sources files.old) (ask_of file.now) result }
{
    match placed_list_of(alloc, reading, file, files) {
        Ok((list, _normal)) => Ok(list),
        Err(stop) => Err(stop),
    }
}

/// The list of a file of patterns, where each pattern stands in it, and whether a pattern is null.
///
/// # Errors
/// The errors of `list_of`.
pub fn placed_list_of<'a, F: Files>(
    alloc: Global,
    reading: Reading,
    file: &'a str,
    files: &mut F,
) -> Result<(LitList, Normal), Stop<'a>>
    ensures list { IfKnown (F.sources files.old) (F.sources files.new) (λ s left. AreShort s
        → (left ≡ after (ask_of file.now) s) × TakesPlaces reading file.now (taken_by (ask_of file.now) s) result) }

    // Where patterns are refused, the refusal names one.
    ensures named { IfErr result (λ stop. IfKnown (F.sources files.old) (F.sources files.new) (λ s left. AreShort s
        → NamesStop reading (taken_by (ask_of file.now) s) stop)) }
    ensures starved { OpensBeforeMemory (F.sources files.old) (ask_of file.now) result }
{
    match open_operand(files, file) {
        Ok(mut input) => list_from(alloc, reading, file, &mut input),
        Err(_) => Err(Stop::Refused(Refusal::Unusable(file))),
    }
}

/// The list of a file of patterns that is open, and where each pattern stands in it.
fn list_from<'a, I: ByteIn>(
    alloc: Global,
    reading: Reading,
    file: &'a str,
    input: &mut I,
) -> Result<(LitList, Normal), Stop<'a>>
    ensures list { (c : Content) → I.coming input.old ≡ Some (coming_of c) → IsShort c
        → TakesPlaces reading file.now (Some c) result }
    ensures named { (c : Content) → I.coming input.old ≡ Some (coming_of c) → IsShort c
        → IfErr result (NamesStop reading (Some c)) }

    // A read that failed is not tried again, whatever is known of the input.
    ensures unread { IfOk result (λ _. I.has_failed input.new ≡ I.has_failed input.old) }
{
    let mut text = Vec::new(alloc);
    match read_to_end(input, reading.notation.max_text_len(), &mut text) {
        Ok(()) => match listed(alloc, reading, text.as_slice()) {
            Ok(found) => Ok(found),
            Err(Unlisted::BadPatterns(Fault::OutOfMemory)) => Err(Stop::OutOfMemory),
            Err(Unlisted::BadPatterns(fault)) => Err(Stop::Refused(Refusal::Patterns(fault))),
            Err(Unlisted::BadHex { line }) => Err(Stop::Refused(Refusal::NotHex { file, line })),
        },
        Err(ReadError::Failed) => Err(Stop::Refused(Refusal::Unusable(file))),
        Err(ReadError::TooLong) => Err(Stop::Refused(Refusal::Patterns(Fault::ListTooLarge))),
        Err(ReadError::OutOfMemory) => Err(Stop::OutOfMemory),
    }
}

/// The list of a text's lines, and where the pattern of each line stands in it.
fn listed(alloc: Global, reading: Reading, text: &[u8]) -> Result<(LitList, Normal), Unlisted>
    ensures ok { IfOk result (λ found. found.0 ≡ record { folding = reading.fold; texts = literals_of reading text.now }) }
    ensures places { IfOk result (λ found. ArePlaces found.0 (patterns_of reading.notation text.now) found.1.place_of.items) }
    ensures empty { IfOk result (λ found. IsTrue found.1.has_empty ↔ Contains (patterns_of reading.notation text.now) []) }
    ensures refusal { MatchResult result
        (λ _. list_refusal reading.notation text.now ≡ None)
        (λ why. why ≢ Unlisted.BadPatterns Fault.OutOfMemory → list_refusal reading.notation text.now ≡ Some why) }
{
    let patterns = patterns_of(alloc, reading.notation, text)?;
    Ok(LitList::normal(alloc, &patterns, reading.fold)?)
}

/// The plans of a plan file, which is read to its end; `-` is standard input.
///
/// # Errors
/// - `Refused` with the file's name, where it cannot be opened or read; or with the first wrong field, where it is no
///   plan file.
/// - `OutOfMemory`, where a growth was refused, once the file is open.
pub fn plans_of<'a, F: Files>(
    alloc: Global,
    file: &'a str,
    files: &mut F,
) -> Result<Vec<Compiled>, Stop<'a>>
    ensures plans { IfKnown (F.sources files.old) (F.sources files.new) (λ s left. AreShort s
        → (left ≡ after (ask_of file.now) s) × TakesPlans file.now (taken_by (ask_of file.now) s) result) }
    ensures starved { OpensBeforeMemory (F.sources files.old) (ask_of file.now) result }
    ensures few { IfOk result (λ plans. length plans.items ≤ 64) }
{
    match open_operand(files, file) {
        Ok(mut input) => plans_from(alloc, file, &mut input),
        Err(_) => Err(Stop::Refused(Refusal::Unusable(file))),
    }
}

/// The plans of a plan file that is open.
fn plans_from<'a, I: ByteIn>(
    alloc: Global,
    file: &'a str,
    input: &mut I,
) -> Result<Vec<Compiled>, Stop<'a>>
    ensures plans { (c : Content) → I.coming input.old ≡ Some (coming_of c) → IsShort c
        → TakesPlans file.now (Some c) result }
    ensures few { IfOk result (λ plans. length plans.items ≤ 64) }
    ensures unread { IfOk result (λ _. I.has_failed input.new ≡ I.has_failed input.old) }
{
    match read_plans(alloc, input) {
        Ok(plans) => Ok(plans),
        Err(plan_file::Fault::BadPlanFile { place, cause }) => {
            Err(Stop::Refused(Refusal::NoPlanFile { place, cause }))
        }
        Err(plan_file::Fault::OutOfMemory) => Err(Stop::OutOfMemory),
        Err(plan_file::Fault::ReadFault) => Err(Stop::Refused(Refusal::Unusable(file))),
        Err(plan_file::Fault::WriteFault) => unreachable!(),
    }
}

/// The plan of this number, from 0, of a plan file, which is read as by `plans_of`.
///
/// # Errors
/// - `Refused` as `plans_of` refuses, or with `NoPlan`, where the file has no plan of this number.
/// - `OutOfMemory`, where a growth was refused, once the file is open.
pub fn plan_at<'a, F: Files>(
    alloc: Global,
    file: &'a str,
    place: usize,
    files: &mut F,
) -> Result<Compiled, Stop<'a>>
    ensures plan { IfKnown (F.sources files.old) (F.sources files.new) (λ s left. AreShort s
        → (left ≡ after (ask_of file.now) s) × TakesPlanAt file.now place (taken_by (ask_of file.now) s) result) }
    ensures starved { OpensBeforeMemory (F.sources files.old) (ask_of file.now) result }
{
    match plans_of(alloc, file, files) {
        Ok(plans) => picked(file, place, plans),
        Err(stop) => Err(stop),
    }
}

/// The plan of this number among the plans of a file.
fn picked<'a>(file: &'a str, place: usize, plans: Vec<Compiled>) -> Result<Compiled, Stop<'a>>
    ensures { PicksPlan file.now place plans.items result }
{
    let mut plans = plans;
    if place >= plans.len() {
        return Err(Stop::Refused(Refusal::NoPlan { file, place }));
    }
    Ok(plans.swap_remove(place))
}

/// The certificate in the file of a name, which is read to its end unless a line of it is wrong. The name `-` is a file's
/// too.
///
/// # Errors
/// - `Refused` with the file's name, where it cannot be opened or read; or with the first wrong line, where its text is
///   no certificate's.
/// - `OutOfMemory`, where a growth was refused, once the file is open.
pub fn certificate_of<'a, F: Files>(
    alloc: Global,
    name: &'a str,
    files: &mut F,
) -> Result<Certificate, Stop<'a>>
    ensures certificate { IfKnown (F.sources files.old) (F.sources files.new) (λ s left. AreShort s
        → (left ≡ after (Named name.now) s) × TakesCertificate name.now (taken_by (Named name.now) s) result) }
    ensures starved { OpensBeforeMemory (F.sources files.old) (Named name.now) result }
{
    match files.open_named(name) {
        Ok(mut input) => certificate_from(alloc, name, &mut input),
        Err(_) => Err(Stop::Refused(Refusal::Unusable(name))),
    }
}

/// The certificate in a file that is open.
fn certificate_from<'a, I: ByteIn>(
    alloc: Global,
    name: &'a str,
    input: &mut I,
) -> Result<Certificate, Stop<'a>>
    ensures certificate { (c : Content) → I.coming input.old ≡ Some (coming_of c) → IsShort c
        → TakesCertificate name.now (Some c) result }
    ensures unread { IfOk result (λ _. I.has_failed input.new ≡ I.has_failed input.old) }
{
    match read_cert(alloc, input) {
        Ok(certificate) => Ok(certificate),
        Err(lit_cert::Fault::BadCertText { line }) => {
            Err(Stop::Refused(Refusal::NoCertificate { line }))
        }
        Err(lit_cert::Fault::OutOfMemory) => Err(Stop::OutOfMemory),
        Err(lit_cert::Fault::ReadFault) => Err(Stop::Refused(Refusal::Unusable(name))),
        Err(lit_cert::Fault::WriteFault) => unreachable!(),
    }
}

/// The whole text of an operand; `-` is standard input.
///
/// # Errors
/// - `Refused` with the operand, where it cannot be opened or read.
/// - `OutOfMemory`, where a growth was refused, once it is open.
pub fn text_of<'a, F: Files>(
    alloc: Global,
    operand: &'a str,
    files: &mut F,
) -> Result<Vec<u8>, Stop<'a>>
    ensures text { IfKnown (F.sources files.old) (F.sources files.new) (λ s left. AreShort s
        → (left ≡ after (ask_of operand.now) s) × TakesText operand.now (taken_by (ask_of operand.now) s) result) }
    ensures starved { OpensBeforeMemory (F.sources files.old) (ask_of operand.now) result }
{
    match open_operand(files, operand) {
        Ok(mut input) => text_from(alloc, operand, &mut input),
        Err(_) => Err(Stop::Refused(Refusal::Unusable(operand))),
    }
}

/// The whole text of an operand that is open.
fn text_from<'a, I: ByteIn>(
    alloc: Global,
    operand: &'a str,
    input: &mut I,
) -> Result<Vec<u8>, Stop<'a>>
    ensures text { (c : Content) → I.coming input.old ≡ Some (coming_of c) → IsShort c
        → TakesText operand.now (Some c) result }
    ensures unread { IfOk result (λ _. I.has_failed input.new ≡ I.has_failed input.old) }
{
    let mut text = Vec::new(alloc);
    match read_to_end(input, usize::MAX, &mut text) {
        Ok(()) => Ok(text),
        Err(ReadError::Failed) => Err(Stop::Refused(Refusal::Unusable(operand))),
        // No vector has more than `usize::MAX` bytes.
        Err(ReadError::TooLong) => unreachable!(),
        Err(ReadError::OutOfMemory) => Err(Stop::OutOfMemory),
    }
}
