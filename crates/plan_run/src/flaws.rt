//! Reporting where an input is wrong, for `explain`.
ghost use Rattle.std.specs.Prelude.{◌≡◌, ◌||◌, Err, IfOk, MatchResult, Ok, Some, string_bytes};
ghost use Rattle.std.specs.Option.{option_map};
ghost use Rattle.plan_run.specs.Answers.{where_wrong};
ghost use Rattle.plan_run.specs.Messages.{wrong_byte, wrong_field, wrong_input, wrong_list};
ghost use Rattle.plan_run.specs.Running.{Reports, ReportsStop, is_write_fault};

use crate::checking::not_certified;
use crate::reporting::report;
use crate::status::Status;
use crate::stop::Stop;
use byte_io::ByteOut;
use lit_base::Fault;
use plan_file::Cause;
use plan_pack::Refusal;
use std::alloc::{AllocError, Global};

/// Writes where an input is wrong, for a stop that says so. Any other stop stays one.
pub fn report_stop<'a, W: ByteOut>(
    alloc: Global,
    stop: plan_pack::Stop<'a>,
    out: &mut W,
) -> Result<Status, Stop<'a>>
    ensures answer { ReportsStop stop.entry result (W.written out.old) (W.written out.new) }
    ensures flag { W.has_failed out.new ≡ (W.has_failed out.old || is_write_fault result) }
{
    match stop {
        plan_pack::Stop::Refused(refusal) => report_refusal(alloc, refusal, out),
        plan_pack::Stop::OutOfMemory => Err(Stop::OutOfMemory),
    }
}

/// Writes where an input is wrong, for a refusal that says so. Any other refusal stays one.
pub fn report_refusal<'a, W: ByteOut>(
    alloc: Global,
    refusal: Refusal<'a>,
    out: &mut W,
) -> Result<Status, Stop<'a>>
    ensures answer { Reports (λ a. a ≡ where_wrong refusal.entry) result (W.written out.old) (W.written out.new) }
    ensures flag { W.has_failed out.new ≡ (W.has_failed out.old || is_write_fault result) }
{
    match wrong_input(alloc, refusal)? {
        Some(text) => report(text.as_str(), Status::Wrong, out),
        None => Err(Stop::Refused(refusal)),
    }
}

/// Where an input is wrong, if a refusal says so.
fn wrong_input(alloc: Global, refusal: Refusal<'_>) -> Result<Option<String>, AllocError>
    ensures { IfOk result (λ text. option_map string_bytes text ≡ wrong_input refusal.entry) }
{
    match refusal {
        Refusal::Unusable(_) => Ok(None),
        Refusal::Patterns(fault) => wrong_list(alloc, fault),
        Refusal::NotHex { line, .. } => some(format!(in alloc; "line {line}: not hexadecimal\n")),
        Refusal::NoLiterals => some(format!(in alloc; "no line has a literal\n")),
        Refusal::NoCertificate { line } => {
            some(format!(in alloc; "line {line}: wrong, missing or after the end\n"))
        }
        Refusal::NoPlanFile { place, cause } => some(wrong_byte(alloc, place, cause)),
        Refusal::NoPlan { .. } => Ok(None),
    }
}

/// Where a list is wrong, if that is known.
fn wrong_list(alloc: Global, fault: Fault) -> Result<Option<String>, AllocError>
    ensures { IfOk result (λ text. option_map string_bytes text ≡ wrong_list fault) }
{
    match fault {
        Fault::OutOfMemory => Ok(None),
        Fault::TooManyPatterns => { some(format!(in alloc; "line 4097: more than 4096 lines\n")) }
        Fault::LiteralTooLong { place } => {
            // A place is any number here, so the line after it is counted in a wider type.
            let line = place as u128 + 1;
            some(format!(in alloc; "line {line}: more than 4095 bytes\n"))
        }
        Fault::TooManyLiterals => some(format!(in alloc; "more than 4096 literals\n")),
        Fault::ListTooLarge => some(format!(in alloc;
            "more than 1048576 bytes in all lines, or 1052672 with their newlines\n"
        )),
    }
}

/// Where a plan file is wrong, and why.
fn wrong_byte(alloc: Global, place: usize, cause: Cause) -> Result<String, AllocError>
    ensures { IfOk result (λ text. string_bytes text ≡ wrong_byte place cause) }
{
    let field = wrong_field(alloc, cause)?;
    format!(in alloc; "byte {place}: {field}")
}

/// Why a field of a plan file is wrong.
fn wrong_field(alloc: Global, cause: Cause) -> Result<String, AllocError>
    ensures { IfOk result (λ text. string_bytes text ≡ wrong_field cause) }
{
    match cause {
        Cause::Short => format!(in alloc; "the field is cut short\n"),
        Cause::Magic => format!(in alloc; "a plan file begins with LPLF\n"),
        Cause::Version => format!(in alloc; "the version is neither 1 nor 2\n"),
        Cause::Count => {
            format!(in alloc; "the number of plans or of literals is out of range\n")
        }
        Cause::Flags => format!(in alloc; "a flag is unknown in this version\n"),
        Cause::Literal => format!(in alloc; "the literal is empty, too long or not folded\n"),
        Cause::Order => format!(in alloc; "the literal is not after the previous literal\n"),
        Cause::Runs => format!(in alloc; "the number of runs is out of range\n"),
        Cause::NotCertified { reason } => not_certified(alloc, reason),
        Cause::Trailing => format!(in alloc; "bytes follow the last plan\n"),
    }
}

/// The text in `Some`, if there was memory for it.
fn some(text: Result<String, AllocError>) -> Result<Option<String>, AllocError>
    ensures { MatchResult text (λ t. result ≡ Ok (Some t)) (λ e. result ≡ Err e) }
{
    Ok(Some(text?))
}
