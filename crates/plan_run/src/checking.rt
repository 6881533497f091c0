//! Checking a certificate, and a plan of a plan file.
ghost use Rattle.std.specs.Prelude.{◌≡◌, ◌||◌, ◌∷◌, [], IfOk, string_bytes};
ghost use Rattle.byte_io.specs.Devices.{IfKnown};
ghost use Rattle.byte_io.specs.Sources.{AreShort, Named, after, ask_of, taken_by};
ghost use Rattle.plan_pack.specs.Asking.{Asks};
ghost use Rattle.plan_run.specs.Answers.{AnswersCheck, AnswersCheckPlan, IsCheckAnswer, IsVerdict, check_reads};
ghost use Rattle.plan_run.specs.Messages.{not_certified, optimal};
ghost use Rattle.plan_run.specs.Running.{Reports, is_write_fault, runs_out};

use crate::reporting::report;
use crate::request::CheckRequest;
use crate::status::Status;
use crate::stop::Stop;
use byte_io::{ByteOut, Files};
use lit_base::LitList;
use lit_cert::{Certificate, Reason, check};
use plan_pack::{certificate_of, list_of, plan_at};
use std::alloc::{AllocError, Global};

/// Says whether a file's certificate shows that no grouping of a file's patterns is cheaper.
pub fn answer_check<'a, F: Files, W: ByteOut>(
    alloc: Global,
    request: &'a CheckRequest,
    files: &mut F,
    out: &mut W,
) -> Result<Status, Stop<'a>>
    ensures answer { IfKnown (F.sources files.old) (F.sources files.new) (λ s left. AreShort s
        → Asks (runs_out result) (check_reads request.now.reading (string_bytes request.now.file) (string_bytes request.now.certificate) s) s left
        × Reports (AnswersCheck request.now.reading (string_bytes request.now.file) (string_bytes request.now.certificate) s)
        result (W.written out.old) (W.written out.new)) }
    ensures flag { W.has_failed out.new ≡ (W.has_failed out.old || is_write_fault result) }
{
    match list_of(alloc, request.reading, request.file.as_str(), files) {
        Ok(list) => check_list(alloc, &list, request.certificate.as_str(), files, out),
        Err(stop) => Err(Stop::from(stop)),
    }
}

/// Says whether the certificate of a file shows that no grouping of the list is cheaper.
fn check_list<'a, F: Files, W: ByteOut>(
    alloc: Global,
    list: &LitList,
    name: &'a str,
    files: &mut F,
    out: &mut W,
) -> Result<Status, Stop<'a>>
    ensures answer { IfKnown (F.sources files.old) (F.sources files.new) (λ s left. AreShort s
        → (left ≡ after (Named name.now) s)
        × Reports (IsCheckAnswer list.now name.now (taken_by (Named name.now) s)) result (W.written out.old) (W.written out.new)) }
    ensures flag { W.has_failed out.new ≡ (W.has_failed out.old || is_write_fault result) }
{
    match certificate_of(alloc, name, files) {
        Ok(certificate) => verdict(alloc, list, &certificate, out),
        Err(stop) => Err(Stop::from(stop)),
    }
}

/// Writes the verdict on a certificate.
fn verdict<'a, W: ByteOut>(
    alloc: Global,
    list: &LitList,
    certificate: &Certificate,
    out: &mut W,
) -> Result<Status, Stop<'a>>
    ensures answer { Reports (IsVerdict list.now certificate.now) result (W.written out.old) (W.written out.new) }
    ensures flag { W.has_failed out.new ≡ (W.has_failed out.old || is_write_fault result) }
{
    match check(list, certificate) {
        Ok(()) => {
            let text = optimal(alloc, certificate.cost)?;
            report(text.as_str(), Status::Done, out)
        }
        Err(reason) => {
            let text = not_certified(alloc, reason)?;
            report(text.as_str(), Status::NotCertified, out)
        }
    }
}

/// The verdict that a certificate of this cost holds.
fn optimal(alloc: Global, cost: u64) -> Result<String, AllocError>
    ensures { IfOk result (λ text. string_bytes text ≡ optimal cost) }
{
    format!(in alloc; "optimal {cost}\n")
}

/// The verdict that a certificate does not hold: this condition fails.
pub fn not_certified(alloc: Global, reason: Reason) -> Result<String, AllocError>
    ensures { IfOk result (λ text. string_bytes text ≡ not_certified reason) }
{
    match reason {
        Reason::Length => format!(in alloc; "not certified: length\n"),
        Reason::Ends => format!(in alloc; "not certified: ends\n"),
        Reason::Total => format!(in alloc; "not certified: total\n"),
        Reason::EndRow { r, p } => format!(in alloc; "not certified: end row {r} {p}\n"),
        Reason::Step { r, p, q } => format!(in alloc; "not certified: step {r} {p} {q}\n"),
    }
}

/// Writes the verdict on a plan of a plan file.
pub fn answer_check_plan<'a, F: Files, W: ByteOut>(
    alloc: Global,
    file: &'a str,
    place: usize,
    files: &mut F,
    out: &mut W,
) -> Result<Status, Stop<'a>>
    ensures answer { IfKnown (F.sources files.old) (F.sources files.new) (λ s left. AreShort s
        → Asks (runs_out result) (ask_of file.now ∷ []) s left
        × Reports (AnswersCheckPlan file.now place s) result (W.written out.old) (W.written out.new)) }
    ensures flag { W.has_failed out.new ≡ (W.has_failed out.old || is_write_fault result) }
{
    match plan_at(alloc, file, place, files) {
        Ok(plan) => verdict(alloc, plan.list(), plan.certificate(), out),
        Err(stop) => Err(Stop::from(stop)),
    }
}
