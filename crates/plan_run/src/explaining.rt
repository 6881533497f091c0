//! Explaining a plan: of a file's patterns, or of a plan file.
ghost use Rattle.std.specs.Prelude.{◌≡◌, ◌||◌, ◌∷◌, [], ℕ, List, IfOk, length, string_bytes};
ghost use Rattle.byte_io.specs.Devices.{IfKnown};
ghost use Rattle.byte_io.specs.Sources.{AreShort, Named, ask_of};
ghost use Rattle.lit_base.specs.Cuts.{IsCut};
ghost use Rattle.lit_base.specs.Profiles.{buckets};
ghost use Rattle.plan_pack.specs.Asking.{Asks};
ghost use Rattle.plan_pack.specs.Lists.{ArePlaces};
ghost use Rattle.plan_run.specs.Answers.{AnswersExplain, AnswersExplainCertificate, AnswersExplainPlan, IsCertificateReported, IsExplainAnswer, IsPlanExplained, explained};
ghost use Rattle.plan_run.specs.Messages.{certificate_head};
ghost use Rattle.plan_run.specs.Running.{Reports, is_write_fault, runs_out};

use crate::flaws::{report_refusal, report_stop};
use crate::reporting::{report, report_bytes};
use crate::request::{ExplainRequest, View};
use crate::status::Status;
use crate::stop::Stop;
use byte_io::{ByteOut, Files};
use lit_base::{Ends, LitList, Profile};
use lit_cert::Certificate;
use lit_plan::Compiled;
use plan_pack::{Refusal, certificate_of, placed_list_of, plan_at};
use plan_view::{plan_svg, plan_text};
use run_planner::{Fault, plan};
use std::alloc::{AllocError, Global};

/// Writes the plan of a file's patterns, as a text or a drawing; or where the file is wrong.
pub fn answer_explain<'a, F: Files, W: ByteOut>(
    alloc: Global,
    request: &'a ExplainRequest,
    files: &mut F,
    out: &mut W,
) -> Result<Status, Stop<'a>>
    ensures answer { IfKnown (F.sources files.old) (F.sources files.new) (λ s left. AreShort s
        → Asks (runs_out result) (ask_of (string_bytes request.now.file) ∷ []) s left
        × Reports (AnswersExplain request.now.reading request.now.profile request.now.view (string_bytes request.now.file) s)
        result (W.written out.old) (W.written out.new)) }
    ensures flag { W.has_failed out.new ≡ (W.has_failed out.old || is_write_fault result) }
{
    match placed_list_of(alloc, request.reading, request.file.as_str(), files) {
        Ok((list, normal)) => {
            let places = normal.place_of.as_slice();
            explain_list(alloc, request.profile, request.view, &list, places, out)
        }
        Err(stop) => report_stop(alloc, stop, out),
    }
}

/// Writes the plan of the list, as a text or a drawing. The patterns stand at these places of the list.
fn explain_list<'a, W: ByteOut>(
    alloc: Global,
    profile: Profile,
    view: View,
    list: &LitList,
    places: &[Option<u16>],
    out: &mut W,
) -> Result<Status, Stop<'a>>
    ensures answer { (patterns : List (List ℕ)) → ArePlaces list.now patterns places.now
        → Reports (IsExplainAnswer profile list.now view patterns) result (W.written out.old) (W.written out.new) }
    ensures flag { W.has_failed out.new ≡ (W.has_failed out.old || is_write_fault result) }
{
    match plan(alloc, list, profile) {
        Ok(certificate) => {
            let text = explained(alloc, profile, view, list, &certificate.ends, places)?;
            report_bytes(text.as_slice(), Status::Done, out)
        }
        Err(Fault::NoLiterals) => report_refusal(alloc, Refusal::NoLiterals, out),
        Err(Fault::OutOfMemory) => Err(Stop::OutOfMemory),
    }
}

/// The list's plan as a drawing, or as a text.
fn explained(
    alloc: Global,
    profile: Profile,
    view: View,
    list: &LitList,
    ends: &Ends,
    places: &[Option<u16>],
) -> Result<Vec<u8>, AllocError>
    requires { IsCut (buckets profile) (length list.now.texts) ends.now.items }
    ensures { IfOk result (λ text. text.items ≡ explained profile view list.now ends.now.items places.now) }
{
    match view {
        View::Text => plan_text(alloc, profile, list, ends, places),
        View::Drawing => plan_svg(alloc, profile, list, ends),
    }
}

/// Writes a plan of a plan file, as a text or a drawing; or where the file is wrong.
pub fn answer_explain_plan<'a, F: Files, W: ByteOut>(
    alloc: Global,
    view: View,
    file: &'a str,
    place: usize,
    files: &mut F,
    out: &mut W,
) -> Result<Status, Stop<'a>>
    ensures answer { IfKnown (F.sources files.old) (F.sources files.new) (λ s left. AreShort s
        → Asks (runs_out result) (ask_of file.now ∷ []) s left
        × Reports (AnswersExplainPlan view file.now place s) result (W.written out.old) (W.written out.new)) }
    ensures flag { W.has_failed out.new ≡ (W.has_failed out.old || is_write_fault result) }
{
    match plan_at(alloc, file, place, files) {
        Ok(plan) => explain_plan(alloc, view, &plan, out),
        Err(stop) => report_stop(alloc, stop, out),
    }
}

/// Writes a plan, as a text or a drawing. Nothing is known of dropped patterns, so none are reported.
fn explain_plan<'a, W: ByteOut>(
    alloc: Global,
    view: View,
    plan: &Compiled,
    out: &mut W,
) -> Result<Status, Stop<'a>>
    ensures answer { Reports (IsPlanExplained view plan.now) result (W.written out.old) (W.written out.new) }
    ensures flag { W.has_failed out.new ≡ (W.has_failed out.old || is_write_fault result) }
{
    let certificate = plan.certificate();
    let text = explained(
        alloc,
        certificate.profile,
        view,
        plan.list(),
        &certificate.ends,
        &[],
    )?;
    report_bytes(text.as_slice(), Status::Done, out)
}

/// Writes which line of a certificate is wrong, or how many runs it has and their cost.
pub fn answer_explain_certificate<'a, F: Files, W: ByteOut>(
    alloc: Global,
    name: &'a str,
    files: &mut F,
    out: &mut W,
) -> Result<Status, Stop<'a>>
    ensures answer { IfKnown (F.sources files.old) (F.sources files.new) (λ s left. AreShort s
        → Asks (runs_out result) (Named name.now ∷ []) s left
        × Reports (AnswersExplainCertificate name.now s) result (W.written out.old) (W.written out.new)) }
    ensures flag { W.has_failed out.new ≡ (W.has_failed out.old || is_write_fault result) }
{
    match certificate_of(alloc, name, files) {
        Ok(certificate) => report_head(alloc, &certificate, out),
        Err(stop) => report_stop(alloc, stop, out),
    }
}

/// Writes how many runs a certificate has, and their cost.
fn report_head<'a, W: ByteOut>(
    alloc: Global,
    certificate: &Certificate,
    out: &mut W,
) -> Result<Status, Stop<'a>>
    ensures answer { Reports (IsCertificateReported certificate.now) result (W.written out.old) (W.written out.new) }
    ensures flag { W.has_failed out.new ≡ (W.has_failed out.old || is_write_fault result) }
{
    let text = head_of(alloc, certificate.ends.as_slice().len(), certificate.cost)?;
    report(text.as_str(), Status::Done, out)
}

/// How many runs a certificate has, and their cost, as they are written.
fn head_of(alloc: Global, runs: usize, cost: u64) -> Result<String, AllocError>
    ensures { IfOk result (λ text. string_bytes text ≡ certificate_head runs cost) }
{
    format!(in alloc; "runs {runs}, cost {cost}\n")
}
