//! Planning the patterns of a file.
ghost use Rattle.std.specs.Prelude.{◌≡◌, ◌||◌, ◌∷◌, [], string_bytes};
ghost use Rattle.byte_io.specs.Devices.{IfKnown};
ghost use Rattle.byte_io.specs.Sources.{AreShort, ask_of};
ghost use Rattle.plan_pack.specs.Asking.{Asks};
ghost use Rattle.plan_run.specs.Answers.{AnswersPlan, IsPlanAnswer};
ghost use Rattle.plan_run.specs.Running.{Reports, is_write_fault, runs_out};

use crate::reporting::report_certificate;
use crate::request::PlanRequest;
use crate::status::Status;
use crate::stop::Stop;
use byte_io::{ByteOut, Files};
use lit_base::{LitList, Profile};
use plan_pack::{Refusal, list_of};
use run_planner::{Fault, plan};
use std::alloc::Global;

/// Writes the certificate of the plan of a file's patterns.
pub fn answer_plan<'a, F: Files, W: ByteOut>(
    alloc: Global,
    request: &'a PlanRequest,
    files: &mut F,
    out: &mut W,
) -> Result<Status, Stop<'a>>
    ensures answer { IfKnown (F.sources files.old) (F.sources files.new) (λ s left. AreShort s
        → Asks (runs_out result) (ask_of (string_bytes request.now.file) ∷ []) s left
        × Reports (AnswersPlan request.now.reading request.now.profile (string_bytes request.now.file) s) result (W.written out.old) (W.written out.new)) }
    ensures flag { W.has_failed out.new ≡ (W.has_failed out.old || is_write_fault result) }
{
    match list_of(alloc, request.reading, request.file.as_str(), files) {
        Ok(list) => plan_list(alloc, request.profile, &list, out),
        Err(stop) => Err(Stop::from(stop)),
    }
}

/// Writes the certificate of the list's plan.
fn plan_list<'a, W: ByteOut>(
    alloc: Global,
    profile: Profile,
    list: &LitList,
    out: &mut W,
) -> Result<Status, Stop<'a>>
    ensures answer { Reports (IsPlanAnswer profile list.now) result (W.written out.old) (W.written out.new) }
    ensures flag { W.has_failed out.new ≡ (W.has_failed out.old || is_write_fault result) }
{
    match plan(alloc, list, profile) {
        Ok(certificate) => {
            list.normal_law();
            report_certificate(alloc, &certificate, out)
        }
        Err(Fault::NoLiterals) => Err(Stop::Refused(Refusal::NoLiterals)),
        Err(Fault::OutOfMemory) => Err(Stop::OutOfMemory),
    }
}
