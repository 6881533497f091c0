//! A run of litplan.
ghost use Rattle.std.specs.Prelude.{◌≡◌, ◌≢◌, ◌||◌};
ghost use Rattle.byte_io.specs.Devices.{IfKnown};
ghost use Rattle.byte_io.specs.Sources.{AreShort};
ghost use Rattle.plan_run.specs.Running.{Answers, Ends, is_write_fault};

use crate::checking::{answer_check, answer_check_plan};
use crate::explaining::{answer_explain, answer_explain_certificate, answer_explain_plan};
use crate::making::{answer_migrate, answer_pack};
use crate::message::say;
use crate::planning::answer_plan;
use crate::request::Request;
use crate::scanning::answer_scan;
use crate::status::Status;
use crate::stop::Stop;
use byte_io::{ByteOut, Files};
use std::alloc::Global;
use std::thread::Threads;

/// Serves a request: its answer goes to `out`, its message to `err`. A scan waits for the workers that it
/// starts.
///
/// A write to `out` that fails ends the run with its message and `Trouble`; so does want of memory. A
/// write to `err` that fails ends it with no further message.
pub fn run<R: Threads + Sync, F: Files, W: ByteOut, E: ByteOut>(
    rt: &R,
    alloc: Global,
    request: &Request,
    files: &mut F,
    out: &mut W,
    err: &mut E,
) -> Status
    ensures ends { IfKnown (F.sources files.old) (F.sources files.new) (λ s left. AreShort s
        → Ends F.Output.written F.Output.has_failed request.now s left result (W.has_failed out.old) (W.has_failed out.new) (E.has_failed err.new)
        (W.written out.old) (W.written out.new) (E.written err.old) (E.written err.new)) }

    // A write that failed shows in the status, whatever is known of the files.
    ensures fault { result ≢ Status.Trouble
        → (W.has_failed out.new || E.has_failed err.new) ≡ (W.has_failed out.old || E.has_failed err.old) }
{
    match answer(rt, alloc, request, files, out) {
        Ok(status) => status,
        Err(stop) => {
            say(alloc, stop, err);
            Status::Trouble
        }
    }
}

/// Answers a request as far as writes and memory allow. A refusal, a write to `out` that failed, and want of memory are
/// returned as `Stop`, without a message.
pub fn answer<'a, R: Threads + Sync, F: Files, W: ByteOut>(
    rt: &R,
    alloc: Global,
    request: &'a Request,
    files: &mut F,
    out: &mut W,
) -> Result<Status, Stop<'a>>
    ensures answer { IfKnown (F.sources files.old) (F.sources files.new) (λ s left. AreShort s
        → Answers F.Output.written F.Output.has_failed request.now s left result (W.written out.old) (W.written out.new)) }

    // A write fault is answered only where a write failed, and a write that failed is answered so.
    ensures flag { W.has_failed out.new ≡ (W.has_failed out.old || is_write_fault result) }
{
    match request {
        Request::Plan(plan) => answer_plan(alloc, plan, files, out),
        Request::Check(check) => answer_check(alloc, check, files, out),
        Request::CheckPlan { file, place } => {
            answer_check_plan(alloc, file.as_str(), *place, files, out)
        }
        Request::Pack(pack) => answer_pack(alloc, pack, files),
        Request::Explain(explain) => answer_explain(alloc, explain, files, out),
        Request::ExplainPlan { view, file, place } => {
            answer_explain_plan(alloc, *view, file.as_str(), *place, files, out)
        }
        Request::ExplainCertificate { certificate } => {
            answer_explain_certificate(alloc, certificate.as_str(), files, out)
        }
        Request::Migrate { input, output } => {
            answer_migrate(alloc, input.as_str(), output.as_str(), files, out)
        }
        Request::Scan(scan) => answer_scan(rt, alloc, scan, files, out),
    }
}
