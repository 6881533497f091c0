//! Answers that make a plan file.
ghost use Rattle.std.specs.Prelude.{◌∷◌, ◌≡◌, ◌||◌, [], List, Option, false, map, string_bytes, ℕ};
ghost use Rattle.byte_io.specs.Devices.{IfKnown};
ghost use Rattle.byte_io.specs.Sources.{AreShort, ask_of};
ghost use Rattle.plan_pack.specs.Asking.{AsksAfterReads, LeavesMigrate, UnlessStarved, pack_asks, pack_reads};
ghost use Rattle.plan_run.specs.Answers.{AnswersMigrate, AnswersPack};
ghost use Rattle.plan_run.specs.Running.{Reports, is_write_fault, runs_out};

use crate::reporting::report_bytes;
use crate::request::PackRequest;
use crate::status::Status;
use crate::stop::Stop;
use byte_io::{ByteOut, Files};
use plan_pack::{migrate_file, pack, stop_of};
use std::alloc::Global;

/// Makes the plan file of files of patterns. It writes nothing to standard output. Where memory runs out, no file is made.
pub fn answer_pack<'a, F: Files>(
    alloc: Global,
    request: &'a PackRequest,
    files: &mut F,
) -> Result<Status, Stop<'a>>
    ensures answer { IfKnown (F.sources files.old) (F.sources files.new) (λ s left. AreShort s
        → AsksAfterReads (runs_out result) (pack_asks request.now.reading (map string_bytes request.now.files.names.items) (string_bytes request.now.output) s)
        (pack_reads request.now.reading (map string_bytes request.now.files.names.items) (string_bytes request.now.output) s) s left
        × ((out : Option (List ℕ)) → Reports (AnswersPack F.Output.written F.Output.has_failed request.now.reading request.now.profile
        (map string_bytes request.now.files.names.items) (string_bytes request.now.output) s) result out out)) }
    ensures unwritten { is_write_fault result ≡ false }
{
    let names = request.files.names();
    let output = request.output.as_str();
    match pack(
        alloc,
        request.reading,
        request.profile,
        names,
        output,
        files,
    ) {
        Ok(_) => Ok(Status::Done),
        Err(unmade) => Err(Stop::from(stop_of(unmade))),
    }
}

/// Migrates the plans of a plan file to another, and writes the costs of each plan and of its new one. Where memory runs
/// out, no file is made.
pub fn answer_migrate<'a, F: Files, W: ByteOut>(
    alloc: Global,
    input: &'a str,
    output: &'a str,
    files: &mut F,
    out: &mut W,
) -> Result<Status, Stop<'a>>
    ensures answer { IfKnown (F.sources files.old) (F.sources files.new) (λ s left. AreShort s
        → UnlessStarved (runs_out result) (LeavesMigrate input.now output.now s left) (ask_of input.now ∷ []) s left
        × Reports (AnswersMigrate F.Output.written F.Output.has_failed input.now output.now s) result (W.written out.old) (W.written out.new)) }
    ensures flag { W.has_failed out.new ≡ (W.has_failed out.old || is_write_fault result) }
{
    match migrate_file(alloc, input, output, files) {
        Ok((lines, _made)) => report_bytes(lines.as_slice(), Status::Done, out),
        Err(unmade) => Err(Stop::from(stop_of(unmade))),
    }
}
