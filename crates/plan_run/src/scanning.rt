//! Finding patterns in an input.
ghost use Rattle.std.specs.Prelude.{◌≡◌, ◌||◌, string_bytes};
ghost use Rattle.byte_io.specs.Devices.{IfKnown};
ghost use Rattle.byte_io.specs.Sources.{AreShort, after, ask_of, taken_by};
ghost use Rattle.plan_pack.specs.Asking.{Asks};
ghost use Rattle.plan_run.specs.Answers.{AnswersInput, AnswersScan, AreHitsReported, scan_reads};
ghost use Rattle.plan_run.specs.Running.{Reports, is_write_fault, runs_out};
ghost use Rattle.plan_run.specs.declared.request.Listing.TheVariants.{Count, Lines};

use crate::listing::{counted, report_lines};
use crate::reporting::report;
use crate::request::{HitLine, Listing, ScanRequest};
use crate::spans::next_span;
use crate::status::Status;
use crate::stop::Stop;
use crate::workers::Workers;
use byte_io::{ByteOut, Files};
use lit_base::Profile;
use lit_plan::Compiled;
use plan_pack::{plan_of, text_of};
use std::alloc::Global;
use std::thread::Threads;

/// Writes the hits of a file's patterns in an input, or their number. The file is planned before the input is opened.
pub fn answer_scan<'a, R: Threads + Sync, F: Files, W: ByteOut>(
    rt: &R,
    alloc: Global,
    scan: &'a ScanRequest,
    files: &mut F,
    out: &mut W,
) -> Result<Status, Stop<'a>>
    ensures answer { IfKnown (F.sources files.old) (F.sources files.new) (λ s left. AreShort s
        → Asks (runs_out result) (scan_reads scan.now.reading (string_bytes scan.now.file) (string_bytes scan.now.input) s) s left
        × Reports (AnswersScan scan.now.reading scan.now.listing (string_bytes scan.now.file) (string_bytes scan.now.input) s)
        result (W.written out.old) (W.written out.new)) }
    ensures flag { W.has_failed out.new ≡ (W.has_failed out.old || is_write_fault result) }
{
    match plan_of(
        alloc,
        scan.reading,
        Profile::Eight,
        scan.file.as_str(),
        files,
    ) {
        Ok(compiled) => scan_input(rt, alloc, &compiled, scan, files, out),
        Err(stop) => Err(Stop::from(stop)),
    }
}

/// Writes the hits of a plan in the input.
fn scan_input<'a, R: Threads + Sync, F: Files, W: ByteOut>(
    rt: &R,
    alloc: Global,
    compiled: &Compiled,
    scan: &'a ScanRequest,
    files: &mut F,
    out: &mut W,
) -> Result<Status, Stop<'a>>
    ensures answer { IfKnown (F.sources files.old) (F.sources files.new) (λ s left. AreShort s
        → (left ≡ after (ask_of (string_bytes scan.now.input)) s)
        × Reports (AnswersInput compiled.now.literals scan.now.listing (string_bytes scan.now.input)
        (taken_by (ask_of (string_bytes scan.now.input)) s)) result (W.written out.old) (W.written out.new)) }
    ensures flag { W.has_failed out.new ≡ (W.has_failed out.old || is_write_fault result) }
{
    match text_of(alloc, scan.input.as_str(), files) {
        Ok(text) => scan_text(rt, alloc, compiled, scan, text.as_slice(), out),
        Err(stop) => Err(Stop::from(stop)),
    }
}

/// Writes the hits of a plan in a text, or their number.
fn scan_text<'a, R: Threads + Sync, W: ByteOut>(
    rt: &R,
    alloc: Global,
    compiled: &Compiled,
    scan: &'a ScanRequest,
    text: &[u8],
    out: &mut W,
) -> Result<Status, Stop<'a>>
    ensures answer { Reports (AreHitsReported compiled.now.literals scan.now.listing text.now) result (W.written out.old) (W.written out.new) }
    ensures flag { W.has_failed out.new ≡ (W.has_failed out.old || is_write_fault result) }
{
    match scan.listing {
        Listing::Count => write_count(rt, alloc, compiled, scan.workers, text, out),
        Listing::Lines(line) => write_hits(rt, alloc, compiled, scan.workers, line, text, out),
    }
}

/// Writes how many hits a plan has in a text. It keeps those of one span at a time.
fn write_count<'a, R: Threads + Sync, W: ByteOut>(
    rt: &R,
    alloc: Global,
    compiled: &Compiled,
    workers: Workers,
    text: &[u8],
    out: &mut W,
) -> Result<Status, Stop<'a>>
    ensures answer { Reports (AreHitsReported compiled.now.literals Count text.now) result (W.written out.old) (W.written out.new) }
    ensures flag { W.has_failed out.new ≡ (W.has_failed out.old || is_write_fault result) }
{
    // Read here, the bound on the lengths of literals is known below.
    let _carry = compiled.carry();
    let mut count = 0u64;
    let mut from = 0;
    while from < text.len() {
        let span = next_span(rt, alloc, compiled, workers, text, from)?;
        // No text that fits in memory has so many hits.
        let Some(sum) = count.checked_add(span.hits.len() as u64) else {
            return Err(Stop::OutOfMemory);
        };
        count = sum;
        from = span.end;
    }
    let text = counted(alloc, count)?;
    report(text.as_str(), Status::Done, out)
}

/// Writes the hits of a plan in a text, a line each: those of one span before the next span is scanned.
fn write_hits<'a, R: Threads + Sync, W: ByteOut>(
    rt: &R,
    alloc: Global,
    compiled: &Compiled,
    workers: Workers,
    line: HitLine,
    text: &[u8],
    out: &mut W,
) -> Result<Status, Stop<'a>>
    ensures answer { Reports (AreHitsReported compiled.now.literals (Lines line) text.now) result (W.written out.old) (W.written out.new) }
    ensures flag { W.has_failed out.new ≡ (W.has_failed out.old || is_write_fault result) }
{
    // Read here, the bound on the lengths of literals is known below.
    let _carry = compiled.carry();
    let mut from = 0;
    while from < text.len() {
        let span = next_span(rt, alloc, compiled, workers, text, from)?;
        report_lines(alloc, compiled, line, span.hits.as_slice(), out)?;
        from = span.end;
    }
    Ok(Status::Done)
}
