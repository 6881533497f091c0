//! The request that the words of the command line ask for.
ghost use Rattle.std.specs.Prelude.{◌≡◌, IfOk, IfSome, codes, string_bytes};
ghost use Rattle.program_words.specs.Matches.{IsNumber};
ghost use Rattle.litplan.specs.Requests.{IsFlag, IsFold, IsListing, IsNotation, IsPlace, IsReading, IsRequestOf, IsView, profile_of, text_of};

use crate::commands::litplan;
use clap::ArgMatches;
use lit_base::{Fold, Profile};
use plan_run::{
    CheckRequest, ExplainRequest, HitLine, Listing, Notation, PackRequest, PatternFiles,
    PlanRequest, Reading, Request, ScanRequest, View, Workers,
};
use program_words::{Fault, matches_of, strings, values};
use std::alloc::{AllocError, Global};

/// What the words after the program's name ask for.
///
/// # Errors
/// - `Usage` where they are no command, help and version included, with clap's text.
/// - `OutOfMemory` where a growth was refused.
pub fn requested(alloc: Global, words: &[String]) -> Result<Request, Fault> {
    let matches = matches_of(alloc, litplan(alloc)?, words)?;
    match matches.subcommand() {
        Some((name, found)) => request_of(alloc, name, found),
        None => Err(no_command(alloc)),
    }
}

/// The request in clap's matches of the subcommand of a name, with each argument under its name as id.
///
/// # Errors
/// - `Usage` where the command is unknown or the number of workers is out of range, which clap does not let through;
///   where there are more than 64 files of patterns; and where the number of a plan is no number.
/// - `OutOfMemory` where a growth was refused.
pub fn request_of(alloc: Global, name: &str, found: &ArgMatches<'_>) -> Result<Request, Fault>
    ensures { IfOk result (IsRequestOf name.now found.now) }
{
    match name {
        "plan" => Ok(Request::Plan(PlanRequest {
            reading: reading_of(found),
            profile: profile_of(found),
            file: value(alloc, found, "file")?,
        })),
        "check" => check_of(alloc, found),
        "pack" => pack_of(alloc, found),
        "explain" => explain_of(alloc, found),
        "migrate" => Ok(Request::Migrate {
            input: value(alloc, found, "input")?,
            output: value(alloc, found, "output")?,
        }),
        "scan" => Ok(Request::Scan(scan_of(alloc, found)?)),
        _ => Err(no_command(alloc)),
    }
}

/// The check in clap's matches: of a certificate, or of a plan of a plan file.
fn check_of(alloc: Global, found: &ArgMatches<'_>) -> Result<Request, Fault>
    ensures { IfOk result (IsRequestOf (codes "check") found.now) }
{
    if found.contains_id("plan") {
        return Ok(Request::CheckPlan {
            file: value(alloc, found, "plan")?,
            place: place_of(alloc, found)?,
        });
    }
    Ok(Request::Check(CheckRequest {
        reading: reading_of(found),
        file: value(alloc, found, "file")?,
        certificate: value(alloc, found, "certificate")?,
    }))
}

/// The plan file to be made, by clap's matches.
fn pack_of(alloc: Global, found: &ArgMatches<'_>) -> Result<Request, Fault>
    ensures { IfOk result (IsRequestOf (codes "pack") found.now) }
{
    let Some(files) = PatternFiles::new(strings(alloc, values(found, "file"))?) else {
        return Err(Fault::usage(String::from_str(
            alloc,
            "litplan: more than 64 files of patterns\n",
        )));
    };
    Ok(Request::Pack(PackRequest {
        reading: reading_of(found),
        profile: profile_of(found),
        files,
        output: value(alloc, found, "output")?,
    }))
}

/// What to explain, by clap's matches: a list, a plan of a plan file, or a certificate.
fn explain_of(alloc: Global, found: &ArgMatches<'_>) -> Result<Request, Fault>
    ensures { IfOk result (IsRequestOf (codes "explain") found.now) }
{
    if found.contains_id("plan") {
        return Ok(Request::ExplainPlan {
            view: view_of(found),
            file: value(alloc, found, "plan")?,
            place: place_of(alloc, found)?,
        });
    }
    if found.contains_id("certificate") {
        let certificate = value(alloc, found, "certificate")?;
        return Ok(Request::ExplainCertificate { certificate });
    }
    Ok(Request::Explain(ExplainRequest {
        reading: reading_of(found),
        profile: profile_of(found),
        view: view_of(found),
        file: value(alloc, found, "file")?,
    }))
}

/// The number of a plan, which stands where a file of patterns else does: 0 if there is none.
fn place_of(alloc: Global, found: &ArgMatches<'_>) -> Result<usize, Fault>
    ensures { IfOk result (IsPlace found.now) }
{
    if !found.contains_id("file") {
        return Ok(0);
    }
    match number_of(found) {
        Some(place) => Ok(place),
        None => Err(Fault::usage(String::from_str(alloc, "litplan: no such number of a plan\n"))),
    }
}

/// The number that stands where a file of patterns else does.
fn number_of(found: &ArgMatches<'_>) -> Option<usize>
    ensures { IfSome result (IsNumber found.now (codes "file")) }
{
    found.get_one::<usize>("file")
}

/// The scan in clap's matches.
fn scan_of(alloc: Global, found: &ArgMatches<'_>) -> Result<ScanRequest, Fault>
    ensures { IfOk result (λ scan. IsRequestOf (codes "scan") found.now (Request.Scan scan)) }
{
    let Some(workers) = workers_of(found) else {
        return Err(Fault::usage(String::from_str(alloc, "litplan: no such number of workers\n")));
    };
    Ok(ScanRequest {
        reading: reading_of(found),
        workers,
        listing: listing_of(found),
        file: value(alloc, found, "file")?,
        input: value(alloc, found, "input")?,
    })
}

/// The number of workers in clap's matches, if there may be as many.
fn workers_of(found: &ArgMatches<'_>) -> Option<Workers>
    ensures { IfSome result (λ workers. IsNumber found.now (codes "workers") workers.count) }
{
    Workers::new(found.get_one::<usize>("workers")?)
}

/// The fault where the words name no command.
fn no_command(alloc: Global) -> Fault {
    Fault::usage(String::from_str(alloc, "litplan: no command given\n"))
}

/// How files of patterns are read.
fn reading_of(matches: &ArgMatches<'_>) -> Reading
    ensures { IsReading matches.now result }
{
    Reading {
        notation: notation_of(matches),
        fold: fold_of(matches),
    }
}

/// How a line of a file writes a pattern, by the flag `hex`.
fn notation_of(matches: &ArgMatches<'_>) -> Notation
    ensures { IsNotation matches.now result }
{
    if flag_of(matches, "hex") {
        Notation::Hex
    } else {
        Notation::Bytes
    }
}

/// Which case differences are ignored, by the flag `fold`.
fn fold_of(matches: &ArgMatches<'_>) -> Fold
    ensures { IsFold matches.now result }
{
    if flag_of(matches, "fold") {
        Fold::Ascii
    } else {
        Fold::No
    }
}

/// How a plan is shown, by the flag `svg`.
fn view_of(matches: &ArgMatches<'_>) -> View
    ensures { IsView matches.now result }
{
    if flag_of(matches, "svg") {
        View::Drawing
    } else {
        View::Text
    }
}

/// What is written of the hits, by the flags `count` and `names`. clap lets at most one of them through.
fn listing_of(matches: &ArgMatches<'_>) -> Listing
    ensures { IsListing matches.now result }
{
    let count = flag_of(matches, "count");
    let names = flag_of(matches, "names");
    match (count, names) {
        (true, _) => Listing::Count,
        (false, true) => Listing::Lines(HitLine::Literal),
        (false, false) => Listing::Lines(HitLine::End),
    }
}

/// The profile by the number of buckets in clap's matches: eight, unless that is sixteen.
fn profile_of(matches: &ArgMatches<'_>) -> Profile
    ensures { result ≡ profile_of matches.now }
{
    if matches.get_str("buckets").unwrap_or_default() == "16" {
        Profile::Sixteen
    } else {
        Profile::Eight
    }
}

/// Whether a flag was set.
fn flag_of(matches: &ArgMatches<'_>, id: &str) -> bool
    ensures { IsFlag matches.now id.now result }
{
    matches.get_flag(id)
}

/// The value of an argument, which clap requires.
fn value(alloc: Global, matches: &ArgMatches<'_>, id: &str) -> Result<String, AllocError>
    ensures { IfOk result (λ text. string_bytes text ≡ text_of matches.now id.now) }
{
    String::from_str(alloc, matches.get_str(id).unwrap_or_default())
}
