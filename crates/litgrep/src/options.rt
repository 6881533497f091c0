//! The options in clap's matches. POSIX.1-2017 `grep`, OPTIONS and OPERANDS.
ghost use Rattle.std.specs.Prelude.{◌≡◌, IfErr, IfOk, OnOk, codes, if◌then◌else◌, true};
ghost use Rattle.lit_base.specs.declared.fold.Fold.TheVariants.{Ascii, No};
ghost use Rattle.litgrep.specs.Options.{IsNoPattern, IsOptionsOf, IsRefusalOf, Specifies, gives_pattern};
ghost use Rattle.program_words.specs.Matches.{is_used, texts};

use clap::ArgMatches;
use grep_run::GrepOptions;
use lit_base::Fold;
use program_words::{Fault, strings, values};
use std::alloc::{AllocError, Global};

/// The options in clap's matches, each under the name of its field as id.
///
/// # Errors
/// - `Usage` where no pattern is given: neither -e nor -f nor an operand.
/// - `OutOfMemory` where a growth was refused.
pub fn options_of(alloc: Global, matches: &ArgMatches<'_>) -> Result<GrepOptions, Fault>
    ensures ok { IfOk result (IsOptionsOf matches.now) }
    ensures given { OnOk result (gives_pattern matches.now ≡ true) }
    ensures err { IfErr result (IsRefusalOf matches.now) }
{
    let lists = values(matches, "lists");
    let operands = values(matches, "operands");
    if !lists.is_empty() || !values(matches, "files").is_empty() {
        return Ok(options_from(alloc, matches, lists, operands)?);
    }
    if operands.is_empty() {
        return Err(no_pattern(alloc));
    }
    let (leading, files) = operands.split_at(1);
    Ok(options_from(alloc, matches, leading, files)?)
}

/// The options with the given pattern lists and files to search, and all else from the matches.
fn options_from(
    alloc: Global,
    matches: &ArgMatches<'_>,
    lists: &[&str],
    operands: &[&str],
) -> Result<GrepOptions, AllocError>
    ensures { IfOk result (Specifies matches.now (texts lists.now) (texts operands.now)) }
{
    Ok(GrepOptions {
        fold: fold_of(matches),
        invert: is_given(matches, "invert"),
        whole: is_given(matches, "whole"),
        count: is_given(matches, "count"),
        list: is_given(matches, "list"),
        number: is_given(matches, "number"),
        quiet: is_given(matches, "quiet"),
        silent: is_given(matches, "silent"),
        lists: strings(alloc, lists)?,
        files: strings(alloc, values(matches, "files"))?,
        operands: strings(alloc, operands)?,
    })
}

/// The fault where no pattern is given.
fn no_pattern(alloc: Global) -> Fault
    ensures { IsNoPattern result }
{
    Fault::usage(String::from_str(alloc, "litgrep: no pattern given\n"))
}

/// Whether a flag was used, once or more.
fn is_given(matches: &ArgMatches<'_>, id: &str) -> bool
    ensures { result ≡ is_used matches.now id.now }
{
    matches.get_count(id) > 0
}

/// Which case differences are ignored, by the flag `fold`.
fn fold_of(matches: &ArgMatches<'_>) -> Fold
    ensures { result ≡ (if is_used matches.now (codes "fold") then Ascii else No) }
{
    if is_given(matches, "fold") {
        Fold::Ascii
    } else {
        Fold::No
    }
}
