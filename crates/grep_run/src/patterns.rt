//! The patterns of a run.
ghost use Rattle.std.specs.Prelude.{◌≡◌, [], All, IfOk, OnOk, Some, map, string_bytes};
ghost use Rattle.byte_io.specs.Sources.{AreShort, Content, IsShort, Named, after, coming_of, source_of};
ghost use Rattle.byte_io.specs.Devices.{IfKnown};
ghost use Rattle.lit_base.specs.Lines.{IsOnePiece};
ghost use Rattle.grep_run.specs.Gathering.{TakesFile, TakesFiles, TakesPatterns};
ghost use Rattle.grep_run.specs.Options.{asks_for};
ghost use Rattle.grep_run.specs.Patterns.{RefusesAs, lists_refusal, patterns_in};
ghost use Rattle.grep_run.specs.Sources.{found};

use crate::compiled_patterns::CompiledPatterns;
use crate::options::GrepOptions;
use byte_io::{ByteIn, Opener, ReadError, read_to_end};
use lit_base::{Fault, MAX_TEXT_LEN, RawList};
use std::alloc::Global;

/// Why a run has no patterns.
#[derive(Clone, Copy, Debug)]
pub enum NoPatterns<'a> {
    /// This pattern file cannot be opened or read.
    Unreadable(&'a str),
    /// The patterns are refused, or memory ran out.
    Refused(Fault),
}

impl From<Fault> for NoPatterns<'_> {
    ghost use Rattle.grep_run.specs.declared.patterns.NoPatterns.TheVariants.{Refused};

    ghost from_gives = { λ fault e. e ≡ Refused fault };

    fn from(fault: Fault) -> Self {
        NoPatterns::Refused(fault)
    }
}

/// The patterns of a run: of all pattern lists in order, and then of all pattern files in order, each opened and read
/// before the next. The first list or file that gives none ends it.
pub fn gathered<'a, O: Opener>(
    alloc: Global,
    options: &'a GrepOptions,
    opener: &mut O,
) -> Result<CompiledPatterns, NoPatterns<'a>>
    ensures { IfKnown (O.sources opener.old) (O.sources opener.new) (λ s left. AreShort s
        → TakesPatterns options.now s left result) }
{
    let mut patterns = listed(alloc, options.lists.as_slice())?;
    add_files(alloc, options.files.as_slice(), opener, &mut patterns)?;
    Ok(CompiledPatterns::new(alloc, &patterns, options.fold)?)
}

/// The patterns of all pattern lists, in order. A list that `RawList::add_text_list` refuses is refused
/// here too, the first one with its refusal, unless memory ran out before.
fn listed(alloc: Global, lists: &[String]) -> Result<RawList, Fault>
    ensures ok { IfOk result (λ patterns. patterns ≡ patterns_in (map string_bytes lists.now)) }
    ensures refusal { RefusesAs (lists_refusal [] (map string_bytes lists.now)) result }
    ensures apart { IfOk result (All IsOnePiece) }
{
    let mut patterns = RawList::new(alloc);
    for list in lists {
        patterns.add_text_list(list.as_bytes())?;
    }
    Ok(patterns)
}

/// Adds the patterns of the files, in order.
fn add_files<'a, O: Opener>(
    alloc: Global,
    files: &'a [String],
    opener: &mut O,
    patterns: &mut RawList,
) -> Result<(), NoPatterns<'a>>
    ensures apart { All IsOnePiece patterns.old → OnOk result (All IsOnePiece patterns.new) }
    ensures answer { IfKnown (O.sources opener.old) (O.sources opener.new) (λ s left. AreShort s
        → TakesFiles patterns.old patterns.new s left (found (asks_for (map string_bytes files.now)) s) result) }
{
    for file in files {
        add_file(alloc, file.as_str(), opener, patterns)?;
    }
    Ok(())
}

/// Opens a pattern file, reads it, and adds its patterns.
fn add_file<'a, O: Opener>(
    alloc: Global,
    name: &'a str,
    opener: &mut O,
    patterns: &mut RawList,
) -> Result<(), NoPatterns<'a>>
    ensures apart { All IsOnePiece patterns.old → OnOk result (All IsOnePiece patterns.new) }
    ensures answer { IfKnown (O.sources opener.old) (O.sources opener.new) (λ s left. AreShort s
        → (left ≡ after (Named name.now) s) × TakesFile name.now patterns.old patterns.new (source_of name.now s.named) result) }
{
    match opener.open_named(name) {
        Ok(mut input) => add_content(alloc, name, &mut input, patterns),
        Err(_) => Err(NoPatterns::Unreadable(name)),
    }
}

/// Adds the patterns of a pattern file that is open, which is read to its end before, unless it has more
/// bytes than a pattern file may have.
fn add_content<'a, I: ByteIn>(
    alloc: Global,
    name: &'a str,
    input: &mut I,
    patterns: &mut RawList,
) -> Result<(), NoPatterns<'a>>
    ensures apart { All IsOnePiece patterns.old → OnOk result (All IsOnePiece patterns.new) }
    ensures answer { (c : Content) → I.coming input.old ≡ Some (coming_of c) → IsShort c
        → TakesFile name.now patterns.old patterns.new (Some c) result }
{
    let mut text = Vec::new(alloc);
    match read_to_end(input, MAX_TEXT_LEN, &mut text) {
        Ok(()) => Ok(patterns.add_file_bytes(text.as_slice())?),
        Err(ReadError::Failed) => Err(NoPatterns::Unreadable(name)),
        Err(ReadError::TooLong) => Err(NoPatterns::Refused(Fault::ListTooLarge)),
        Err(ReadError::OutOfMemory) => Err(NoPatterns::Refused(Fault::OutOfMemory)),
    }
}
