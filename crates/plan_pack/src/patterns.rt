//! The patterns of a text's lines, in either notation.
ghost use Rattle.std.specs.Prelude.{◌≡◌, ◌≢◌, ◌++◌, ◌∷◌, [], IfOk, MatchResult, None, OnOk, Some, length, map, sum_by};
ghost use Rattle.lit_base.specs.Lines.{lines};
ghost use Rattle.plan_pack.specs.Notations.{HexLaw, hex_bytes, hex_pattern, line_refusal, list_refusal, patterns_of};
ghost use Rattle.plan_pack.specs.declared.patterns.Unlisted.TheVariants.{BadPatterns};

use crate::notation::Notation;
use hex::{FromHexError, decode};
use lit_base::{Fault, Lines, RawList};
use std::alloc::Global;

/// Why a text's lines give no list.
#[derive(Clone, Copy, Debug, PartialEq, Eq)]
pub enum Unlisted {
    /// The patterns are refused.
    BadPatterns(Fault),
    /// This line, from 1, is not hexadecimal.
    BadHex { line: usize },
}

impl From<Fault> for Unlisted {
    ghost from_gives = { λ fault u. u ≡ BadPatterns fault };

    fn from(fault: Fault) -> Unlisted {
        Unlisted::BadPatterns(fault)
    }
}

/// The patterns of a text's lines.
pub fn patterns_of(alloc: Global, notation: Notation, text: &[u8]) -> Result<RawList, Unlisted>
    ensures ok { IfOk result (λ patterns. patterns ≡ patterns_of notation text.now) }
    ensures refusal { MatchResult result
        (λ _. list_refusal notation text.now ≡ None)
        (λ why. why ≢ Unlisted.BadPatterns Fault.OutOfMemory → list_refusal notation text.now ≡ Some why) }
{
    match notation {
        Notation::Bytes => lines_of(alloc, text),
        Notation::Hex => hex_lines_of(alloc, text),
    }
}

/// The lines of a text, as they are.
fn lines_of(alloc: Global, text: &[u8]) -> Result<RawList, Unlisted>
    ensures ok { IfOk result (λ patterns. patterns ≡ lines text.now) }
    ensures refusal { MatchResult result
        (λ _. list_refusal Notation.Bytes text.now ≡ None)
        (λ why. why ≢ Unlisted.BadPatterns Fault.OutOfMemory → list_refusal Notation.Bytes text.now ≡ Some why) }
{
    let mut patterns = RawList::new(alloc);
    patterns.add_file_bytes(text)?;
    Ok(patterns)
}

/// The patterns that the lines of a text write in hexadecimal.
fn hex_lines_of(alloc: Global, text: &[u8]) -> Result<RawList, Unlisted>
    ensures ok { IfOk result (λ patterns. patterns ≡ map hex_pattern (lines text.now)) }
    ensures refusal { MatchResult result
        (λ _. list_refusal Notation.Hex text.now ≡ None)
        (λ why. why ≢ Unlisted.BadPatterns Fault.OutOfMemory → list_refusal Notation.Hex text.now ≡ Some why) }
{
    let mut patterns = RawList::new(alloc);
    for line in Lines::new(text) {
        push_hex(alloc, line, &mut patterns)?;
    }
    Ok(patterns)
}

/// Appends the pattern that a line writes in hexadecimal.
fn push_hex(alloc: Global, line: &[u8], patterns: &mut RawList) -> Result<(), Unlisted>
    ensures ok { OnOk result (patterns.new ≡ patterns.old ++ hex_pattern line.now ∷ []) }
    ensures refusal { MatchResult result
        (λ _. line_refusal (length patterns.old) (sum_by length patterns.old) (hex_bytes line.now) ≡ None)
        (λ why. why ≢ Unlisted.BadPatterns Fault.OutOfMemory
        → line_refusal (length patterns.old) (sum_by length patterns.old) (hex_bytes line.now) ≡ Some why) }
{
    match decode(alloc, line) {
        Ok(pattern) => Ok(patterns.push(pattern.as_slice())?),
        Err(FromHexError::OutOfMemory) => Err(Unlisted::BadPatterns(Fault::OutOfMemory)),
        Err(_) => Err(Unlisted::BadHex {
            line: patterns.len() + 1,
        }),
    }
}

/// The law of a line in hexadecimal: which bytes it says, and that no other line says any.
pub fn hex_law()
    ensures { HexLaw }
{}
