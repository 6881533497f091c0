//! The texts of an argument in clap's matches.
ghost use Rattle.std.specs.Prelude.{◌≡◌, IfOk, map, string_bytes};
ghost use Rattle.program_words.specs.Matches.{texts, texts_of};

use clap::ArgMatches;
use std::alloc::{AllocError, Global};

/// The texts given for an argument, of all its uses in order; empty if it was not used.
pub fn values<'m, 'a>(matches: &'m ArgMatches<'a>, id: &str) -> &'m [&'a str]
    ensures { texts result.now ≡ texts_of matches.now id.now }
{
    matches.get_strs(id).unwrap_or_default()
}

/// Copies of the words. The only error is a refused growth.
pub fn strings(alloc: Global, words: &[&str]) -> Result<Vec<String>, AllocError>
    ensures { IfOk result (λ copies. map string_bytes copies.items ≡ texts words.now) }
{
    let mut copies = Vec::with_capacity(alloc, words.len())?;
    for word in words {
        copies.push(String::from_str(alloc, word)?)?;
    }
    Ok(copies)
}
