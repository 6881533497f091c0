//! The words of the command line, read with clap.
ghost use Rattle.std.specs.Prelude.{◌<◌, IfOk, length};
ghost use Rattle.litgrep.specs.Options.{AreOptions};

use crate::advice::advised;
use crate::help::{HELP, USAGE};
use crate::options::options_of;
use clap::{Arg, ArgAction, Command};
use grep_run::GrepOptions;
use program_words::{Fault, VERSION, matches_of};
use std::alloc::{AllocError, Global};

/// The flags: the id that `options_of` knows, and the two spellings. `fixed` changes nothing, so nobody reads it.
static FLAGS: [(&str, char, &str); 9] = [
    ("fixed", 'F', "fixed-strings"),
    ("count", 'c', "count"),
    ("fold", 'i', "ignore-case"),
    ("list", 'l', "files-with-matches"),
    ("number", 'n', "line-number"),
    ("quiet", 'q', "quiet"),
    ("silent", 's', "no-messages"),
    ("invert", 'v', "invert-match"),
    ("whole", 'x', "line-regexp"),
];

/// The options that the words after the program's name ask for.
///
/// # Errors
/// - `Usage` where clap gives no matches, help and version included, with clap's text or advice on an
///   option of GNU grep, and where no pattern is given.
/// - `OutOfMemory` where a growth was refused.
pub fn options(alloc: Global, words: &[String]) -> Result<GrepOptions, Fault>
    ensures { IfOk result AreOptions }
{
    if !any_is_respelled(words) {
        return matched(alloc, words);
    }
    let spelled = spelled_words(alloc, words)?;
    matched(alloc, spelled.as_slice())
}

/// The options that the words ask for, as clap reads them.
fn matched(alloc: Global, words: &[String]) -> Result<GrepOptions, Fault>
    ensures { IfOk result AreOptions }
{
    match matches_of(alloc, command(alloc)?, words) {
        Ok(matches) => options_of(alloc, &matches),
        Err(fault) => Err(advised(alloc, fault)),
    }
}

/// What litgrep takes.
fn command<'a>(alloc: Global) -> Result<Command<'a>, AllocError> {
    let mut command = Command::new(alloc, "litgrep")
        .version(VERSION)
        .no_binary_name(true)
        .override_usage(USAGE)
        .override_help(HELP);
    for (id, short, long) in FLAGS {
        let flag = Arg::new(alloc, id)
            .short(short)
            .long(long)
            .action(ArgAction::Count);
        command = command.arg(flag)?;
    }
    command
        .arg(lists(alloc))?
        .arg(files(alloc))?
        .arg(operands(alloc))
}

/// The pattern lists, -e.
fn lists<'a>(alloc: Global) -> Arg<'a> {
    Arg::new(alloc, "lists")
        .short('e')
        .long("regexp")
        .value_name("LIST")
        .action(ArgAction::Append)
}

/// The pattern files, -f.
fn files<'a>(alloc: Global) -> Arg<'a> {
    Arg::new(alloc, "files")
        .short('f')
        .long("file")
        .value_name("FILE")
        .action(ArgAction::Append)
}

/// The operands.
fn operands<'a>(alloc: Global) -> Arg<'a> {
    Arg::new(alloc, "operands")
        .value_name("FILE")
        .num_args(0..)
        .action(ArgAction::Append)
}

/// How clap gets a word, so that it takes the argument of -e or -f as POSIX has it.
#[derive(Clone, Copy)]
enum Spelling<'a> {
    /// As it stands.
    Same,
    /// `=` begins the argument in this word. Clap drops one, so it gets two.
    TwoEquals { letters: &'a str, rest: &'a str },
    /// The argument is the next word, though it begins with `-`: the two are one word, with this
    /// between them.
    Joined { by: &'a str, argument: &'a str },
}

/// Whether clap would take one of the words otherwise than POSIX does.
fn any_is_respelled(words: &[String]) -> bool {
    for place in 0..words.len() {
        if !matches!(spelling_of(words, place), Spelling::Same) {
            return true;
        }
    }
    false
}

/// Copies of the words as clap gets them: after `--` as they stand.
fn spelled_words(alloc: Global, words: &[String]) -> Result<Vec<String>, AllocError> {
    let mut spelled = Vec::with_capacity(alloc, words.len())?;
    let mut are_operands = false;
    let mut is_taken = false;
    for place in 0..words.len() {
        let word = words[place].as_str();
        if is_taken {
            is_taken = false;
            continue;
        }
        are_operands = are_operands || word == "--";
        let copy = match spelling_of(words, place) {
            Spelling::TwoEquals { letters, rest } if !are_operands => {
                format!(in alloc; "-{letters}=={rest}")?
            }
            Spelling::Joined { by, argument } if !are_operands => {
                is_taken = true;
                format!(in alloc; "{word}{by}{argument}")?
            }
            _ => String::from_str(alloc, word)?,
        };
        spelled.push(copy)?;
    }
    Ok(spelled)
}

/// How clap gets the word at a place. Most words are files, and are passed as they stand.
fn spelling_of(words: &[String], place: usize) -> Spelling<'_>
    requires { place < length words.now }
{
    let Some(letters) = words[place].as_str().strip_prefix('-') else {
        return Spelling::Same;
    };
    if let Some((letters, rest)) = letters.split_once('=') {
        if takes_argument(letters) {
            return Spelling::TwoEquals { letters, rest };
        }
    }
    match words.get(place + 1) {
        Some(next) if next.as_str().starts_with('-') => joined(letters, next.as_str()),
        _ => Spelling::Same,
    }
}

/// How clap gets a word with these letters before a word that begins with `-`.
fn joined<'a>(letters: &str, argument: &'a str) -> Spelling<'a> {
    if takes_argument(letters) {
        return Spelling::Joined { by: "", argument };
    }
    match letters {
        "-regexp" | "-file" => Spelling::Joined { by: "=", argument },
        _ => Spelling::Same,
    }
}

/// Whether the letters of a word are flags and, at its end, an -e or -f that has no argument yet.
fn takes_argument(letters: &str) -> bool {
    match letters.strip_suffix('e').or(letters.strip_suffix('f')) {
        Some(flags) => { !(flags.starts_with('-') || flags.contains('e') || flags.contains('f')) }
        None => false,
    }
}
