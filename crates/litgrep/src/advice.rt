//! What serves in place of GNU grep's options that POSIX does not have.

use crate::help::USAGE;
use program_words::Fault;
use std::alloc::{AllocError, Global};

/// How clap begins its text on an option that it does not know.
const UNKNOWN: &str = "error: unexpected argument '";

/// The fault of words that clap refused. Where its text is on an option of GNU grep, the text advises what
/// to do without it: clap would suggest another option, or to search for the option's letters.
pub fn advised(alloc: Global, fault: Fault) -> Fault {
    match fault {
        Fault::OutOfMemory => Fault::OutOfMemory,
        Fault::Usage { text } => match advice_for(alloc, text.as_str()) {
            Some(advice) => Fault::usage(advice),
            None => Fault::Usage { text },
        },
    }
}

/// The text with advice, if a text of clap's refuses an option of GNU grep.
fn advice_for(alloc: Global, text: &str) -> Option<Result<String, AllocError>> {
    let (option, _) = text.strip_prefix(UNKNOWN)?.split_once('\'')?;
    let advice = advice_on(option)?;
    Some(advice_text(alloc, option, advice))
}

/// The text on an option, in the form that clap has.
fn advice_text(alloc: Global, option: &str, advice: &str) -> Result<String, AllocError> {
    format!(in alloc;
        "{UNKNOWN}{option}' found\n\n  tip: POSIX grep has no '{option}'. {advice}\n\nUsage: {USAGE}\n\nFor more information, try '--help'.\n"
    )
}

/// What serves in place of an option of GNU grep, as docs/GUIDE.md has it.
fn advice_on(option: &str) -> Option<&'static str> {
    Some(match option {
        "-a" | "--text" | "-U" | "--binary" | "--line-buffered" => "litgrep always does that.",
        "-y" => "Use -i.",
        "-H" | "--with-filename" => "Name a second file: litgrep cat f /dev/null",
        "--no-filename" => { "Run litgrep for each file: for f in *; do litgrep cat \"$f\"; done" }
        "-L" | "--files-without-match" => {
            "Use -q: for f in *; do litgrep -q cat \"$f\"; [ $? -eq 1 ] && echo \"$f\"; done"
        }
        "-m" | "--max-count" => "Use head: litgrep cat f | head -n 5",
        "-r"
        | "-R"
        | "--recursive"
        | "--dereference-recursive"
        | "--include"
        | "--exclude"
        | "--exclude-dir"
        | "--exclude-from" => {
            "Use find: find . -type f -name '*.log' -exec litgrep cat /dev/null {} +"
        }
        "-z" | "--null-data" =>
            "Use tr: tr '\\n\\0' '\\0\\n' < f | litgrep cat | tr '\\n\\0' '\\0\\n'",
        "-o" | "--only-matching" | "-b" | "--byte-offset" => {
            "Use litplan scan: it prints where each literal ends."
        }
        "-w" | "--word-regexp" | "--color" | "--colour" => {
            "Use GNU grep on the lines that litgrep selects: litgrep -f list f | grep -w -F -f list"
        }
        "-A"
        | "--after-context"
        | "-B"
        | "--before-context"
        | "-C"
        | "--context"
        | "-E"
        | "--extended-regexp"
        | "-G"
        | "--basic-regexp"
        | "-P"
        | "--perl-regexp" => "Use GNU grep.",
        _ => return None,
    })
}
