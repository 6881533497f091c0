//! What decides a line that no newline has ended yet, where nobody sees its bytes.
ghost use Rattle.std.specs.Prelude.{◌≡◌, ◌<◌, ◌≤◌, ◌+◌, ◌++◌, ℕ, List, All, IfSome, IsTrue, false, length, min, true};
ghost use Rattle.std.specs.Option.{option_copied};
ghost use Rattle.lit_base.specs.Selected.{matches};
ghost use Rattle.line_pick.specs.Matching.{IsByPlan, literals_of, picks};
ghost use Rattle.line_pick.specs.OpenLines.{IsDecided, IsDecidingPart, longest_in, longest_of, most_kept};

use crate::matcher::{LineSearch, Matcher};
use lit_plan::Compiled;
use text_search::{EndFinder, TextSearch, next_end_by};

/// A part of a text, between two positions.
#[derive(Drop)]
pub(crate) struct Part {
    pub start: usize,
    pub end: usize,
}

/// The part of an open line that decides it. Under -x it is a prefix that is longer than each pattern. Otherwise it is
/// the bytes before the first end of a literal. If no literal ends in the line, it is the last bytes, since a literal
/// that ends further on has no more bytes in the line so far.
pub(crate) fn deciding_part(search: &mut LineSearch<'_>, line: &[u8]) -> Part
    requires { IsByPlan search.old }
    ensures same { search.new ≡ search.old }
    ensures part { let matcher = search.old.matcher in
        IsDecidingPart (picks matcher) (longest_in (option_copied matcher.plan)) line.now result.start result.end }
{
    let matcher = search.matcher;
    if matcher.rule.whole {
        return prefix_longer(line, longest_with(matcher.plan));
    }
    if matcher.has_empty {
        return prefix_longer(line, 0);
    }
    match matcher.plan {
        Some(compiled) => hit_or_tail(compiled, &mut search.finder, line),
        None => prefix_longer(line, 0),
    }
}

/// Whether an open line is decided by its bytes so far: it is longer than each pattern under -x, or a literal ends at
/// its end.
pub(crate) fn is_decided(matcher: Matcher<'_>, line: &[u8]) -> bool
    ensures { IsTrue result → IsDecided (picks matcher.entry) line.now }
{
    if line.is_empty() {
        return false;
    }
    if matcher.rule.whole {
        return line.len() > longest_with(matcher.plan);
    }
    if matcher.has_empty {
        return true;
    }
    match matcher.plan {
        Some(compiled) => ends_with_literal(compiled, line),
        None => true,
    }
}

/// Whether an open line has few enough bytes to be kept as it is. So a line is cut only after as many new bytes as its
/// deciding part has.
pub(crate) fn is_short(matcher: Matcher<'_>, line: &[u8]) -> bool
    ensures { IsTrue result → length line.now ≤ most_kept (option_copied matcher.entry.plan) }
{
    line.len() / 2 <= longest_with(matcher.plan)
}

/// The length of the longest literal, if there is one, and else 0.
fn longest_with(plan: Option<&Compiled>) -> usize
    ensures value { result ≡ longest_in (option_copied plan.entry) }
    ensures greatest { All (λ t. length t ≤ result) (literals_of (option_copied plan.entry)) }
{
    match plan {
        Some(compiled) => compiled.list().longest(),
        None => 0,
    }
}

/// A prefix of a line that is one byte longer than the longest literal, or the line if it is no longer.
fn prefix_longer(line: &[u8], longest: usize) -> Part
    ensures start { result.start ≡ 0 }
    ensures end { result.end ≡ min (length line.now) (longest + 1) }
{
    let end = if line.len() > longest {
        longest + 1
    } else {
        line.len()
    };
    Part { start: 0, end }
}

/// The last bytes up to the first end of a literal in a line, or the last bytes of the line if there is none.
fn hit_or_tail(compiled: &Compiled, finder: &mut Option<EndFinder>, line: &[u8]) -> Part
    requires { IfSome finder.old (λ list. list ≡ compiled.now.literals) }
    ensures same { finder.new ≡ finder.old }
    ensures part { let list = compiled.now.literals in
        IsDecidingPart (matches list.folding false list.texts) (longest_of list) line.now result.start result.end }
{
    let list = compiled.list();
    list.normal_law();
    let longest = list.longest();
    let mut search = TextSearch::new(compiled, line);
    match next_end_by(finder, &mut search, 0) {
        Some(end) => Part {
            start: end.saturating_sub(longest),
            end,
        },
        None => Part {
            start: line.len().saturating_sub(longest.max(2) - 1),
            end: line.len(),
        },
    }
}

/// Whether some literal ends at the end of a line.
fn ends_with_literal(compiled: &Compiled, line: &[u8]) -> bool
    ensures { let list = compiled.now.literals in
        IsTrue result → (more : List ℕ) → matches list.folding false list.texts (line.now ++ more) ≡ true }
{
    let index = compiled.index();
    index.normal_law();
    index.first_ending(line, line.len()).is_some()
}
