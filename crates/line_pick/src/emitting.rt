//! How lines are emitted.
ghost use Rattle.std.specs.Prelude.{◌≡◌, ◌≢◌, ◌≤◌, ◌<◌, ◌+◌, ◌^◌, ◌∷◌, [], IfOk, IfSome, length};
ghost use Rattle.std.specs.Option.{option_copied};
ghost use Rattle.lit_base.specs.Lines.{ended_lines};
ghost use Rattle.line_pick.specs.Emitting.{Emitted, answer_of, numbered};
ghost use Rattle.text_lines.specs.Cutting.{StartsWith};
ghost use Rattle.line_pick.specs.Matching.{IsByPlan, StandsForWhole, picks};

use crate::fault::Fault;
use crate::halt::Halt;
use crate::matcher::{LineSearch, Matcher};
use crate::sink::{Next, Sink};
use crate::whole_lines::WholeLines;
use text_lines::{split_next_line, suits_masks};

/// Emits the selected lines among those that newlines end in the text. `before` lines stand before the text; returns
/// how many lines there are by its end. Under -x the literals, where they are given, rule out most lines by their first
/// byte and length.
pub(crate) fn emit_lines<S: Sink>(
    matcher: Matcher<'_>,
    literals: Option<&WholeLines<'_>>,
    text: &[u8],
    before: u64,
    sink: &mut S,
) -> Result<u64, Halt>
    requires fits { before + length text.now < 2 ^ 64 }
    requires literals { IfSome (option_copied literals) (StandsForWhole matcher) }
    ensures emitted { Emitted S.takes sink.old
        (numbered (picks matcher.entry) before (ended_lines text.now)) (answer_of result) sink.new }
    ensures count { IfOk result (λ lines. lines ≡ before + length (ended_lines text.now)) }
    ensures bound { IfOk result (λ lines. lines ≤ before + length text.now) }
    ensures faults { result ≢ Err (Halt.Failed Fault.StreamTooLong) }
{
    let by_masks = suits_masks(text);
    let mut rest = text;
    let mut newlines = 0;
    let mut lines = before;
    while let Some(cut) = split_next_line(rest, newlines, by_masks) {
        let selected = selects_next(matcher, literals, rest, cut.line);
        emit_if(selected, cut.line, lines, sink)?;
        rest = cut.after;
        newlines = cut.newlines;
        lines += 1;
    }
    Ok(lines)
}

/// Whether the first line of a text is selected.
#[inline(always)]
fn selects_next(
    matcher: Matcher<'_>,
    literals: Option<&WholeLines<'_>>,
    text: &[u8],
    line: &[u8],
) -> bool
    requires literals { IfSome (option_copied literals) (StandsForWhole matcher) }
    requires line { StartsWith text.now line.now }
    ensures { result ≡ picks matcher.entry line.now }
{
    match literals {
        Some(literals) => literals.has(text, line) != matcher.rule.invert,
        None => matcher.selects(line),
    }
}

/// Emits a line that came in several pieces, if it is selected. `before` lines stand before it.
pub(crate) fn emit_joined<S: Sink>(
    search: &mut LineSearch<'_>,
    line: &[u8],
    before: u64,
    sink: &mut S,
) -> Result<(), Halt>
    requires plan { IsByPlan search.old }
    requires fits { before + 1 < 2 ^ 64 }
    ensures same { search.new ≡ search.old }
    ensures emitted { Emitted S.takes sink.old
        (numbered (picks search.old.matcher) before (line.now ∷ [])) (answer_of result) sink.new }
    ensures faults { result ≢ Err (Halt.Failed Fault.StreamTooLong) }
{
    let selected = search.selects(line);
    emit_if(selected, line, before, sink)
}

/// Emits the line if it is selected, under the number that follows `before`.
#[inline(always)]
pub(crate) fn emit_if<S: Sink>(
    selected: bool,
    line: &[u8],
    before: u64,
    sink: &mut S,
) -> Result<(), Halt>
    requires { before + 1 < 2 ^ 64 }
    ensures emitted { Emitted S.takes sink.old
        (numbered (λ _. selected) before (line.now ∷ [])) (answer_of result) sink.new }
    ensures faults { result ≢ Err (Halt.Failed Fault.StreamTooLong) }
{
    if selected {
        emit(line, before + 1, sink)
    } else {
        Ok(())
    }
}

/// Emits the line under its number.
#[inline(always)]
fn emit<S: Sink>(line: &[u8], number: u64, sink: &mut S) -> Result<(), Halt>
    ensures taken { S.takes sink.old number line.now (answer_of result) sink.new }
    ensures faults { result ≢ Err (Halt.Failed Fault.StreamTooLong) }
{
    match sink.line(number, line) {
        Ok(Next::More) => Ok(()),
        Ok(Next::Stop) => Err(Halt::Stopped),
        Err(fault) => Err(Halt::Failed(fault)),
    }
}
