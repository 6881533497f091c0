//! How the lines of a text are emitted. Where hits are rare, only lines that are emitted or hold a literal are split.
ghost use Rattle.std.specs.Prelude.{◌≡◌, ◌≢◌, ◌≤◌, ◌<◌, ◌+◌, ◌^◌, [], IfOk, false, length, true};
ghost use Rattle.lit_base.specs.Lines.{ended_lines, open_rest};
ghost use Rattle.lit_base.specs.Selected.{is_selected, matches};
ghost use Rattle.line_pick.specs.Emitting.{Emitted, answer_of, as_numbered, numbered};
ghost use Rattle.line_pick.specs.Matching.{IsByPlan, picks};

use crate::emitting::{emit_if, emit_lines};
use crate::fault::Fault;
use crate::halt::Halt;
use crate::matcher::{LineRule, LineSearch, Matcher, is_literal};
use crate::sink::Sink;
use crate::tuning::{HIT_BYTES, MOST_HITS_IN_A_ROW, MOST_SEARCHED_WHOLE, SHORT_LINE_HIT_BYTES};
use crate::whole_lines::WholeLines;
use lit_plan::Compiled;
use text_lines::{HitLines, count_newlines, has_short_lines};

/// Emits the selected lines among those that a newline ends in the text, by the method that should take less time.
/// Returns how many lines there are by its end, if they are numbered; `before` lines stand before it. Without numbers,
/// lines that are passed over are not counted.
pub(crate) fn emit_text<S: Sink>(
    search: &mut LineSearch<'_>,
    text: &[u8],
    before: u64,
    is_numbered: bool,
    sink: &mut S,
) -> Result<u64, Halt>
    requires plan { IsByPlan search.old }
    requires fits { before + length text.now < 2 ^ 64 }
    requires closed { open_rest text.now ≡ [] }
    ensures same { search.new ≡ search.old }
    ensures emitted { Emitted (as_numbered is_numbered S.takes) sink.old
        (numbered (picks search.old.matcher) before (ended_lines text.now)) (answer_of result) sink.new }
    ensures count { IfOk result (λ lines. is_numbered ≡ true → lines ≡ before + length (ended_lines text.now)) }
    ensures bound { IfOk result (λ lines. lines ≤ before + length text.now) }
    ensures faults { result ≢ Err (Halt.Failed Fault.StreamTooLong) }
{
    let matcher = search.matcher;
    if matcher.has_empty {
        if matcher.rule.whole {
            return emit_lines(matcher, None, text, before, sink);
        }
        return emit_all_if(!matcher.rule.invert, text, before, is_numbered, sink);
    }
    let Some(compiled) = matcher.plan else {
        return emit_all_if(matcher.rule.invert, text, before, is_numbered, sink);
    };
    let are_short = has_short_lines(text);
    if matcher.rule.whole && compiled.list().len() > MOST_SEARCHED_WHOLE && !are_short {
        return emit_whole_lines(compiled, matcher.rule, text, before, sink);
    }
    let hit_bytes = if are_short {
        SHORT_LINE_HIT_BYTES
    } else {
        HIT_BYTES
    };
    let mut hits = HitLines::new(compiled, search.finder.take(), text);
    let emitted = emit_hits(
        &mut hits,
        matcher.rule,
        hit_bytes,
        before,
        is_numbered,
        sink,
    );
    search.finder = hits.into_finder();
    emitted
}

/// Emits the selected lines by a search for hits: lines that hold a literal, under -x lines that are one, under -v the
/// others. Under -x a hit costs as much as splitting `hit_bytes` bytes; once hits cost too much, the rest is split line
/// by line.
fn emit_hits<S: Sink>(
    hits: &mut HitLines<'_>,
    rule: LineRule,
    hit_bytes: usize,
    before: u64,
    is_numbered: bool,
    sink: &mut S,
) -> Result<u64, Halt>
    requires { before + length hits.old.rest < 2 ^ 64 }
    ensures same { hits.new.finder ≡ hits.old.finder }
    ensures emitted { let list = hits.old.plan.literals in Emitted (as_numbered is_numbered S.takes) sink.old
        (numbered (is_selected list.folding rule.whole rule.invert list.texts) before (ended_lines hits.old.rest))
        (answer_of result) sink.new }
    ensures count { IfOk result (λ lines. is_numbered ≡ true → lines ≡ before + length (ended_lines hits.old.rest)) }
    ensures bound { IfOk result (λ lines. lines ≤ before + length hits.old.rest) }
    ensures faults { result ≢ Err (Halt.Failed Fault.StreamTooLong) }
{
    let compiled = hits.compiled();
    let mut lines = before;
    let mut credit = hit_bytes.saturating_mul(MOST_HITS_IN_A_ROW);
    while let Some(hit) = hits.next_line() {
        lines = emit_all_if(rule.invert, hit.missed, lines, is_numbered, sink)?;
        let selected = selects_at_hit(compiled, rule, hit.line);
        emit_if(selected, hit.line, lines, sink)?;
        lines += 1;
        credit = credit_after(hit_bytes, credit, hit.missed);
        if rule.whole && credit == 0 {
            return emit_whole_lines(compiled, rule, hit.after, lines, sink);
        }
    }
    emit_all_if(rule.invert, hits.rest(), lines, is_numbered, sink)
}

/// The credit after a hit under -x. It grows by the bytes that the search passed over, up to a bound, and falls by the
/// cost of a hit.
#[inline(always)]
fn credit_after(hit_bytes: usize, credit: usize, missed: &[u8]) -> usize {
    let gained = credit.saturating_add(missed.len());
    gained
        .min(hit_bytes.saturating_mul(MOST_HITS_IN_A_ROW))
        .saturating_sub(hit_bytes)
}

/// Emits the lines that are a literal, or under -v the others; each line is split and compared.
fn emit_whole_lines<S: Sink>(
    compiled: &Compiled,
    rule: LineRule,
    text: &[u8],
    before: u64,
    sink: &mut S,
) -> Result<u64, Halt>
    requires whole { rule.whole ≡ true }
    requires fits { before + length text.now < 2 ^ 64 }
    ensures emitted { let list = compiled.now.literals in Emitted S.takes sink.old
        (numbered (is_selected list.folding rule.whole rule.invert list.texts) before (ended_lines text.now))
        (answer_of result) sink.new }
    ensures count { IfOk result (λ lines. lines ≡ before + length (ended_lines text.now)) }
    ensures bound { IfOk result (λ lines. lines ≤ before + length text.now) }
    ensures faults { result ≢ Err (Halt.Failed Fault.StreamTooLong) }
{
    let matcher = Matcher {
        plan: Some(compiled),
        has_empty: false,
        rule,
    };
    let literals = WholeLines::new(compiled.index());
    emit_lines(matcher, Some(&literals), text, before, sink)
}

/// Whether a line that holds a literal is selected: under -x it may be more than the literal.
#[inline(always)]
fn selects_at_hit(compiled: &Compiled, rule: LineRule, line: &[u8]) -> bool
    requires { let list = compiled.now.literals in matches list.folding false list.texts line.now ≡ true }
    ensures { let list = compiled.now.literals in
        result ≡ is_selected list.folding rule.whole rule.invert list.texts line.now }
{
    if rule.whole {
        return is_literal(compiled.index(), line) != rule.invert;
    }
    !rule.invert
}

/// Emits all lines of the text if they are selected, and otherwise counts them, if they are numbered.
#[inline(always)]
fn emit_all_if<S: Sink>(
    selected: bool,
    text: &[u8],
    before: u64,
    is_numbered: bool,
    sink: &mut S,
) -> Result<u64, Halt>
    requires { before + length text.now < 2 ^ 64 }
    ensures emitted { Emitted (as_numbered is_numbered S.takes) sink.old
        (numbered (λ _. selected) before (ended_lines text.now)) (answer_of result) sink.new }
    ensures count { IfOk result (λ lines. is_numbered ≡ true → lines ≡ before + length (ended_lines text.now)) }
    ensures bound { IfOk result (λ lines. lines ≤ before + length text.now) }
    ensures faults { result ≢ Err (Halt.Failed Fault.StreamTooLong) }
{
    if selected {
        emit_lines(Matcher::each_line(), None, text, before, sink)
    } else if is_numbered {
        Ok(before + count_newlines(text) as u64)
    } else {
        Ok(before)
    }
}
