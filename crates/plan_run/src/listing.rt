//! Writing hits to standard output.
ghost use Rattle.std.specs.Prelude.{◌≡◌, ◌++◌, ◌∷◌, ◌||◌, [], IfOk, OnOk, Some, decimal, string_bytes};
ghost use Rattle.plan_run.specs.Listings.{hit_line, hit_lines, line_of, literal_line};
ghost use Rattle.plan_run.specs.Running.{Writes, is_write_fault};

use crate::reporting::report_bytes;
use crate::request::HitLine;
use crate::status::Status;
use crate::stop::Stop;
use byte_io::{ByteOut, push_number};
use lit_plan::Compiled;
use plan_view::push_literal;
use std::alloc::{AllocError, Global};
use text_ends::Hit;

/// How many hits are written at once.
const HITS_AT_ONCE: usize = 2048;

/// How many hits there are, as it is written.
pub fn counted(alloc: Global, count: u64) -> Result<String, AllocError>
    ensures { IfOk result (λ text. string_bytes text ≡ decimal count ++ 10 ∷ []) }
{
    format!(in alloc; "{count}\n")
}

/// Writes hits, a line each, as many at once as stand in one buffer.
pub fn report_lines<'a, W: ByteOut>(
    alloc: Global,
    compiled: &Compiled,
    line: HitLine,
    hits: &[Hit],
    out: &mut W,
) -> Result<Status, Stop<'a>>
    ensures text { Writes (hit_lines line compiled.now.literals hits.now) Status.Done result (W.written out.old) (W.written out.new) }
    ensures flag { W.has_failed out.new ≡ (W.has_failed out.old || is_write_fault result) }
{
    let mut text = Vec::new(alloc);
    let mut rest = hits;
    while !rest.is_empty() {
        let (part, after) = rest.split_at(rest.len().min(HITS_AT_ONCE));
        text.clear();
        push_hits(compiled, line, part, &mut text)?;
        report_bytes(text.as_slice(), Status::Done, out)?;
        rest = after;
    }
    Ok(Status::Done)
}

/// Appends the lines of hits.
fn push_hits(
    compiled: &Compiled,
    line: HitLine,
    hits: &[Hit],
    text: &mut Vec<u8>,
) -> Result<(), AllocError>
    ensures { OnOk result (text.new.items ≡ text.old.items ++ hit_lines line compiled.now.literals hits.now) }
{
    for hit in hits {
        push_line(compiled, line, *hit, text)?;
    }
    Ok(())
}

/// Appends the line of a hit of a plan, with its literal or without. A hit of another plan may have no literal.
fn push_line(
    compiled: &Compiled,
    line: HitLine,
    hit: Hit,
    text: &mut Vec<u8>,
) -> Result<(), AllocError>
    ensures { OnOk result (text.new.items ≡ text.old.items ++ line_of line compiled.now.literals hit) }
{
    match line {
        HitLine::End => push_hit(hit, text),
        HitLine::Literal => match compiled.literal_of(hit) {
            Some(literal) => push_literal_line(literal, hit, text),
            None => push_hit(hit, text),
        },
    }
}

/// Appends where a hit starts, and its literal.
fn push_literal_line(literal: &[u8], hit: Hit, text: &mut Vec<u8>) -> Result<(), AllocError>
    ensures { OnOk result (text.new.items ≡ text.old.items ++ literal_line (Some literal.now) hit) }
{
    push_number(u64::from(hit.lit), b' ', text)?;
    push_number(hit.end_at.saturating_sub(literal.len() as u64), b' ', text)?;
    push_literal(literal, text)?;
    text.push(b'\n')?;
    Ok(())
}

/// Appends the line of a hit.
fn push_hit(hit: Hit, text: &mut Vec<u8>) -> Result<(), AllocError>
    ensures { OnOk result (text.new.items ≡ text.old.items ++ hit_line hit) }
{
    push_number(u64::from(hit.lit), b' ', text)?;
    push_number(hit.end_at, b'\n', text)
}
