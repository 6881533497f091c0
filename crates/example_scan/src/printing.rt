//! From hits to the lines printed of them.
ghost use Rattle.std.specs.Prelude.{◌≡◌, ◌++◌, OnOk};
ghost use Rattle.example_scan.specs.Lines.{hit_line, hit_lines, line_text};

use anyhow::{Result, bail};
use byte_io::push_number;
use flow_scan::{Compiled, Hit};
use std::alloc::AllocError;

/// Appends the lines of hits that a scan by the plan found. `lines` has a pattern's line for each literal.
pub fn push_hits(plan: &Compiled, lines: &[u64], hits: &[Hit], text: &mut Vec<u8>) -> Result<()>
    ensures { OnOk result (text.new.items ≡ text.old.items ++ hit_lines plan.now.literals lines.now hits.now) }
{
    for hit in hits {
        push_hit(plan, lines, *hit, text)?;
    }
    Ok(())
}

/// Appends the line of one of them.
#[tactic(auto, using(crate::proofs::LineLemmas::line_is))]
fn push_hit(plan: &Compiled, lines: &[u64], hit: Hit, text: &mut Vec<u8>) -> Result<()>
    ensures { OnOk result (text.new.items ≡ text.old.items ++ hit_line plan.now.literals lines.now hit) }
{
    let (Some(start), Some(literal)) = (plan.start_of(hit), plan.literal_of(hit)) else {
        bail!("a hit of another plan");
    };
    let line = lines.get(usize::from(hit.lit)).copied().unwrap_or(0);
    push_line(start, literal, line, text)?;
    Ok(())
}

/// Appends where an occurrence starts, its literal, and the line of the pattern.
fn push_line(start: u64, literal: &[u8], line: u64, text: &mut Vec<u8>) -> Result<(), AllocError>
    ensures { OnOk result (text.new.items ≡ text.old.items ++ line_text start literal.now line) }
{
    push_number(start, b' ', text)?;
    text.extend_from_slice(literal)?;
    text.push(b' ')?;
    push_number(line, b'\n', text)
}
