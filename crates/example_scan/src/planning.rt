//! From patterns to a plan, and from literals back to patterns.
use anyhow::Result;
use flow_scan::Compiled;
use list_plan::compile;
use lit_base::{Fold, LitList, Normal, Profile, RawList};
use std::alloc::{AllocError, Global};

/// The plan of the patterns that are a file's lines, and for each of its literals the first line that asks for it.
pub fn plan_of(alloc: Global, file: &[u8]) -> Result<(Compiled, Vec<u64>)> {
    let mut raw = RawList::new(alloc);
    raw.add_file_bytes(file)?;
    // The scan searches for literals: the patterns in small letters, each once, by length and then by bytes.
    let (list, normal) = LitList::normal(alloc, &raw, Fold::Ascii)?;
    let lines = first_lines(alloc, list.len(), &normal)?;
    // The plan groups them, with a certificate that no grouping is cheaper.
    let plan = compile(alloc, list, Profile::Eight)?;
    Ok((plan, lines))
}

/// For each of `count` literals the first line that asks for it, counted from 1. A null pattern has no literal.
fn first_lines(alloc: Global, count: usize, normal: &Normal) -> Result<Vec<u64>, AllocError> {
    let mut lines = vec![in alloc; 0; count]?;
    let mut number = 0u64;
    for place in &normal.place_of {
        number = number.saturating_add(1);
        if let Some(place) = place {
            note(&mut lines, usize::from(*place), number);
        }
    }
    Ok(lines)
}

/// Notes the line of a literal, if none is noted.
fn note(lines: &mut [u64], place: usize, number: u64) {
    if let Some(line) = lines.get_mut(place) {
        if *line == 0 {
            *line = number;
        }
    }
}
