//! Patterns whose literal an earlier pattern has.
ghost use Rattle.std.specs.Prelude.{◌≡◌, ◌<◌, ◌++◌, IfOk, IfSome, OnOk, Some, length};
ghost use Rattle.plan_view.specs.Repeats.{earlier, first_with, nulls, repeat_at, repeats};

use std::alloc::{AllocError, Global};

/// A pattern whose literal an earlier pattern has. Lines count from 1.
#[derive(Clone, Copy, Debug)]
pub struct Repeat {
    /// The line of the pattern.
    pub line: usize,
    /// The line of the first pattern with this literal.
    pub first_line: usize,
}

/// The patterns whose literal an earlier one has, in order; each pattern is known by the place of its literal. It
/// compares each pattern with all before it.
#[tactic(auto, using(crate::proofs::Ranges::repeats_more, crate::proofs::Ranges::no_repeats))]
pub fn repeats(alloc: Global, places: &[Option<u16>]) -> Result<Vec<Repeat>, AllocError>
    ensures { IfOk result (λ found. found.items ≡ repeats places.now (length places.now)) }
{
    let mut found = Vec::new(alloc);
    for later in 0..places.len() {
        push_repeat(places, later, &mut found)?;
    }
    Ok(found)
}

/// Appends a pattern, with the first before it that has the same literal, if there is one.
fn push_repeat(
    places: &[Option<u16>],
    later: usize,
    found: &mut Vec<Repeat>,
) -> Result<(), AllocError>
    requires { later < length places.now }
    ensures { OnOk result (found.new.items ≡ found.old.items ++ repeat_at later (earlier places.now later)) }
{
    if let Some(first) = earlier(places, later) {
        found.push(Repeat {
            line: later + 1,
            first_line: first + 1,
        })?;
    }
    Ok(())
}

/// The first pattern before another that has the same literal.
fn earlier(places: &[Option<u16>], later: usize) -> Option<usize>
    requires { later < length places.now }
    ensures value { result ≡ earlier places.now later }
    ensures before { IfSome result (λ first. first < later) }
{
    let (before, _) = places.split_at(later);
    match places[later] {
        Some(place) => first_with(before, place),
        None => None,
    }
}

/// The first of the patterns with this literal.
fn first_with(patterns: &[Option<u16>], place: u16) -> Option<usize>
    ensures value { result ≡ first_with (Some (Some place)) patterns.now }
    ensures within { IfSome result (λ first. first < length patterns.now) }
{
    patterns.iter().position(|other| *other == Some(place))
}

/// How many patterns are null.
pub fn nulls(places: &[Option<u16>]) -> usize
    ensures { result ≡ nulls places.now }
{
    places.iter().filter(|place| place.is_none()).count()
}
