//! What searches by factors and by shift-or count for their work, in tenths of a nanosecond.
use crate::factors::{FOURS, index_of, sample_of};
use factor_search::Factors;
use lit_base::Fold;
use shift_search::ShiftOr;
use std::alloc::{AllocError, Global};
use std::test::Fail;
use text_ends::{EndRate, Tally};

/// The cost of a search by shift-or before it is tuned, of 1,024 bytes with three false positives and the ends found.
fn cost_by_shift_or(alloc: Global, found: EndRate) -> Result<usize, AllocError> {
    let index = index_of(alloc, Fold::No, &FOURS).ok_or(AllocError)?;
    Ok(ShiftOr::new(alloc, index)?.cost_of(1024, 3, found))
}

#[test]
fn counts_false_positives_and_ends_by_shift_or(rt: HostRuntime) -> Result<(), Fail> {
    let alloc = rt.alloc();
    // Probes at each position take 4,300. A false positive takes 100 in a text without ends.
    assert_eq!(rt; cost_by_shift_or(alloc, EndRate::nothing())?, 4600);
    // With ends so close it takes 190. An end takes 300 in a scan, and 190 as a new start.
    assert_eq!(rt; cost_by_shift_or(alloc, EndRate::of_scan(2))?, 5470);
    assert_eq!(rt; cost_by_shift_or(alloc, EndRate::of_searches(2))?, 5250);
    Ok(())
}

/// Counters of a search in which two positions passed the masks, and two had a hash bit.
fn two_of_each() -> Tally {
    let mut tally = Tally::nothing();
    tally.pass(0b11);
    tally.pending(0b11);
    tally
}

/// The cost of a search by factors of 1,024 bytes, with these counters and new starts.
fn cost_by_factors(alloc: Global, tally: Tally, found: EndRate) -> Result<usize, AllocError> {
    let index = index_of(alloc, Fold::No, &[b"abcdxyzt"]).ok_or(AllocError)?;
    Ok(Factors::new(alloc, index)?.cost_of(1024, tally, found))
}

#[test]
fn counts_positions_that_pass_the_masks(rt: HostRuntime) -> Result<(), Fail> {
    let (alloc, nothing) = (rt.alloc(), EndRate::nothing());
    // The masks take 1,536.
    assert_eq!(rt; cost_by_factors(alloc, Tally::nothing(), nothing)?, 1536);
    // A position takes 20, its probe 10, and its block 60. A hash bit takes 250.
    assert_eq!(rt; cost_by_factors(alloc, two_of_each(), nothing)?, 2216);
    // A new start takes 500.
    let starts = EndRate::of_searches(3);
    assert_eq!(rt; cost_by_factors(alloc, two_of_each(), starts)?, 3716);
    Ok(())
}

/// The estimate of a search by factors for a literal of one byte. One of four bytes of the sample is this byte.
fn estimate_by_factors(alloc: Global, found: EndRate) -> Result<usize, AllocError> {
    let index = index_of(alloc, Fold::No, &[b"z"]).ok_or(AllocError)?;
    let mut factors = Factors::new(alloc, index)?;
    let sample = sample_of(alloc, *b"xyzt").ok_or(AllocError)?;
    Ok(factors.tune(&sample, found))
}

#[test]
fn estimates_what_a_sample_lets_pass(rt: HostRuntime) -> Result<(), Fail> {
    let alloc = rt.alloc();
    // 256 of 1,024 positions pass: each takes 20, and its probes by four widths 40. Each of 18 blocks takes 60.
    let cost = estimate_by_factors(alloc, EndRate::nothing())?;
    assert_eq!(rt; cost, 1536 + 256 * 60 + 18 * 60);
    // A new start takes 900.
    let with_starts = estimate_by_factors(alloc, EndRate::of_searches(2))?;
    assert_eq!(rt; with_starts, 1536 + 256 * 60 + 18 * 60 + 2 * 900);
    Ok(())
}
