//! A certificate by the plain table: every potential from every run that begins at its place.
use arrayvec::ArrayVec;
use lit_base::{LitList, Profile, buckets, cost};
use lit_cert::Certificate;
use std::alloc::{AllocError, Global};

/// What the run from `start` up to `end` costs; far more than any where there is no such run.
fn run_cost(list: &LitList, start: usize, end: usize) -> u64 {
    if start < end && end <= list.len() && end - start <= 4096 {
        return cost(end - start, list.get(start).len());
    }
    u64::MAX
}

/// The potential of a place by the row before, or by one run where there is none.
fn potential(list: &LitList, before: &[u64], start: usize) -> u64 {
    let mut least = run_cost(list, start, list.len());
    for (end, after) in before.iter().enumerate() {
        if end > start {
            least = least.min(run_cost(list, start, end).saturating_add(*after));
        }
    }
    least
}

/// The rows of potentials, one after the other.
fn potentials(alloc: Global, list: &LitList, profile: Profile) -> Result<Vec<u64>, AllocError> {
    let mut all = Vec::new(alloc);
    let mut before: Vec<u64> = Vec::new(alloc);
    for _ in 0..buckets(profile) {
        let mut row = Vec::new(alloc);
        for start in 0..list.len() {
            row.push(potential(list, &before, start))?;
        }
        all.extend_from_slice(&row)?;
        before = row;
    }
    Ok(all)
}

/// The first end at which a run and what stands after it reach the potential.
fn reached(list: &LitList, before: &[u64], start: usize, potential: u64) -> usize {
    for (end, after) in before.iter().enumerate() {
        if end > start && run_cost(list, start, end).saturating_add(*after) == potential {
            return end;
        }
    }
    list.len()
}

/// A certificate of the list.
pub fn certificate_of(
    alloc: Global,
    list: &LitList,
    profile: Profile,
) -> Result<Certificate, AllocError> {
    let count = list.len();
    let potentials = potentials(alloc, list, profile)?;
    let row = |r: usize| potentials
        .get(r * count..(r + 1) * count)
        .unwrap_or_default();
    let cost = row(buckets(profile) - 1).first().copied().unwrap_or(0);
    let mut ends = ArrayVec::new();
    let mut start = 0;
    for r in (0..buckets(profile)).rev() {
        let here = row(r).get(start).copied().unwrap_or(0);
        let before = if r == 0 { &[] } else { row(r - 1) };
        start = reached(list, before, start, here);
        let Ok(end) = u16::try_from(start) else {
            break;
        };
        if ends.try_push(end).is_err() || start >= count {
            break;
        }
    }
    Ok(Certificate {
        profile,
        ends,
        cost,
        potentials,
    })
}
