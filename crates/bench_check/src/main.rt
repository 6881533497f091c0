//! How long the checker of certificates takes, compared with a plain pass over as many numbers as it has conditions;
//! and the planner, compared with the whole table of potentials. It prints nothing without arguments; `bench/README.md`
//! says how to run it.
#![tactic(auto)]

mod table;

use anyhow::{Context, Result, ensure};
use lit_base::{Fold, LitList, Profile, RawList, buckets};
use lit_cert::{Certificate, check};
use run_planner::plan;
use std::alloc::Global;
use std::env;
use std::rt::Clock;
use std::time::Instant;
use table::certificate_of;

/// How often each is measured, in turn. The least time counts.
const ROUNDS: u32 = 20;

fn main(rt: HostRuntime) -> Result<()> {
    let mut words = env::args(&rt)?.skip(1);
    let Some(word) = words.next() else {
        return Ok(());
    };
    let count = word
        .as_str()
        .parse::<u16>()
        .context("the number of literals")?;
    ensure!((1..=4096).contains(&count), "1 to 4096 literals");
    measure(&rt, count)
}

fn measure<R: Clock + Print + AllocGlobal>(rt: &R, count: u16) -> Result<()> {
    let list = list_of(rt.alloc(), count)?;
    measure_under(rt, &list, Profile::Eight)?;
    measure_under(rt, &list, Profile::Sixteen)
}

fn measure_under<R: Clock + Print + AllocGlobal>(
    rt: &R,
    list: &LitList,
    profile: Profile,
) -> Result<()> {
    let certificate = certificate_of(rt.alloc(), list, profile)?;
    measure_check(rt, list, &certificate)?;
    measure_plan(rt, list, &certificate)
}

fn measure_check<R: Clock + Print>(
    rt: &R,
    list: &LitList,
    certificate: &Certificate,
) -> Result<()> {
    let count = list.len() as u64;
    let rows = buckets(certificate.profile) as u64;
    let conditions = rows * count * count / 2;
    let turns = conditions / (certificate.potentials.len() as u64).max(1);
    let (mut checks, mut passes) = (u128::MAX, u128::MAX);
    for _ in 0..ROUNDS {
        let start = Instant::now(rt)?;
        ensure!(check(list, certificate).is_ok(), "the table is wrong");
        checks = checks.min(start.elapsed(rt)?.as_nanos());
        let start = Instant::now(rt)?;
        let sum = plain_pass(certificate, turns);
        passes = passes.min(start.elapsed(rt)?.as_nanos());
        ensure!(sum != 1, "a pass that is not left out");
    }
    println!(rt;
        "{count} literals, {rows} buckets, {conditions} conditions, the least of {ROUNDS} rounds"
    )?;
    println!(rt; "check {checks} ns, a plain pass over as many u64 {passes} ns")?;
    Ok(())
}

fn measure_plan<R: Clock + Print + AllocGlobal>(
    rt: &R,
    list: &LitList,
    certificate: &Certificate,
) -> Result<()> {
    let (mut plans, mut tables) = (u128::MAX, u128::MAX);
    for _ in 0..ROUNDS {
        let start = Instant::now(rt)?;
        let planned = plan(rt.alloc(), list, certificate.profile)?;
        plans = plans.min(start.elapsed(rt)?.as_nanos());
        ensure!(planned.cost == certificate.cost, "the table is wrong");
        let start = Instant::now(rt)?;
        let whole = certificate_of(rt.alloc(), list, certificate.profile)?;
        tables = tables.min(start.elapsed(rt)?.as_nanos());
        ensure!(whole.cost == certificate.cost, "the table is wrong");
    }
    println!(rt; "plan {plans} ns, the whole table {tables} ns")?;
    Ok(())
}

/// The potentials added up, so often.
fn plain_pass(certificate: &Certificate, turns: u64) -> u64 {
    let mut sum = 0u64;
    for turn in 0..turns {
        for number in &certificate.potentials {
            sum = sum.wrapping_add(*number ^ turn);
        }
    }
    sum
}

/// `count` different literals of two bytes.
fn list_of(alloc: Global, count: u16) -> Result<LitList> {
    let mut raw = RawList::new(alloc);
    for number in 0..count {
        raw.push(&number.to_be_bytes())?;
    }
    let list = LitList::normal_form(alloc, &raw, Fold::No)?;
    Ok(list)
}
