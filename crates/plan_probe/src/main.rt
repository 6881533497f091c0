//! Prints for each plan file that is named, `-` being standard input, the result of reading it. For plans that is a
//! line `ok` with the number of plans and, for each, its fold, its profile, its number of literals, its cost and its
//! digest; then `written` with the length and the digest of the file that they are written to. For a fault it is the
//! place and the cause of the first.
#![tactic(auto)]

ghost use Rattle.std.specs.Prelude.{◌≤◌, length};

mod digest;

use anyhow::{Result, anyhow};
use byte_io::{CutOut, SystemFiles, open_operand};
use digest::{digest_of, digest_of_bytes};
use lit_plan::Compiled;
use plan_file::{Cause, Fault, encode, read_plans, write_plans};
use std::alloc::Global;
use std::env;

fn main(rt: HostRuntime) -> Result<()> {
    let mut files = SystemFiles::new(&rt, rt.stdin());
    for name in env::args(&rt)?.skip(1) {
        let Ok(mut input) = open_operand(&mut files, &name) else {
            return Err(anyhow!("{name} cannot be opened"));
        };
        match read_plans(rt.alloc(), &mut input) {
            Ok(plans) => print_read(&rt, rt.alloc(), &plans)?,
            Err(Fault::BadPlanFile { place, cause }) => print_fault(&rt, place, cause)?,
            Err(fault) => return Err(fault.into()),
        }
    }
    Ok(())
}

/// Prints the plans that were read, and the file that they are written to.
fn print_read<R: Print>(rt: &R, alloc: Global, plans: &[Compiled]) -> Result<()>
    requires { length plans.now ≤ 64 }
{
    let text = encode(alloc, plans)?;
    if !is_written(alloc, plans, &text)? {
        return Err(anyhow!("a device is given other bytes"));
    }
    print_plans(rt, plans)?;
    println!(rt; " written {} {:x}", text.len(), digest_of_bytes(&text))?;
    Ok(())
}

/// Whether a device is given these bytes where the plans are written to it.
fn is_written(alloc: Global, plans: &[Compiled], text: &[u8]) -> Result<bool, Fault>
    requires { length plans.now ≤ 64 }
{
    let mut space = vec![in alloc; 0u8; text.len()]?;
    let mut out = CutOut::within(&mut space);
    write_plans(alloc, plans, &mut out)?;
    Ok(out.written() == text)
}

fn print_plans<R: Print>(rt: &R, plans: &[Compiled]) -> Result<()> {
    print!(rt; "ok {}", plans.len())?;
    for plan in plans {
        let (list, certificate) = (plan.list(), plan.certificate());
        let (fold, profile) = (list.fold(), certificate.profile);
        let (count, cost, digest) = (list.len(), certificate.cost, digest_of(plan));
        print!(rt; " {fold:?} {profile:?} {count} {cost} {digest:x}")?;
    }
    Ok(())
}

fn print_fault<R: Print>(rt: &R, place: usize, cause: Cause) -> Result<()> {
    match cause {
        Cause::NotCertified { reason } => println!(rt; "{place} NotCertified {reason}")?,
        _ => println!(rt; "{place} {cause:?}")?,
    }
    Ok(())
}
