//! The certificate of an entry.
ghost use Rattle.std.specs.Prelude.{◌≤◌};
ghost use Rattle.std.specs.Int.{w16, w64};
ghost use Rattle.lit_base.specs.declared.limits.TheConstants.{MAX_LITERALS};
ghost use Rattle.plan_file.specs.Faults.{Gives};
ghost use Rattle.plan_file.specs.Reading.{certificate_at, numbers_at};

use crate::fault::{Cause, Stop, stop_at};
use crate::fields::{first_byte, first_u16, first_u64};
use lit_base::{Ends, Profile, buckets};
use lit_cert::Certificate;
use std::alloc::Global;

/// `count` ends, and the bytes after them.
fn first_ends(count: usize, bytes: &[u8]) -> Result<(Ends, &[u8]), Stop>
    requires { count ≤ 16 }
    ensures { Gives (λ x. (x.0.items, x.1.now)) result (numbers_at w16 count bytes.now) }
{
    let mut ends = Ends::new();
    let mut rest = bytes;
    for _ in 0..count {
        let (end, after) = first_u16(rest)?;
        ends.push(end);
        rest = after;
    }
    Ok((ends, rest))
}

/// `count` potentials, and the bytes after them. Room grows as they come, whatever their number.
fn first_potentials(alloc: Global, count: usize, bytes: &[u8]) -> Result<(Vec<u64>, &[u8]), Stop>
    ensures { Gives (λ x. (x.0.items, x.1.now)) result (numbers_at w64 count bytes.now) }
{
    let mut potentials = Vec::new(alloc);
    let mut rest = bytes;
    for _ in 0..count {
        let (potential, after) = first_u64(rest)?;
        potentials.push(potential)?;
        rest = after;
    }
    Ok((potentials, rest))
}

/// The certificate at the start, of the profile and for `count` literals, and the bytes after it. `Err` has the first
/// fault of its fields, or says that memory is short.
#[tactic(auto, unfolding(crate::specs::Reading::certificate_at))]
pub fn first_certificate(
    alloc: Global,
    profile: Profile,
    count: usize,
    bytes: &[u8],
) -> Result<(Certificate, &[u8]), Stop>
    requires { count ≤ MAX_LITERALS }
    ensures { Gives (λ x. (x.0, x.1.now)) result (certificate_at profile count bytes.now) }
{
    let (runs, rest) = first_byte(bytes)?;
    let runs = usize::from(runs);
    let most = buckets(profile);
    if runs < 1 || runs > most {
        return Err(stop_at(bytes, Cause::Runs));
    }
    let (ends, rest) = first_ends(runs, rest)?;
    let (cost, rest) = first_u64(rest)?;
    let (potentials, rest) = first_potentials(alloc, most * count, rest)?;
    let certificate = Certificate {
        profile,
        ends,
        cost,
        potentials,
    };
    Ok((certificate, rest))
}
