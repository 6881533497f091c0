//! What a certificate shows.
ghost use Rattle.std.specs.Prelude.{◌≡◌, ◌↔◌, IfOk, IsErrOf};
ghost use Rattle.lit_base.specs.Assignments.{NoAssignmentBelow, assign_price, assignment_of};
ghost use Rattle.lit_base.specs.Literals.{lengths};
ghost use Rattle.lit_base.specs.Profiles.{buckets};
ghost use Rattle.lit_cert.specs.Certified.{IsFirstFailure};
ghost use Rattle.lit_cert.specs.declared.reason.Reason.{Reason};

use anyhow::Result;
use byte_io::FromRead;
use lit_base::{Fold, LitList, RawList};
use lit_cert::{Certificate, Reason, check, read_cert};
use std::fs;
use std::fs::File;

/// The literals of a file of patterns, and the certificate in another file.
pub fn read<R: std::rt::Files + AllocGlobal>(
    rt: &R,
    patterns: &str,
    certificate: &str,
) -> Result<(LitList, Certificate)> {
    let mut raw = RawList::new(rt.alloc());
    raw.add_file_bytes(fs::read(rt, patterns)?.as_slice())?;
    let list = LitList::normal_form(rt.alloc(), &raw, Fold::No)?;
    let mut input = FromRead::new(File::open(rt, certificate)?);
    Ok((list, read_cert(rt.alloc(), &mut input)?))
}

/// What the cheapest grouping of the literals costs, if the certificate shows it: whoever made it need not be trusted,
/// nor what he planned with. Else the first condition of the check that fails.
pub fn least_cost(list: &LitList, certificate: &Certificate) -> Result<u64, Reason>
    // No assignment of the literals to at most as many buckets as the certificate's profile has costs less, and the
    // certificate's runs cost just that.
    ensures least { IfOk result (NoAssignmentBelow (buckets certificate.now.profile) list.now) }
    ensures reached { IfOk result (λ cost. assign_price (buckets certificate.now.profile) (lengths list.now) (assignment_of certificate.now.ends) ≡ cost) }
    ensures refused { (reason : Reason) → IsErrOf result reason ↔ IsFirstFailure list.now certificate.now reason }
{
    check(list, certificate)?;
    Ok(certificate.cost)
}
