//! The buckets of a plan.
ghost use Rattle.std.specs.Prelude.{◌≡◌, ℕ, ◌≤◌, All, length};
ghost use Rattle.lit_base.specs.Cuts.{CutsFrom};
ghost use Rattle.plan_view.specs.Buckets.{IsBucket, buckets_of};

use arrayvec::ArrayVec;
use lit_base::{Ends, MAX_BUCKETS};

/// A bucket of a plan.
#[derive(Clone, Copy, Debug, Default)]
pub struct Bucket {
    /// Its number, from 0.
    pub number: usize,
    /// The place of its first literal in the list.
    pub start: usize,
    /// The place after its last literal.
    pub end: usize,
}

/// The buckets of a cut, in order.
pub fn buckets_of(ends: &Ends) -> ArrayVec<Bucket, MAX_BUCKETS>
    requires { length ends.now.items ≤ 16 }
    ensures value { result.items ≡ buckets_of ends.now.items }
    ensures each { (n : ℕ) → CutsFrom n 0 ends.now.items → All (IsBucket n) result.items }
{
    let mut buckets = ArrayVec::new();
    let mut start = 0;
    for end in ends.as_slice() {
        let end = usize::from(*end);
        buckets.push(Bucket {
            number: buckets.len(),
            start,
            end,
        });
        start = end;
    }
    buckets
}
