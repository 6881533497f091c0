//! How many endings of three bytes a bucket's filter lets pass.
ghost use Rattle.std.specs.Prelude.{◌≡◌, ◌<◌, ◌≤◌, ℕ, List};
ghost use Rattle.std.specs.Int.{bit_at};
ghost use Rattle.lit_base.specs.Literals.{Literals};
ghost use Rattle.nib_mask.specs.Candidates.{GivesFilterSets};
ghost use Rattle.nib_mask.specs.Tables.{value_at};
ghost use Rattle.plan_view.specs.Endings.{endings};
ghost use Rattle.plan_view.specs.Sums.{sum_below};

use nib_mask::{Masks, value_at};

/// How many of the 2^24 endings have the bucket in their filter set, by the tables that give these sets.
pub fn endings(masks: &Masks, bucket: usize) -> u64
    requires { bucket < 16 }
    ensures { (l : Literals) (ends : List ℕ) → GivesFilterSets l ends masks.now → result ≡ endings l ends bucket }
{
    kept(masks, 0, bucket) * kept(masks, 1, bucket) * kept(masks, 2, bucket)
}

/// How many bytes the tables of a position keep for a bucket.
#[tactic(auto, using(crate::proofs::Ranges::sum_more, crate::proofs::Ranges::sum_none))]
fn kept(masks: &Masks, position: usize, bucket: usize) -> u64
    requires position { position < 3 }
    requires bucket { bucket < 16 }
    ensures value { result ≡ sum_below 256 (λ byte. bit_at (value_at masks.now position byte) bucket) }
    ensures bound { result ≤ 256 }
{
    let mut count = 0;
    for byte in 0..256_u16 {
        count += u64::from(bit_of(value_at(masks, position, byte as u8), bucket));
    }
    count
}

/// A bit of a number.
fn bit_of(number: u16, bucket: usize) -> u16
    requires { bucket < 16 }
    ensures value { result ≡ bit_at number bucket }
    ensures bound { result ≤ 1 }
{
    number >> bucket & 1
}
