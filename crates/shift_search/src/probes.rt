//! The state of a search by shift-or.

ghost use Rattle.std.specs.Prelude.{◌≡◌, ◌↔◌, ℕ, ◌+◌, ◌*◌, ◌<◌, ◌≤◌};
ghost use Rattle.std.specs.Int.{bit_at};

use lane_filter::from_bit;

/// The result of probes at eight positions in a row. Bit `8 * ahead + bucket` of a word stands for an end of the bucket
/// `ahead` positions after the first.
#[derive(Clone, Copy, Debug)]
pub(crate) struct Probes {
    /// The first of the positions.
    pub at: usize,
    /// The ends there that are not ruled out.
    pub unruled: u64,
    /// The ends that are ruled out at the eight positions after them.
    pub carried: u64,
}

/// An end, the first literal that ends there, and the state of a search after it.
#[derive(Clone, Copy)]
pub(crate) struct Verified {
    pub end: usize,
    pub first: usize,
    pub probes: Probes,
}

/// The bits of ends more than `ahead` positions after the first.
pub(crate) fn bits_after(bits: u64, ahead: usize) -> u64
    requires { ahead < 8 }
    ensures { (k : ℕ) → (bit_at result k ≡ 1) ↔ ((8 * ahead + 8 ≤ k) × (bit_at bits k ≡ 1)) }
{
    if ahead == 7 {
        0
    } else {
        from_bit(bits, 8 * ahead + 8)
    }
}
