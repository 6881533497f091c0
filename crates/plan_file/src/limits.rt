//! The numbers that the format names.
ghost use Rattle.std.specs.Prelude.{◌≡◌};

use lit_base::{MAX_BUCKETS, MAX_LIST_LEN, MAX_LITERALS};

/// The four bytes that a file begins with: `LPLF`.
pub const MAGIC: u32 = 0x4C50_4C46;

/// Plans in a file, at most.
pub const MAX_PLANS: usize = 64;

/// The law of the limit: `MAX_PLANS` is 64.
pub fn limits_law()
    ensures { MAX_PLANS ≡ 64 }
{}

/// Bytes of the literals of a plan, at most: each stands after its length, which has two.
const MOST_LITERAL_BYTES: usize = 2 * MAX_LITERALS + MAX_LIST_LEN;

/// Bytes of the certificate of a plan, at most: two for each end, eight of the cost, and eight for each potential.
const MOST_CERTIFICATE_BYTES: usize = 2 * MAX_BUCKETS + 8 + 8 * MAX_LITERALS * MAX_BUCKETS;

/// Bytes of a file, at most: 101,190,408. It has 8 of its head, and each plan has 4 of flags and counts besides its
/// literals and its certificate.
pub const MAX_FILE_LEN: usize = 8 + MAX_PLANS * (4 + MOST_LITERAL_BYTES + MOST_CERTIFICATE_BYTES);
