//! The types that C programs and the library share, besides handles and numbers.

/// Bytes of the caller.
#[repr(C)]
#[derive(Clone, Copy, Drop)]
pub struct Bytes<'a> {
    pub bytes: &'a [u8],
}

/// A literal that ends in a text.
#[repr(C)]
#[derive(Clone, Copy, Drop)]
pub struct FoundHit {
    /// Where it ends: the number of bytes of the text up to its end.
    pub end: u64,
    /// Its number in the plan.
    pub literal: u32,
    /// How many bytes it has.
    pub length: u32,
}

/// What a plan has.
#[repr(C)]
#[derive(Clone, Copy, Drop)]
pub struct PlanInfo {
    /// How many literals.
    pub literals: u64,
    /// How many bytes the longest of them has.
    pub longest: u64,
    /// The cost of its certificate.
    pub cost: u64,
    /// The flags that it was made with.
    pub flags: u32,
    /// How many runs: the buckets that it uses.
    pub runs: u32,
}
