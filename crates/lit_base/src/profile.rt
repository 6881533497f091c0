//! How many buckets a plan may have.
ghost use Rattle.std.specs.Prelude.{◌≡◌, ◌≤◌};
ghost use Rattle.lit_base.specs.Profiles.{buckets};

/// How many buckets a plan may have.
#[derive(Clone, Copy, Debug, PartialEq, Eq)]
pub enum Profile {
    /// Eight.
    Eight,
    /// Sixteen.
    Sixteen,
}

/// The number of buckets that a plan of the profile may have.
pub fn buckets(profile: Profile) -> usize
    ensures value { result ≡ buckets profile }
    ensures some { 8 ≤ result }
    ensures few { result ≤ 16 }
{
    match profile {
        Profile::Eight => 8,
        Profile::Sixteen => 16,
    }
}
