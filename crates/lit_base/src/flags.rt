//! The flags by which plan files, frames and the C library name a fold and a profile.
ghost use Rattle.std.specs.Prelude.{◌≡◌, ◌≢◌, IfNone, IfSome};
ghost use Rattle.lit_base.specs.Flags.{flags_of, fold_of, profile_of};
ghost use Rattle.lit_base.specs.declared.fold.Fold.{Fold};
ghost use Rattle.lit_base.specs.declared.profile.Profile.{Profile};

use crate::fold::Fold;
use crate::profile::Profile;

/// The flags of a fold, bit 0, and a profile, bit 1.
pub fn flags_of(fold: Fold, profile: Profile) -> u8
    ensures { result ≡ flags_of fold profile }
{
    match (fold, profile) {
        (Fold::No, Profile::Eight) => 0,
        (Fold::Ascii, Profile::Eight) => 1,
        (Fold::No, Profile::Sixteen) => 2,
        (Fold::Ascii, Profile::Sixteen) => 3,
    }
}

/// The fold and the profile in the flags; `None` if another bit is set.
pub fn fold_and_profile(flags: u8) -> Option<(Fold, Profile)>
    ensures found { IfSome result (λ x. flags_of x.0 x.1 ≡ flags) }
    ensures none { IfNone result ((fold : Fold) (profile : Profile) → flags_of fold profile ≢ flags) }
{
    match flags {
        0 => Some((Fold::No, Profile::Eight)),
        1 => Some((Fold::Ascii, Profile::Eight)),
        2 => Some((Fold::No, Profile::Sixteen)),
        3 => Some((Fold::Ascii, Profile::Sixteen)),
        _ => None,
    }
}

/// The fold in the flags, whatever their other bits are.
pub fn fold_of(flags: u8) -> Fold
    ensures { result ≡ fold_of flags }
{
    if flags % 2 == 0 {
        Fold::No
    } else {
        Fold::Ascii
    }
}

/// The profile in flags of at most 3; greater ones count as sixteen buckets.
pub fn profile_of(flags: u8) -> Profile
    ensures { result ≡ profile_of flags }
{
    if flags < 2 {
        Profile::Eight
    } else {
        Profile::Sixteen
    }
}
