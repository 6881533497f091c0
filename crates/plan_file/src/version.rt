//! The versions of the format, and what they differ in.
ghost use Rattle.std.specs.Prelude.{◌≡◌, if◌then◌else◌, None, Some};
ghost use Rattle.plan_file.specs.Reading.{is_version, last_flags, version_of};
ghost use Rattle.plan_file.specs.Spelling.{limit_of, version_number};

use lit_base::MAX_LITERALS;

/// A version of the format.
#[derive(Clone, Copy, Debug, PartialEq, Eq)]
pub enum Version {
    /// Eight buckets and up to 1,024 literals. This version is read, and no longer written.
    One,
    /// Eight or sixteen buckets and up to 4,096 literals.
    Two,
}

impl Version {
    /// The version with this number, if there is one.
    pub fn of(number: u16) -> Option<Version>
        ensures { result ≡ (if is_version number then Some (version_of number) else None) }
    {
        match number {
            1 => Some(Version::One),
            2 => Some(Version::Two),
            _ => None,
        }
    }

    /// The number of the version in the head of a file.
    pub fn number(self) -> u16
        ensures { result ≡ version_number self }
    {
        match self {
            Version::One => 1,
            Version::Two => 2,
        }
    }

    /// The most literals of a plan.
    pub fn max_literals(self) -> usize
        ensures { result ≡ limit_of self }
    {
        match self {
            Version::One => 1024,
            Version::Two => MAX_LITERALS,
        }
    }

    /// The greatest flags of an entry. Version 2 added bit 1, the profile.
    pub fn last_flags(self) -> u8
        ensures { result ≡ last_flags self }
    {
        match self {
            Version::One => 1,
            Version::Two => 3,
        }
    }
}
