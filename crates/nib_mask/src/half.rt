//! The halves of a byte, which index the tables.

ghost use Rattle.std.specs.Prelude.{◌≡◌, ◌<◌};
ghost use Rattle.nib_mask.specs.FilterSet.{half_of};

/// The four bits of a byte that index a table.
#[derive(Clone, Copy, Debug, PartialEq, Eq)]
pub enum Half {
    /// The low four.
    Low,
    /// The high four.
    High,
}

/// These four bits of the byte, as a number below 16.
pub fn half_of(half: Half, byte: u8) -> u8
    ensures value { result ≡ half_of half byte }
    ensures bound { result < 16 }
{
    match half {
        Half::Low => byte & 15,
        Half::High => byte >> 4,
    }
}
