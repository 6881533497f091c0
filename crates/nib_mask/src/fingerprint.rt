//! The bytes of a literal at the three positions that the filter reads. Positions count from 0 to 2; position 2 is the
//! literal's last byte.

ghost use Rattle.std.specs.Prelude.{◌≡◌, ◌<◌, ◌==◌, true};
ghost use Rattle.nib_mask.specs.FilterSet.{capital, has_half, reaches};
ghost use Rattle.nib_mask.specs.Tables.{AreHalvesOf};

use crate::half::{Half, half_of};
use lit_base::Fold;

/// The capital of a small letter where the fold takes both for one, and else the byte itself.
pub fn capital(fold: Fold, byte: u8) -> u8
    ensures { result ≡ capital fold byte }
{
    match fold {
        Fold::No => byte,
        Fold::Ascii => byte.to_ascii_uppercase(),
    }
}

/// Whether the literal has a byte at the position.
pub fn reaches(position: usize, literal: &[u8]) -> bool
    requires { position < 3 }
    ensures { result ≡ reaches position literal.now }
{
    literal.len() + position >= 3
}

/// A bit for the half of the literal's byte at the position, and a bit for the same half of its capital.
pub fn halves_at(fold: Fold, position: usize, half: Half, literal: &[u8]) -> u16
    requires position { position < 3 }
    requires reached { reaches position literal.now ≡ true }
    ensures { AreHalvesOf result (λ value. has_half fold position half value literal.now) }
{
    let byte = literal[literal.len() + position - 3];
    bit_of(half_of(half, byte)) | bit_of(half_of(half, capital(fold, byte)))
}

/// The number whose only bit stands for a half.
fn bit_of(value: u8) -> u16
    requires { value < 16 }
    ensures { AreHalvesOf result (λ other. value == other) }
{
    1 << value
}
