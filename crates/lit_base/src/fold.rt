//! Folding: the bytes that a comparison takes for one.
ghost use Rattle.std.specs.Prelude.{◌≡◌, ◌↔◌, IsTrue};
ghost use Rattle.lit_base.specs.Folding.{folded, folded_text};
ghost use Rattle.lit_base.specs.declared.fold.Fold.TheVariants.{Ascii};

/// Which case differences a comparison ignores.
#[derive(Clone, Copy, Debug, PartialEq, Eq)]
pub enum Fold {
    /// None: every byte is compared as it is.
    No,
    /// The case of ASCII letters: `A` to `Z` stand for `a` to `z`.
    Ascii,
}

/// The byte without its case, as the fold says.
pub fn fold_byte(fold: Fold, byte: u8) -> u8
    ensures { result ≡ folded fold byte }
{
    match fold {
        Fold::No => byte,
        Fold::Ascii => byte.to_ascii_lowercase(),
    }
}

/// Whether the text without its case, as the fold says, is the literal.
pub(crate) fn equals_folded(fold: Fold, text: &[u8], literal: &[u8]) -> bool
    ensures { IsTrue result ↔ (folded_text fold text.now ≡ literal.now) }
{
    match fold {
        Fold::No => text == literal,
        Fold::Ascii => equals_lowercase(text, literal),
    }
}

/// Whether the text in small letters is the literal.
fn equals_lowercase(text: &[u8], literal: &[u8]) -> bool
    ensures { IsTrue result ↔ (folded_text Ascii text.now ≡ literal.now) }
{
    text.len() == literal.len()
        && text
            .iter()
            .zip(literal.iter())
            .all(|(byte, small)| fold_byte(Fold::Ascii, *byte) == *small)
}
