//! How a file of patterns is read.
ghost use Rattle.std.specs.Prelude.{◌≡◌};
ghost use Rattle.plan_pack.specs.Notations.{most_bytes};

use lit_base::{Fold, MAX_LIST_LEN, MAX_PATTERNS, MAX_TEXT_LEN};

/// How a line of a file writes a pattern.
#[derive(Clone, Copy, Debug, PartialEq, Eq)]
pub enum Notation {
    /// As its bytes.
    Bytes,
    /// In hexadecimal, two digits a byte.
    Hex,
}

impl Notation {
    /// How many bytes a file may have: all bytes of a list, and a newline for each pattern.
    pub fn max_text_len(self) -> usize
        ensures { result ≡ most_bytes self }
    {
        match self {
            Notation::Bytes => MAX_TEXT_LEN,
            Notation::Hex => 2 * MAX_LIST_LEN + MAX_PATTERNS,
        }
    }
}

/// How a file of patterns is read.
#[derive(Clone, Copy, Debug, PartialEq, Eq)]
pub struct Reading {
    /// How a line writes a pattern.
    pub notation: Notation,
    /// Which case differences are ignored.
    pub fold: Fold,
}
