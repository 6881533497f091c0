//! The patterns of pattern lists and pattern files.
ghost use Rattle.std.specs.Prelude.{◌≡◌, ◌++◌, ◌∷◌, [], if◌then◌else◌};
ghost use Rattle.std.specs.Iterator.{YieldsFirstRef, item_count};
ghost use Rattle.lit_base.specs.Lines.{pieces, lines};
ghost use Rattle.lit_base.specs.Patterns.{patterns_of};

use crate::lines::Lines;

/// The patterns of a text, in order: its lines, and after them a null pattern where one is due.
#[derive(Clone, Copy)]
pub(crate) struct Patterns<'a> {
    lines: Lines<'a>,
    null_is_due: bool,
}

impl<'a> Patterns<'a> {
    /// The patterns of an option's list: the pieces between its newlines.
    pub fn of_list(text: &'a [u8]) -> Patterns<'a>
        ensures { patterns_of result ≡ pieces text.now }
    {
        Patterns {
            lines: Lines::new(text),
            null_is_due: ends_in_null(text),
        }
    }

    /// The patterns of a pattern file: its lines.
    pub fn of_file(text: &'a [u8]) -> Patterns<'a>
        ensures { patterns_of result ≡ lines text.now }
    {
        Patterns {
            lines: Lines::new(text),
            null_is_due: false,
        }
    }
}

impl<'a> Iterator for Patterns<'a> {
    type Item = &'a [u8];

    ghost next_gives = { YieldsFirstRef patterns_of };

    ghost remaining = { item_count patterns_of };

    fn next(&mut self) -> Option<&'a [u8]> {
        if let Some(line) = self.lines.next() {
            return Some(line);
        }
        if !self.null_is_due {
            return None;
        }
        self.null_is_due = false;
        Some(&[])
    }
}

/// Whether the last piece between newlines is null: the text is empty, or ends in a newline.
fn ends_in_null(text: &[u8]) -> bool
    ensures { pieces text.now ≡ lines text.now ++ (if result then [] ∷ [] else []) }
{
    text.is_empty() || text[text.len() - 1] == b'\n'
}
