//! Which lines are literals as a whole.
ghost use Rattle.std.specs.Prelude.{◌≡◌, ◌<◌, ℕ, false, length, slice_index_or, true};
ghost use Rattle.lit_base.specs.Selected.{matches};
ghost use Rattle.text_lines.specs.Cutting.{StartsWith};
ghost use Rattle.line_pick.specs.WholeLines.{HasStart, start_of};
ghost use Rattle.line_pick.specs.declared.whole_lines.TheConstants.{LENGTHS};

use crate::matcher::is_literal;
use list_index::ListIndex;
use lit_base::fold_byte;
use std::marker::Model;

/// The number of classes of lengths: all lengths from `LENGTHS - 1` on are one class.
const LENGTHS: usize = 16;

/// An entry for each length and each first byte.
const SIZE: usize = LENGTHS * 256;

/// The literals of a list as whole lines. A contract sees the literals.
#[derive(Drop)]
pub(crate) struct WholeLines<'p> {
    list: &'p ListIndex,
    /// Set for the length and the first byte of each literal. One look rules out most lines, and its branch is
    /// predicted: lengths of short lines, compared alone, are not.
    starts: [bool; SIZE],
}

impl<'p> Model for WholeLines<'p> {
    ghost use Rattle.lit_base.specs.Literals.{Literals};
    ghost use Rattle.line_pick.specs.WholeLines.{AreStartsOf};

    ghost Value = { Literals };

    ghost view = { λ w. w.list.now };

    ghost invariant = { λ w. AreStartsOf w.list.now w.starts };
}

impl<'p> WholeLines<'p> {
    /// The literals of a list.
    pub fn new(list: &'p ListIndex) -> WholeLines<'p>
        ensures { result ≡ list.now }
    {
        let mut starts = [false; SIZE];
        for place in 0..list.len() {
            note(&mut starts, list.get(place));
        }
        WholeLines { list, starts }
    }

    /// Whether the first line of a text is a literal.
    #[inline(always)]
    pub fn has(&self, text: &[u8], line: &[u8]) -> bool
        requires { StartsWith text.now line.now }
        ensures { result ≡ matches self.now.folding true self.now.texts line.now }
    {
        self.list.normal_law();
        let start = start_of(line.len(), fold_byte(self.list.fold(), text[0]));
        self.starts[start] && is_literal(self.list, line)
    }
}

/// The entry of a length and a first byte, which is the newline where the length is 0.
#[inline(always)]
fn start_of(len: usize, first: u8) -> usize
    ensures value { result ≡ start_of len first }
    ensures within { result < SIZE }
{
    len.min(LENGTHS - 1) * 256 + first as usize
}

/// Sets the entry of a literal.
fn note(starts: &mut [bool; SIZE], literal: &[u8])
    requires { 0 < length literal.now }
    ensures here { HasStart starts.new literal.now }
    ensures kept { (entry : ℕ) → slice_index_or starts.old entry false ≡ true → slice_index_or starts.new entry false ≡ true }
{
    starts[start_of(literal.len(), literal[0])] = true;
}
