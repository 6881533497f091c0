//! The literals that end at one position of a text, one after another.
ghost use Rattle.std.specs.Prelude.{◌≡◌, ◌+◌, ◌<◌, IfSome, MatchOption, length};
ghost use Rattle.std.specs.Option.{IfNone};
ghost use Rattle.lit_base.specs.Occurrences.{IsFirstEnding, NoneEnds, Occurs};

use crate::index::ListIndex;
use crate::suffixes::widths_after;
use std::marker::Model;

/// The literals that end at one position of a text, in order, from some place of the list on. A contract sees the
/// literals, the text, that position, and the place of the list from which the search continues.
///
/// Which key widths they may have is looked up once for all of them.
#[derive(Drop)]
pub struct Endings<'a> {
    list: &'a ListIndex,
    text: &'a [u8],
    end: usize,
    from: usize,
    /// Bit `width - 1` is set if a literal from `from` on with a key of `width` bytes may end there.
    widths: u8,
}

impl<'a> Model for Endings<'a> {
    ghost use Rattle.list_index.specs.EndingCursors.{EndingCursor};

    ghost Value = { EndingCursor };

    ghost use Rattle.list_index.specs.EndingViews.{cursor_of, IsReady};

    ghost view = { cursor_of };

    ghost invariant = { IsReady };
}

impl ListIndex {
    /// The literals that end at `end` in the text after the literal at `place`, which ends there, in order. It looks up
    /// the bytes before `end` only once, and searches for no other literal as short: none ends there.
    #[inline]
    pub fn endings_after<'a>(&'a self, text: &'a [u8], end: usize, place: usize) -> Endings<'a>
        requires { Occurs self.now text.now place end }
        ensures literals { result.literals ≡ self.now }
        ensures text { result.text ≡ text.now }
        ensures end { result.end ≡ end }
        ensures from { result.from ≡ place + 1 }
    {
        let len = self.list.get(place).len();
        Endings {
            list: self,
            text,
            end,
            from: place + 1,
            widths: widths_after(self.suffixes.widths_at(text, end), len),
        }
    }
}

impl<'a> Endings<'a> {
    /// The next literal that ends there, or `None` if no literal remains.
    #[inline]
    pub fn next(&mut self) -> Option<usize>
        ensures literals { self.new.literals ≡ self.old.literals }
        ensures text { self.new.text ≡ self.old.text }
        ensures end { self.new.end ≡ self.old.end }
        ensures first { MatchOption result
            (NoneEnds self.old.literals self.old.text self.old.from self.old.end)
            (λ place. IsFirstEnding self.old.literals self.old.text self.old.from self.old.end place) }
        ensures within { IfSome result (λ place. place < length self.old.literals.texts) }
        ensures moved { IfSome result (λ place. self.new.from ≡ place + 1) }
        ensures stays { IfNone result (self.new.from ≡ self.old.from) }
    {
        if self.widths == 0 {
            return None;
        }
        let list = self.list;
        let mut widths = self.widths;
        let place = list
            .suffixes
            .next_by_widths(&list.list, self.text, self.end, self.from, &mut widths)?;
        self.widths = widths;
        self.from = place + 1;
        Some(place)
    }
}
