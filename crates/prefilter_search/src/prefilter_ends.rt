//! The positions of a text at which literals end, one after another, found by a prefilter alone.
ghost use Rattle.std.specs.Prelude.{◌≡◌, ◌≤◌, IfSome, MatchOption, length};
ghost use Rattle.lit_base.specs.Occurrences.{IsFirstEnding};
ghost use Rattle.nib_mask.specs.Candidates.{CoversBy};
ghost use Rattle.lane_filter.specs.Prefilters.{Passes};
ghost use Rattle.lit_base.specs.NextEnds.{IsNextEnd, NoEndAfter};

use lane_filter::{Candidates, Prefilter};
use list_index::ListIndex;
use std::alloc::AllocError;
use std::marker::Model;
use text_ends::{EndWalk, Hit, Tally, add_hits_at};

/// The ends in a text, found by a prefilter alone.
#[derive(Drop)]
pub struct PrefilterEnds<'a> {
    list: &'a ListIndex,
    text: &'a [u8],
    /// The last end found, or where the search began. Nothing ends after it before the candidates.
    from: usize,
    candidates: Candidates<'a>,
    tally: Tally,
}

impl<'a> Model for PrefilterEnds<'a> {
    ghost use Rattle.std.specs.Prelude.{◌≡◌, ◌≤◌};
    ghost use Rattle.lit_base.specs.NextEnds.{NoEndUpTo};
    ghost use Rattle.nib_mask.specs.Candidates.{CoversBy};
    ghost use Rattle.lane_filter.specs.Prefilters.{Passes};
    ghost use Rattle.text_ends.specs.Walks.{Walk};

    ghost Value = { Walk };

    ghost view = { λ w. record { literals = w.list.now; text = w.text.now; from = w.from } };

    ghost invariant = { λ w. CoversBy w.list.now (Passes w.candidates.prefilter)
        × (w.candidates.text ≡ w.text.now)
        × (w.from ≤ w.candidates.from)
        × NoEndUpTo w.list.now w.text.now w.from w.candidates.from };
}

impl<'a> PrefilterEnds<'a> {
    /// The ends after a position, by a prefilter for the literals of the list. It reads nothing yet. Positions at which
    /// no literal can end yet are passed over.
    #[inline]
    pub fn after(
        list: &'a ListIndex,
        prefilter: &'a Prefilter,
        text: &'a [u8],
        from: usize,
    ) -> PrefilterEnds<'a>
        requires covers { CoversBy list.now (Passes prefilter.now) }
        requires inside { from ≤ length text.now }
        ensures { result ≡ record { literals = list.now; text = text.now; from = from } }
    {
        let start = list.skip_short_ends(from).min(text.len());
        let candidates = Candidates::new(prefilter, text, start);
        PrefilterEnds {
            list,
            text,
            from,
            candidates,
            tally: Tally::nothing(),
        }
    }

    /// The same walk from a position of the text on, further on or back. It uses the filter results that it already
    /// has.
    #[inline]
    pub fn skip_to(&mut self, from: usize)
        requires { from ≤ length self.old.text }
        ensures { self.new ≡ record self.old { from = from } }
    {
        let start = self.list.skip_short_ends(from).min(self.text.len());
        self.candidates.skip_to(start);
        self.from = from;
    }

    /// The text.
    #[inline]
    pub fn text(&self) -> &'a [u8]
        ensures { result.now ≡ self.now.text }
    {
        self.text
    }

    /// The counters so far.
    pub fn tally(&self) -> Tally {
        self.tally
    }
}

impl<'a> EndWalk for PrefilterEnds<'a> {
    ghost walk = { λ w. w };

    ghost identifies = { λ w end first. IsFirstEnding w.literals w.text 0 end first };

    #[inline(always)]
    fn next_end(&mut self) -> Option<(usize, usize)> {
        let found = next_verified(self.list, self.text, &mut self.candidates, &mut self.tally);
        if let Some((end, _)) = found {
            self.tally.end();
            self.from = end;
        }
        found
    }

    #[inline(always)]
    fn add_hits_at(
        &self,
        end: usize,
        first: usize,
        at: u64,
        out: &mut Vec<Hit>,
    ) -> Result<(), AllocError> {
        add_hits_at(self.list, self.text, end, first, at, out)
    }
}

/// The first position after the last returned candidate at which some literal ends, with the first such literal. The
/// candidates come from a prefilter for the literals. Counts the false positives in `tally`. It takes no memory.
#[inline]
fn next_verified(
    list: &ListIndex,
    text: &[u8],
    candidates: &mut Candidates,
    tally: &mut Tally,
) -> Option<(usize, usize)>
    requires covers { CoversBy list.now (Passes candidates.old.prefilter) }
    requires text { candidates.old.text ≡ text.now }
    ensures prefilter { candidates.new.prefilter ≡ candidates.old.prefilter }
    ensures text { candidates.new.text ≡ candidates.old.text }
    ensures next { MatchOption result
        (NoEndAfter list.now text.now candidates.old.from)
        (λ found. IsNextEnd list.now text.now candidates.old.from found.0) }
    ensures first { IfSome result (λ found. IsFirstEnding list.now text.now 0 found.0 found.1) }
    ensures reached { IfSome result (λ found. candidates.new.from ≡ found.0) }
    ensures ahead { candidates.old.from ≤ candidates.new.from }
{
    while let Some(end) = candidates.next() {
        if let Some(first) = list.first_ending(text, end) {
            return Some((end, first));
        }
        tally.miss();
    }
    None
}
