//! Searches for ends by shift-or over buckets of literals.
ghost use Rattle.std.specs.Prelude.{◌≡◌};
ghost use Rattle.lit_base.specs.Occurrences.{IsFirstEnding};

use crate::probes::Probes;
use crate::shift_or::ShiftOr;
use std::alloc::AllocError;
use std::marker::Model;
use text_ends::{EndWalk, Hit, Tally, add_hits_at};

/// The ends in a text, found by shift-or.
#[derive(Drop)]
pub struct ShiftOrEnds<'a> {
    shift_or: &'a ShiftOr,
    text: &'a [u8],
    from: usize,
    probes: Probes,
    tally: Tally,
}

impl<'a> Model for ShiftOrEnds<'a> {
    ghost use Rattle.std.specs.Prelude.{◌≡◌};
    ghost use Rattle.text_ends.specs.Walks.{Walk};
    ghost use Rattle.shift_search.specs.Probes.{AreProbesAfter};

    ghost Value = { Walk };

    ghost view = { λ w. record { literals = w.shift_or.now.literals; text = w.text.now; from = w.from } };

    ghost invariant = { λ w. AreProbesAfter w.shift_or.now w.text.now w.from w.probes };
}

impl<'a> ShiftOrEnds<'a> {
    /// The ends after a position.
    #[inline]
    pub fn after(shift_or: &'a ShiftOr, text: &'a [u8], from: usize) -> ShiftOrEnds<'a>
        ensures { result ≡ record { literals = shift_or.now.literals; text = text.now; from = from } }
    {
        let probes = shift_or.probes_after(text, from);
        ShiftOrEnds {
            shift_or,
            text,
            from,
            probes,
            tally: Tally::nothing(),
        }
    }

    /// The counters so far.
    pub fn tally(&self) -> Tally {
        self.tally
    }
}

impl<'a> EndWalk for ShiftOrEnds<'a> {
    ghost walk = { λ w. w };

    ghost identifies = { λ w end first. IsFirstEnding w.literals w.text 0 end first };

    #[inline(always)]
    fn next_end(&mut self) -> Option<(usize, usize)> {
        let mut probes = self.probes;
        let found = self.shift_or.next_by(
            self.text,
            self.from,
            &mut probes,
            &mut self.tally.false_positives,
        );
        if let Some((end, _)) = found {
            self.tally.end();
            self.from = end;
            self.probes = probes;
        }
        found
    }

    #[inline(always)]
    fn add_hits_at(
        &self,
        end: usize,
        first: usize,
        at: u64,
        out: &mut Vec<Hit>,
    ) -> Result<(), AllocError> {
        add_hits_at(self.shift_or.index(), self.text, end, first, at, out)
    }
}
