//! Searches for the hits of a text: by the prefilter of a plan alone, or by a finder.
ghost use Rattle.std.specs.Prelude.{◌≡◌, ◌+◌, ◌-◌, ◌^◌, ◌<◌, ◌≤◌, length};
ghost use Rattle.lit_base.specs.Literals.{Literals};
ghost use Rattle.text_search.specs.Searched.{AddsHits};

use lit_plan::Compiled;
use std::alloc::AllocError;
use text_ends::{Hit, add_hits_of};

/// A search for the hits of a text by a plan.
pub trait HitSearch {
    /// It searches by plans of these literals.
    ghost serves: { Self → Literals → Type 0 };

    /// Adds the hits that end in the text after `from`, which counts as `at`, up to the first end by which `out` gained
    /// at least `most` hits (0 counts as 1). Returns this end, or the text's length. Memory is refused only after a hit
    /// was found; `out` is then unchanged.
    fn add_hits(
        &mut self,
        compiled: &Compiled,
        text: &[u8],
        from: usize,
        at: u64,
        most: usize,
        out: &mut Vec<Hit>,
    ) -> Result<usize, AllocError>
        requires plan { serves self.old compiled.now.literals }
        requires inside { from ≤ length text.now }
        requires room { at + (length text.now - from) < 2 ^ 64 }
        ensures plan { serves self.new compiled.now.literals }
        ensures hits { AddsHits compiled.now.literals text.now from at most out.old.items out.new.items result };

    /// As `add_hits`, in a text that is whole in memory and counts from 0. So it may tune itself on the way.
    fn add_spans(
        &mut self,
        compiled: &Compiled,
        text: &[u8],
        from: usize,
        most: usize,
        out: &mut Vec<Hit>,
    ) -> Result<usize, AllocError>
        requires plan { serves self.old compiled.now.literals }
        requires inside { from ≤ length text.now }
        ensures plan { serves self.new compiled.now.literals }
        ensures hits { AddsHits compiled.now.literals text.now from from most out.old.items out.new.items result }
    {
        self.add_hits(compiled, text, from, from as u64, most, out)
    }
}

/// The search by the prefilter of a plan alone.
#[derive(Drop)]
pub struct PrefilterSearch;

impl HitSearch for PrefilterSearch {
    ghost serves = { λ search literals. literals ≡ literals };

    fn add_hits(
        &mut self,
        compiled: &Compiled,
        text: &[u8],
        from: usize,
        at: u64,
        most: usize,
        out: &mut Vec<Hit>,
    ) -> Result<usize, AllocError> {
        let mut ends = compiled.prefilter_ends(text, from);
        add_hits_of(&mut ends, text, from, at, most, out)
    }
}
