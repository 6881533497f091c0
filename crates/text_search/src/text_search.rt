//! A search of one text, for one end after another.
ghost use Rattle.std.specs.Prelude.{◌≡◌};
ghost use Rattle.text_ends.specs.Walks.{HasGoneOn};
ghost use Rattle.text_search.specs.Searched.{FindsNext};

use lit_plan::Compiled;
use prefilter_search::PrefilterEnds;
use std::marker::Model;
use text_ends::EndWalk;

/// A search of one text for the literals of a plan, for one end after another. A search from a later position uses the
/// filter results that it already has.
#[derive(Drop)]
pub struct TextSearch<'a> {
    compiled: &'a Compiled,
    ends: PrefilterEnds<'a>,
}

impl<'a> Model for TextSearch<'a> {
    ghost use Rattle.text_search.specs.Searched.{Searched};

    ghost Value = { Searched };

    ghost use Rattle.std.specs.Prelude.{◌≡◌};

    ghost view = { λ s. record { plan = s.compiled.now; text = s.ends.text } };

    ghost invariant = { λ s. s.ends.literals ≡ s.compiled.now.literals };
}

impl<'a> TextSearch<'a> {
    /// A search of the text by a plan. It reads nothing yet, and takes no memory.
    pub fn new(compiled: &'a Compiled, text: &'a [u8]) -> TextSearch<'a>
        ensures { result ≡ record { plan = compiled.now; text = text.now } }
    {
        TextSearch {
            compiled,
            ends: compiled.prefilter_ends(text, 0),
        }
    }

    /// The first position of the text after `from` at which some literal ends, wherever it begins, or `None`. It takes
    /// no memory.
    #[inline]
    pub fn next_end_after(&mut self, from: usize) -> Option<usize>
        ensures same { self.new ≡ self.old }
        ensures next { FindsNext self.old.plan.literals self.old.text from result }
    {
        if from >= self.text().len() {
            return None;
        }
        self.ends.skip_to(from);
        next_of(&mut self.ends)
    }

    /// The plan.
    pub(crate) fn compiled(&self) -> &'a Compiled
        ensures { result.now ≡ self.now.plan }
    {
        self.compiled
    }

    /// The text.
    pub(crate) fn text(&self) -> &'a [u8]
        ensures { result.now ≡ self.now.text }
    {
        self.ends.text()
    }

    /// How many false positives the search has found so far.
    pub(crate) fn false_positives(&self) -> usize {
        self.ends.tally().false_positives
    }
}

/// The first position of the text after `from` at which some literal ends, wherever it begins, or `None`, by the
/// prefilter alone. It takes no memory.
pub fn first_end_after(compiled: &Compiled, text: &[u8], from: usize) -> Option<usize>
    ensures { FindsNext compiled.now.literals text.now from result }
{
    TextSearch::new(compiled, text).next_end_after(from)
}

/// The next end of a walk.
#[inline(always)]
pub(crate) fn next_of<E: EndWalk>(ends: &mut E) -> Option<usize>
    ensures next { let before = E.walk ends.old in FindsNext before.literals before.text before.from result }
    ensures moved { HasGoneOn (E.walk ends.old) (E.walk ends.new) }
{
    match ends.next_end() {
        Some((end, _)) => Some(end),
        None => None,
    }
}
