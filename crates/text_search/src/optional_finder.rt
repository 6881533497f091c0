//! A finder that is made only once it is likely to pay.
ghost use Rattle.std.specs.Prelude.{◌≡◌, IfSome, IsTrue, is_some};
ghost use Rattle.text_search.specs.Searched.{FindsNext};

use crate::end_finder::EndFinder;
use crate::hit_search::{HitSearch, PrefilterSearch};
use crate::strategy::has_use;
use crate::text_search::TextSearch;
use crate::tuning::LEAST_WITH_FINDER;
use lit_plan::Compiled;
use std::alloc::{AllocError, Global};
use text_ends::Hit;

/// The search by a finder, or by the prefilter alone while there is none.
impl HitSearch for Option<EndFinder> {
    ghost serves = { λ finder literals. IfSome finder (λ list. list ≡ literals) };

    fn add_hits(
        &mut self,
        compiled: &Compiled,
        text: &[u8],
        from: usize,
        at: u64,
        most: usize,
        out: &mut Vec<Hit>,
    ) -> Result<usize, AllocError> {
        match self {
            Some(finder) => finder.add_hits(compiled, text, from, at, most, out),
            None => PrefilterSearch.add_hits(compiled, text, from, at, most, out),
        }
    }

    fn add_spans(
        &mut self,
        compiled: &Compiled,
        text: &[u8],
        from: usize,
        most: usize,
        out: &mut Vec<Hit>,
    ) -> Result<usize, AllocError> {
        match self {
            Some(finder) => finder.add_spans(compiled, text, from, most, out),
            None => PrefilterSearch.add_spans(compiled, text, from, most, out),
        }
    }
}

/// The next position of a search's text at which some literal ends, by the finder if there is one, and otherwise by the
/// prefilter alone.
#[inline]
pub fn next_end_by(
    finder: &mut Option<EndFinder>,
    search: &mut TextSearch<'_>,
    from: usize,
) -> Option<usize>
    requires { IfSome finder.old (λ list. list ≡ search.old.plan.literals) }
    ensures same { finder.new ≡ finder.old }
    ensures search { search.new ≡ search.old }
    ensures next { FindsNext search.old.plan.literals search.old.text from result }
{
    match finder {
        Some(finder) => finder.next_end_in(search, from),
        None => search.next_end_after(from),
    }
}

/// Makes a finder, if there is none, once `count` bytes were searched or are about to be, and these are many. There is
/// none for a short list, or if memory is short.
pub fn make_if_long(finder: &mut Option<EndFinder>, alloc: Global, compiled: &Compiled, count: u64)
    requires { IfSome finder.old (λ list. list ≡ compiled.now.literals) }
    ensures plan { IfSome finder.new (λ list. list ≡ compiled.now.literals) }

    // A finder that there is stays.
    ensures kept { IsTrue (is_some finder.old) → finder.new ≡ finder.old }
{
    if finder.is_none() && count >= LEAST_WITH_FINDER && has_use(compiled.list().len()) {
        make(finder, alloc, compiled);
    }
}

/// Makes a finder, if there is memory for one. It stands alone because a function clears room for all that it moves
/// when it begins, and mostly none is made.
#[inline(never)]
fn make(finder: &mut Option<EndFinder>, alloc: Global, compiled: &Compiled)
    ensures { IfSome finder.new (λ list. list ≡ compiled.now.literals) }
{
    *finder = match EndFinder::new(alloc, compiled) {
        Ok(finder) => Some(finder),
        Err(_) => None,
    };
}
