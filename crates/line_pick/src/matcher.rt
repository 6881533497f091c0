//! Which lines are selected.
ghost use Rattle.std.specs.Prelude.{◌≡◌, ◌==◌, ◌&&◌, ◌↔◌, All, IfSome, IsTrue, ◌<◌, ◌≤◌, ℕ, List, false, length, slice_index, true};
ghost use Rattle.lit_base.specs.Lines.{IsOnePiece};
ghost use Rattle.lit_base.specs.Literals.{lengths};
ghost use Rattle.lit_base.specs.Selected.{matches};
ghost use Rattle.line_pick.specs.Matching.{IsByPlan, StandingLaw, matched, picks};

use crate::tuning::LINE_SPAN;
use list_index::ListIndex;
use lit_plan::Compiled;
use memchr::memchr;
use text_search::{EndFinder, TextSearch, first_end_after, next_end_by};

/// Which lines are selected, given the patterns.
#[derive(Clone, Copy, Debug, PartialEq, Eq)]
pub struct LineRule {
    /// The lines that match no pattern are selected.
    pub invert: bool,
    /// A line matches only as a whole.
    pub whole: bool,
}

/// What a search of lines needs: what it compares lines with, and the finder that tunes itself to the text, if there is
/// one.
#[derive(Debug, Drop)]
pub(crate) struct LineSearch<'p> {
    pub matcher: Matcher<'p>,
    pub finder: Option<EndFinder>,
}

impl LineSearch<'_> {
    /// Whether a line that came in several pieces is selected. It may be long, so the finder searches it.
    pub fn selects(&mut self, line: &[u8]) -> bool
        requires { IsByPlan self.old }
        ensures same { self.new ≡ self.old }
        ensures value { result ≡ picks self.old.matcher line.now }
    {
        let matcher = self.matcher;
        if matcher.rule.whole || matcher.has_empty {
            return matcher.selects(line);
        }
        match matcher.plan {
            Some(compiled) => has_literal(compiled, &mut self.finder, line) != matcher.rule.invert,
            None => matcher.rule.invert,
        }
    }
}

/// What lines are compared with: the literals of a plan, the null pattern, and the rule.
#[derive(Clone, Copy, Debug)]
pub(crate) struct Matcher<'p> {
    pub plan: Option<&'p Compiled>,
    pub has_empty: bool,
    pub rule: LineRule,
}

impl Matcher<'_> {
    /// It selects each line: none matches, and those that do not are selected.
    pub fn each_line() -> Matcher<'static>
        ensures { (line : List ℕ) → picks result line ≡ true }
    {
        Matcher {
            plan: None,
            has_empty: false,
            rule: LineRule {
                invert: true,
                whole: false,
            },
        }
    }

    /// Whether the line is selected.
    pub fn selects(self, line: &[u8]) -> bool
        ensures { result ≡ picks self.entry line.now }
    {
        self.matches(line) != self.rule.invert
    }

    /// Whether the line matches one of the patterns.
    fn matches(self, line: &[u8]) -> bool
        ensures { result ≡ matched self.entry self.entry.rule.whole line.now }
    {
        if self.rule.whole {
            self.is_pattern(line)
        } else {
            self.has_pattern(line)
        }
    }

    /// Whether the line as a whole is one of the patterns.
    fn is_pattern(self, line: &[u8]) -> bool
        ensures { result ≡ matched self.entry true line.now }
    {
        if self.is_null(line) {
            return true;
        }
        match self.plan {
            Some(compiled) => is_literal(compiled.index(), line),
            None => false,
        }
    }

    /// Whether the line is empty, and the null pattern is one of the patterns.
    fn is_null(self, line: &[u8]) -> bool
        ensures { result ≡ (self.entry.has_empty && (length line.now == 0)) }
    {
        self.has_empty && line.is_empty()
    }

    /// Whether one of the patterns is a slice of the line.
    fn has_pattern(self, line: &[u8]) -> bool
        ensures { result ≡ matched self.entry false line.now }
    {
        if self.has_empty {
            return true;
        }
        match self.plan {
            Some(compiled) => {
                compiled.list().normal_law();
                first_end_after(compiled, line, 0).is_some()
            }
            None => false,
        }
    }
}

/// Whether a literal of the plan is a slice of the line, by the finder if there is one. It searches span by span, since a
/// finder tunes only where a search begins.
fn has_literal(compiled: &Compiled, finder: &mut Option<EndFinder>, line: &[u8]) -> bool
    requires { IfSome finder.old (λ list. list ≡ compiled.now.literals) }
    ensures same { finder.new ≡ finder.old }
    ensures value { let list = compiled.now.literals in result ≡ matches list.folding false list.texts line.now }
{
    compiled.list().normal_law();
    let mut place = 0;
    'spans: while place < line.len() {
        let stop = line.len().min(place.saturating_add(LINE_SPAN));
        let (prefix, _) = line.split_at(stop);
        let mut search = TextSearch::new(compiled, prefix);
        if next_end_by(finder, &mut search, place).is_some() {
            return true;
        }
        place = stop;
    }
    false
}

/// Whether the line as a whole is one of the literals.
pub(crate) fn is_literal(list: &ListIndex, line: &[u8]) -> bool
    ensures { result ≡ matches list.now.folding true list.now.texts line.now }
{
    list.normal_law();
    // Most lines are longer than the longest literal: they need no search.
    let longest = list.longest();
    if longest < line.len() {
        return false;
    }
    let first = first_as_long(list, line.len());
    list.next_ending(line, line.len(), first).is_some()
}

/// The place of the first literal that is not shorter than `len`, or how many literals there are.
fn first_as_long(list: &ListIndex, len: usize) -> usize
    ensures shorter { (place : ℕ) → place < result → slice_index (lengths list.now) place < len }
    ensures as_long { (place : ℕ) → result ≤ place → place < length list.now.texts
        → len ≤ slice_index (lengths list.now) place }
{
    let mut low = 0;
    let mut high = list.len();
    while low < high {
        let middle = low + (high - low) / 2;
        if list.get(middle).len() < len {
            low = middle + 1;
        } else {
            high = middle;
        }
    }
    low
}

/// Whether no literal of the plan holds a newline, as a picker requires.
pub fn is_in_lines(plan: &Compiled) -> bool
    ensures { IsTrue result ↔ All IsOnePiece plan.now.literals.texts }
{
    let list = plan.list();
    for place in 0..list.len() {
        if memchr(b'\n', list.get(place)).is_some() {
            return false;
        }
    }
    true
}

/// The law of what stands for raw patterns: a plan whose literals are their normal form, and the null
/// pattern if one of them is null, select the lines that the raw patterns select.
pub fn standing_law()
    ensures { StandingLaw }
{}
