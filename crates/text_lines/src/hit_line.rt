//! The lines of a text that hold a literal, one after another.
ghost use Rattle.std.specs.Prelude.{◌≡◌, ◌<◌, ◌≤◌, [], All, IfSome, IsTrue, MatchOption, length};
ghost use Rattle.lit_base.specs.Lines.{IsOnePiece, open_rest};
ghost use Rattle.lit_base.specs.Literals.{IsNormal, Literals};
ghost use Rattle.lit_base.specs.Occurrences.{HasEnd};
ghost use Rattle.lit_base.specs.NextEnds.{IsNextEnd, NoEndAfter};
ghost use Rattle.text_lines.specs.HitLines.{AllMiss, IsFirstHitLine};

use crate::column::Column;
use crate::cutting::{split_line_after, split_near_line, split_prefix};
use lit_plan::Compiled;
use std::marker::Model;
use text_search::{EndFinder, TextSearch, next_end_by};

/// A line that holds a literal, with the text round it.
#[derive(Drop)]
pub struct HitLine<'t> {
    /// The lines before it; none of them holds a literal.
    pub missed: &'t [u8],
    /// The line, without its newline.
    pub line: &'t [u8],
    /// What stands after its newline.
    pub after: &'t [u8],
}

impl<'t> HitLine<'t> {
    /// The first line of a text, with what stands after its newline.
    #[inline(always)]
    fn first_of(text: &'t [u8], line: &'t [u8], after: &'t [u8]) -> HitLine<'t>
        ensures missed { result.missed.now ≡ [] }
        ensures line { result.line.now ≡ line.now }
        ensures after { result.after.now ≡ after.now }
    {
        let (missed, _) = text.split_at(0);
        HitLine {
            missed,
            line,
            after,
        }
    }
}

/// The lines of a text of ended lines that hold a literal, one after another. It splits no line between them. A
/// contract sees the plan, the literals of the finder, and what stands after the last line found.
#[derive(Drop)]
pub struct HitLines<'a> {
    compiled: &'a Compiled,
    /// The finder that tunes itself to the text, if there is one.
    finder: Option<EndFinder>,
    /// A search of the whole text, which continues from its position.
    search: TextSearch<'a>,
    column: Column,
    text: &'a [u8],
    rest: &'a [u8],
}

impl<'a> Model for HitLines<'a> {
    ghost use Rattle.text_lines.specs.HitLines.{HitSearch, IsHitSearch};

    ghost Value = { HitSearch };

    ghost view = { λ h. record { plan = h.compiled.now; finder = h.finder; rest = h.rest.now } };

    ghost invariant = { λ h. IsHitSearch h.compiled.now h.finder h.search h.text.now h.rest.now };
}

impl<'a> HitLines<'a> {
    /// The lines of a text that hold a literal of a plan. It reads nothing yet, and takes no memory.
    pub fn new(compiled: &'a Compiled, finder: Option<EndFinder>, text: &'a [u8]) -> HitLines<'a>
        requires finder { IfSome finder (λ list. list ≡ compiled.now.literals) }
        requires closed { open_rest text.now ≡ [] }
        requires apart { All IsOnePiece compiled.now.literals.texts }
        ensures { result ≡ record { plan = compiled.now; finder = finder; rest = text.now } }
    {
        compiled.list().normal_law();
        HitLines {
            compiled,
            finder,
            search: TextSearch::new(compiled, text),
            column: Column::new(),
            text,
            rest: text,
        }
    }

    /// The plan.
    pub fn compiled(&self) -> &'a Compiled
        ensures { result.now ≡ self.now.plan }
    {
        self.compiled
    }

    /// What stands after the last line found.
    pub fn rest(&self) -> &'a [u8]
        ensures { result.now ≡ self.now.rest }
    {
        self.rest
    }

    /// The finder, tuned to the text.
    pub fn into_finder(self) -> Option<EndFinder>
        ensures { result ≡ self.entry.finder }
    {
        self.finder
    }

    /// The next line that holds a literal, if there is one.
    pub fn next_line(&mut self) -> Option<HitLine<'a>>
        ensures hit { MatchOption result
            (AllMiss self.old.plan.literals self.old.rest)
            (λ hit. IsFirstHitLine self.old.plan.literals self.old.rest hit.missed.now hit.line.now hit.after.now) }
        ensures moved { MatchOption result
            (self.new ≡ self.old)
            (λ hit. self.new ≡ record self.old { rest = hit.after.now }) }
    {
        let hit = self.first()?;
        self.rest = hit.after;
        Some(hit)
    }

    /// The first line of the rest that holds a literal, if there is one. The position where a literal probably ends is
    /// tried first.
    #[inline(always)]
    fn first(&mut self) -> Option<HitLine<'a>>
        ensures same { self.new ≡ self.old }
        ensures hit { MatchOption result
            (AllMiss self.old.plan.literals self.old.rest)
            (λ hit. IsFirstHitLine self.old.plan.literals self.old.rest hit.missed.now hit.line.now hit.after.now) }
    {
        let text = self.rest;
        if let Some(hit) = self.likely() {
            return Some(hit);
        }
        let end = self.first_end()?;
        if let Some((line, after)) = split_line_after(text, end) {
            self.column.note(end);
            return Some(HitLine::first_of(text, line, after));
        }
        line_round(&mut self.column, text, end)
    }

    /// The first line of the rest, if a literal ends in it at the probable position. `None` says nothing about the
    /// rest.
    #[inline(always)]
    fn likely(&mut self) -> Option<HitLine<'a>>
        ensures same { self.new ≡ self.old }
        ensures hit { IfSome result
            (λ hit. IsFirstHitLine self.old.plan.literals self.old.rest hit.missed.now hit.line.now hit.after.now) }
    {
        let at = self.column.likely_end()?;
        let found = self.line_with_end(at);
        match &found {
            Some(_) => self.column.was_right(),
            None => self.column.was_wrong(),
        }
        found
    }

    /// The first line of the rest, if some literal ends in it after `at` bytes. `None` says nothing about the rest.
    #[inline(always)]
    fn line_with_end(&mut self, at: usize) -> Option<HitLine<'a>>
        ensures same { self.new ≡ self.old }
        ensures hit { IfSome result
            (λ hit. IsFirstHitLine self.old.plan.literals self.old.rest hit.missed.now hit.line.now hit.after.now) }
    {
        let text = self.rest;
        if at == 0 || text.len() < at {
            return None;
        }
        if !self.has_end(at) {
            return None;
        }
        let (line, after) = split_near_line(text)?;
        if line.len() < at {
            return None;
        }
        Some(HitLine::first_of(text, line, after))
    }

    /// Whether some literal ends after the first `at` bytes of the rest: the literal found last in this way, or
    /// another.
    #[inline(always)]
    fn has_end(&mut self, at: usize) -> bool
        requires some { 0 < at }
        requires inside { at ≤ length self.old.rest }
        ensures same { self.new ≡ self.old }
        ensures end { IsTrue result → HasEnd self.old.plan.literals self.old.rest at }
    {
        let list = self.compiled.index();
        let text = self.rest;
        let literal = self.column.literal;
        if literal < list.len() && list.ends_at(literal, text, at) {
            return true;
        }
        match list.first_ending(self.text, self.text.len() - text.len() + at) {
            Some(first) => {
                self.column.literal = first;
                true
            }
            None => false,
        }
    }

    /// The first position of the rest at which some literal ends, by the finder if there is one, and otherwise by the
    /// plan alone. It is a search of the whole text from there on: no literal has a newline, so none that ends in the
    /// rest begins before it.
    #[inline(always)]
    fn first_end(&mut self) -> Option<usize>
        ensures same { self.new ≡ self.old }
        ensures next { MatchOption result
            (NoEndAfter self.old.plan.literals self.old.rest 0)
            (IsNextEnd self.old.plan.literals self.old.rest 0) }
    {
        let from = self.text.len() - self.rest.len();
        let end = next_end_by(&mut self.finder, &mut self.search, from)?;
        Some(end - from)
    }
}

/// The line in which a literal ends, where it is the first end of one in a text of ended lines.
#[inline(always)]
fn line_round<'t>(column: &mut Column, text: &'t [u8], end: usize) -> Option<HitLine<'t>>
    requires some { 0 < end }
    requires within { end ≤ length text.now }
    requires closed { open_rest text.now ≡ [] }
    ensures { (l : Literals) → IsNormal l → All IsOnePiece l.texts → IsNextEnd l text.now 0 end → MatchOption result
        (AllMiss l text.now)
        (λ hit. IsFirstHitLine l text.now hit.missed.now hit.line.now hit.after.now) }
{
    let (prefix, tail) = text.split_at(end - 1);
    let (missed, head) = split_prefix(prefix, text);
    let (ending, after) = split_near_line(tail)?;
    let (_, rest) = text.split_at(missed.len());
    let (line, _) = rest.split_at(head.len() + ending.len());
    column.note(head.len().saturating_add(1));
    Some(HitLine {
        missed,
        line,
        after,
    })
}
