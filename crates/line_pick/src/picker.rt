//! The selected lines of a text that comes in pieces.
ghost use Rattle.std.specs.Prelude.{◌≡◌, ◌≢◌, [], Ok, Err, IfSome, Some, false, true, is_some};
ghost use Rattle.std.specs.Option.{option_copied};
ghost use Rattle.line_pick.specs.Feeding.{Feeds, Finishes, Stays};
ghost use Rattle.line_pick.specs.Emitting.{answer_of};
ghost use Rattle.line_pick.specs.Matching.{AreInLines, list_of};
ghost use Rattle.line_pick.specs.declared.state.State.TheVariants.{Running};

use crate::fault::Fault;
use crate::halt::Halt;
use crate::matcher::{LineRule, LineSearch, Matcher};
use crate::progress::Progress;
use crate::sink::{Next, Sink};
use crate::state::State;
use lit_plan::Compiled;
use std::alloc::Global;
use std::marker::Model;
use text_search::EndFinder;

/// Emits the selected lines of a text that comes in pieces. It keeps only the current line, or what decides it.
#[derive(Debug, Drop)]
pub struct Picker<'p> {
    search: LineSearch<'p>,
    progress: Progress,
    state: State,
}

impl<'p> Model for Picker<'p> {
    ghost use Rattle.std.specs.Option.{option_copied};
    ghost use Rattle.line_pick.specs.Picking.{Picking};

    ghost Value = { Picking };

    ghost use Rattle.std.specs.Prelude.{if◌then◌else◌, is_some};
    ghost use Rattle.line_pick.specs.Matching.{IsByPlan};
    ghost use Rattle.line_pick.specs.Progresses.{IsSound};

    ghost view = { λ p. record {
      plan = option_copied p.search.matcher.plan;
      has_empty = p.search.matcher.has_empty;
      rule = p.search.matcher.rule;
      has_bytes = p.progress.has_bytes;
      held = p.progress.held.items;
      is_numbered = p.progress.is_numbered;
      lines = if p.progress.is_numbered then p.progress.lines else 0;
      bytes = p.progress.bytes;
      state = p.state;
      tunes = is_some p.search.finder;
    } };

    ghost invariant = { λ p. IsSound p.progress × IsByPlan p.search };
}

impl<'p> Picker<'p> {
    /// A picker before any text. Its patterns are the plan's literals, and the null pattern if there
    /// is one. It takes no memory.
    pub fn new(
        alloc: Global,
        plan: Option<&'p Compiled>,
        has_empty: bool,
        rule: LineRule,
    ) -> Picker<'p>
        requires { AreInLines (option_copied plan) }
        ensures { result ≡ record {
          plan = option_copied plan.entry;
          has_empty = has_empty;
          rule = rule;
          is_numbered = true;
          has_bytes = true;
          held = [];
          lines = 0;
          bytes = 0;
          state = Running;
          tunes = false;
        } }
    {
        Picker {
            search: LineSearch {
                matcher: Matcher {
                    plan,
                    has_empty,
                    rule,
                },
                finder: None,
            },
            progress: Progress::new(alloc),
            state: State::Running,
        }
    }

    /// The same picker, which from now on counts no lines: it emits each line under some number, to a sink that ignores
    /// the number. Counting takes up to a sixth of the time of a search for one rare literal.
    pub fn without_numbers(mut self) -> Picker<'p>
        ensures { result ≡ record self.entry { is_numbered = false; lines = 0 } }
    {
        self.progress.is_numbered = false;
        self
    }

    /// The same picker, which from now on holds of an open line only what decides whether it is selected: about twice
    /// as many bytes as the longest literal has. So it emits some bytes in place of a line's, to a sink that ignores
    /// them.
    pub fn without_bytes(mut self) -> Picker<'p>
        ensures { result ≡ record self.entry { has_bytes = false } }
    {
        self.progress.has_bytes = false;
        self
    }

    /// Whether the search tunes itself to the text.
    pub fn tunes(&self) -> bool
        ensures { result ≡ self.now.tunes }
    {
        self.search.finder.is_some()
    }

    /// From now on the search tunes itself, by this finder. The emitted lines do not depend on it.
    pub fn tune_by(&mut self, finder: EndFinder)
        requires { list_of self.old.plan ≡ Some finder }
        ensures { self.new ≡ record self.old { tunes = true } }
    {
        self.search.finder = Some(finder);
    }

    /// The finder, tuned to the text so far, for use with the next text; `None` if the picker has none.
    pub fn into_finder(self) -> Option<EndFinder>
        ensures plan { IfSome result (λ list. list_of self.entry.plan ≡ Some list) }
        ensures tuned { is_some result ≡ self.entry.tunes }
    {
        self.search.finder
    }

    /// Takes the next piece of the text, and emits to the sink each selected line that a newline ends in it: in order,
    /// with its number and without its newline. A picker without numbers emits it with some number, and one without
    /// bytes emits a line that came in several pieces with some bytes.
    ///
    /// The line to which the sink answers `Stop` or a fault is the last one emitted, and `feed` returns the same
    /// answer. `StreamTooLong` comes if the bytes fed would pass 2^64 - 1, before any line is emitted. `OutOfMemory`
    /// also comes if bytes of an open line cannot be kept: of the line held before, before any line is emitted, or of
    /// the last line, after all are. A picker that stopped, failed or finished emits nothing: it returns `Stop`, or its
    /// fault again.
    pub fn feed<S: Sink>(&mut self, piece: &[u8], sink: &mut S) -> Result<Next, Fault>
        ensures running { self.old.state ≡ Running
            → Feeds S.takes self.old piece.now sink.old result self.new sink.new }
        ensures over { self.old.state ≢ Running → Stays self.old sink.old result self.new sink.new }
        ensures plan { self.new.plan ≡ self.old.plan }
        ensures tunes { self.new.tunes ≡ self.old.tunes }
    {
        if let Some(answer) = self.state.answer() {
            return answer;
        }
        let answer = answered(self.progress.take(&mut self.search, piece, sink));
        self.state = State::after_feed(answer);
        answer
    }

    /// Ends the text: emits a last line without newline, if it is not empty and is selected.
    ///
    /// Returns the sink's answer to that line, or `More` if there is none. A picker that stopped, failed or finished
    /// emits nothing: it returns `Stop`, or its fault again.
    pub fn finish<S: Sink>(&mut self, sink: &mut S) -> Result<Next, Fault>
        ensures running { self.old.state ≡ Running
            → Finishes S.takes self.old sink.old result self.new sink.new }
        ensures over { self.old.state ≢ Running → Stays self.old sink.old result self.new sink.new }
        ensures plan { self.new.plan ≡ self.old.plan }
        ensures tunes { self.new.tunes ≡ self.old.tunes }
    {
        if let Some(answer) = self.state.answer() {
            return answer;
        }
        let answer = answered(self.progress.emit_open(&mut self.search, sink));
        self.state = State::after_finish(answer);
        answer
    }
}

/// The answer of a call in which emitting ended so.
fn answered(emitted: Result<(), Halt>) -> Result<Next, Fault>
    ensures { result ≡ answer_of emitted }
{
    match emitted {
        Ok(()) => Ok(Next::More),
        Err(Halt::Stopped) => Ok(Next::Stop),
        Err(Halt::Failed(fault)) => Err(fault),
    }
}

#[cfg(test)]
mod tests;
