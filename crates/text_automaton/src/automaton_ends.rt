//! Searches for ends by the automaton of the literals.
ghost use Rattle.std.specs.Prelude.{◌≡◌, ◌+◌, ◌≤◌, IfSome, OnOk, false, length, true};
ghost use Rattle.std.specs.Option.{IfNone};
ghost use Rattle.text_ends.specs.HitsAt.{Extends, GainsHitsAt};
ghost use Rattle.text_automaton.specs.Automata.{AreEnding, IsStateAt};

use crate::automaton::Automaton;
use crate::reading::{ROOM, Reading};
use list_index::ListIndex;
use std::alloc::AllocError;
use std::marker::Model;
use text_ends::{EndWalk, Hit, hit_of};

/// The ends in a text, found by the automaton.
#[derive(Drop)]
pub struct AutomatonEnds<'a> {
    automaton: &'a Automaton,
    text: &'a [u8],
    reading: Reading,
    ends: usize,
}

impl<'a> Model for AutomatonEnds<'a> {
    ghost use Rattle.std.specs.Prelude.{◌≡◌};
    ghost use Rattle.text_automaton.specs.Automata.{AutomatonWalk, IsReading, place_of};

    ghost Value = { AutomatonWalk };

    ghost view = { λ w. record {
      walk = record { literals = w.automaton.now.literals; text = w.text.now; from = place_of w.reading };
      automaton = w.automaton.now;
    } };

    ghost invariant = { λ w. IsReading w.automaton.now w.text.now w.reading };
}

impl<'a> AutomatonEnds<'a> {
    /// The ends after a position, or `None` if the automaton's tables are not made.
    pub fn after(automaton: &'a Automaton, text: &'a [u8], from: usize) -> Option<AutomatonEnds<'a>>
        requires { from ≤ length text.now }
        ensures some { IfSome result (λ ends. ends.walk ≡ record { literals = automaton.now.literals; text = text.now; from = from }) }
        ensures none { IfNone result (automaton.now.is_made ≡ false) }
    {
        if !automaton.is_made() {
            return None;
        }
        Some(AutomatonEnds {
            automaton,
            text,
            reading: Reading {
                states: [0; ROOM],
                start: from,
                count: 0,
                next: 0,
            },
            ends: 0,
        })
    }

    /// How many ends were found so far.
    pub fn ends(&self) -> usize {
        self.ends
    }
}

impl<'a> EndWalk for AutomatonEnds<'a> {
    ghost walk = { λ w. w.walk };

    ghost identifies = { λ w end state. IsStateAt w.automaton w.walk.text end state × (w.automaton.is_made ≡ true)
        × (w.automaton.literals ≡ w.walk.literals) };

    #[inline(always)]
    fn next_end(&mut self) -> Option<(usize, usize)> {
        let found = self.automaton.next_with_state(self.text, &mut self.reading);
        self.ends = self.ends.saturating_add(usize::from(found.is_some()));
        found
    }

    #[inline(always)]
    fn add_hits_at(
        &self,
        end: usize,
        state: usize,
        at: u64,
        out: &mut Vec<Hit>,
    ) -> Result<(), AllocError> {
        let places = self.automaton.output_of(state);
        add_output(self.automaton.index(), self.text, end, places, at, out)
    }
}

/// Adds a hit for each literal of `output`; all end at `end`, which counts as `at`. When memory is refused, earlier
/// hits stay added.
#[inline(always)]
fn add_output(
    list: &ListIndex,
    text: &[u8],
    end: usize,
    output: &[u16],
    at: u64,
    out: &mut Vec<Hit>,
) -> Result<(), AllocError>
    requires output { AreEnding list.now text.now end output.now }
    ensures ok { OnOk result (GainsHitsAt list.now text.now end at out.old.items out.new.items) }
    ensures few { OnOk result (length out.new.items ≤ length out.old.items + length list.now.texts) }
    ensures kept { Extends out.old.items out.new.items }
{
    for place in 0..output.len() {
        out.push(hit_of(list, usize::from(output[place]), at))?;
    }
    Ok(())
}
