//! The automaton of a list, and a search for ends by it.
ghost use Rattle.std.specs.Prelude.{◌≡◌, ◌+◌, ◌<◌, ◌≤◌, IfOk, IfSome, MatchOption, false, length, true};
ghost use Rattle.lit_base.specs.NextEnds.{IsNextEnd, NoEndAfter};
ghost use Rattle.text_automaton.specs.Automata.{IsReading, IsStateAt, place_of, room_of, output_of};

use crate::reading::Reading;
use crate::reporting::first_reporting;
use crate::table_state::TableState;
use crate::tables::{MOST_STATES, Tables};
use list_index::ListIndex;
use lit_base::LitList;
use std::alloc::{AllocError, Global};
use std::marker::Model;
use std::sync::Arc;

/// The Aho-Corasick automaton of a list. It steps from state to state by the bytes of a text; the output of the state
/// at a position is the literals that end there. `new` takes all memory, but only `build` builds the tables: a search
/// that never needs them does not write them. Building is not proved; tables that pass the check give all ends, and no
/// others.
#[derive(Debug, Drop)]
pub struct Automaton {
    index: Arc<ListIndex>,
    tables: Tables,
    /// The number of states that the tables have room for.
    room: usize,
    state: TableState,
}

impl Model for Automaton {
    ghost use Rattle.std.specs.Prelude.{◌≡◌, true};
    ghost use Rattle.text_automaton.specs.Automata.{Outputs, room_of};
    ghost use Rattle.text_automaton.specs.TableStates.{has_tables};
    ghost use Rattle.text_automaton.specs.Tables.{AreRight};

    ghost Value = { Outputs };

    ghost view = { λ a. record {
      literals = a.index.value;
      outputs = a.tables.outputs.items;
      lows = a.tables.lows.items;
      highs = a.tables.highs.items;
      quiet = a.tables.quiet;
      is_made = has_tables a.state;
    } };

    ghost invariant = { λ a. (has_tables a.state ≡ true → AreRight a.tables a.index.value) × (a.room ≡ room_of a.index.value) };
}

impl Automaton {
    /// The automaton of a list, with memory but without tables: it reads nothing before `build`. `Err` if memory is
    /// short.
    pub fn new(alloc: Global, index: Arc<ListIndex>) -> Result<Automaton, AllocError>
        ensures literals { IfOk result (λ made. made.literals ≡ index.value) }
        ensures unmade { IfOk result (λ made. made.is_made ≡ false) }
    {
        let room = room_for(index.list());
        Ok(Automaton {
            index,
            tables: Tables::new(alloc, room)?,
            room,
            state: TableState::Missing,
        })
    }

    /// The index of the list.
    #[inline(always)]
    pub(crate) fn index(&self) -> &ListIndex
        ensures { result.now ≡ self.now.literals }
    {
        &self.index
    }

    /// The number of states that it has room for: one for each byte of the literals and one more, at most
    /// `MOST_STATES`.
    pub fn room(&self) -> usize
        ensures { result ≡ room_of self.now.literals }
    {
        self.room
    }

    /// Builds the tables, unless they were built or refused before. Returns whether texts can be read by them.
    pub fn build(&mut self) -> bool
        ensures literals { self.new.literals ≡ self.old.literals }
        ensures made { result ≡ self.new.is_made }
        ensures kept { self.old.is_made ≡ true → self.new ≡ self.old }
    {
        match self.state {
            TableState::Made => true,
            TableState::Refused => false,
            TableState::Missing => self.make_tables(),
        }
    }

    /// Builds the tables, and checks them. Returns whether they are right.
    fn make_tables(&mut self) -> bool
        ensures literals { self.new.literals ≡ self.old.literals }
        ensures made { result ≡ self.new.is_made }
    {
        let list = self.index.list();
        let is_right = self.tables.make(list).is_some() && self.tables.are_right(list);
        self.state = TableState::after(is_right);
        is_right
    }

    /// Whether the tables are made.
    pub(crate) fn is_made(&self) -> bool
        ensures { result ≡ self.now.is_made }
    {
        self.state.is_made()
    }

    /// The next position at which some literal ends, with its state; the reading moves there. `None` if no literal ends
    /// after the position of the reading. It takes no memory.
    #[inline]
    pub(crate) fn next_with_state(
        &self,
        text: &[u8],
        reading: &mut Reading,
    ) -> Option<(usize, usize)>
        requires { IsReading self.now text.now reading.old }
        ensures next { MatchOption result
            (NoEndAfter self.now.literals text.now (place_of reading.old))
            (λ found. IsNextEnd self.now.literals text.now (place_of reading.old) found.0) }
        ensures state { IfSome result (λ found. IsStateAt self.now text.now found.0 found.1) }
        ensures reading { IsReading self.now text.now reading.new }
        ensures place { IfSome result (λ found. place_of reading.new ≡ found.0) }
        ensures ahead { place_of reading.old ≤ place_of reading.new }
    {
        'reads: loop {
            let at = first_reporting(
                &reading.states,
                reading.next,
                reading.count,
                self.tables.quiet,
            );
            if at < reading.count {
                reading.next = at + 1;
                return Some((reading.start + at + 1, usize::from(reading.states[at])));
            }
            if text.len() - reading.start == reading.count {
                return None;
            }
            self.read_on(text, reading);
        }
    }

    /// Reads the next states, after all known states are passed.
    #[inline(never)]
    fn read_on(&self, text: &[u8], reading: &mut Reading)
        requires reading { IsReading self.now text.now reading.old }
        requires more { reading.old.start + reading.old.count < length text.now }
        ensures reading { IsReading self.now text.now reading.new }
        ensures start { reading.new.start ≡ reading.old.start + reading.old.count }
        ensures next { reading.new.next ≡ 0 }
        ensures some { 0 < reading.new.count }
    {
        let list = self.index.list();
        list.normal_law();
        let start = reading.start + reading.count;
        let longest = list.longest();
        let count = self
            .tables
            .read_after(text, longest, start, &mut reading.states);
        reading.start = start;
        reading.count = count;
        reading.next = 0;
    }

    /// The output of a state of a position: its literals, in order.
    #[inline(always)]
    pub(crate) fn output_of(&self, state: usize) -> &[u16]
        requires made { self.now.is_made ≡ true }
        requires known { state < length self.now.lows }
        ensures { result.now ≡ output_of self.now state }
    {
        self.tables.output_at(state)
    }
}

/// The number of states to take room for: one for each byte of the literals and one more, at most `MOST_STATES`.
fn room_for(list: &LitList) -> usize
    ensures { result ≡ room_of list.now }
{
    let mut room = 1usize;
    for place in 0..list.len() {
        room = room.saturating_add(list.get(place).len()).min(MOST_STATES);
    }
    room
}
