//! Reading a text: the state at each position.
ghost use Rattle.std.specs.Prelude.{◌≡◌, ℕ, ◌+◌, ◌-◌, ◌*◌, ◌<◌, ◌≤◌, length, min, slice_index};
ghost use Rattle.text_automaton.specs.Prefixes.{IsRead};
ghost use Rattle.text_automaton.specs.Tables.{AreSized, HaveClasses, step};

use crate::reporting::STATES;
use crate::tables::Tables;

/// The number of lanes, one after the other in the text. A step has to wait for the state before it; meanwhile the
/// other lanes advance. Measured in C: 2.4 to 2.8 ns a byte with one lane, 1.6 with two, 0.9 with four.
const LANES: usize = 4;

/// The number of positions read at once, if the text has as many: a search may read as many past the end that it
/// gives. Not varied.
pub const BLOCK: usize = 4096;

/// Room for the states of a block. A comparison of `STATES` states may read past the last of them.
pub(crate) const ROOM: usize = BLOCK + STATES;

/// The states of some positions of a text, and how many of them are passed.
#[derive(Debug, Drop)]
pub(crate) struct Reading {
    pub states: [u16; ROOM],
    /// The position before the first of them.
    pub start: usize,
    /// How many there are.
    pub count: usize,
    /// How many of them are passed.
    pub next: usize,
}

impl Tables {
    /// The state to which a byte leads from a state.
    #[inline(always)]
    fn next_state(&self, state: usize, byte: u8) -> usize
        requires sized { AreSized self.now }
        requires classes { HaveClasses self.now }
        requires state { state < length self.now.parents.items }
        ensures value { result ≡ step self.now state (slice_index self.now.classes byte) }
        ensures state { result < length self.now.parents.items }
    {
        self.step(state, usize::from(self.classes[usize::from(byte)]))
    }

    /// The state of a position, for literals of at most `longest` bytes.
    #[inline]
    fn state_at(&self, text: &[u8], longest: usize, place: usize) -> usize
        requires sized { AreSized self.now }
        requires classes { HaveClasses self.now }
        requires inside { place ≤ length text.now }
        ensures { IsRead self.now text.now longest place result }
    {
        let from = place.saturating_sub(longest);
        let mut state = 0;
        for before in from..place {
            state = self.next_state(state, text[before]);
        }
        state
    }

    /// The states of the positions after `start`, up to a block or the end of the text. Returns their number.
    pub fn read_after(
        &self,
        text: &[u8],
        longest: usize,
        start: usize,
        states: &mut [u16; ROOM],
    ) -> usize
        requires sized { AreSized self.now }
        requires classes { HaveClasses self.now }
        requires inside { start ≤ length text.now }
        ensures count { result ≡ min BLOCK (length text.now - start) }
        ensures states { (at : ℕ) → at < result → IsRead self.now text.now longest (start + at + 1) (slice_index states.new at) }
    {
        let count = (text.len() - start).min(BLOCK);
        let lane = count / LANES;
        // Each lane first reads as many bytes as the longest literal has.
        if lane <= longest {
            self.read_rest(text, longest, start, 0, count, states);
            return count;
        }
        self.read_lanes(text, longest, start, lane, states);
        self.read_rest(text, longest, start, LANES * lane, count, states);
        count
    }

    /// The states of the positions after `start`, one after the other, where the first states are known.
    fn read_rest(
        &self,
        text: &[u8],
        longest: usize,
        start: usize,
        known: usize,
        count: usize,
        states: &mut [u16; ROOM],
    )
        requires sized { AreSized self.now }
        requires classes { HaveClasses self.now }
        requires inside { start + count ≤ length text.now }
        requires few { count ≤ BLOCK }
        requires begun { known ≤ count }
        requires before { (at : ℕ) → at < known → IsRead self.now text.now longest (start + at + 1) (slice_index states.old at) }
        ensures { (at : ℕ) → at < count → IsRead self.now text.now longest (start + at + 1) (slice_index states.new at) }
    {
        if known == count {
            return;
        }
        let mut state = self.state_at(text, longest, start + known);
        for at in known..count {
            state = self.next_state(state, text[start + at]);
            states[at] = state as u16;
        }
    }

    /// The states of four lanes of `lane` positions each, which follow each other.
    fn read_lanes(
        &self,
        text: &[u8],
        longest: usize,
        start: usize,
        lane: usize,
        states: &mut [u16; ROOM],
    )
        requires sized { AreSized self.now }
        requires classes { HaveClasses self.now }
        requires few { LANES * lane ≤ BLOCK }
        requires inside { start + LANES * lane ≤ length text.now }
        ensures { (at : ℕ) → at < LANES * lane → IsRead self.now text.now longest (start + at + 1) (slice_index states.new at) }
    {
        let mut first = self.state_at(text, longest, start);
        let mut second = self.state_at(text, longest, start + lane);
        let mut third = self.state_at(text, longest, start + 2 * lane);
        let mut fourth = self.state_at(text, longest, start + 3 * lane);
        'lanes: for at in 0..lane {
            first = self.next_state(first, text[start + at]);
            second = self.next_state(second, text[start + lane + at]);
            third = self.next_state(third, text[start + 2 * lane + at]);
            fourth = self.next_state(fourth, text[start + 3 * lane + at]);
            states[at] = first as u16;
            states[lane + at] = second as u16;
            states[2 * lane + at] = third as u16;
            states[3 * lane + at] = fourth as u16;
        }
    }
}
