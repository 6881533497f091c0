//! The tables of an automaton.
//!
//! A state stands for a prefix of literals. The prefix itself is not stored: it is the bytes that lead there from the
//! first state, which stands for the empty prefix. Each other state knows its parent state, and the class of its last
//! byte.
ghost use Rattle.std.specs.Prelude.{◌≡◌, ◌+◌, ◌*◌, ◌<◌, ◌≤◌, length, slice_index};
ghost use Rattle.text_automaton.specs.Tables.{AreSized};

use lit_base::MAX_LITERALS;
use std::alloc::{AllocError, Global};

/// The most classes of bytes, with the class of all bytes that no literal has.
pub(crate) const CLASSES: usize = 128;

/// A list whose literals have more prefixes gets no automaton: its rows would take more than eight megabytes. The rows
/// of 4,096 words of a text take five.
pub(crate) const MOST_STATES: usize = 32768;

/// A list with more outputs over all states gets none either; each state lists all literals that its prefix ends with.
pub(crate) const MOST_OUTPUTS: usize = 65535;

/// Stands for no literal.
pub(crate) const NONE: u16 = u16::MAX;

/// The states of an automaton. The states without output have the lower numbers.
#[derive(Debug, Drop)]
pub(crate) struct Tables {
    /// The class of each byte: 0 for a byte that no literal has.
    pub classes: [u8; 256],
    /// The folded byte of each class but 0.
    pub bytes: [u8; CLASSES],
    /// A row for each state: the next state, for each class of bytes.
    pub rows: Vec<u16>,
    /// The state of the prefix without its last byte, for each state.
    pub parents: Vec<u16>,
    /// The class of its last byte.
    pub lasts: Vec<u8>,
    /// The failure link: the state of the longest other prefix with which this one ends.
    pub fails: Vec<u16>,
    /// The literal that it spells, or `NONE`.
    pub owns: Vec<u16>,
    /// Where the output of a state begins in `outputs`, and where it ends.
    pub lows: Vec<u16>,
    pub highs: Vec<u16>,
    /// The outputs of all states, each in the order of the list.
    pub outputs: Vec<u16>,
    /// The state of each literal.
    pub ends: Vec<u16>,
    /// The number of states without output.
    pub quiet: usize,
}

impl Tables {
    /// Room for `room` states, none of them there yet. `Err` if memory is short.
    pub fn new(alloc: Global, room: usize) -> Result<Tables, AllocError>
        requires { room ≤ MOST_STATES }
    {
        Ok(Tables {
            classes: [0; 256],
            bytes: [0; CLASSES],
            rows: Vec::with_capacity(alloc, CLASSES * room)?,
            parents: Vec::with_capacity(alloc, room)?,
            lasts: Vec::with_capacity(alloc, room)?,
            fails: Vec::with_capacity(alloc, room)?,
            owns: Vec::with_capacity(alloc, room)?,
            lows: Vec::with_capacity(alloc, room)?,
            highs: Vec::with_capacity(alloc, room)?,
            outputs: Vec::with_capacity(alloc, MOST_OUTPUTS)?,
            ends: Vec::with_capacity(alloc, MAX_LITERALS)?,
            quiet: 0,
        })
    }

    /// The state to which a byte of a class leads from a state.
    #[inline(always)]
    pub fn step(&self, state: usize, class: usize) -> usize
        requires sized { AreSized self.now }
        requires state { state < length self.now.parents.items }
        requires class { class < CLASSES }
        ensures value { result ≡ slice_index self.now.rows.items (CLASSES * state + class) }
        ensures state { result < length self.now.parents.items }
    {
        self.rows[CLASSES * state + class] as usize
    }
}
