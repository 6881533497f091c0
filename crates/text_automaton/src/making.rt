//! How tables are made. Nothing here decides whether they are right: that is checked.
ghost use Rattle.std.specs.Prelude.{◌<◌};

use crate::tables::{CLASSES, MOST_OUTPUTS, MOST_STATES, NONE, Tables};
use lit_base::{LitList, MAX_LITERALS, fold_byte};

impl Tables {
    /// Builds the tables of a list, in empty ones. `None` if it has more than `MOST_STATES` prefixes, `CLASSES - 1`
    /// bytes or `MOST_OUTPUTS` outputs over all states.
    pub fn make(&mut self, list: &LitList) -> Option<()> {
        self.class_bytes(list)?;
        self.ends.resize(list.len(), 0).ok()?;
        // The first state stands for the empty prefix.
        self.add_state(0, 0, 0)?;
        self.grow(list)?;
        self.note_outputs()?;
        self.partition_quiet();
        Some(())
    }

    /// Gives each byte of a literal a class, and those that are folded to it the same.
    fn class_bytes(&mut self, list: &LitList) -> Option<()> {
        let mut is_used = [false; 256];
        for place in 0..list.len() {
            for byte in list.get(place) {
                is_used[*byte as usize] = true;
            }
        }
        let mut class = 0usize;
        for byte in 0..256usize {
            if is_used[byte] {
                class = class.saturating_add(1);
                if class >= CLASSES {
                    return None;
                }
                self.classes[byte] = class as u8;
                self.bytes[class] = byte as u8;
            }
        }
        for byte in 0..256usize {
            let folded = fold_byte(list.fold(), byte as u8);
            self.classes[byte] = self.classes[folded as usize];
        }
        Some(())
    }

    /// Adds a state, if there is room for it.
    fn add_state(&mut self, parent: u16, class: u8, fail: u16) -> Option<u16> {
        let state = self.parents.len();
        if state >= MOST_STATES {
            return None;
        }
        self.parents.push(parent).ok()?;
        self.lasts.push(class).ok()?;
        self.fails.push(fail).ok()?;
        self.owns.push(NONE).ok()?;
        self.rows.resize(CLASSES * (state + 1), 0).ok()?;
        Some(state as u16)
    }

    /// Adds the states of all prefixes, by increasing length.
    fn grow(&mut self, list: &LitList) -> Option<()> {
        let mut current = [0u16; MAX_LITERALS];
        let mut first = 0;
        let mut longer = 0;
        for len in 0..MOST_STATES {
            let last = self.parents.len();
            self.copy_fail_rows(first, last);
            if first == last {
                return Some(());
            }
            longer = first_longer(list, longer, len);
            self.lengthen(list, longer, len, last, &mut current)?;
            first = last;
        }
        None
    }

    /// Each byte leads from these states where it leads from their failure links, until a longer prefix is added.
    fn copy_fail_rows(&mut self, first: usize, last: usize) {
        for state in first.max(1)..last {
            let from = CLASSES * usize::from(at(&self.fails, state));
            let to = state.saturating_mul(CLASSES);
            if from + CLASSES <= self.rows.len() && to <= self.rows.len() - CLASSES {
                self.rows.copy_within(from..from + CLASSES, to);
            }
        }
    }

    /// Adds the states of the prefixes with one byte more than `len`; `last` is the first of them. The literals before
    /// `longer` have no more bytes.
    fn lengthen(
        &mut self,
        list: &LitList,
        longer: usize,
        len: usize,
        last: usize,
        current: &mut [u16; MAX_LITERALS],
    ) -> Option<()> {
        for place in longer..list.len() {
            let literal = list.get(place);
            if len < literal.len() {
                let state = self.longer(current[place], literal[len], last)?;
                current[place] = state;
                if literal.len() - len == 1 {
                    put(
                        &mut self.owns,
                        usize::from(state),
                        u16::try_from(place).ok()?,
                    );
                    put(&mut self.ends, place, state);
                }
            }
        }
        Some(())
    }

    /// The state of a prefix with a byte added; a new state, unless there is one from `last` on.
    fn longer(&mut self, state: u16, byte: u8, last: usize) -> Option<u16> {
        let class = self.classes[usize::from(byte)];
        let slot = CLASSES * usize::from(state) + usize::from(class);
        let to = at(&self.rows, slot);
        if usize::from(to) >= last {
            return Some(to);
        }
        let longer = self.add_state(state, class, to)?;
        put(&mut self.rows, slot, longer);
        Some(longer)
    }

    /// Lists the output of each state: the output of its failure link, and the literal that it spells.
    fn note_outputs(&mut self) -> Option<()> {
        for state in 0..self.parents.len() {
            let low = u16::try_from(self.outputs.len()).ok()?;
            let fail = usize::from(at(&self.fails, state));
            for place in at(&self.lows, fail)..at(&self.highs, fail) {
                let literal = at(&self.outputs, usize::from(place));
                self.note_output(literal)?;
            }
            let own = at(&self.owns, state);
            if own != NONE {
                self.note_output(own)?;
            }
            self.lows.push(low).ok()?;
            self.highs
                .push(u16::try_from(self.outputs.len()).ok()?)
                .ok()?;
        }
        Some(())
    }

    /// Adds a literal to the outputs.
    fn note_output(&mut self, literal: u16) -> Option<()> {
        if self.outputs.len() >= MOST_OUTPUTS {
            return None;
        }
        self.outputs.push(literal).ok()
    }

    /// Moves the states with output after the states without.
    fn partition_quiet(&mut self) {
        let mut names = [0u16; MOST_STATES];
        for state in 0..MOST_STATES {
            names[state] = state as u16;
        }
        let mut low = 0;
        let mut high = self.parents.len().min(MOST_STATES);
        while low < high {
            if self.is_quiet(low) {
                low += 1;
            } else {
                high -= 1;
                if self.is_quiet(high) {
                    self.swap(low, high);
                    names[low] = high as u16;
                    names[high] = low as u16;
                }
            }
        }
        self.quiet = low;
        rename(&mut self.rows, &names);
        rename(&mut self.parents, &names);
        rename(&mut self.fails, &names);
        rename(&mut self.ends, &names);
    }

    /// Whether a state has no output.
    fn is_quiet(&self, state: usize) -> bool {
        at(&self.lows, state) == at(&self.highs, state)
    }

    /// Lets two states change places.
    fn swap(&mut self, one: usize, other: usize)
        requires one { one < 65536 }
        requires other { other < 65536 }
    {
        for class in 0..CLASSES {
            swap(
                &mut self.rows,
                CLASSES * one + class,
                CLASSES * other + class,
            );
        }
        swap(&mut self.parents, one, other);
        if one < self.lasts.len() && other < self.lasts.len() {
            self.lasts.swap(one, other);
        }
        swap(&mut self.fails, one, other);
        swap(&mut self.owns, one, other);
        swap(&mut self.lows, one, other);
        swap(&mut self.highs, one, other);
    }
}

/// The number at a place, or 0 past the end.
fn at(numbers: &[u16], place: usize) -> u16 {
    numbers.get(place).copied().unwrap_or(0)
}

/// Puts a number at a place, unless that is past the end.
fn put(numbers: &mut [u16], place: usize, number: u16) {
    if place < numbers.len() {
        numbers[place] = number;
    }
}

/// Lets two numbers change places, if neither is past the end.
fn swap(numbers: &mut [u16], one: usize, other: usize) {
    if one < numbers.len() && other < numbers.len() {
        numbers.swap(one, other);
    }
}

/// Gives each state that stands there its new number.
fn rename(states: &mut [u16], names: &[u16; MOST_STATES]) {
    for place in 0..states.len() {
        let state = usize::from(states[place]);
        if state < MOST_STATES {
            states[place] = names[state];
        }
    }
}

/// The first literal from a place on with more bytes than `len`. The list is sorted by length.
fn first_longer(list: &LitList, from: usize, len: usize) -> usize {
    for place in from..list.len() {
        if len < list.get(place).len() {
            return place;
        }
    }
    list.len()
}
