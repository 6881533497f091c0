//! Whether tables are right. However they were built, tables that pass give all ends, and no others.
ghost use Rattle.std.specs.Prelude.{◌≡◌, ◌↔◌, ◌⊎◌, ◌++◌, ◌∷◌, [], ℕ, ◌*◌, ◌<◌, ◌≤◌, IsTrue, length, slice_index, true};
ghost use Rattle.std.specs.List.Sorted.{IsStrictlyIncreasing};
ghost use Rattle.lit_base.specs.Folding.{folded};
ghost use Rattle.text_automaton.specs.Tables.{AreAsMany, AreClasses, AreRight, AreSized, IsChild, IsFail, IsOutputRight, IsSpelled, IsState, IsStep, output_at, step};

use crate::tables::{CLASSES, MOST_STATES, Tables};
use lit_base::{Fold, LitList, fold_byte};

impl Tables {
    /// Whether the tables are right for a list.
    pub fn are_right(&self, list: &LitList) -> bool
        ensures { IsTrue result → AreRight self.now list.now }
    {
        if !self.are_sized() {
            return false;
        }
        if !self.are_classes(list.fold()) || !self.are_states(list.len()) {
            return false;
        }
        self.are_spelled(list)
    }

    /// Whether each state has all its entries, and each entry is in range.
    fn are_sized(&self) -> bool
        ensures { IsTrue result → AreSized self.now }
    {
        let count = self.parents.len();
        self.are_as_many(count) && self.are_stepped(count) && self.are_known(count)
    }

    /// Whether all vectors have entries for `count` states, a number in range.
    fn are_as_many(&self, count: usize) -> bool
        requires { count ≡ length self.now.parents.items }
        ensures { IsTrue result → AreAsMany self.now }
    {
        count != 0
            && count <= MOST_STATES
            && self.rows.len() / CLASSES == count
            && self.rows.len() % CLASSES == 0
            && self.lasts.len() == count
            && self.fails.len() == count
            && self.owns.len() == count
            && self.lows.len() == count
            && self.highs.len() == count
    }

    /// Whether each byte leads to one of `count` states.
    fn are_stepped(&self, count: usize) -> bool
        ensures { IsTrue result → (i : ℕ) → i < length self.now.rows.items → slice_index self.now.rows.items i < count }
    {
        for place in 0..self.rows.len() {
            if self.rows[place] as usize >= count {
                return false;
            }
        }
        true
    }

    /// Whether each of `count` states has a parent and a failure link among them, and a range of the outputs.
    fn are_known(&self, count: usize) -> bool
        requires many { AreAsMany self.now }
        requires count { count ≡ length self.now.parents.items }
        ensures { IsTrue result → (state : ℕ) → state < count → (slice_index self.now.parents.items state < count) × (slice_index self.now.fails.items state < count)
            × (slice_index self.now.lows.items state ≤ slice_index self.now.highs.items state) × (slice_index self.now.highs.items state ≤ length self.now.outputs.items) }
    {
        for state in 0..count {
            let high = self.highs[state] as usize;
            if self.parents[state] as usize >= count
                || self.fails[state] as usize >= count
                || self.lows[state] as usize > high
                || high > self.outputs.len()
            {
                return false;
            }
        }
        true
    }

    /// Whether each byte has the class of its folded byte, and each class but 0 has one folded byte.
    fn are_classes(&self, fold: Fold) -> bool
        ensures { IsTrue result → AreClasses fold self.now.classes self.now.bytes }
    {
        for byte in 0..256usize {
            if !self.is_class(fold, byte) {
                return false;
            }
        }
        true
    }

    /// The same for one byte.
    fn is_class(&self, fold: Fold, byte: usize) -> bool
        requires { byte < 256 }
        ensures small { IsTrue result → slice_index self.now.classes byte < CLASSES }
        ensures folded { IsTrue result → slice_index self.now.classes byte ≡ slice_index self.now.classes (folded fold byte) }
        ensures own { IsTrue result → 0 < slice_index self.now.classes byte → slice_index self.now.bytes (slice_index self.now.classes byte) ≡ folded fold byte }
    {
        let folded = fold_byte(fold, byte as u8);
        let class = self.classes[byte] as usize;
        class < CLASSES
            && class == self.classes[folded as usize] as usize
            && (class == 0 || self.bytes[class] == folded)
    }

    /// Whether `to` stands for the prefix of a state with a byte of a class added.
    #[inline]
    fn is_child(&self, state: usize, class: usize, to: usize) -> bool
        requires sized { AreSized self.now }
        requires to { to < length self.now.parents.items }
        ensures { IsTrue result ↔ IsChild self.now state class to }
    {
        class != 0
            && to != 0
            && self.parents[to] as usize == state
            && self.lasts[to] as usize == class
    }

    /// Whether each state is right, for a list of `count` literals.
    fn are_states(&self, count: usize) -> bool
        requires { AreSized self.now }
        ensures { IsTrue result → (state : ℕ) → state < length self.now.parents.items → IsState self.now count state }
    {
        for state in 0..self.parents.len() {
            if !self.is_state(count, state) {
                return false;
            }
        }
        true
    }

    /// The same for one state.
    fn is_state(&self, count: usize, state: usize) -> bool
        requires sized { AreSized self.now }
        requires state { state < length self.now.parents.items }
        ensures { IsTrue result → IsState self.now count state }
    {
        self.is_row(state) && self.is_fail(state) && self.is_output_right(count, state)
    }

    /// Whether each byte leads from a state where it should.
    fn is_row(&self, state: usize) -> bool
        requires sized { AreSized self.now }
        requires state { state < length self.now.parents.items }
        ensures { IsTrue result → (class : ℕ) → class < CLASSES → IsStep self.now state class }
    {
        for class in 0..CLASSES {
            if !self.is_step(state, class) {
                return false;
            }
        }
        true
    }

    /// The same for one class of bytes.
    #[inline]
    fn is_step(&self, state: usize, class: usize) -> bool
        requires sized { AreSized self.now }
        requires state { state < length self.now.parents.items }
        requires class { class < CLASSES }
        ensures { IsTrue result → IsStep self.now state class }
    {
        let to = self.step(state, class);
        if self.is_child(state, class, to) {
            return true;
        }
        if state == 0 {
            return to == 0;
        }
        to == self.step(self.fail(state), class)
    }

    /// The failure link of a state: the state of the longest other prefix with which its own prefix ends.
    #[inline]
    fn fail(&self, state: usize) -> usize
        requires sized { AreSized self.now }
        requires state { state < length self.now.parents.items }
        ensures value { result ≡ slice_index self.now.fails.items state }
        ensures state { result < length self.now.parents.items }
    {
        self.fails[state] as usize
    }

    /// Whether the failure link of a state is right.
    fn is_fail(&self, state: usize) -> bool
        requires sized { AreSized self.now }
        requires state { state < length self.now.parents.items }
        ensures { IsTrue result → IsFail self.now state }
    {
        let parent = self.parents[state] as usize;
        if parent == 0 {
            return self.fail(state) == 0;
        }
        let class = self.lasts[state] as usize;
        class < CLASSES && self.fail(state) == self.step(self.fail(parent), class)
    }

    /// The output of a state: its literals.
    #[inline(always)]
    pub fn output_at(&self, state: usize) -> &[u16]
        requires sized { AreSized self.now }
        requires state { state < length self.now.parents.items }
        ensures { result.now ≡ output_at self.now state }
    {
        &self.outputs[self.lows[state] as usize..self.highs[state] as usize]
    }

    /// Whether a state has the right output, for a list of `count` literals.
    fn is_output_right(&self, count: usize, state: usize) -> bool
        requires sized { AreSized self.now }
        requires state { state < length self.now.parents.items }
        ensures { IsTrue result → IsOutputRight self.now count state }
    {
        let output = self.output_at(state);
        self.is_own(count, state)
            && self.adds_own(count, state, output)
            && is_rising(output)
            && (state < self.quiet) == output.is_empty()
    }

    /// Whether the literal that a state spells, if there is one, has this state.
    fn is_own(&self, count: usize, state: usize) -> bool
        requires sized { AreSized self.now }
        requires state { state < length self.now.parents.items }
        ensures { IsTrue result → slice_index self.now.owns.items state < count → slice_index self.now.ends.items (slice_index self.now.owns.items state) ≡ state }
    {
        let own = self.owns[state] as usize;
        own >= count || own < self.ends.len() && self.ends[own] as usize == state
    }

    /// Whether the output of a state is the output of its failure link and the literal that it spells, if there is one.
    fn adds_own(&self, count: usize, state: usize, output: &[u16]) -> bool
        requires sized { AreSized self.now }
        requires state { state < length self.now.parents.items }
        requires output { output.now ≡ output_at self.now state }
        ensures first { IsTrue result → state ≡ 0 → output_at self.now state ≡ [] }
        ensures others { IsTrue result → 0 < state → ((slice_index self.now.owns.items state < count) × (output_at self.now state ≡ output_at self.now (slice_index self.now.fails.items state) ++ slice_index self.now.owns.items state ∷ []))
            ⊎ ((count ≤ slice_index self.now.owns.items state) × (output_at self.now state ≡ output_at self.now (slice_index self.now.fails.items state))) }
    {
        if state == 0 {
            return output.is_empty();
        }
        let others = self.output_at(self.fail(state));
        let own = self.owns[state] as usize;
        if own < count {
            is_with(output, others, own)
        } else {
            output == others
        }
    }

    /// Whether each literal of a list is spelled.
    fn are_spelled(&self, list: &LitList) -> bool
        requires sized { AreSized self.now }
        requires classes { AreClasses list.now.folding self.now.classes self.now.bytes }
        ensures { IsTrue result → (place : ℕ) → place < length list.now.texts → IsSpelled self.now list.now place }
    {
        for place in 0..list.len() {
            if !self.is_spelled(list, place) {
                return false;
            }
        }
        true
    }

    /// The same for one literal.
    fn is_spelled(&self, list: &LitList, place: usize) -> bool
        requires sized { AreSized self.now }
        requires classes { AreClasses list.now.folding self.now.classes self.now.bytes }
        requires place { place < length list.now.texts }
        ensures { IsTrue result → IsSpelled self.now list.now place }
    {
        let literal = list.get(place);
        let mut state = 0;
        for at in 0..literal.len() {
            let class = self.classes[literal[at] as usize] as usize;
            if class >= CLASSES {
                return false;
            }
            let next = self.step(state, class);
            if !self.is_child(state, class, next) || self.bytes[class] != literal[at] {
                return false;
            }
            state = next;
        }
        place < self.ends.len()
            && self.ends[place] as usize == state
            && self.owns[state] as usize == place
    }
}

/// Whether a list of literals is another list with one more at its end.
fn is_with(output: &[u16], others: &[u16], own: usize) -> bool
    ensures { IsTrue result → output.now ≡ others.now ++ own ∷ [] }
{
    match output.split_last() {
        Some((last, rest)) => usize::from(*last) == own && rest == others,
        None => false,
    }
}

/// Whether literals stand in order, each once.
fn is_rising(output: &[u16]) -> bool
    ensures { IsTrue result → IsStrictlyIncreasing output.now }
{
    for place in 1..output.len() {
        if output[place - 1] >= output[place] {
            return false;
        }
    }
    true
}
