//! How far the tables of an automaton are.
ghost use Rattle.std.specs.Prelude.{◌≡◌};
ghost use Rattle.text_automaton.specs.TableStates.{has_tables};

/// How far the tables of an automaton are.
#[derive(Clone, Copy, Debug, PartialEq, Eq)]
pub(crate) enum TableState {
    /// They were not requested yet.
    Missing,
    /// They were made, and are right.
    Made,
    /// They were requested, and refused: the list has too many prefixes, bytes or outputs for them, or the check found
    /// them wrong.
    Refused,
}

impl TableState {
    /// The state after the tables were requested, and are right or not.
    pub fn after(are_right: bool) -> TableState
        ensures { has_tables result ≡ are_right }
    {
        if are_right {
            TableState::Made
        } else {
            TableState::Refused
        }
    }

    /// Whether they were made.
    pub fn is_made(self) -> bool
        ensures { result ≡ has_tables self }
    {
        match self {
            TableState::Made => true,
            TableState::Missing | TableState::Refused => false,
        }
    }
}
