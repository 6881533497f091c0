//! The Aho-Corasick automaton of a list: it gives, at each position of a text, the literals that end there.
#![tactic(auto)]

mod automaton;
mod automaton_ends;
mod checking;
mod making;
mod reading;
mod reporting;
mod table_state;
mod tables;

pub use automaton::Automaton;
pub use automaton_ends::AutomatonEnds;
pub use reading::BLOCK;
