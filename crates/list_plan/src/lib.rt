//! From a list of literals to its compiled plan: planned, and ready for a scanner.
#![tactic(auto)]

mod compiling;

pub use compiling::compile;
