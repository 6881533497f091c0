//! The selected lines of a text that comes in pieces, emitted one by one with their numbers.
#![tactic(auto)]

mod emitting;
mod fault;
mod halt;
mod matcher;
mod open_line;
mod picker;
mod progress;
mod sink;
mod state;
mod text_emitting;
mod tuning;
mod whole_lines;

pub use fault::Fault;
pub use matcher::{LineRule, is_in_lines, standing_law};
pub use picker::Picker;
pub use sink::{Next, Sink};
pub use state::State;
