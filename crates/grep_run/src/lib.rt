//! A run of grep: from options and what they name to output, messages and a status. POSIX.1-2017 `grep`
//! with -F, in the POSIX locale.
#![tactic(auto)]

mod block;
mod compiled_patterns;
mod message;
mod names;
mod options;
mod patterns;
mod request;
mod running;
mod scanning;
mod searcher;
mod status;
mod tuning;

pub use byte_io::{Missing, Opener};
pub use options::GrepOptions;
pub use running::{answer, run};
pub use status::{Status, Stop};
