//! Plans: literals with a certificate that no grouping of them is cheaper, and with the prefilter that belongs to it.
#![tactic(auto)]

mod compiled;
mod fault;
mod overlap;

pub use compiled::{Compiled, least_law};
pub use fault::Fault;
pub use overlap::carry;
