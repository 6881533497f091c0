//! The ends of literals in a text, and the hits there: the interface that each engine of a search has, and the one loop
//! over ends, which works with every engine.
#![tactic(auto)]

mod ends;
mod hit;
mod hits;
mod rate;
mod tally;

pub use ends::{EndWalk, add_hits_of};
pub use hit::Hit;
pub use hits::{add_hits_at, hit_of};
pub use rate::EndRate;
pub use tally::Tally;
