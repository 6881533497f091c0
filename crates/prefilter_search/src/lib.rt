//! The search by a prefilter alone: each position that it passes is compared with the literals.
#![tactic(auto)]

mod prefilter_ends;

pub use prefilter_ends::PrefilterEnds;
