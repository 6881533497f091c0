//! The search by factors: masks and hash bits of literals by some of their bytes, which are rare in a given text.
#![tactic(auto)]

mod choosing;
mod counts;
mod factor_ends;
mod factors;
mod grouping;
mod hash_bits;
mod prices;
mod probing;
mod tuning;
mod widths;

pub use factor_ends::FactorEnds;
pub use factors::Factors;
pub use tuning::MASKS_COST;
