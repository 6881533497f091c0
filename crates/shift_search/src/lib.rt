//! The search by shift-or over buckets of literals: the bytes before an end rule it out.
#![tactic(auto)]

mod blocks;
mod bucket_checks;
mod entries;
mod joining;
mod prices;
mod probes;
mod probing;
mod runs;
mod shift_or;
mod shift_or_ends;
mod tuning;

pub use runs::cut_runs;
pub use shift_or::ShiftOr;
pub use shift_or_ends::ShiftOrEnds;
pub use tuning::STRIDE_TWO_COST;
