//! Scans byte streams for many literals at once. A scan gives every occurrence, each once and in order, however the
//! stream is cut.
#![tactic(auto)]

mod boundary;
mod progress;
mod scanner;
mod scanning;
mod stream;
mod tuned_plan;

pub use lit_plan::{Compiled, Fault, least_law};
pub use scanner::Scanner;
pub use scanning::{pieces_law, scan_after, scan_all, scan_pieces, scan_until};
pub use stream::Stream;
pub use text_ends::Hit;
pub use text_search::{
    EndFinder, HitSearch, LEAST_SAMPLE, LEAST_WITH_FINDER, MOST_WITHOUT_FINDER, PrefilterSearch,
    TextSearch, first_end_after, make_if_long, next_end_by,
};
pub use tuned_plan::TunedPlan;

#[cfg(test)]
mod tests;
