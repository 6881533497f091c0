//! Searches of one text after another that choose the fastest engine for them. A choice changes the time of a search,
//! never its result.
#![tactic(auto)]

mod end_finder;
mod hit_search;
mod optional_finder;
mod prices;
mod sampling;
mod strategy;
mod text_search;
mod tuning;

pub use end_finder::EndFinder;
pub use hit_search::{HitSearch, PrefilterSearch};
pub use optional_finder::{make_if_long, next_end_by};
pub use strategy::Engine;
pub use text_search::{TextSearch, first_end_after};
pub use tuning::{LEAST_SAMPLE, LEAST_WITH_FINDER, MOST_WITHOUT_FINDER};

#[cfg(test)]
mod tests;
