//! The library for C programs: each export calls the proved libraries and states their clauses again. `fiolargu.h`
//! describes the exports to C programmers, with the rules that a caller keeps.
//!
//! A status is a number of the refusals of all crates, or 0. No export has a `requires`.
#![tactic(auto)]

mod files;
mod making;
mod plans;
mod scans;
mod statuses;
mod streams;
#[cfg(test)]
mod tests;
mod views;

pub use statuses::statuses_law;
