//! The planner. It finds the cheapest cut of a list of literals into runs, the first among equals, and the exact
//! potentials which show that nothing is cheaper. It computes the price of few runs.
#![tactic(auto)]

mod fault;
mod first_cut;
mod meter;
mod planning;
mod split_row;
mod tail_row;

pub use fault::Fault;
pub use meter::{ListMeter, Meter};
pub use planning::{plan, plan_counted};
