//! A store of plans that threads share without a lock: it only grows, and who has a plan's ticket
//! reads that plan for good.
#![tactic(auto)]

mod fault;
mod laws;
mod store;
mod ticket;

pub use fault::Fault;
pub use laws::{
    Met, each_finds_the_other, numbers_are_apart, published_beside_a_find, published_is_found,
    published_is_shown, published_is_there,
};
pub use store::PlanStore;
pub use ticket::Ticket;
