//! Certificates that a grouping of literals is the cheapest one: their text, and the check.
#![tactic(auto)]

mod certificate;
mod checking;
mod dividing;
mod fault;
mod parsing;
mod reading;
mod reason;
mod writing;

pub use certificate::Certificate;
pub use checking::{certified_law, check};
pub use fault::Fault;
pub use reading::read_cert;
pub use reason::Reason;
pub use writing::write_cert;
