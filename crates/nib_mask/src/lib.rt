//! The filter of a packed search: small tables that rule out most positions of a text by three bytes each. The search
//! for many literals rests on it.
//!
//! Theorem: the filter passes every occurrence of a literal.
#![tactic(auto)]

mod byte_masks;
mod candidates;
mod fingerprint;
mod half;
mod masks;
mod prefixes;

pub use byte_masks::ByteMasks;
pub use candidates::candidate_law;
pub use masks::{Masks, plain_byte, value_at};
pub use prefixes::prefix_at;
