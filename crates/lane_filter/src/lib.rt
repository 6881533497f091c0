//! The prefilter of a packed search over many positions of a text at once, by the vectors of `byte_lanes`. For an only
//! literal it searches for one byte or three bytes, for two or three literals for two bytes of each.
//!
//! Theorems: the `Prefilter` of a list passes every occurrence. `Candidates` returns exactly the positions of a text
//! that a prefilter passes, in order and each once.
#![tactic(auto)]

mod candidates;
mod exact;
mod pair;
mod prefilter;
mod rare_byte;
mod triple;

pub use byte_lanes::{
    AllOf, AnyOf, EndTest, Nibbles, any_set, below_bit, filter, from_bit, split_lowest,
};
pub use candidates::Candidates;
pub use exact::{ByteTest, Exact};
pub use pair::{BytePair, pair_of};
pub use prefilter::Prefilter;
pub use rare_byte::RareByte;
pub use triple::{ByteTriple, triple_of};
