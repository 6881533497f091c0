//! What a search uses of a list of literals: the list, with tables by which the literals that end at a position are
//! found.
#![tactic(auto)]

mod alone;
mod endings;
mod index;
mod suffixes;
mod tuning;

pub use endings::Endings;
pub use index::ListIndex;
pub use suffixes::{
    case_bits, has_bit, hash_of, last_word, masked_key, set_hash_bit, suffix_key, word_before,
};
