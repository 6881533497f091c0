//! Lists of literals, folding and costs, with the devices of `byte_io`.
#![tactic(auto)]

mod costs;
mod fault;
mod flags;
mod fold;
mod laws;
mod limits;
mod lines;
mod lit_list;
mod literal;
mod normal_form;
mod occurrences;
mod patterns;
mod profile;
mod raw_list;

pub use byte_io::{
    ByteIn, ByteOut, CutIn, CutOut, Failed, FileOrInput, FromRead, MAX_TURNS, ReadError, ToWrite,
    read_to_end, write_all,
};
pub use costs::{Ends, assign_cost, cost, cut_cost, is_assignment, is_cut, run_cost, weight};
pub use fault::Fault;
pub use flags::{flags_of, fold_and_profile, fold_of, profile_of};
pub use fold::{Fold, fold_byte};
pub use laws::{assignment_law, cut_law, limits_law, potentials_law, run_cost_law};
pub use limits::{
    MAX_BUCKETS, MAX_LIST_LEN, MAX_LITERAL_LEN, MAX_LITERALS, MAX_PATTERNS, MAX_TEXT_LEN,
};
pub use lines::{Lines, ended_law, lines_law, matching_law};
pub use lit_list::{LitList, Normal};
pub use normal_form::normal_form_law;
pub use occurrences::hits_law;
pub use profile::{Profile, buckets};
pub use raw_list::RawList;
