//! Vectors of 32 bytes, lane by lane, and tests of many positions of a text at once by them: tests of the ends of
//! literals, 64 or 128 at a time, by the tables of a filter or by bytes. It knows no literals. `filter` and
//! `any_set` work on slices; no search calls them.
//!
//! Theorems: `skip_unmarked` skips no position that a test lets pass. The mask of `Nibbles` has exactly those of 64
//! positions that its tables let pass. `filter` writes the filter number of each position, for each length.
#![tactic(auto)]

mod all_of;
mod any_of;
mod bits;
mod byte_turns;
mod end_test;
mod entries;
mod kernels;
mod lanes;
mod nibbles;
mod one_by_one;
mod skipping;
mod tables;
mod tuning;
mod wide_lanes;

pub use all_of::AllOf;
pub use any_of::AnyOf;
pub use bits::{below_bit, from_bit, split_lowest};
pub use byte_turns::Turn;
pub use end_test::EndTest;
pub use kernels::{any_set, filter};
pub use lanes::{any_lane_of, both, equal_bits, load, load_64, value_where, with_bits};
pub use nibbles::Nibbles;
pub use skipping::skip_unmarked;
