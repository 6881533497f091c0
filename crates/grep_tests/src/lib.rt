//! Tests of runs of grep. They call what is public. A crate with tests is proved twice, with them and without, so these
//! stand in a crate of their own.
#![tactic(auto)]

mod borrowed_texts;
#[cfg(test)]
mod kept_files;
#[cfg(test)]
mod runs;

pub use borrowed_texts::{BorrowedTexts, Text};
