//! Tests of frames and sessions. They make public calls. A crate with tests is proved twice, with them and without, so
//! these stand in a crate of their own.
#![tactic(auto)]

#[cfg(test)]
mod frames;
#[cfg(test)]
mod sessions;
