//! Tests of plan files, of the store of plans, and of loading the one into the other. They make public calls. A crate
//! with tests is proved twice, with them and without, so these stand in a crate of their own.
#![tactic(auto)]

#[cfg(test)]
mod loads;
#[cfg(test)]
mod plan_files;
#[cfg(test)]
mod stores;
