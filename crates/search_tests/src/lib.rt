//! Tests of scans, lines and workers. They make public calls. A crate with tests is proved twice, with them and
//! without, so these stand in a crate of their own.
#![tactic(auto)]

#[cfg(test)]
mod parts;
#[cfg(test)]
mod picking;
#[cfg(test)]
mod scanning;
