//! Tests of the filter and of the engines under a scan. They make public calls. A crate with tests is proved twice,
//! with them and without, so these stand in a crate of their own; it waits for no crate that scans.
#![tactic(auto)]

#[cfg(test)]
mod automata;
#[cfg(test)]
mod factors;
#[cfg(test)]
mod filtering;
#[cfg(test)]
mod prices;
