//! Tests of the crates that every search stands on: devices, lists and costs, certificates, plans, masks. They make
//! public calls. A crate with tests is proved twice, with them and without, so these stand in a crate of their own.
#![tactic(auto)]

#[cfg(test)]
mod borrowed_files;
#[cfg(test)]
mod checking;
#[cfg(test)]
mod costs;
#[cfg(test)]
mod keeping_asks;
#[cfg(test)]
mod limits;
#[cfg(test)]
#[cfg(test)]
mod lit_lists;
#[cfg(test)]
mod masks;
#[cfg(test)]
mod planning;
#[cfg(test)]
mod raw_lists;
#[cfg(test)]
mod reading;
#[cfg(test)]
mod system_files;
#[cfg(test)]
mod transfers;
