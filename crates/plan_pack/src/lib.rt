//! From files to plans, and from plans to plan files: it reads files of patterns, in bytes or in hexadecimal, plan files
//! and certificates; it plans lists, and writes or migrates plans. It knows no request, no standard output and no status.
//!
//! Theorems: over known files `pack` makes the plan file of the lists that were read, in order. `migrate_file` makes
//! the plan file of the plans that were read, each planned anew for sixteen buckets.
#![tactic(auto)]

mod fault;
mod migrating;
mod notation;
mod packing;
mod pattern_files;
mod patterns;
mod planning;
mod reading;
mod stop;

pub use fault::Fault;
pub use migrating::{migrate, migrate_file};
pub use notation::{Notation, Reading};
pub use packing::{Unmade, pack, stop_of};
pub use pattern_files::PatternFiles;
pub use patterns::hex_law;
pub use planning::plan_of;
pub use reading::{certificate_of, list_of, placed_list_of, plan_at, plans_of, text_of};
pub use stop::{Refusal, Stop};
