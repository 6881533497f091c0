//! Searches and scans by a finder give the same as by the plan alone; and a finder's choice of an engine.
mod choosing;
mod finding;
mod going_on;
mod owning;
mod scanned;
mod streamed;
