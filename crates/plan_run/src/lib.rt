//! A run of litplan: from a request and the files that there are to output, a message and a status. `plan_pack` reads
//! the files and makes plan files.
#![tactic(auto)]

mod checking;
mod explaining;
mod flaws;
mod listing;
mod making;
mod message;
mod planning;
mod reporting;
mod request;
mod running;
mod scanning;
mod spans;
mod status;
mod stop;
mod workers;

pub use message::say;
pub use plan_pack::{
    Fault, Notation, PatternFiles, Reading, Refusal, Unmade, hex_law, migrate, migrate_file, pack,
};
pub use request::{
    CheckRequest, ExplainRequest, HitLine, Listing, PackRequest, PlanRequest, Request, ScanRequest,
    View,
};
pub use running::{answer, run};
pub use status::Status;
pub use stop::Stop;
pub use workers::Workers;
