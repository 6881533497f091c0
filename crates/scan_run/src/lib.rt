//! The run of the scan server: sessions over one store of plans, each served over a stream of frames.
#![tactic(auto)]

mod alone;
mod answering;
mod connection;
mod connections;
mod feeding;
mod listening;
mod loaded_store;
mod loading;
mod loading_files;
mod message;
mod port;
mod report;
mod sending;
mod serving;
mod status;

pub use alone::serve_alone;
pub use connections::{Connections, MAX_CONNECTIONS, connections_law};
pub use listening::listen;
pub use loaded_store::LoadedStore;
pub use loading::{load_named, load_plans, load_tickets};
pub use loading_files::load_files;
pub use plan_file::Fault;
pub use port::say_port;
pub use scan_serve::Ended;
pub use serving::{serve, serve_loaded, serve_session};
pub use status::Status;
