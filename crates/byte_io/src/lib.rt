//! The devices that bytes come from and go to, and the numbers in texts that are written.
#![tactic(auto)]

mod borrowed_files;
mod cut_device;
mod device;
mod files;
mod limits;
mod numbers;
mod opener;
mod std_device;
mod system_files;
mod transfer;

pub use borrowed_files::BorrowedFiles;
pub use cut_device::{CutIn, CutOut};
pub use device::{ByteIn, ByteOut, Failed};
pub use files::Files;
pub use limits::{MAX_TURNS, turns_law};
pub use numbers::push_number;
pub use opener::{Missing, Opener, open_operand};
pub use std_device::{FileOrInput, FromRead, ToWrite};
pub use system_files::SystemFiles;
pub use transfer::{ReadError, read_to_end, say_text, write_all};
