//! How a run of the server ends.
ghost use Rattle.std.specs.Prelude.{◌≡◌};
ghost use Rattle.scan_run.specs.Statuses.{code_of, status_of};

use scan_serve::Ended;

/// How a run of the server ends.
#[derive(Clone, Copy, Debug, PartialEq, Eq)]
pub enum Status {
    /// Every stream ended between frames, and all was answered: 0.
    Clean,
    /// A stream ended otherwise: 1.
    Unclean,
    /// The one stream was given up for want of memory: 1.
    OutOfMemory,
    /// An error, with a message where one could be written: 2.
    Trouble,
}

impl Status {
    /// The status that the program exits with.
    pub fn code(self) -> u8
        ensures { result ≡ code_of self }
    {
        match self {
            Status::Clean => 0,
            Status::Unclean | Status::OutOfMemory => 1,
            Status::Trouble => 2,
        }
    }
}

impl From<Ended> for Status {
    ghost from_gives = { λ ended status. status ≡ status_of ended };

    fn from(ended: Ended) -> Status {
        match ended {
            Ended::Clean => Status::Clean,
            Ended::OutOfMemory => Status::OutOfMemory,
            _ => Status::Unclean,
        }
    }
}
