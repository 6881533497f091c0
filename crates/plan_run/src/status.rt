//! How a run ends.
ghost use Rattle.std.specs.Prelude.{◌≡◌};
ghost use Rattle.plan_run.specs.Statuses.{code_of};

/// How a run ends.
#[derive(Clone, Copy, Debug, PartialEq, Eq)]
pub enum Status {
    /// There is a plan, a plan file, a certificate that holds, or a scan: 0.
    Done,
    /// A certificate does not hold: 1.
    NotCertified,
    /// An input that is explained is wrong: 1.
    Wrong,
    /// There is a message in place of an answer: 2.
    Trouble,
}

impl Status {
    /// The status that the program exits with.
    pub fn code(self) -> u8
        ensures { result ≡ code_of self }
    {
        match self {
            Status::Done => 0,
            Status::NotCertified => 1,
            Status::Wrong => 1,
            Status::Trouble => 2,
        }
    }
}
