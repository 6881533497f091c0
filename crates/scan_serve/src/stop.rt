//! Why answering ends before the input does.
ghost use Rattle.std.specs.Prelude.{◌≡◌};

use crate::ended::Ended;
use scan_wire::Cause;

/// What keeps replies from being written.
#[derive(Clone, Copy, Debug, PartialEq, Eq)]
pub enum Stop {
    /// A write failed.
    WriteFault,
    /// A growth was refused.
    OutOfMemory,
}

impl From<Stop> for Ended {
    ghost use Rattle.scan_serve.specs.Stops.{ended_by};
    ghost use Rattle.std.specs.Prelude.{◌≡◌};

    ghost from_gives = { λ stop e. e ≡ ended_by stop };

    fn from(stop: Stop) -> Ended {
        match stop {
            Stop::WriteFault => Ended::WriteFault,
            Stop::OutOfMemory => Ended::OutOfMemory,
        }
    }
}

/// What ends a turn of answering.
#[derive(Clone, Copy, Debug, PartialEq, Eq)]
pub enum Halt {
    /// The next frame is bad.
    Bad(Cause),
    /// The replies cannot be written.
    Stopped(Stop),
}

impl From<Stop> for Halt {
    ghost use Rattle.scan_serve.specs.declared.stop.Halt.TheVariants.{Stopped};
    ghost use Rattle.std.specs.Prelude.{◌≡◌};

    ghost from_gives = { λ stop halt. halt ≡ Stopped stop };

    fn from(stop: Stop) -> Halt {
        Halt::Stopped(stop)
    }
}
