//! Why a run stops before its answer is written.
ghost use Rattle.std.specs.Prelude.{◌≡◌, false};
ghost use Rattle.plan_run.specs.Stops.{is_write, widened};
ghost use Rattle.plan_run.specs.declared.stop.Stop.TheVariants.{OutOfMemory};

use plan_pack::Refusal;
use std::alloc::AllocError;

/// Why a run stops before its answer is written.
#[derive(Clone, Copy, Debug)]
pub enum Stop<'a> {
    /// The request has a message in place of an answer.
    Refused(Refusal<'a>),
    /// A write to standard output failed.
    WriteFault,
    /// A growth was refused.
    OutOfMemory,
}

impl From<AllocError> for Stop<'_> {
    ghost from_gives = { λ _ e. e ≡ OutOfMemory };

    fn from(_error: AllocError) -> Self {
        Stop::OutOfMemory
    }
}

impl<'a> From<plan_pack::Stop<'a>> for Stop<'a> {
    ghost from_gives = { λ stop e. e ≡ widened stop };

    fn from(stop: plan_pack::Stop<'a>) -> Stop<'a>
        ensures value { result ≡ widened stop.entry }
        ensures unwritten { is_write result ≡ false }
    {
        match stop {
            plan_pack::Stop::Refused(refusal) => Stop::Refused(refusal),
            plan_pack::Stop::OutOfMemory => Stop::OutOfMemory,
        }
    }
}
