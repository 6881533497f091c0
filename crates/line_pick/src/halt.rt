//! Why emitting ends before the last line.
ghost use Rattle.std.specs.Prelude.{◌≡◌};
ghost use Rattle.line_pick.specs.declared.fault.Fault.TheVariants as fault;
ghost use Rattle.line_pick.specs.declared.halt.Halt.TheVariants.{Failed};

use crate::fault::Fault;
use std::alloc::AllocError;

/// Why emitting ends before the last line.
#[derive(Drop)]
pub(crate) enum Halt {
    /// The sink wants no more lines.
    Stopped,
    /// The sink failed, or the picker did.
    Failed(Fault),
}

impl From<AllocError> for Halt {
    ghost from_gives = { λ _ h. h ≡ Failed fault.OutOfMemory };

    fn from(_error: AllocError) -> Halt {
        Halt::Failed(Fault::OutOfMemory)
    }
}
