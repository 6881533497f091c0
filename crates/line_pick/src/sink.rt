//! What selected lines are emitted to.
ghost use Rattle.std.specs.Prelude.{◌≢◌, ℕ, List, Result};

use crate::fault::Fault;

/// Whether a sink wants more lines.
#[derive(Clone, Copy, Debug, PartialEq, Eq)]
pub enum Next {
    /// It wants more lines.
    More,
    /// It wants no more lines.
    Stop,
}

/// What selected lines are emitted to.
pub trait Sink {
    ghost use Rattle.line_pick.specs.declared.fault.Fault.{Fault};
    ghost use Rattle.line_pick.specs.declared.sink.Next.{Next};

    /// How a line is taken: the sink before, the line's number, its bytes, the answer, and the sink
    /// after.
    ghost takes: { Self → ℕ → List ℕ → Result Next Fault → Self → Type 0 };

    /// Takes a line, without its newline, and its number in the text, from 1 on; a picker without numbers gives some
    /// number. After `Stop`, or a fault, no line follows. The only errors are `WriteFault` and `OutOfMemory`.
    fn line(&mut self, number: u64, bytes: &[u8]) -> Result<Next, Fault>
        ensures taken { takes self.old number bytes.now result self.new }
        ensures faults { result ≢ Err Fault.StreamTooLong };
}
