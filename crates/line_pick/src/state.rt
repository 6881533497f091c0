//! Whether a picker still emits lines.
ghost use Rattle.std.specs.Prelude.{◌≡◌};
ghost use Rattle.line_pick.specs.Picking.{answer_in, fed_state, finished_state};

use crate::fault::Fault;
use crate::sink::Next;

/// Whether a picker still emits lines.
#[derive(Clone, Copy, Debug, PartialEq, Eq)]
pub enum State {
    /// It still emits lines.
    Running,
    /// The sink wanted no more lines.
    Stopped,
    /// The last line was emitted.
    Finished,
    /// Emitting failed. Each later call returns this fault.
    Failed(Fault),
}

impl State {
    /// The answer of each call, once no more lines are emitted.
    pub(crate) fn answer(self) -> Option<Result<Next, Fault>>
        ensures { result ≡ answer_in self }
    {
        match self {
            State::Running => None,
            State::Stopped | State::Finished => Some(Ok(Next::Stop)),
            State::Failed(fault) => Some(Err(fault)),
        }
    }

    /// The state after a feed with this answer.
    pub(crate) fn after_feed(answer: Result<Next, Fault>) -> State
        ensures { result ≡ fed_state answer }
    {
        match answer {
            Ok(Next::More) => State::Running,
            Ok(Next::Stop) => State::Stopped,
            Err(fault) => State::Failed(fault),
        }
    }

    /// The state after the last line, with this answer.
    pub(crate) fn after_finish(answer: Result<Next, Fault>) -> State
        ensures { result ≡ finished_state answer }
    {
        match answer {
            Ok(Next::More) => State::Finished,
            Ok(Next::Stop) => State::Stopped,
            Err(fault) => State::Failed(fault),
        }
    }
}
