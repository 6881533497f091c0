//! Serving over one stream: requests are read from it, answered one after the other, and the replies
//! written back.
#![tactic(auto)]

mod answer;
mod answering;
mod ended;
mod frames;
mod outbox;
mod serving;
mod stop;
mod window;

pub use answer::Answer;
pub use ended::Ended;
pub use outbox::Outbox;
pub use serving::serve;
pub use stop::Stop;
