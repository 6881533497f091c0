//! What a client asks, and what the server answers.
ghost use Rattle.std.specs.Prelude.{◌≡◌, IfOk, IsOkUnless, OnErr};
ghost use Rattle.scan_wire.specs.declared.fault.Fault.TheVariants.{OutOfMemory};
ghost use Rattle.scan_wire.specs.Messages.{IsFeed, borrowed_parts, request_parts};

use crate::fault::Fault;
use lit_base::{Ends, Fold, Profile};
use std::alloc::Global;
use text_ends::Hit;

/// Bytes of a payload, at most.
pub const MAX_PAYLOAD: usize = 65_536;

/// Hits in one reply, at most.
pub const MAX_HITS: usize = 4096;

/// What a client asks.
#[derive(Debug, Drop)]
pub enum Request {
    /// To plan a list of literals by a profile, and show the plan to all sessions.
    Publish {
        fold: Fold,
        profile: Profile,
        literals: Vec<Vec<u8>>,
    },
    /// To scan a new stream by the plan of that number.
    Open {
        stream: u32,
        number: u64,
    },
    /// To scan the next piece of a stream.
    Feed {
        stream: u32,
        bytes: Vec<u8>,
    },
    /// To forget a stream.
    Close {
        stream: u32,
    },
    /// To show the plan by which a stream is scanned.
    ShowPlan {
        stream: u32,
    },
}

/// What the server answers.
#[derive(Debug, Drop)]
pub enum Reply {
    /// The plan has this number.
    Published {
        number: u64,
    },
    /// The stream is open.
    Opened {
        stream: u32,
    },
    /// Hits of a piece: 1 to 4,096 of them.
    Hits {
        stream: u32,
        hits: Vec<Hit>,
    },
    /// All hits of the piece were sent. `place` is the position of the stream now.
    Fed {
        stream: u32,
        place: u64,
    },
    /// The stream is closed.
    Closed {
        stream: u32,
    },
    /// The plan of a stream: its profile, how many literals it has, and how it groups them at which price.
    Plan {
        stream: u32,
        fold: Fold,
        profile: Profile,
        count: u16,
        cost: u64,
        ends: Ends,
    },
    /// The request is refused with this code. For some codes the detail says where; for the others it is 0.
    Refused {
        stream: u32,
        code: u8,
        detail: u16,
    },
}

/// What a client asks, with the piece of a Feed where it was read.
#[derive(Debug, Drop)]
pub enum Borrowed<'a> {
    /// To plan a list of literals by a profile, and show the plan to all sessions.
    Publish {
        fold: Fold,
        profile: Profile,
        literals: Vec<Vec<u8>>,
    },
    /// To scan a new stream by the plan of that number.
    Open {
        stream: u32,
        number: u64,
    },
    /// To scan the next piece of a stream.
    Feed {
        stream: u32,
        bytes: &'a [u8],
    },
    /// To forget a stream.
    Close {
        stream: u32,
    },
    /// To show the plan by which a stream is scanned.
    ShowPlan {
        stream: u32,
    },
}

impl Borrowed<'_> {
    /// The request with a copy of its bytes. The only refusal is `OutOfMemory`, and of a Feed alone.
    pub fn into_request(self, alloc: Global) -> Result<Request, Fault>
        ensures ok { IfOk result (λ request. request_parts request ≡ borrowed_parts self.entry) }
        ensures refused { IsOkUnless result OutOfMemory }
        ensures starved { OnErr result (IsFeed (borrowed_parts self.entry)) }
    {
        Ok(match self {
            Borrowed::Publish {
                fold,
                profile,
                literals,
            } => Request::Publish {
                fold,
                profile,
                literals,
            },
            Borrowed::Open { stream, number } => Request::Open { stream, number },
            Borrowed::Feed { stream, bytes } => {
                let bytes = Vec::from_slice(alloc, bytes)?;
                Request::Feed { stream, bytes }
            }
            Borrowed::Close { stream } => Request::Close { stream },
            Borrowed::ShowPlan { stream } => Request::ShowPlan { stream },
        })
    }
}
