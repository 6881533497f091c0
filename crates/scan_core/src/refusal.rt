//! Why a request is refused.
ghost use Rattle.std.specs.Prelude.{◌≡◌, ◌<◌, ◌^◌, length};
ghost use Rattle.scan_wire.specs.Messages.{reply_parts, texts_of};
ghost use Rattle.scan_core.specs.Refusals.{code_of, detail_of, first_refusal, list_refusal, literal_refusal, publish_refusal};
ghost use Rattle.scan_core.specs.Steps.{refused_reply};

use crate::limits::MAX_PLANS;
use lit_base::{MAX_LIST_LEN, MAX_LITERAL_LEN, MAX_PATTERNS};
use scan_wire::Reply;

/// Why a request is refused. The reply has the code and the detail, and nothing changes.
#[derive(Clone, Copy, Debug, PartialEq, Eq)]
pub enum Refusal {
    /// A Publish of more literals than `MAX_PATTERNS`.
    TooManyPatterns,
    /// A literal longer than `MAX_LITERAL_LEN`, at this place of a Publish.
    LiteralTooLong { place: u16 },
    /// A literal without bytes, at this place of a Publish.
    EmptyLiteral { place: u16 },
    /// A Publish of no literal.
    NoLiterals,
    /// A Publish of literals with more than `MAX_LIST_LEN` bytes together. No frame has room for as many.
    ListTooLarge,
    /// An Open of an open stream.
    StreamInUse,
    /// A request of a stream that is not open.
    NoSuchStream,
    /// An Open of a number under which no plan was found.
    NoSuchPlan,
    /// A Publish after `MAX_PLANS` of this session.
    PlanQuota,
    /// An Open with `MAX_STREAMS` streams of this session open.
    StreamQuota,
    /// A Feed by which the stream's place would pass 2^64 - 1.
    StreamTooLong,
}

impl Refusal {
    /// The number of the refusal, the same in every crate.
    pub fn code(self) -> u8
        ensures { result ≡ code_of self }
    {
        match self {
            Refusal::TooManyPatterns => 2,
            Refusal::LiteralTooLong { .. } => 3,
            Refusal::EmptyLiteral { .. } => 4,
            Refusal::NoLiterals => 5,
            Refusal::ListTooLarge => 7,
            Refusal::StreamInUse => 12,
            Refusal::NoSuchStream => 13,
            Refusal::NoSuchPlan => 14,
            Refusal::PlanQuota => 15,
            Refusal::StreamQuota => 16,
            Refusal::StreamTooLong => 20,
        }
    }

    /// The place of the literal that is refused, or 0 for other refusals.
    pub fn detail(self) -> u16
        ensures { result ≡ detail_of self }
    {
        match self {
            Refusal::LiteralTooLong { place } | Refusal::EmptyLiteral { place } => place,
            _ => 0,
        }
    }

    /// The reply to a request of the stream. A Publish has stream 0.
    pub fn reply(self, stream: u32) -> Reply
        ensures { reply_parts result ≡ refused_reply stream self }
    {
        Reply::Refused {
            stream,
            code: self.code(),
            detail: self.detail(),
        }
    }
}

/// Why a Publish of literals is refused, in a session that has published `plan_count` plans.
pub(crate) fn refusal_of_literals(plan_count: usize, literals: &[Vec<u8>]) -> Option<Refusal>
    ensures { result ≡ publish_refusal plan_count (texts_of literals.now) }
{
    if plan_count >= MAX_PLANS {
        return Some(Refusal::PlanQuota);
    }
    if literals.is_empty() {
        return Some(Refusal::NoLiterals);
    }
    if literals.len() > MAX_PATTERNS {
        return Some(Refusal::TooManyPatterns);
    }
    let first = first_refused(literals);
    if first.is_some() {
        return first;
    }
    refusal_of_list(literals)
}

/// Why the first refused literal is refused.
fn first_refused(literals: &[Vec<u8>]) -> Option<Refusal>
    requires { length literals.now < 2 ^ 16 }
    ensures { result ≡ first_refusal 0 (texts_of literals.now) }
{
    let mut place = 0;
    for literal in literals {
        let refusal = refusal_of_literal(place, literal);
        if refusal.is_some() {
            return refusal;
        }
        place += 1;
    }
    None
}

/// Why literals are refused for the bytes that they have together.
fn refusal_of_list(literals: &[Vec<u8>]) -> Option<Refusal>
    ensures { result ≡ list_refusal (texts_of literals.now) }
{
    let mut left = MAX_LIST_LEN;
    for literal in literals {
        let len = literal.len();
        if left < len {
            return Some(Refusal::ListTooLarge);
        }
        left -= len;
    }
    None
}

/// Why a literal at a place is refused.
fn refusal_of_literal(place: u16, literal: &[u8]) -> Option<Refusal>
    ensures { result ≡ literal_refusal place literal.now }
{
    if literal.is_empty() {
        return Some(Refusal::EmptyLiteral { place });
    }
    if literal.len() > MAX_LITERAL_LEN {
        return Some(Refusal::LiteralTooLong { place });
    }
    None
}
