//! The statuses that calls return.
ghost use Rattle.std.specs.Prelude.{◌≡◌};
ghost use Rattle.fiolargu.specs.Answers.{IsListStatus, StatusesLaw, status_at};
ghost use Rattle.fiolargu.specs.declared.statuses.TheConstants.{LIST_TOO_LARGE, LITERAL_TOO_LONG, NO_LITERALS, OK, OUT_OF_MEMORY, OUT_OF_RANGE, SMALL_BUFFER, TOO_MANY_PATTERNS};
ghost use Rattle.lit_base.specs.declared.fault.Fault.TheVariants.{ListTooLarge, LiteralTooLong, OutOfMemory, TooManyLiterals, TooManyPatterns};

use lit_base::Fault;

/// The call succeeded.
pub(crate) const OK: i32 = 0;

/// An allocation was refused.
pub(crate) const OUT_OF_MEMORY: i32 = 1;

/// There are more patterns than a list may have.
pub(crate) const TOO_MANY_PATTERNS: i32 = 2;

/// A pattern is longer than a literal may be.
pub(crate) const LITERAL_TOO_LONG: i32 = 3;

/// No pattern has a byte.
pub(crate) const NO_LITERALS: i32 = 5;

/// A list has more literals than it may have. No call returns it: a list has no more literals than patterns.
pub(crate) const TOO_MANY_LITERALS: i32 = 6;

/// There are too many pattern bytes.
pub(crate) const LIST_TOO_LARGE: i32 = 7;

/// The bytes are no plan file.
pub(crate) const BAD_PLAN_FILE: i32 = 10;

/// The plan file has no plan of this number.
pub(crate) const NO_SUCH_PLAN: i32 = 14;

/// The position in the stream would pass 2^64 - 1.
pub(crate) const STREAM_TOO_LONG: i32 = 20;

/// The handle is null.
pub(crate) const NULL_HANDLE: i32 = 21;

/// A buffer has too little room.
pub(crate) const SMALL_BUFFER: i32 = 22;

/// A position, a number of a literal, or flags are out of range.
pub(crate) const OUT_OF_RANGE: i32 = 23;

/// The law of the numbers of statuses.
pub fn statuses_law()
    ensures { StatusesLaw }
{}

/// The status of a list that is refused, and at which pattern, or 0 where no one pattern is at fault.
pub(crate) fn status_of_list(fault: Fault) -> (i32, usize)
    ensures status { result ≡ status_at fault }
    ensures refused { result.0 ≡ OK → ⊥ }
    ensures range { result.0 ≡ OUT_OF_RANGE → ⊥ }
    ensures small { result.0 ≡ SMALL_BUFFER → ⊥ }
    ensures some { result.0 ≡ NO_LITERALS → ⊥ }
    ensures long { result.0 ≡ LITERAL_TOO_LONG → fault ≡ LiteralTooLong result.1 }
    ensures other { (result.0 ≡ LITERAL_TOO_LONG → ⊥) → result.1 ≡ 0 }
    ensures many { result.0 ≡ TOO_MANY_PATTERNS → fault ≡ TooManyPatterns }
    ensures large { result.0 ≡ LIST_TOO_LARGE → fault ≡ ListTooLarge }
    ensures memory { result.0 ≡ OUT_OF_MEMORY → fault ≡ OutOfMemory }
    ensures named { (fault ≡ TooManyLiterals → ⊥) → IsListStatus result.0 }
{
    match fault {
        Fault::OutOfMemory => (OUT_OF_MEMORY, 0),
        Fault::TooManyPatterns => (TOO_MANY_PATTERNS, 0),
        Fault::LiteralTooLong { place } => (LITERAL_TOO_LONG, place),
        Fault::TooManyLiterals => (TOO_MANY_LITERALS, 0),
        Fault::ListTooLarge => (LIST_TOO_LARGE, 0),
    }
}
