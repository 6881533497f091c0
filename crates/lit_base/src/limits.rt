//! The limits of lists and plans. A list that passes a limit is refused by a fault with a number, and never cut.

/// Raw patterns in a list, at most.
pub const MAX_PATTERNS: usize = 4096;

/// Bytes of one literal, at most.
pub const MAX_LITERAL_LEN: usize = 4095;

/// Pattern bytes in a raw list, newlines not counted, and so in its normal form too, at most.
pub const MAX_LIST_LEN: usize = 1_048_576;

/// Bytes of one pattern list or pattern file, at most: those of the patterns, and a newline for each.
pub const MAX_TEXT_LEN: usize = MAX_LIST_LEN + MAX_PATTERNS;

/// Literals in a normal form, at most: as many as patterns in a list.
pub const MAX_LITERALS: usize = MAX_PATTERNS;

/// Buckets of a plan, at most, whatever its profile: one for each bit of a mask's entries.
pub const MAX_BUCKETS: usize = 16;
