//! The widths and offsets of factors, and the width of their hashes.
ghost use Rattle.factor_search.specs.Widths.{IsLeastWidth};

use lit_base::LitList;

/// Bytes of a factor, unless the literal is shorter.
pub(crate) const WIDTH: usize = 4;

/// The factors of a literal to choose from: the last of them ends at the literal's end, each other a byte before the
/// next. A byte of hash bits has a bit for each.
pub(crate) const OFFSETS: usize = 8;

/// The number of bits of a factor's hash. Few of the 65,536 hashes have a bit set, so other bytes rarely match.
pub(crate) const HASH_BITS: usize = 16;

/// The least width of the factors of a list's literals; four at most.
pub(crate) fn least_width(list: &LitList) -> usize
    ensures { IsLeastWidth list.now result }
{
    list.normal_law();
    let count = list.len();
    if count == 0 {
        return WIDTH;
    }
    list.get(0).len().min(WIDTH)
}

/// How many widths factors have, from the least on.
pub(crate) fn widths_from(least: usize) -> usize {
    (WIDTH + 1).saturating_sub(least)
}
