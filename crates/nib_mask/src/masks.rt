//! The tables: building them, and looking up bytes in them.

ghost use Rattle.std.specs.Prelude.{◌≡◌, ℕ, ◌+◌, ◌*◌, ◌<◌, ◌≤◌, length, slice_index, slice_range};
ghost use Rattle.std.specs.Int.{bit_at};
ghost use Rattle.lit_base.specs.Cuts.{CutsFrom, IsCut};
ghost use Rattle.nib_mask.specs.Runs.{runs_mask};
ghost use Rattle.nib_mask.specs.Tables.{AreHalvesOf, allows, value_at, table_value};
ghost use Rattle.nib_mask.specs.Candidates.{Covers, GivesFilterSets};

use crate::fingerprint::{halves_at, reaches};
use crate::half::Half;
use lit_base::{Ends, LitList};

/// The tables of a filter, of 16 entries each. For each of the last three bytes up to a position there is one table by
/// the byte's low half and one by its high half. Bit b of an entry stands for bucket b.
#[derive(Clone, Copy, Debug, PartialEq, Eq)]
pub struct Masks {
    /// By the low half, of the third-last byte, the second-last and the last.
    pub low: [[u16; 16]; 3],
    /// By the high half, likewise.
    pub high: [[u16; 16]; 3],
}

impl Masks {
    /// The tables for the literals of a list, each run of the cut being a bucket.
    pub fn of(list: &LitList, ends: &Ends) -> Masks
        requires { IsCut 16 (length list.now.texts) ends.now.items }
        ensures set { GivesFilterSets list.now ends.now.items result }
        ensures covers { Covers list.now result }
    {
        list.normal_law();
        let ends = ends.as_slice();
        Masks {
            low: [
                table(list, 0, ends, 0, Half::Low),
                table(list, 0, ends, 1, Half::Low),
                table(list, 0, ends, 2, Half::Low),
            ],
            high: [
                table(list, 0, ends, 0, Half::High),
                table(list, 0, ends, 1, Half::High),
                table(list, 0, ends, 2, Half::High),
            ],
        }
    }
}

/// The table of one position by one half, where the first run begins at place `start`: bit b of an
/// entry says whether the table keeps run b there.
fn table(list: &LitList, start: usize, ends: &[u16], position: usize, half: Half) -> [u16; 16]
    requires cuts { CutsFrom (length list.now.texts) start ends.now }
    requires few { length ends.now ≤ 16 }
    requires position { position < 3 }
    ensures { (value : ℕ) → value < 16
        → slice_index result value ≡ runs_mask (allows list.now.folding position half value) list.now.texts start ends.now }
{
    match ends {
        [] => [0; 16],
        [end, rest @ ..] => {
            let end = usize::from(*end);
            let kept = kept_halves(list, start, end, position, half);
            let later = table(list, end, rest, position, half);
            with_first(kept, &later)
        }
    }
}

/// The entries of later runs, with the bit of a run before them.
fn with_first(kept: u16, later: &[u16; 16]) -> [u16; 16]
    requires { (value : ℕ) → value < 16 → slice_index later.now value < 32768 }
    ensures { (value : ℕ) → value < 16 → slice_index result value ≡ bit_at kept value + 2 * slice_index later.now value }
{
    let mut table = [0; 16];
    for value in 0..16 {
        table[value] = entry(kept, value, later[value]);
    }
    table
}

/// The entry for one value of the half.
fn entry(kept: u16, value: usize, later: u16) -> u16
    requires value { value < 16 }
    requires later { later < 32768 }
    ensures { result ≡ bit_at kept value + 2 * later }
{
    u16::from(kept >> value & 1 == 1) + 2 * later
}

/// The halves at which a table keeps the run from `start` up to but not including `end`, a bit for each half. All bits
/// are set if a literal does not reach the position; otherwise the bits of the literals' halves.
fn kept_halves(list: &LitList, start: usize, end: usize, position: usize, half: Half) -> u16
    requires within { end ≤ length list.now.texts }
    requires position { position < 3 }
    ensures { AreHalvesOf result (λ value. allows list.now.folding position half value (slice_range list.now.texts start end)) }
{
    let fold = list.fold();
    let mut halves = 0;
    for place in start..end {
        let literal = list.get(place);
        if !reaches(position, literal) {
            return u16::MAX;
        }
        halves |= halves_at(fold, position, half, literal);
    }
    halves
}

/// The filter number of three bytes: bit b is set if all six entries have it.
#[tactic(auto, unfolding(crate::specs::Tables::table_value))]
pub fn plain_byte(masks: &Masks, a: u8, b: u8, c: u8) -> u16
    ensures { result ≡ table_value masks.now a b c }
{
    value_at(masks, 0, a) & value_at(masks, 1, b) & value_at(masks, 2, c)
}

/// The bits that both tables of a position have for a byte. Position 0 is the third-last byte, 2 the last.
#[tactic(auto, unfolding(crate::specs::Tables::value_at))]
pub fn value_at(masks: &Masks, position: usize, byte: u8) -> u16
    requires { position < 3 }
    ensures { result ≡ value_at masks.now position byte }
{
    let low = masks.low[position][usize::from(byte & 15)];
    let high = masks.high[position][usize::from(byte >> 4)];
    low & high
}
