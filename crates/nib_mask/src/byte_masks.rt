//! Byte tables for at most eight buckets, or for half of sixteen. A search holds them in fewer vectors.

ghost use Rattle.std.specs.Prelude.{◌≡◌, ℕ, ◌/◌, ◌%◌, ◌<◌, slice_index};
ghost use Rattle.nib_mask.specs.Halves.{GivesPart, widened};
ghost use Rattle.nib_mask.specs.Tables.{table_value, value_at};

use crate::masks::Masks;

/// The tables of a filter with at most eight buckets, laid out like `Masks`. Bit b of an entry stands for one bucket.
#[derive(Clone, Copy, Debug, PartialEq, Eq)]
pub struct ByteMasks {
    /// By the low half, of the third-last byte, the second-last and the last.
    pub low: [[u8; 16]; 3],
    /// By the high half, likewise.
    pub high: [[u8; 16]; 3],
}

impl Masks {
    /// The tables of the first eight buckets.
    pub fn first_eight(&self) -> ByteMasks
        ensures { GivesPart (λ n. n % 256) self.now result }
    {
        let (low, high) = (&self.low, &self.high);
        ByteMasks {
            low: [low_bytes(&low[0]), low_bytes(&low[1]), low_bytes(&low[2])],
            high: [
                low_bytes(&high[0]),
                low_bytes(&high[1]),
                low_bytes(&high[2]),
            ],
        }
    }

    /// The tables of the buckets after the first eight.
    pub fn last_eight(&self) -> ByteMasks
        ensures { GivesPart (λ n. n / 256) self.now result }
    {
        let (low, high) = (&self.low, &self.high);
        ByteMasks {
            low: [
                high_bytes(&low[0]),
                high_bytes(&low[1]),
                high_bytes(&low[2]),
            ],
            high: [
                high_bytes(&high[0]),
                high_bytes(&high[1]),
                high_bytes(&high[2]),
            ],
        }
    }
}

impl ByteMasks {
    /// The filter byte of three bytes.
    #[tactic(auto, unfolding(crate::specs::Tables::table_value))]
    pub fn filter_byte(&self, a: u8, b: u8, c: u8) -> u8
        ensures { result ≡ table_value (widened self.now) a b c }
    {
        self.value_at(0, a) & self.value_at(1, b) & self.value_at(2, c)
    }

    /// The bits that both tables of a position have for a byte.
    #[tactic(auto, unfolding(crate::specs::Tables::value_at))]
    fn value_at(&self, position: usize, byte: u8) -> u8
        requires { position < 3 }
        ensures { result ≡ value_at (widened self.now) position byte }
    {
        let low = self.low[position][usize::from(byte & 15)];
        let high = self.high[position][usize::from(byte >> 4)];
        low & high
    }
}

/// The low byte of each entry.
fn low_bytes(table: &[u16; 16]) -> [u8; 16]
    ensures { (value : ℕ) → value < 16 → slice_index result value ≡ slice_index table.now value % 256 }
{
    let mut bytes = [0; 16];
    for value in 0..16 {
        bytes[value] = (table[value] & 255) as u8;
    }
    bytes
}

/// The high byte of each entry.
fn high_bytes(table: &[u16; 16]) -> [u8; 16]
    ensures { (value : ℕ) → value < 16 → slice_index result value ≡ slice_index table.now value / 256 }
{
    let mut bytes = [0; 16];
    for value in 0..16 {
        bytes[value] = (table[value] >> 8) as u8;
    }
    bytes
}
