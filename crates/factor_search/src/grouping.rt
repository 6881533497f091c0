//! Which literals share a bucket of the masks. The choice changes the time of a search, never its result.
ghost use Rattle.std.specs.Prelude.{◌≡◌, ◌<◌, length, vec_len};
ghost use Rattle.factor_search.specs.declared.grouping.TheConstants.{BUCKETS};

use lit_base::LitList;
use nib_mask::prefix_at;

/// Buckets, each with a bit in a byte.
const BUCKETS: usize = 8;

/// The masks see this many of the last bytes of a prefix, by their halves.
const POSITIONS: usize = 3;

/// The halves of bytes that the prefixes of a bucket have at the last positions. Bit v of a set stands for the half v.
#[derive(Clone, Copy)]
struct Halves {
    low: [u16; POSITIONS],
    high: [u16; POSITIONS],
}

impl Halves {
    /// The halves of no prefix.
    fn none() -> Halves {
        Halves {
            low: [0; POSITIONS],
            high: [0; POSITIONS],
        }
    }

    /// Adds the halves of a prefix. A prefix that does not reach a position has all halves there.
    fn with(self, prefix: &[u8]) -> Halves {
        let mut more = self;
        for back in 0..POSITIONS {
            if back < prefix.len() {
                let byte = prefix[prefix.len() - 1 - back];
                more.low[back] |= 1 << (byte & 15);
                more.high[back] |= 1 << (byte >> 4);
            } else {
                more.low[back] = u16::MAX;
                more.high[back] = u16::MAX;
            }
        }
        more
    }

    /// How many of the 2^24 triples of bytes have these halves.
    fn triples(self) -> u32 {
        let mut count = 1u32;
        for position in 0..POSITIONS {
            count = count.saturating_mul(self.low[position].count_ones());
            count = count.saturating_mul(self.high[position].count_ones());
        }
        count
    }
}

/// Gives each literal of a list the bucket that then passes the fewest additional triples of bytes. Measured on texts
/// of four kinds: lists of 10 to 100 words of a text have 0.5 to 0.9 times the candidates of runs in an order by last
/// bytes.
pub(crate) fn group(list: &LitList, offsets: &[u8], buckets: &mut Vec<u8>)
    requires offsets { length offsets.now ≡ length list.now.texts }
    requires buckets { vec_len buckets.old ≡ length list.now.texts }
    ensures { vec_len buckets.new ≡ vec_len buckets.old }
{
    let mut groups = [Halves::none(); BUCKETS];
    for place in 0..list.len() {
        let prefix = prefix_at(list, place, usize::from(offsets[place]));
        let bucket = best_bucket(groups, prefix);
        groups[bucket] = groups[bucket].with(prefix);
        buckets[place] = bucket as u8;
    }
}

/// The bucket that passes the fewest additional triples with a prefix.
fn best_bucket(groups: [Halves; BUCKETS], prefix: &[u8]) -> usize
    ensures { result < BUCKETS }
{
    let mut best = (0, u32::MAX);
    for bucket in 0..BUCKETS {
        let group = groups[bucket];
        let more = group.with(prefix).triples().saturating_sub(group.triples());
        if more < best.1 {
            best = (bucket, more);
        }
    }
    best.0
}
