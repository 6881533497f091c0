//! Sets the hash bits of literals, each by its factor.
ghost use Rattle.std.specs.Prelude.{◌≡◌, ◌+◌, ◌^◌, ◌<◌, length, vec_len};
ghost use Rattle.factor_search.specs.declared.widths.TheConstants.{HASH_BITS};
ghost use Rattle.factor_search.specs.Factors.{AreFactorBits};

use crate::widths::{HASH_BITS, OFFSETS, WIDTH};
use list_index::{set_hash_bit, suffix_key};
use lit_base::LitList;

/// The largest offset of a factor: the distance to the end that the last bit of a byte stands for.
const MOST_OFFSET: usize = OFFSETS - 1;

/// Sets the hash bit of each literal anew, by the factor that ends at its offset before the literal's end, or nearer to
/// its end if there is no room.
pub(crate) fn set_hash_bits(list: &LitList, offsets: &mut Vec<u8>, hash_bits: &mut Vec<u8>)
    requires offsets { vec_len offsets.old ≡ length list.now.texts }
    requires hash_bits { vec_len hash_bits.old ≡ 2 ^ HASH_BITS }
    ensures { AreFactorBits list.now offsets.new.items hash_bits.new.items (length list.now.texts) }
{
    hash_bits.fill(0);
    for place in 0..list.len() {
        set_hash_bit_of(list, place, offsets, hash_bits);
    }
}

/// Sets the hash bit of a literal by the factor at its offset, or nearer to its end if there is no room.
fn set_hash_bit_of(list: &LitList, place: usize, offsets: &mut Vec<u8>, hash_bits: &mut Vec<u8>)
    requires within { place < length list.now.texts }
    requires marked { AreFactorBits list.now offsets.old.items hash_bits.old.items place }
    ensures { AreFactorBits list.now offsets.new.items hash_bits.new.items (place + 1) }
{
    let literal = list.get(place);
    let width = WIDTH.min(literal.len());
    let room = (literal.len() - width).min(MOST_OFFSET);
    let offset = usize::from(offsets[place]).min(room);
    offsets[place] = offset as u8;
    let key = suffix_key(list.fold(), literal, literal.len() - offset, width);
    set_hash_bit(hash_bits, HASH_BITS, key, offset);
}
