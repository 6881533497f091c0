//! The hits at a position of a text at which some literal ends.
ghost use Rattle.std.specs.Prelude.{◌≡◌, ◌+◌, ◌<◌, ◌≤◌, OnOk, length};
ghost use Rattle.lit_base.specs.Occurrences.{IsFirstEnding};
ghost use Rattle.text_ends.specs.HitsAt.{Extends, GainsHitsAt};

use crate::hit::Hit;
use list_index::ListIndex;
use std::alloc::AllocError;

/// Adds the hits at `end`, counted as `at`. The first literal that ends there is `first`. When memory is refused,
/// earlier hits stay added.
#[inline]
pub fn add_hits_at(
    list: &ListIndex,
    text: &[u8],
    end: usize,
    first: usize,
    at: u64,
    out: &mut Vec<Hit>,
) -> Result<(), AllocError>
    requires inside { end ≤ length text.now }
    requires first { IsFirstEnding list.now text.now 0 end first }
    ensures ok { OnOk result (GainsHitsAt list.now text.now end at out.old.items out.new.items) }
    ensures few { OnOk result (length out.new.items ≤ length out.old.items + length list.now.texts) }
    ensures kept { Extends out.old.items out.new.items }
{
    if list.ends_alone(first) {
        out.push(hit_of(list, first, at))?;
        return Ok(());
    }
    add_all_at(list, text, end, first, at, out)
}

/// As `add_hits_at`, where other literals may end too.
#[inline(never)]
fn add_all_at(
    list: &ListIndex,
    text: &[u8],
    end: usize,
    first: usize,
    at: u64,
    out: &mut Vec<Hit>,
) -> Result<(), AllocError>
    requires inside { end ≤ length text.now }
    requires first { IsFirstEnding list.now text.now 0 end first }
    ensures ok { OnOk result (GainsHitsAt list.now text.now end at out.old.items out.new.items) }
    ensures few { OnOk result (length out.new.items ≤ length out.old.items + length list.now.texts) }
    ensures kept { Extends out.old.items out.new.items }
{
    out.push(hit_of(list, first, at))?;
    let mut endings = list.endings_after(text, end, first);
    while let Some(place) = endings.next() {
        out.push(hit_of(list, place, at))?;
    }
    Ok(())
}

/// The hit of the literal at `place`, which ends at `at`.
#[inline]
pub fn hit_of(list: &ListIndex, place: usize, at: u64) -> Hit
    requires { place < length list.now.texts }
    ensures { result ≡ (place, at) }
{
    let _count = list.len();
    Hit {
        lit: place as u16,
        end_at: at,
    }
}
