//! The law that users of the filter rely on, as a call. Its contract is the law; the call does nothing.

ghost use Rattle.std.specs.Prelude.{◌≡◌, length};
ghost use Rattle.std.specs.Int.{bit_at};
ghost use Rattle.lit_base.specs.Cuts.{IsCut};
ghost use Rattle.lit_base.specs.Occurrences.{Occurs};
ghost use Rattle.nib_mask.specs.Candidates.{filter_set_at};
ghost use Rattle.nib_mask.specs.Runs.{bucket_of};

use lit_base::{Ends, LitList};

/// The law of candidates: where a literal ends in a text, its bucket is in the filter set of the
/// last three bytes up to there, whatever two bytes stand before the text.
pub fn candidate_law(
    list: &LitList,
    ends: &Ends,
    text: &[u8],
    lit: u16,
    end_at: usize,
    before: [u8; 2],
)
    requires cut { IsCut 16 (length list.now.texts) ends.now.items }
    requires occurs { Occurs list.now text.now lit end_at }
    ensures { bit_at (filter_set_at list.now ends.now.items before text.now end_at) (bucket_of ends.now.items lit) ≡ 1 }
{}
