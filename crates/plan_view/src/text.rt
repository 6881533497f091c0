//! A plan as a text.
ghost use Rattle.std.specs.Prelude.{◌≡◌, IfOk, length};
ghost use Rattle.lit_base.specs.Cuts.{IsCut};
ghost use Rattle.plan_view.specs.Texts.{plan_text};

use crate::bucket::buckets_of;
use crate::rows::push_rows;
use crate::sums::{push_drops, push_sums};
use crate::view::View;
use lit_base::{Ends, LitList, Profile};
use nib_mask::Masks;
use std::alloc::{AllocError, Global};

/// The names of the columns.
const HEADING: &[u8] =
    b"bucket  literals  shortest  bytes  weight        cost    %   endings  first and last literal\n";

/// The plan of a list as a text: a row for each bucket; below them what the plan costs, what one bucket and as many
/// even parts as the profile has buckets would, and which patterns were dropped. Of each pattern `places` has the place
/// in the list, or none where it is null.
#[tactic(auto, unfolding(crate::specs::Texts::plan_text))]
pub fn plan_text(
    alloc: Global,
    profile: Profile,
    list: &LitList,
    ends: &Ends,
    places: &[Option<u16>],
) -> Result<Vec<u8>, AllocError>
    requires { IsCut 16 (length list.now.texts) ends.now.items }
    ensures { IfOk result (λ text. text.items ≡ plan_text profile list.now ends.now.items places.now) }
{
    let masks = Masks::of(list, ends);
    let buckets = buckets_of(ends);
    let view = View::new(profile, list, ends, buckets.as_slice(), &masks);
    let mut text = Vec::from_slice(alloc, HEADING)?;
    push_rows(view, &mut text)?;
    push_sums(view, &mut text)?;
    push_drops(alloc, places, &mut text)?;
    Ok(text)
}
