//! A plan, with all that its rows show.
ghost use Rattle.std.specs.Prelude.{◌≡◌, ◌<◌, All, length};
ghost use Rattle.lit_base.specs.Cuts.{IsCut};
ghost use Rattle.nib_mask.specs.Candidates.{GivesFilterSets};
ghost use Rattle.plan_view.specs.Buckets.{IsBucket};
ghost use Rattle.plan_view.specs.Rows.{total_of};

use crate::bucket::Bucket;
use lit_base::{Ends, LitList, Profile, cut_cost};
use nib_mask::Masks;

/// A list that is cut for plans of a profile, with the tables of its filter and what the cut costs.
#[derive(Clone, Copy)]
pub struct View<'a> {
    pub profile: Profile,
    pub list: &'a LitList,
    /// Where each bucket ends in the list.
    pub ends: &'a Ends,
    pub buckets: &'a [Bucket],
    /// The tables of the filter.
    pub masks: &'a Masks,
    /// What the cut costs.
    pub total: u64,
    ghost some: { 0 < length list.now.texts },
    ghost each: { All (IsBucket (length list.now.texts)) buckets.now },
    ghost set: { GivesFilterSets list.now ends.now.items masks.now },
    ghost sum: { total ≡ total_of list.now ends.now.items },
    ghost positive: { 0 < total },
}

impl<'a> View<'a> {
    /// The view of a list that is cut at these ends, by the buckets and the tables that were made for them.
    pub fn new(
        profile: Profile,
        list: &'a LitList,
        ends: &'a Ends,
        buckets: &'a [Bucket],
        masks: &'a Masks,
    ) -> View<'a>
        requires cut { IsCut 16 (length list.now.texts) ends.now.items }
        requires each { All (IsBucket (length list.now.texts)) buckets.now }
        requires set { GivesFilterSets list.now ends.now.items masks.now }
        ensures profile { result.profile ≡ profile }
        ensures list { result.list.now ≡ list.now }
        ensures ends { result.ends.now ≡ ends.now }
        ensures buckets { result.buckets.now ≡ buckets.now }
    {
        View {
            profile,
            list,
            ends,
            buckets,
            masks,
            total: cut_cost(list, ends),
        }
    }
}
