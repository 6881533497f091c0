//! What groupings of literals cost.
ghost use Rattle.std.specs.Prelude.{◌≡◌, ℕ, ◌<◌, ◌≤◌, ◌^◌, ◌↔◌, IsTrue, length};
ghost use Rattle.lit_base.specs.Literals.{lengths};
ghost use Rattle.lit_base.specs.Costs.{weight, cost, group_cost, run_cost};
ghost use Rattle.lit_base.specs.Cuts.{CutsFrom, IsCut, cut_price};
ghost use Rattle.lit_base.specs.Assignments.{IsAssignment, bucket, assign_price};
ghost use Rattle.lit_base.specs.Profiles.{buckets};

use crate::limits::MAX_BUCKETS;
use crate::lit_list::LitList;
use crate::profile::{Profile, buckets};
use arrayvec::ArrayVec;

/// The ends of a cut's runs, in order: a run holds the places from the end before it, 0 for the first, up to but not
/// including its own end.
pub type Ends = ArrayVec<u16, MAX_BUCKETS>;

/// The weights of the shortest lengths from one byte to seven.
const WEIGHTS: [u64; 7] = [4096, 512, 151, 64, 32, 18, 11];

/// The weight of every greater shortest length.
const LEAST_WEIGHT: u64 = 8;

/// What a bucket costs, whatever it holds.
const BUCKET_COST: u64 = 200;

/// The weight of a group of literals whose shortest has `shortest` bytes.
pub fn weight(shortest: usize) -> u64
    requires { 1 ≤ shortest }
    ensures value { result ≡ weight shortest }
    ensures never_rises { (longer : ℕ) → shortest ≤ longer → weight longer ≤ result }
    ensures bound { result ≤ 4096 }
{
    if shortest <= WEIGHTS.len() {
        WEIGHTS[shortest - 1]
    } else {
        LEAST_WEIGHT
    }
}

/// The cost of a group of `count` literals whose shortest has `shortest` bytes.
pub fn cost(count: usize, shortest: usize) -> u64
    requires some { 1 ≤ count }
    requires few { count ≤ 4096 }
    requires nonempty { 1 ≤ shortest }
    ensures value { result ≡ cost count shortest }
    ensures never_rises { (longer : ℕ) → shortest ≤ longer → cost count longer ≤ result }
    ensures bound { result < 2 ^ 40 }
{
    let count = count as u64;
    BUCKET_COST + weight(shortest) * (count * count)
}

/// The cost of the literals from place `start` up to but not including `end`, as one run. They stand by length, so the
/// first is the shortest.
pub fn run_cost(list: &LitList, start: usize, end: usize) -> u64
    requires some { start < end }
    requires within { end ≤ length list.now.texts }
    ensures value { result ≡ run_cost (lengths list.now) start end }
    ensures bound { result < 2 ^ 40 }
{
    prove!(end <= list.len());
    cost(end - start, list.get(start).len())
}

/// Whether the ends cut the list into runs, no more of them than the profile has buckets: they strictly rise, the first
/// is at least 1, and the last is the number of literals.
pub fn is_cut(list: &LitList, profile: Profile, ends: &Ends) -> bool
    ensures { IsTrue result ↔ IsCut (buckets profile) (length list.now.texts) ends.now.items }
{
    !list.is_empty() && ends.len() <= buckets(profile) && cuts_from(0, list.len(), ends.as_slice())
}

/// Whether the ends cut the places from `start` up to `count`.
fn cuts_from(start: usize, count: usize, ends: &[u16]) -> bool
    ensures { IsTrue result ↔ CutsFrom count start ends.now }
{
    match ends {
        [] => start == count,
        [end, rest @ ..] => {
            start < usize::from(*end) && cuts_from(usize::from(*end), count, rest)
        }
    }
}

/// Whether the numbers assign each literal to one of the profile's buckets.
pub fn is_assignment(list: &LitList, profile: Profile, numbers: &[u8]) -> bool
    ensures { IsTrue result ↔ IsAssignment (buckets profile) (length list.now.texts) numbers.now }
{
    let most = buckets(profile);
    numbers.len() == list.len() && numbers.iter().all(|number| usize::from(*number) < most)
}

/// The cost of a cut: the sum of its runs' costs.
pub fn cut_cost(list: &LitList, ends: &Ends) -> u64
    requires { IsCut 16 (length list.now.texts) ends.now.items }
    ensures { result ≡ cut_price (run_cost (lengths list.now)) 0 ends.now.items }
{
    let mut start = 0;
    let mut price = 0;
    for end in ends.as_slice() {
        let end = usize::from(*end);
        price += run_cost(list, start, end);
        start = end;
    }
    price
}

/// The cost of an assignment, which gives each literal the number of its bucket: the sum of the costs of the buckets
/// that hold a literal.
pub fn assign_cost(list: &LitList, profile: Profile, numbers: &[u8]) -> u64
    requires { IsAssignment (buckets profile) (length list.now.texts) numbers.now }
    ensures { result ≡ assign_price (buckets profile) (lengths list.now) numbers.now }
{
    let mut price = 0;
    for number in 0..buckets(profile) as u8 {
        price += bucket_cost(list, numbers, number);
    }
    price
}

/// The cost of the literals with this bucket number; 0 if there are none.
fn bucket_cost(list: &LitList, numbers: &[u8], number: u8) -> u64
    requires { length numbers.now ≡ length list.now.texts }
    ensures value { result ≡ group_cost (bucket number (lengths list.now) numbers.now) }
    ensures bound { result < 2 ^ 40 }
{
    prove!(numbers.len() == list.len());
    let mut count = 0;
    let mut shortest = usize::MAX;
    for (place, own) in numbers.iter().enumerate() {
        if *own == number {
            count += 1;
            shortest = shortest.min(list.get(place).len());
        }
    }
    if count == 0 { 0 } else { cost(count, shortest) }
}
