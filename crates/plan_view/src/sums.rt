//! The text below the rows: the costs of the plan and of other groupings, and the dropped patterns.
ghost use Rattle.std.specs.Prelude.{◌≡◌, ◌^◌, ◌<◌, ◌≤◌, ◌++◌, OnOk, decimal, flat_map, length, take};
ghost use Rattle.lit_base.specs.Literals.{lengths};
ghost use Rattle.lit_base.specs.Profiles.{buckets};
ghost use Rattle.plan_view.specs.Texts.{count_line, drops, even_label, even_parts, part_cost, part_start, repeat_line, single, sum_line, sums};

use crate::columns::push_columns;
use crate::repeats::{Repeat, nulls, repeats};
use crate::rows::percent;
use crate::view::View;
use itoa::Buffer;
use lit_base::{LitList, Profile, buckets, run_cost};
use std::alloc::{AllocError, Global};

/// How many dropped patterns are listed one by one.
const MAX_LISTED: usize = 10;

/// Appends what the plan costs, and what one bucket and even parts would.
pub fn push_sums(view: View<'_>, text: &mut Vec<u8>) -> Result<(), AllocError>
    ensures { OnOk result (text.new.items ≡ text.old.items ++ sums view.entry.profile view.entry.list.now view.entry.ends.now.items) }
{
    let total = view.total;
    let single = single(view);
    let even = even_parts(view.profile, view.list);
    push_sum(
        b"total                                    ",
        total,
        100,
        text,
    )?;
    push_sum(
        b"one bucket for all                       ",
        single,
        percent(single, total),
        text,
    )?;
    push_sum(even_label(view.profile), even, percent(even, total), text)?;
    Ok(())
}

/// What the line of even parts begins with.
fn even_label(profile: Profile) -> &'static [u8]
    ensures { result.now ≡ even_label profile }
{
    match profile {
        Profile::Eight => b"even eighths                             ",
        Profile::Sixteen => b"even sixteenths                          ",
    }
}

/// What one bucket for all literals costs.
pub fn single(view: View<'_>) -> u64
    ensures value { result ≡ single view.entry.list.now }
    ensures bound { result < 2 ^ 40 }
{
    run_cost(view.list, 0, view.list.len())
}

/// Appends a cost below the rows, with its share of the total.
#[tactic(auto, unfolding(crate::specs::Texts::sum_line))]
fn push_sum(label: &[u8], cost: u64, share: u64, text: &mut Vec<u8>) -> Result<(), AllocError>
    ensures { OnOk result (text.new.items ≡ text.old.items ++ sum_line label.now cost share) }
{
    text.extend_from_slice(label)?;
    push_columns(&[(12, cost)], text)?;
    text.push(b' ')?;
    push_columns(&[(4, share)], text)?;
    text.push(b'\n')?;
    Ok(())
}

/// What the list costs in even parts, as many as the profile has buckets.
#[tactic(auto, unfolding(crate::specs::Texts::even_parts), using(crate::proofs::Ranges::sum_more, crate::proofs::Ranges::sum_none))]
pub fn even_parts(profile: Profile, list: &LitList) -> u64
    ensures value { result ≡ even_parts profile list.now }
    ensures bound { result ≤ 2 ^ 44 }
{
    let count = list.len();
    let mut sum = 0;
    for k in 0..buckets(profile) {
        let start = part_start(profile, count, k);
        sum += part_cost(list, start, part_start(profile, count, k + 1));
    }
    sum
}

/// Where the k-th of the even parts of `count` literals begins.
fn part_start(profile: Profile, count: usize, k: usize) -> usize
    requires few { count ≤ 4096 }
    requires within { k ≤ buckets profile }
    ensures value { result ≡ part_start profile count k }
    ensures bound { result ≤ count }
{
    k * count / buckets(profile)
}

/// What a part of the list costs, which may be empty.
fn part_cost(list: &LitList, start: usize, end: usize) -> u64
    requires { end ≤ length list.now.texts }
    ensures value { result ≡ part_cost (lengths list.now) start end }
    ensures bound { result < 2 ^ 40 }
{
    if start < end {
        run_cost(list, start, end)
    } else {
        0
    }
}

/// Appends how many patterns were dropped, and which.
pub fn push_drops(
    alloc: Global,
    places: &[Option<u16>],
    text: &mut Vec<u8>,
) -> Result<(), AllocError>
    ensures { OnOk result (text.new.items ≡ text.old.items ++ drops places.now) }
{
    let found = repeats(alloc, places)?;
    push_count(b"equal to an earlier line: ", found.len(), text)?;
    push_repeats(at_most_listed(found.as_slice()), text)?;
    push_count(b"null patterns: ", nulls(places), text)?;
    Ok(())
}

/// The patterns that are listed one by one.
#[tactic(auto, using(std::proofs::lemmas::List::take_all))]
fn at_most_listed(found: &[Repeat]) -> &[Repeat]
    ensures { result.now ≡ take 10 found.now }
{
    if found.len() > MAX_LISTED {
        &found[..MAX_LISTED]
    } else {
        found
    }
}

/// Appends a line with a number.
#[tactic(auto, unfolding(crate::specs::Texts::count_line))]
fn push_count(label: &[u8], count: usize, text: &mut Vec<u8>) -> Result<(), AllocError>
    ensures { OnOk result (text.new.items ≡ text.old.items ++ count_line label.now count) }
{
    text.extend_from_slice(label)?;
    push_number(count as u64, text)?;
    text.push(b'\n')?;
    Ok(())
}

/// Appends the lines of dropped patterns.
fn push_repeats(found: &[Repeat], text: &mut Vec<u8>) -> Result<(), AllocError>
    ensures { OnOk result (text.new.items ≡ text.old.items ++ flat_map repeat_line found.now) }
{
    for repeat in found {
        push_repeat(*repeat, text)?;
    }
    Ok(())
}

/// Appends the line of a dropped pattern.
fn push_repeat(repeat: Repeat, text: &mut Vec<u8>) -> Result<(), AllocError>
    ensures { OnOk result (text.new.items ≡ text.old.items ++ repeat_line repeat) }
{
    text.extend_from_slice(b"  line ")?;
    push_number(repeat.line as u64, text)?;
    text.extend_from_slice(b" is line ")?;
    push_number(repeat.first_line as u64, text)?;
    text.extend_from_slice(b" again\n")?;
    Ok(())
}

/// Appends a number.
pub fn push_number(number: u64, text: &mut Vec<u8>) -> Result<(), AllocError>
    ensures { OnOk result (text.new.items ≡ text.old.items ++ decimal number) }
{
    let mut digits = Buffer::new();
    text.extend_from_slice(digits.format(number).as_bytes())?;
    Ok(())
}
