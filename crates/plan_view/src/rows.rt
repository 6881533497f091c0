//! The rows of a plan.
ghost use Rattle.std.specs.Prelude.{◌≡◌, ◌^◌, ◌<◌, ◌≤◌, ◌++◌, OnOk, flat_map, length};
ghost use Rattle.plan_view.specs.Buckets.{IsBucket};
ghost use Rattle.plan_view.specs.Rows.{percent, row, row_numbers, span};

use crate::bucket::Bucket;
use crate::columns::push_columns;
use crate::endings::endings;
use crate::quotes::push_quoted;
use crate::view::View;
use lit_base::{LitList, run_cost, weight};
use std::alloc::AllocError;

/// Appends the rows of all buckets.
pub fn push_rows(view: View<'_>, text: &mut Vec<u8>) -> Result<(), AllocError>
    ensures { OnOk result (text.new.items ≡ text.old.items ++ flat_map (row view.entry.list.now view.entry.ends.now.items) view.entry.buckets.now) }
{
    for bucket in view.buckets {
        push_row(view, *bucket, text)?;
    }
    Ok(())
}

/// Appends the row of a bucket.
fn push_row(view: View<'_>, bucket: Bucket, text: &mut Vec<u8>) -> Result<(), AllocError>
    requires { IsBucket (length view.list.now.texts) bucket }
    ensures { OnOk result (text.new.items ≡ text.old.items ++ row view.entry.list.now view.entry.ends.now.items bucket) }
{
    push_columns(&numbers_of(view, bucket), text)?;
    push_span(view.list, bucket, text)?;
    text.push(b'\n')?;
    Ok(())
}

/// The numbers in the row of a bucket, each with the width of its column.
fn numbers_of(view: View<'_>, bucket: Bucket) -> [(usize, u64); 8]
    requires { IsBucket (length view.list.now.texts) bucket }
    ensures { result ≡ row_numbers view.entry.list.now view.entry.ends.now.items bucket }
{
    let shortest = view.list.get(bucket.start).len();
    let cost = run_cost(view.list, bucket.start, bucket.end);
    [
        (6, bucket.number as u64 + 1),
        (10, (bucket.end - bucket.start) as u64),
        (10, shortest as u64),
        (7, shortest.min(3) as u64),
        (8, weight(shortest)),
        (12, cost),
        (5, percent(cost, view.total)),
        (10, endings(view.masks, bucket.number)),
    ]
}

/// Appends the first and the last literal of a bucket.
pub fn push_span(list: &LitList, bucket: Bucket, text: &mut Vec<u8>) -> Result<(), AllocError>
    requires { IsBucket (length list.now.texts) bucket }
    ensures { OnOk result (text.new.items ≡ text.old.items ++ span list.now bucket) }
{
    text.extend_from_slice(b"  ")?;
    push_quoted(list.get(bucket.start), text)?;
    text.extend_from_slice(b" to ")?;
    push_quoted(list.get(bucket.end - 1), text)
}

/// A part of a total in percent, rounded down.
pub fn percent(part: u64, total: u64) -> u64
    requires part { part ≤ 2 ^ 44 }
    requires total { 0 < total }
    ensures { result ≡ percent part total }
{
    part * 100 / total
}
