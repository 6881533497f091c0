//! A plan as a drawing.
ghost use Rattle.std.specs.Prelude.{◌≡◌, ◌^◌, ◌<◌, ◌≤◌, ◌++◌, OnOk, IfOk, flat_map, length};
ghost use Rattle.lit_base.specs.Cuts.{IsCut};
ghost use Rattle.lit_base.specs.Literals.{lengths};
ghost use Rattle.plan_view.specs.Buckets.{IsBucket};
ghost use Rattle.plan_view.specs.Drawings.{across, bar, bar_numbers, caption, drawn, even_phrase, head, height, highest_cost, legend_line, number_at, numbers_text, plan_svg, said, title, xml_byte};

use crate::bucket::{Bucket, buckets_of};
use crate::rows::{percent, push_span};
use crate::sums::{even_parts, push_number, single};
use crate::view::View;
use lit_base::{Ends, LitList, Profile, run_cost};
use nib_mask::Masks;
use std::alloc::{AllocError, Global};

/// What stands before the height of the drawing.
const SIZE: &[u8] = b"<svg xmlns=\"http://www.w3.org/2000/svg\" viewBox=\"0 0 720 ";

/// The font, and the colours on light and on dark pages.
const STYLE: &[u8] =
    b"\" font-family=\"sans-serif\" font-size=\"13\">\n<style>text { fill: #24292f } rect { fill: #4f8fd0; stroke: #fff } path { stroke: #24292f }\n@media (prefers-color-scheme: dark) { text { fill: #e6edf3 } rect { stroke: #0d1117 } path { stroke: #e6edf3 } }</style>\n";

/// The line on which the bars stand, and the text below it.
const FOOT: &[u8] =
    b"<path d=\"M40 260H680\"/>\n<text x=\"40\" y=\"300\">literals by length; below a bucket the bytes of its shortest, above it its cost</text>\n";

/// The plan of a list as an SVG file: a bar for each bucket, as wide as it has literals and as high as it costs. Its
/// caption compares the plan with as many even parts as the profile has buckets. Its legend has the numbers of each
/// bucket.
pub fn plan_svg(
    alloc: Global,
    profile: Profile,
    list: &LitList,
    ends: &Ends,
) -> Result<Vec<u8>, AllocError>
    requires { IsCut 16 (length list.now.texts) ends.now.items }
    ensures { IfOk result (λ text. text.items ≡ plan_svg profile list.now ends.now.items) }
{
    let masks = Masks::of(list, ends);
    let buckets = buckets_of(ends);
    let view = View::new(profile, list, ends, buckets.as_slice(), &masks);
    let mut text = Vec::new(alloc);
    push_head(buckets.len(), &mut text)?;
    push_caption(view, &mut text)?;
    push_buckets(view, &mut text)?;
    text.extend_from_slice(FOOT)?;
    push_legend(view, &mut text)?;
    text.extend_from_slice(b"</svg>\n")?;
    Ok(text)
}

/// Appends the head of a drawing with `count` buckets.
fn push_head(count: usize, text: &mut Vec<u8>) -> Result<(), AllocError>
    requires { count ≤ 16 }
    ensures { OnOk result (text.new.items ≡ text.old.items ++ head count) }
{
    push_said(SIZE, 316 + count as u64 * 18, text)?;
    text.extend_from_slice(STYLE)?;
    Ok(())
}

/// Appends what the plan costs, and what one bucket and even parts would.
fn push_caption(view: View<'_>, text: &mut Vec<u8>) -> Result<(), AllocError>
    ensures { OnOk result (text.new.items ≡ text.old.items ++ caption view.entry.profile view.entry.list.now view.entry.ends.now.items) }
{
    push_said(b"<text x=\"40\" y=\"24\">cost ", view.total, text)?;
    push_said(b"; one bucket for all ", single(view), text)?;
    push_said(
        even_phrase(view.profile),
        even_parts(view.profile, view.list),
        text,
    )?;
    text.extend_from_slice(b"</text>\n")?;
    Ok(())
}

/// What stands before the cost of even parts.
fn even_phrase(profile: Profile) -> &'static [u8]
    ensures { result.now ≡ even_phrase profile }
{
    match profile {
        Profile::Eight => b"; even eighths ",
        Profile::Sixteen => b"; even sixteenths ",
    }
}

/// The highest cost of a bucket, at least 1.
fn highest_cost(view: View<'_>) -> u64
    ensures value { result ≡ highest_cost (lengths view.entry.list.now) 1 view.entry.buckets.now }
    ensures positive { 0 < result }
{
    let mut highest = 1;
    for bucket in view.buckets {
        highest = highest.max(run_cost(view.list, bucket.start, bucket.end));
    }
    highest
}

/// Appends all buckets.
fn push_buckets(view: View<'_>, text: &mut Vec<u8>) -> Result<(), AllocError>
    ensures { OnOk result (text.new.items ≡ text.old.items ++ flat_map (drawn view.entry.list.now view.entry.ends.now.items
        (highest_cost (lengths view.entry.list.now) 1 view.entry.buckets.now)) view.entry.buckets.now) }
{
    let highest = highest_cost(view);
    for bucket in view.buckets {
        push_bucket(view, highest, *bucket, text)?;
    }
    Ok(())
}

/// Appends a bucket, in a drawing whose highest bucket has this cost.
#[tactic(auto, unfolding(crate::specs::Drawings::drawn))]
fn push_bucket(
    view: View<'_>,
    highest: u64,
    bucket: Bucket,
    text: &mut Vec<u8>,
) -> Result<(), AllocError>
    requires bucket { IsBucket (length view.list.now.texts) bucket }
    requires highest { 0 < highest }
    ensures { OnOk result (text.new.items ≡ text.old.items ++ drawn view.entry.list.now view.entry.ends.now.items highest bucket) }
{
    let count = view.list.len();
    let x = across(count, bucket.start);
    let width = across(count, bucket.end).saturating_sub(x);
    let cost = run_cost(view.list, bucket.start, bucket.end);
    let shortest = view.list.get(bucket.start).len() as u64;
    let high = height(cost, highest);
    text.extend_from_slice(b"<g>")?;
    push_title(view, bucket, text)?;
    push_bar(x, width, high, text)?;
    push_bar_numbers(x, width, high, cost, shortest, text)?;
    text.extend_from_slice(b"</g>\n")?;
    Ok(())
}

/// How far right of the first literal a place stands, of 640 for the whole list.
fn across(count: usize, place: usize) -> u64
    requires some { 0 < count }
    requires within { place ≤ count }
    requires few { count ≤ 4096 }
    ensures value { result ≡ across count place }
    ensures bound { result ≤ 2621440 }
{
    place as u64 * 640 / count as u64
}

/// How high a bar of this cost is, of 200 for the highest.
fn height(cost: u64, highest: u64) -> u64
    requires cost { cost < 2 ^ 40 }
    requires highest { 0 < highest }
    ensures { result ≡ height cost highest }
{
    cost * 200 / highest
}

/// Appends the title of a bucket, which shows where a pointer rests on it.
#[tactic(auto, unfolding(crate::specs::Drawings::title))]
fn push_title(view: View<'_>, bucket: Bucket, text: &mut Vec<u8>) -> Result<(), AllocError>
    requires { IsBucket (length view.list.now.texts) bucket }
    ensures { OnOk result (text.new.items ≡ text.old.items ++ title view.entry.list.now view.entry.ends.now.items bucket) }
{
    let mut span = Vec::new(*text.allocator());
    push_span(view.list, bucket, &mut span)?;
    text.extend_from_slice(b"<title>")?;
    push_numbers(view, bucket, text)?;
    push_xml(span.as_slice(), text)?;
    text.extend_from_slice(b"</title>\n")?;
    Ok(())
}

/// Appends the numbers of a bucket.
fn push_numbers(view: View<'_>, bucket: Bucket, text: &mut Vec<u8>) -> Result<(), AllocError>
    requires { IsBucket (length view.list.now.texts) bucket }
    ensures { OnOk result (text.new.items ≡ text.old.items ++ numbers_text view.entry.list.now view.entry.ends.now.items bucket) }
{
    let count = bucket.end - bucket.start;
    let shortest = view.list.get(bucket.start).len();
    let cost = run_cost(view.list, bucket.start, bucket.end);
    push_said(b"bucket ", bucket.number as u64 + 1, text)?;
    push_said(b": literals ", count as u64, text)?;
    push_said(b", shortest ", shortest as u64, text)?;
    push_said(b", cost ", cost, text)?;
    push_said(b", % of all ", percent(cost, view.total), text)?;
    Ok(())
}

/// Appends the legend: a line for each bucket.
fn push_legend(view: View<'_>, text: &mut Vec<u8>) -> Result<(), AllocError>
    ensures { OnOk result (text.new.items ≡ text.old.items ++ flat_map (legend_line view.entry.list.now view.entry.ends.now.items) view.entry.buckets.now) }
{
    for bucket in view.buckets {
        push_legend_line(view, *bucket, text)?;
    }
    Ok(())
}

/// Appends the line of a bucket in the legend.
fn push_legend_line(view: View<'_>, bucket: Bucket, text: &mut Vec<u8>) -> Result<(), AllocError>
    requires { IsBucket (length view.list.now.texts) bucket }
    ensures { OnOk result (text.new.items ≡ text.old.items ++ legend_line view.entry.list.now view.entry.ends.now.items bucket) }
{
    push_said(
        b"<text x=\"40\" y=\"",
        324 + bucket.number as u64 * 18,
        text,
    )?;
    text.extend_from_slice(b"\">")?;
    push_numbers(view, bucket, text)?;
    text.extend_from_slice(b"</text>\n")?;
    Ok(())
}

/// Appends a bar that stands on the line.
#[tactic(auto, unfolding(crate::specs::Drawings::bar))]
fn push_bar(x: u64, width: u64, high: u64, text: &mut Vec<u8>) -> Result<(), AllocError>
    requires { x < 2 ^ 40 }
    ensures { OnOk result (text.new.items ≡ text.old.items ++ bar x width high) }
{
    push_said(b"<rect x=\"", 40 + x, text)?;
    push_said(b"\" y=\"", 260_u64.saturating_sub(high), text)?;
    push_said(b"\" width=\"", width, text)?;
    push_said(b"\" height=\"", high, text)?;
    text.extend_from_slice(b"\"/>\n")?;
    Ok(())
}

/// Appends the cost above a bar and the shortest length below it, where it is wide enough.
#[tactic(auto, unfolding(crate::specs::Drawings::bar_numbers))]
fn push_bar_numbers(
    x: u64,
    width: u64,
    high: u64,
    cost: u64,
    shortest: u64,
    text: &mut Vec<u8>,
) -> Result<(), AllocError>
    requires { x < 2 ^ 32 }
    ensures { OnOk result (text.new.items ≡ text.old.items ++ bar_numbers x width high cost shortest) }
{
    if width < 48 {
        return Ok(());
    }
    push_number_at(x + 3, 255_u64.saturating_sub(high), cost, text)?;
    push_number_at(x + 3, 275, shortest, text)?;
    Ok(())
}

/// Appends a number at a place.
#[tactic(auto, unfolding(crate::specs::Drawings::number_at))]
fn push_number_at(x: u64, y: u64, number: u64, text: &mut Vec<u8>) -> Result<(), AllocError>
    requires { x < 2 ^ 40 }
    ensures { OnOk result (text.new.items ≡ text.old.items ++ number_at x y number) }
{
    push_said(b"<text x=\"", 40 + x, text)?;
    push_said(b"\" y=\"", y, text)?;
    push_said(b"\">", number, text)?;
    text.extend_from_slice(b"</text>\n")?;
    Ok(())
}

/// Appends a number after a text.
#[tactic(auto, unfolding(crate::specs::Drawings::said))]
fn push_said(label: &[u8], number: u64, text: &mut Vec<u8>) -> Result<(), AllocError>
    ensures { OnOk result (text.new.items ≡ text.old.items ++ said label.now number) }
{
    text.extend_from_slice(label)?;
    push_number(number, text)?;
    Ok(())
}

/// Appends bytes as the text of an XML element.
fn push_xml(bytes: &[u8], text: &mut Vec<u8>) -> Result<(), AllocError>
    ensures { OnOk result (text.new.items ≡ text.old.items ++ flat_map xml_byte bytes.now) }
{
    for byte in bytes {
        push_xml_byte(*byte, text)?;
    }
    Ok(())
}

/// Appends a byte as the text of an XML element: `&`, `<` and `>` as entities.
fn push_xml_byte(byte: u8, text: &mut Vec<u8>) -> Result<(), AllocError>
    ensures { OnOk result (text.new.items ≡ text.old.items ++ xml_byte byte) }
{
    match byte {
        b'&' => text.extend_from_slice(b"&amp;")?,
        b'<' => text.extend_from_slice(b"&lt;")?,
        b'>' => text.extend_from_slice(b"&gt;")?,
        _ => text.push(byte)?,
    }
    Ok(())
}
