ghost use Rattle.std.specs.Prelude.{ℕ, filter, length, All, IfOk, OnOk, ◌+◌, ◌*◌, ◌^◌, ◌≤◌, ◌≡◌};
ghost use Rattle.geo_core.specs.Intervals.{IsIn};
ghost use Rattle.touch_sweep.specs.inside.Entries.{IsByRow};
ghost use Rattle.touch_sweep.specs.inside.Matches.{IsMatchOf, IsMatchFrom};
ghost use Rattle.touch_sweep.specs.inside.Chains.{AreInRow, IsMatchAfter, Links};
ghost use Rattle.touch_sweep.specs.inside.Splits.{HaveBegins, work_in};
ghost use Rattle.touch_sweep.specs.inside.Strips.{begins_in, crosses, meets_partly};

use super::chain::chain;
use super::numbered::Numbered;
use super::spanning_forest::thin;
use super::strip::{Met, Strip};
use super::sweep::{sweep, sweep_some};
use std::alloc::{AllocError, Global};

/// Where no more than this many rectangles begin, all pairs are looked at.
const FEW: usize = 16;

/// Where there are no more than this many pairs for each point, they are all right: a sweep is quicker than chains.
const ENOUGH: usize = 2;

/// Adds pairs of numbers by which all entries that touch are joined, where the later one of two begins in the strip. The
/// entries are in the order of their lowest rows. Where there are many pairs for so many numbers, pairs are let go that
/// the others make needless.
pub fn link(
    alloc: Global,
    count: usize,
    entries: Vec<Numbered>,
    strip: Strip<'_>,
    pairs: &mut Vec<(usize, usize)>,
) -> Result<(), AllocError>
    requires rows { IsByRow entries.items }
    requires splits { HaveBegins strip.splits.now strip.low strip.high entries.items }
    ensures joined { OnOk result (Links
        (IsMatchFrom strip.entry.low strip.entry.high entries.items entries.items) (IsMatchOf entries.items entries.items)
        pairs.old.items pairs.new.items) }
    ensures few { OnOk result ((levels : ℕ) → length strip.entry.splits.now ≤ 2 ^ levels →
        length pairs.new.items ≤ length pairs.old.items + 51 * length entries.items * (levels + 1)) }
{
    let all = entries.as_slice();
    let part = part_of(alloc, count, all, all, strip, pairs)?;
    drop(entries);
    link_strip(alloc, count, part, strip, pairs)
}

/// What is left to link in a strip: the points that begin in it, and the spans that meet some of its columns only.
#[derive(Drop)]
struct Part {
    points: Vec<Numbered>,
    spans: Vec<Numbered>,
}

/// Adds pairs of numbers by which each point and each span of a part that touch are joined, where the span begins no later
/// than the point. All points begin in the strip. Both lists are in the order of their lowest rows.
///
/// The lists are let go before the halves are searched. So of all parts that are still to be searched each point is in one,
/// and each span in two at most, one for each of its sides.
fn link_strip(
    alloc: Global,
    count: usize,
    part: Part,
    strip: Strip<'_>,
    pairs: &mut Vec<(usize, usize)>,
) -> Result<(), AllocError>
    requires points { IsByRow part.points.items }
    requires spans { IsByRow part.spans.items }
    requires begin { All (λ e. IsIn strip.low strip.high e.rect.x0) part.points.items }
    requires splits { HaveBegins strip.splits.now strip.low strip.high part.points.items }
    ensures joined { OnOk result (Links
        (IsMatchFrom strip.entry.low strip.entry.high part.points.items part.spans.items)
        (IsMatchOf part.points.items part.spans.items) pairs.old.items pairs.new.items) }

    // A span meets two strips of each level in part at most: one for each of its sides.
    ensures few { OnOk result ((levels : ℕ) → length strip.entry.splits.now ≤ 2 ^ levels →
        let work = work_in strip.entry.low strip.entry.high part.points.items part.spans.items in
        length pairs.new.items ≤ length pairs.old.items +
        16 * (levels * work + length part.points.items + length part.spans.items)) }
{
    let points = part.points.as_slice();
    let spans = part.spans.as_slice();
    if points.len() <= FEW {
        return sweep(points, spans, pairs);
    }
    if strip.splits.len() <= 1 {
        return link_column(alloc, count, points, spans, points[0], pairs);
    }
    let (left, right) = strip.halves();
    let before = part_of(alloc, count, points, spans, left, pairs)?;
    let behind = part_of(alloc, count, points, spans, right, pairs)?;
    drop(part);
    link_strip(alloc, count, before, left, pairs)?;
    link_strip(alloc, count, behind, right, pairs)
}

/// Adds pairs of numbers by which each point that begins in the strip and each span that reaches over all of its columns
/// are joined where they touch, and gives what is left to link. Both lists are in the order of their lowest rows.
fn part_of(
    alloc: Global,
    count: usize,
    points: &[Numbered],
    spans: &[Numbered],
    strip: Strip<'_>,
    pairs: &mut Vec<(usize, usize)>,
) -> Result<Part, AllocError>
    requires points { IsByRow points.now }
    requires spans { IsByRow spans.now }
    ensures across { IfOk result (λ part. let found =
        IsMatchOf part.points.items (filter (crosses strip.entry.low strip.entry.high) spans.now) in
        Links found found pairs.old.items pairs.new.items) }
    ensures few { IfOk result (λ part.
        length pairs.new.items ≤ length pairs.old.items + 7 * length part.points.items + 3 * length spans.now) }
    ensures points { IfOk result (λ part.
        part.points.items ≡ filter (begins_in strip.entry.low strip.entry.high) points.now) }
    ensures spans { IfOk result (λ part.
        part.spans.items ≡ filter (meets_partly strip.entry.low strip.entry.high) spans.now) }
{
    let points = strip.beginning(alloc, points)?;
    let spans = link_across(alloc, count, points.as_slice(), spans, strip, pairs)?;
    Ok(Part { points, spans })
}

/// Adds pairs of numbers by which each point and each span that touch are joined, where the span reaches over all columns
/// of the strip, and gives the spans that meet some of them only. All points begin in the strip.
fn link_across(
    alloc: Global,
    count: usize,
    points: &[Numbered],
    spans: &[Numbered],
    strip: Strip<'_>,
    pairs: &mut Vec<(usize, usize)>,
) -> Result<Vec<Numbered>, AllocError>
    requires points { IsByRow points.now }
    requires spans { IsByRow spans.now }
    requires begin { All (λ e. IsIn strip.low strip.high e.rect.x0) points.now }
    ensures across { OnOk result (
        let found = IsMatchOf points.now (filter (crosses strip.entry.low strip.entry.high) spans.now) in
        Links found found pairs.old.items pairs.new.items) }
    ensures few { IfOk result (λ partly.
        length pairs.new.items ≤ length pairs.old.items + 7 * length points.now + 3 * length spans.now) }
    ensures partly { IfOk result (λ partly.
        partly.items ≡ filter (meets_partly strip.entry.low strip.entry.high) spans.now) }
{
    let Met { across, partly } = strip.met(alloc, spans)?;
    join(alloc, points, across.as_slice(), pairs)?;
    thin(alloc, count, pairs)?;
    Ok(partly)
}

/// Adds pairs of numbers by which each point and each span that touch are joined, where their rows alone tell whether
/// they touch: all pairs as long as these are few, and else chains.
fn join(
    alloc: Global,
    points: &[Numbered],
    spans: &[Numbered],
    pairs: &mut Vec<(usize, usize)>,
) -> Result<(), AllocError>
    requires points { IsByRow points.now }
    requires spans { IsByRow spans.now }
    requires rows { AreInRow points.now spans.now }
    ensures joined { OnOk result (let found = IsMatchOf points.now spans.now in
        Links found found pairs.old.items pairs.new.items) }
    ensures few { OnOk result (length pairs.new.items ≤
        length pairs.old.items + 7 * length points.now + 3 * length spans.now) }
{
    let enough = ENOUGH.saturating_mul(points.len());
    let is_whole = sweep_some(points, spans, enough, pairs)?;
    if is_whole {
        return Ok(());
    }
    chain(alloc, points, spans, pairs)
}

/// Adds pairs of numbers by which each point and each span that touch are joined, where the span begins no later than
/// the point. All points begin in one column, that of the first one.
fn link_column(
    alloc: Global,
    count: usize,
    points: &[Numbered],
    spans: &[Numbered],
    first: Numbered,
    pairs: &mut Vec<(usize, usize)>,
) -> Result<(), AllocError>
    requires points { IsByRow points.now }
    requires spans { IsByRow spans.now }
    requires column { All (λ e. e.rect.x0 ≡ first.rect.x0) points.now }
    ensures joined { OnOk result (Links
        (IsMatchAfter points.now spans.now) (IsMatchOf points.now spans.now)
        pairs.old.items pairs.new.items) }
    ensures few { OnOk result (length pairs.new.items ≤
        length pairs.old.items + 9 * length points.now + 5 * length spans.now) }
{
    let column = Strip::column_of(first);
    let partly = link_across(alloc, count, points, spans, column, pairs)?;
    chain(alloc, points, partly.as_slice(), pairs)
}
