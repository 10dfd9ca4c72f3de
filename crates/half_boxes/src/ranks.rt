//! Boxes as rectangles of the plane of cells. Whether boxes touch depends on the order of their edges alone, so each edge
//! may be replaced by its number among all edges.

ghost use Rattle.std.specs.Prelude.{◌≡◌, ◌⊎◌, All, Contains, IfNone, IfOk, IfSome};
ghost use Rattle.lists.specs.Words.{AllZip};
ghost use Rattle.half_boxes.specs.inside.Ranks.{AreCrowded, AreEnds, HasEnds, HaveRanks, IsAnEnd, IsRank, IsRankedBox, IsRankedSpan, TouchAlike};
ghost use Rattle.half_boxes.specs.HalfBoxes.{span_along};

use super::boxes::HalfBox;
use super::span::HalfSpan;
use geo_core::{Axis, FARTHEST_GROWN, Interval, Rect};
use lists::NoMemory;
use std::alloc::{AllocError, Global};

/// The most ends that have ranks up to the greatest coordinate of a rectangle: those of some 500,000,000 boxes at least.
const MOST_ENDS: usize = 1_001_000_000;

const _: () = prove!(MOST_ENDS == FARTHEST_GROWN as usize);

/// A rectangle for each box, of which two touch exactly where the two boxes do; none where the boxes have more ends along
/// an axis than there are ranks.
pub fn ranked(alloc: Global, boxes: &[HalfBox]) -> Result<Option<Vec<Rect>>, NoMemory>
    ensures some { IfOk result (λ made. IfSome made (λ rects. TouchAlike boxes.now rects.items)) }
    ensures none { IfOk result (λ made. IfNone made (AreCrowded Axis.X boxes.now ⊎ AreCrowded Axis.Y boxes.now)) }
{
    let Some(columns) = ends_along(alloc, boxes, Axis::X)? else {
        return Ok(None);
    };
    let Some(rows) = ends_along(alloc, boxes, Axis::Y)? else {
        return Ok(None);
    };
    let rects = ranked_among(alloc, boxes, columns.as_slice(), rows.as_slice())?;
    Ok(Some(rects))
}

/// The ends of the boxes along the axis, in rising order and each once, unless there are more of them than ranks.
fn ends_along(alloc: Global, boxes: &[HalfBox], axis: Axis) -> Result<Option<Vec<i32>>, AllocError>
    ensures some { IfOk result (λ made. IfSome made (λ ends. AreEnds axis boxes.now ends.items)) }
    ensures none { IfOk result (λ made. IfNone made (AreCrowded axis boxes.now)) }
{
    let mut ends = all_ends_along(alloc, boxes, axis)?;
    ends.sort_unstable();
    ends.dedup();
    if ends.len() > MOST_ENDS {
        return Ok(None);
    }
    Ok(Some(ends))
}

/// The ends of the boxes along the axis, box by box.
fn all_ends_along(alloc: Global, boxes: &[HalfBox], axis: Axis) -> Result<Vec<i32>, AllocError>
    ensures all { IfOk result (λ ends. All (λ one. HasEnds ends.items (span_along axis one)) boxes.now) }
    ensures theirs { IfOk result (λ ends. All (IsAnEnd axis boxes.now) ends.items) }
{
    let mut ends = Vec::new(alloc);
    for one in boxes {
        let span = along(*one, axis);
        ends.push(span.low)?;
        ends.push(span.high)?;
    }
    Ok(ends)
}

/// The columns or the rows of the box.
fn along(one: HalfBox, axis: Axis) -> HalfSpan
    ensures low { result.low ≡ (span_along axis one).low }
    ensures high { result.high ≡ (span_along axis one).high }
{
    match axis {
        Axis::X => one.columns,
        Axis::Y => one.rows,
    }
}

/// The boxes with the ranks of their edges in place of these.
fn ranked_among(
    alloc: Global,
    boxes: &[HalfBox],
    columns: &[i32],
    rows: &[i32],
) -> Result<Vec<Rect>, AllocError>
    requires columns { AreEnds Axis.X boxes.now columns.now }
    requires rows { AreEnds Axis.Y boxes.now rows.now }
    ensures { IfOk result (λ rects. AllZip (IsRankedBox columns.now rows.now) boxes.now rects.items) }
{
    let mut rects = Vec::with_capacity(alloc, boxes.len())?;
    for one in boxes {
        rects.push(Rect::of(ranks_of(columns, one.columns), ranks_of(rows, one.rows)))?;
    }
    Ok(rects)
}

/// The span with the ranks of its ends in place of these.
fn ranks_of(ends: &[i32], span: HalfSpan) -> Interval
    requires rising { HaveRanks ends.now }
    requires ends { HasEnds ends.now span }
    ensures { IsRankedSpan ends.now span result }
{
    Interval {
        low: rank_of(ends, span.low),
        high: rank_of(ends, span.high),
    }
}

/// The rank of an end: its number in the rising list, which is counted from 0.
fn rank_of(ends: &[i32], end: i32) -> i32
    requires rising { HaveRanks ends.now }
    requires found { Contains ends.now end }
    ensures { IsRank ends.now end result }
{
    ends.partition_point(|other| *other < end) as i32
}
