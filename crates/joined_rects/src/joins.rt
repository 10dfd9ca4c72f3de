ghost use Rattle.std.specs.Prelude.{◌≡◌, ◌≤◌, IfOk, length};
ghost use Rattle.geo_core.specs.declared.plane.Cell.{Cell};
ghost use Rattle.skyline_runs.specs.Depths.{depth_of};
ghost use Rattle.skyline_runs.specs.Runs.{AreApart, HaveSameCells};
ghost use Rattle.joined_rects.specs.inside.Joins.{IsJoined};

use super::neighbours::both_of;
use geo_core::{Axis, Rect};
use lists::NoMemory;
use std::alloc::Global;

/// The same cells in fewer rectangles, or in as many: those above one another over equal columns become one, and then those
/// side by side in equal rows. Each cell lies in as many of these as of the list; so where no two of the list have a common
/// cell, no two of these have one. Which of them become one, and their order, is left open. The only error is that no memory is
/// left.
///
/// Two passes over a list that is sorted for each: so `n` rectangles take `n log n` steps.
pub fn joined(alloc: Global, rects: Vec<Rect>) -> Result<Vec<Rect>, NoMemory>
    ensures depths { IfOk result (λ joined. (c : Cell) → depth_of joined.items c ≡ depth_of rects.items c) }
    ensures same { IfOk result (λ joined. HaveSameCells rects.items joined.items) }
    ensures apart { AreApart rects.items → IfOk result (λ joined. AreApart joined.items) }
    ensures fewer { IfOk result (λ joined. length joined.items ≤ length rects.items) }
{
    joined_twice(alloc, rects)
}

/// Joined along columns, and then along rows.
fn joined_twice(alloc: Global, rects: Vec<Rect>) -> Result<Vec<Rect>, NoMemory>
    ensures { IfOk result (λ joined. IsJoined rects.items joined.items) }
{
    let columns = joined_along(alloc, rects, Axis::Y)?;
    joined_along(alloc, columns, Axis::X)
}

/// Joined where they follow one another along the axis.
fn joined_along(alloc: Global, rects: Vec<Rect>, axis: Axis) -> Result<Vec<Rect>, NoMemory>
    ensures { IfOk result (λ joined. IsJoined rects.items joined.items) }
{
    let mut sorted = rects;
    sorted.sort_unstable_by_key(|rect| place_of(*rect, axis));
    joined_neighbours(alloc, sorted.as_slice(), axis)
}

/// Where the rectangle comes in a list that is joined along the axis: after those that it may be joined to, and before those
/// that lie in other columns or rows.
fn place_of(rect: Rect, axis: Axis) -> (i32, i32, i32) {
    match axis {
        Axis::X => (rect.y0, rect.y1, rect.x0),
        Axis::Y => (rect.x0, rect.x1, rect.y0),
    }
}

/// The list, where each rectangle that follows the one before it along the axis is joined to it.
fn joined_neighbours(alloc: Global, rects: &[Rect], axis: Axis) -> Result<Vec<Rect>, NoMemory>
    ensures { IfOk result (λ joined. IsJoined rects.now joined.items) }
{
    let mut joined = Vec::new(alloc);
    let Some((first, others)) = rects.split_first() else {
        return Ok(joined);
    };
    let mut last = *first;
    for rect in others {
        match both_of(last, *rect, axis) {
            Some(both) => last = both,
            None => {
                joined.push(last)?;
                last = *rect;
            }
        }
    }
    joined.push(last)?;
    Ok(joined)
}
