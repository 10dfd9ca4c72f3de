ghost use Rattle.std.specs.Prelude.{◌≡◌, ◌↔◌, IfOk, IsTrue, OnOk};
ghost use Rattle.net_pairs.specs.inside.ChangeCorners.{AreCornersOf, AreOfOnePlace, GainAlike, GainsCorner, GainsCorners, rect_corners};

use geo_core::{Labelled, Rect, clip};
use lists::NoMemory;
use std::alloc::Global;

/// In a row, from a column on to the right, a label is covered so many times more often than in the row below. The gain is one in
/// 64 bits: what is lost counts as what is missing to 2 to the 64th.
#[derive(Clone, Copy, PartialEq, Eq, PartialOrd, Ord)]
pub struct Corner {
    pub label: usize,
    pub row: i32,
    pub column: i32,
    pub gain: u64,
}

/// The corners of what the rectangles cover of each label in the window, one for each label, row and column where something
/// changes, in their order.
pub fn corners_of(alloc: Global, rects: &[Labelled], window: Rect) -> Result<Vec<Corner>, NoMemory>
    ensures { IfOk result (λ corners. AreCornersOf window rects.now corners.items) }
{
    let mut corners = Vec::new(alloc);
    for one in rects {
        push_corners(&mut corners, *one, window)?;
    }
    sort_corners(&mut corners);
    added_up(alloc, corners.as_slice())
}

/// Adds the four corners of what the rectangle has of the window.
fn push_corners(corners: &mut Vec<Corner>, one: Labelled, window: Rect) -> Result<(), NoMemory>
    ensures { OnOk result (GainsCorners window one corners.old.items corners.new.items) }
{
    if let Some(rect) = clip(one.rect, window) {
        corners.extend_from_slice(&corners_of_rect(rect, one.label))?;
    }
    Ok(())
}

/// Puts the corners in their order.
fn sort_corners(corners: &mut Vec<Corner>)
    ensures { GainAlike corners.old.items corners.new.items }
{
    corners.sort_unstable();
}

/// Adds the corner, where it gains anything.
fn push_gaining(corners: &mut Vec<Corner>, corner: Corner) -> Result<(), NoMemory>
    ensures { OnOk result (GainsCorner corner corners.old.items corners.new.items) }
{
    if corner.gain > 0 {
        corners.push(corner)?;
    }
    Ok(())
}

/// The corners of a rectangle with this label: where it begins and ends, in its lowest row and in the row above its uppermost one.
fn corners_of_rect(rect: Rect, label: usize) -> [Corner; 4]
    ensures { result ≡ rect_corners label rect }
{
    let corner = |row: i32, column: i32, gain: u64| Corner {
        label,
        row,
        column,
        gain,
    };
    [
        corner(rect.y0, rect.x0, 1),
        corner(rect.y0, rect.x1, u64::MAX),
        corner(rect.y1, rect.x0, u64::MAX),
        corner(rect.y1, rect.x1, 1),
    ]
}

/// Whether the two are of one label, and stand in one row and column.
fn are_of_one_place(corner: Corner, other: Corner) -> bool
    ensures { IsTrue result ↔ AreOfOnePlace corner other }
{
    corner.label == other.label && corner.row == other.row && corner.column == other.column
}

/// One corner for each label, row and column, with all its gains, where these are not nothing together.
fn added_up(alloc: Global, sorted: &[Corner]) -> Result<Vec<Corner>, NoMemory>
    ensures { IfOk result (λ corners. GainAlike sorted.now corners.items) }
{
    let mut corners = Vec::new(alloc);
    let mut last = Corner {
        label: 0,
        row: 0,
        column: 0,
        gain: 0,
    };
    for corner in sorted {
        if are_of_one_place(last, *corner) {
            last.gain = last.gain.wrapping_add(corner.gain);
        } else {
            push_gaining(&mut corners, last)?;
            last = *corner;
        }
    }
    push_gaining(&mut corners, last)?;
    Ok(corners)
}
