ghost use Rattle.std.specs.Prelude.{◌≡◌, ◌↔◌, IfOk, IsTrue, All, if◌then◌else◌, map};
ghost use Rattle.rect_cover.specs.ShapeChecks.{HasCells, IsBoxInLayout};
ghost use Rattle.rect_cover.specs.PathPieces.{box_of, half_width_of, pieces_between, reach_before, reach_behind};
ghost use Rattle.rect_cover.specs.inside.PieceBoxes.{box_value, knot_of, rect_value};

use super::piece::{PathCorner, PieceBox};
use super::style::PathStyle;
use geo_core::{Point, Rect};
use lists::NoMemory;
use std::alloc::Global;

/// The corner at which the first piece begins.
fn first_corner(style: PathStyle, point: Point) -> PathCorner
    ensures { knot_of result ≡ (point, reach_before style) }
{
    PathCorner {
        point,
        reach: style.reach_before(),
    }
}

/// The corner to which a piece leads. Pieces reach half a width past it, but the last piece as far as its style says.
fn next_corner(style: PathStyle, point: Point, is_last: bool) -> PathCorner
    ensures { knot_of result ≡ (point, (if is_last then reach_behind style else half_width_of style)) }
{
    if is_last {
        PathCorner {
            point,
            reach: style.reach_behind(),
        }
    } else {
        PathCorner {
            point,
            reach: style.half_width(),
        }
    }
}

/// The box of each piece of a path with these corners, from the first piece on.
pub fn find_boxes(
    alloc: Global,
    style: PathStyle,
    corners: &[Point],
) -> Result<Vec<PieceBox>, NoMemory>
    ensures { IfOk result (λ boxes. map box_value boxes.items
        ≡ map (box_of (half_width_of style)) (pieces_between style corners.now)) }
{
    let mut boxes = Vec::new(alloc);
    if corners.is_empty() {
        return Ok(boxes);
    }
    let mut from = first_corner(style, corners[0]);
    for i in 1..corners.len() {
        let to = next_corner(style, corners[i], i + 1 == corners.len());
        boxes.push(PieceBox::between(from, to, style.half_width()))?;
        from = to;
    }
    Ok(boxes)
}

/// Whether each has a cell.
pub fn have_cells(boxes: &[PieceBox]) -> bool
    ensures { IsTrue result ↔ All (λ piece. HasCells (box_value piece)) boxes.now }
{
    boxes.iter().all(|piece| piece.has_cells())
}

/// Whether each lies where a layout may.
pub fn are_in_layout(boxes: &[PieceBox]) -> bool
    ensures { IsTrue result ↔ All (λ piece. IsBoxInLayout (box_value piece)) boxes.now }
{
    boxes.iter().all(|piece| piece.is_in_layout())
}

/// Their rectangles, in their order.
pub fn find_rects(alloc: Global, boxes: &[PieceBox]) -> Result<Vec<Rect>, NoMemory>
    requires some { All (λ piece. HasCells (box_value piece)) boxes.now }
    requires within { All (λ piece. IsBoxInLayout (box_value piece)) boxes.now }
    ensures { IfOk result (λ rects. map rect_value rects.items ≡ map box_value boxes.now) }
{
    let mut rects = Vec::with_capacity(alloc, boxes.len())?;
    for piece in boxes {
        rects.push(piece.rect())?;
    }
    Ok(rects)
}
