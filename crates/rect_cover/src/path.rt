ghost use Rattle.std.specs.Prelude.{List, ◌≡◌, ◌≤◌, ◌↔◌, IfOk, IfErr, IsTrue, All, length, map};
ghost use Rattle.first_refusal.specs.Answers.{Answers};
ghost use Rattle.first_refusal.specs.Checks.{IsRefusalOfFirst};
ghost use Rattle.geo_core.specs.declared.plane.Point.{Point};
ghost use Rattle.library_model.specs.declared.element.ShapeKind.TheVariants.{Path};
ghost use Rattle.rect_cover.specs.Coverings.{CoverComesTo, with_items};
ghost use Rattle.rect_cover.specs.inside.PieceBoxes.{box_value};
ghost use Rattle.rect_cover.specs.ShapeChecks.{HasCells, HasDifferentPoints, IsBoxInLayout, ShapeHolds, box_checks, boxes_of, point_checks, shape_fault, style_checks};
ghost use Rattle.rect_cover.specs.declared.fault.CoverFault.TheVariants.{Memory};
ghost use Rattle.rect_cover.specs.declared.style.PathStyle.{PathStyle};

use super::corners::{find_corners, goes_on};
use super::fault::CoverFault;
use super::piece::PieceBox;
use super::pieces::{are_in_layout, find_boxes, find_rects, have_cells};
use super::style::PathStyle;
use geo_core::{Point, Rect};
use outlines::are_along_axes;
use std::alloc::Global;

/// Whether not all points are equal.
fn differ(points: &[Point]) -> bool
    requires { 1 ≤ length points.now }
    ensures { IsTrue result ↔ HasDifferentPoints points.now }
{
    for point in points {
        if *point != points[0] {
            return true;
        }
    }
    false
}

/// Refuses round ends, unknown ends and an odd width, in this order.
fn check_style(style: PathStyle, at: u32) -> Result<(), CoverFault>
    ensures fits { IfOk result (λ _. (points : List Point) → All (ShapeHolds points) (style_checks style)) }
    ensures refused { IfErr result (λ fault. (points : List Point) → IsRefusalOfFirst (ShapeHolds points) (style_checks style) (shape_fault at) fault) }
{
    if style.pathtype == 1 {
        return Err(CoverFault::RoundPath { at });
    }
    if !style.has_known_ends() {
        return Err(CoverFault::BadExtension { at });
    }
    if !style.has_even_width() {
        return Err(CoverFault::OddWidth { at });
    }
    Ok(())
}

/// Refuses points that are all equal, and edges that are slanted, in this order.
fn check_points(points: &[Point], at: u32) -> Result<(), CoverFault>
    requires { 1 ≤ length points.now }
    ensures fits { IfOk result (λ _. All (ShapeHolds points.now) point_checks) }
    ensures refused { IfErr result (λ fault. IsRefusalOfFirst (ShapeHolds points.now) point_checks (shape_fault at) fault) }
{
    if !differ(points) {
        return Err(CoverFault::PointPath { at });
    }
    if !are_along_axes(points) {
        return Err(CoverFault::NotRectilinear { at });
    }
    Ok(())
}

/// Refuses a piece that its reaches eat up, and a piece that lies too far out, in this order.
fn check_boxes(boxes: &[PieceBox], at: u32) -> Result<(), CoverFault>
    ensures some { IfOk result (λ _. All (λ piece. HasCells (box_value piece)) boxes.now) }
    ensures within { IfOk result (λ _. All (λ piece. IsBoxInLayout (box_value piece)) boxes.now) }
    ensures refused { IfErr result (λ fault. (style : PathStyle) (points : List Point) → map box_value boxes.now ≡ boxes_of style points →
        IsRefusalOfFirst (ShapeHolds points) (box_checks style) (shape_fault at) fault) }
{
    if !have_cells(boxes) {
        return Err(CoverFault::BadExtension { at });
    }
    if !are_in_layout(boxes) {
        return Err(CoverFault::OutOfRange { at });
    }
    Ok(())
}

/// One rectangle for each straight piece of the path through these points, of a shape that begins at this offset.
pub fn cover_path(
    alloc: Global,
    style: PathStyle,
    points: &[Point],
    at: u32,
) -> Result<Vec<Rect>, CoverFault>
    requires { 1 ≤ length points.now }
    ensures { Answers Memory
        (λ outcome. CoverComesTo (Path style.pathtype style.width style.begin style.end) points.now at (with_items outcome)) result }
{
    if style.width == 0 {
        return Ok(Vec::new(alloc));
    }
    check_style(style, at)?;
    check_points(points, at)?;
    let corners = find_corners(alloc, points)?;
    let corners = corners.as_slice();
    if !goes_on(corners) {
        return Err(CoverFault::Reversal { at });
    }
    let boxes = find_boxes(alloc, style, corners)?;
    let boxes = boxes.as_slice();
    check_boxes(boxes, at)?;
    Ok(find_rects(alloc, boxes)?)
}
