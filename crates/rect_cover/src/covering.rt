ghost use Rattle.std.specs.Prelude.{◌≡◌, ◌+ℤ◌, ◌≤ℤ◌, neg_ℤ, IfOk, All, map};
ghost use Rattle.first_refusal.specs.Answers.{Answers};
ghost use Rattle.geo_core.specs.Bounds.{IsInRange};
ghost use Rattle.geo_core.specs.declared.bounds.TheConstants.{FARTHEST};
ghost use Rattle.library_model.specs.Points.{HasItsPoints};
ghost use Rattle.rect_cover.specs.Coverings.{CoverComesTo, IsPlacedShape, IsWellPlaced, PlacedComesTo, placed_at, with_items};
ghost use Rattle.rect_cover.specs.declared.fault.CoverFault.TheVariants.{Memory};

use super::fault::CoverFault;
use super::outline::cover_closed;
use super::path::cover_path;
use super::style::PathStyle;
use flatten::Placed;
use geo_core::{Point, Rect, turn_point};
use library_model::{Element, Library, Shape, ShapeKind};
use lists::NoMemory;
use std::alloc::Global;

/// Rectangles that have together exactly the cells of a placed shape, each within 1,000,000,000 of 0. They may overlap,
/// and stand in no order. A path of width 0 has none. The fault is that of the first check that fails; `CoverFault` has
/// their order.
#[tactic(auto, using(first_refusal::proofs::AnswerLaws::out_of_memory))]
pub fn cover(alloc: Global, library: &Library, placed: &Placed) -> Result<Vec<Rect>, CoverFault>
    requires placed { IsWellPlaced library.now.structures placed.now }
    ensures { Answers Memory (λ outcome. PlacedComesTo library.now.structures placed.now (with_items outcome)) result }
{
    let shape = shape_of(library, placed);
    let points = place_points(alloc, placed, shape.points.as_slice())?;
    cover_shape(alloc, shape.kind, points.as_slice(), shape.at)
}

/// The shape that is placed.
fn shape_of<'a>(library: &'a Library, placed: &Placed) -> &'a Shape
    requires { IsWellPlaced library.now.structures placed.now }
    ensures { IsPlacedShape library.now.structures placed.now result.now }
{
    let structure = &library.structures.as_slice()[placed.structure as usize];
    match &structure.elements.as_slice()[placed.element as usize] {
        Element::Shape(shape) => shape,
        Element::Reference(_) => unreachable!(),
    }
}

/// Where a point comes to lie.
fn place_point(placed: &Placed, point: Point) -> Point
    requires { IsInRange (placed_at placed.now point) }
    ensures { result ≡ placed_at placed.now point }
{
    let (x, y) = turn_point(placed.turn, i64::from(point.x), i64::from(point.y));
    Point {
        x: shifted(x, placed.dx),
        y: shifted(y, placed.dy),
    }
}

/// A coordinate, shifted to where a layout may have it.
fn shifted(coordinate: i64, by: i64) -> i32
    requires low { neg_ℤ FARTHEST ≤ℤ (coordinate +ℤ by) }
    requires high { (coordinate +ℤ by) ≤ℤ FARTHEST }
    ensures { result ≡ coordinate +ℤ by }
{
    (coordinate + by) as i32
}

/// Where the points come to lie.
fn place_points(alloc: Global, placed: &Placed, points: &[Point]) -> Result<Vec<Point>, NoMemory>
    requires { All (λ point. IsInRange (placed_at placed.now point)) points.now }
    ensures { IfOk result (λ moved. moved.items ≡ map (placed_at placed.now) points.now) }
{
    let mut moved = Vec::with_capacity(alloc, points.len())?;
    for point in points {
        moved.push(place_point(placed, *point))?;
    }
    Ok(moved)
}

/// Rectangles as `cover` gives them, of a shape of this kind that is placed already: its points lie here, and it begins at
/// this offset. The fault is told at the offset, and is that of the first check that fails.
pub fn cover_shape(
    alloc: Global,
    kind: ShapeKind,
    points: &[Point],
    at: u32,
) -> Result<Vec<Rect>, CoverFault>
    requires points { HasItsPoints kind points.now }
    requires in_range { All IsInRange points.now }
    ensures { Answers Memory (λ outcome. CoverComesTo kind points.now at (with_items outcome)) result }
{
    match kind {
        ShapeKind::Boundary | ShapeKind::BoxElement => cover_closed(alloc, points, at),
        ShapeKind::Path {
            pathtype,
            width,
            begin,
            end,
        } => {
            let style = PathStyle {
                pathtype,
                width,
                begin,
                end,
            };
            cover_path(alloc, style, points, at)
        }
    }
}
