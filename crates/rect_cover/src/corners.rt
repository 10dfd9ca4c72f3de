ghost use Rattle.std.specs.Prelude.{List, ◌++◌, ◌∷◌, ◌≡◌, ◌≤◌, ◌↔◌, IfOk, IsTrue, All, length, map};
ghost use Rattle.geo_core.specs.declared.plane.Point.{Point};
ghost use Rattle.rect_cover.specs.ShapeChecks.{GoesOn};
ghost use Rattle.outlines.specs.Outlines.{edges_of};
ghost use Rattle.rect_cover.specs.PathPieces.{corners_of, neighbours};
ghost use Rattle.rect_cover.specs.inside.PathCorners.{corners_ahead, turns};

use super::course::Course;
use super::direction::Direction;
use geo_core::Point;
use lists::NoMemory;
use std::alloc::Global;

/// Whether the path turns where it is, if it goes on in this direction. It does not turn at its first point.
fn is_at_corner(course: Course, heading: Direction) -> bool
    ensures { result ≡ turns course.heading heading }
{
    match course.heading {
        None => false,
        Some(before) => before != heading,
    }
}

/// Goes on to the next point. What is left behind is added where it is a corner.
fn step(corners: &mut Vec<Point>, course: Course, to: Point) -> Result<Course, NoMemory>
    ensures { IfOk result (λ after. (rest : List Point) →
        corners.new.items ++ corners_ahead after.at after.heading rest
        ≡ corners.old.items ++ corners_ahead course.at course.heading (to ∷ rest)) }
{
    if to == course.at {
        return Ok(course);
    }
    let heading = Direction::between(course.at, to);
    if is_at_corner(course, heading) {
        corners.push(course.at)?;
    }
    Ok(Course {
        at: to,
        heading: Some(heading),
    })
}

/// The corners of the path through these points: its first point, each at which its direction changes, and its last.
pub fn find_corners(alloc: Global, points: &[Point]) -> Result<Vec<Point>, NoMemory>
    requires { 1 ≤ length points.now }
    ensures { IfOk result (λ corners. corners.items ≡ corners_of points.now) }
{
    let mut corners = Vec::new(alloc);
    corners.push(points[0])?;
    let mut course = Course {
        at: points[0],
        heading: None,
    };
    for point in points {
        course = step(&mut corners, course, *point)?;
    }
    corners.push(course.at)?;
    Ok(corners)
}

/// Whether no piece of the path with these corners leads back along the piece before it.
pub fn goes_on(corners: &[Point]) -> bool
    ensures { IsTrue result ↔ All GoesOn (neighbours (edges_of corners.now)) }
{
    for i in 2..corners.len() {
        let before = Direction::between(corners[i - 2], corners[i - 1]);
        if Direction::between(corners[i - 1], corners[i]) == before.opposite() {
            return false;
        }
    }
    true
}
