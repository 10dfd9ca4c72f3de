ghost use Rattle.std.specs.Prelude.{◌↔◌, IsTrue, All};
ghost use Rattle.outlines.specs.Outlines.{IsAlongAxis, edges_of};

use geo_core::Point;

/// Whether the points do not differ in both coordinates.
fn is_along_axis(from: Point, to: Point) -> bool
    ensures { IsTrue result ↔ IsAlongAxis (from, to) }
{
    from.x == to.x || from.y == to.y
}

/// Whether no neighbouring points differ in both coordinates.
pub fn are_along_axes(points: &[Point]) -> bool
    ensures { IsTrue result ↔ All IsAlongAxis (edges_of points.now) }
{
    let Some((_, others)) = points.split_first() else {
        return true;
    };
    points
        .iter()
        .zip(others)
        .all(|(from, to)| is_along_axis(*from, *to))
}
