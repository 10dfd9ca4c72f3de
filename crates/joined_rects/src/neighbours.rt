ghost use Rattle.std.specs.Prelude.{IfSome};
ghost use Rattle.joined_rects.specs.inside.Joins.{AreHalvesOf};

use geo_core::{Axis, Rect, join};

/// The rectangle that has the cells of both, where the second one follows the first along the axis and is as wide.
pub fn both_of(one: Rect, next: Rect, axis: Axis) -> Option<Rect>
    ensures { IfSome result (AreHalvesOf one next) }
{
    match axis {
        Axis::X => beside(one, next),
        Axis::Y => above(one, next),
    }
}

/// The rectangle that has the cells of both, where their rows are equal and the columns of the second one follow those of
/// the first.
fn beside(one: Rect, next: Rect) -> Option<Rect>
    ensures { IfSome result (AreHalvesOf one next) }
{
    if one.y0 != next.y0 || one.y1 != next.y1 || one.x1 != next.x0 {
        return None;
    }
    Some(join(one, next))
}

/// The rectangle that has the cells of both, where their columns are equal and the rows of the second one follow those of
/// the first.
fn above(one: Rect, next: Rect) -> Option<Rect>
    ensures { IfSome result (AreHalvesOf one next) }
{
    if one.x0 != next.x0 || one.x1 != next.x1 || one.y1 != next.y0 {
        return None;
    }
    Some(join(one, next))
}
