//! Rectangles in tables, whose constants are plain numbers.

ghost use Rattle.std.specs.Prelude.{All, ◌≡◌, true};
ghost use Rattle.geo_core.specs.Cells.{IsInLayout};
ghost use Rattle.geo_core.specs.Intervals.{IsInterval};
ghost use Rattle.geo_core.specs.declared.bounds.TheConstants.{FARTHEST_GROWN};

use geo_core::{FARTHEST, FARTHEST_GROWN, Rect};

/// The left, the bottom, the right and the top of a rectangle.
pub type Sides = (i32, i32, i32, i32);

/// Whether the low side comes before the high one, and neither is too far out.
fn is_interval(low: i32, high: i32) -> bool
    ensures { result ≡ true → IsInterval FARTHEST_GROWN low high }
{
    -FARTHEST_GROWN <= low && low < high && high <= FARTHEST_GROWN
}

/// The rectangle with these sides, if they are those of one.
pub fn rect_of(sides: &Sides) -> Option<Rect> {
    let (x0, y0, x1, y1) = *sides;
    if is_interval(x0, x1) && is_interval(y0, y1) {
        Some(Rect::new(x0, y0, x1, y1))
    } else {
        None
    }
}

/// Whether a rectangle lies where those of a layout do.
fn is_near(rect: Rect) -> bool
    ensures { result ≡ true → IsInLayout rect }
{
    -FARTHEST <= rect.x0 && rect.x1 <= FARTHEST && -FARTHEST <= rect.y0 && rect.y1 <= FARTHEST
}

/// Whether each of the rectangles does.
pub fn are_near(rects: &[Rect]) -> bool
    ensures { result ≡ true → All IsInLayout rects.now }
{
    for rect in rects {
        if !is_near(*rect) {
            return false;
        }
    }
    true
}
