ghost use Rattle.std.specs.Prelude.{◌≡◌, ◌<◌, ◌≤◌, ◌^◌, ◌↔◌, IsTrue, length};
ghost use Rattle.geo_core.specs.Axes.{low_along, high_along};
ghost use Rattle.fault_model.specs.Areas.{cells_of};
ghost use Rattle.union_area.specs.WindowParts.{AreCutAt, AreParts, HasAllOf, IsBetween, IsFirstLine, count_along};

use geo_core::{Axis, Interval, Rect};

/// How many columns the window has, or how many rows.
pub fn places_along(window: Rect, axis: Axis) -> u64
    ensures count { result ≡ count_along axis window }

    // No edge of a rectangle is further than 1,001,000,000 from 0.
    ensures small { result ≤ 2002000000 }
{
    let places = window.along(axis);
    u64::from(places.high.abs_diff(places.low))
}

/// How many cells the window has.
pub fn count_of(window: Rect) -> u64
    ensures count { result ≡ length (cells_of window) }
    ensures small { result < 2 ^ 63 }
{
    places_along(window, Axis::Y) * places_along(window, Axis::X)
}

/// Whether the rectangle has all cells of the window.
pub fn fills(rect: Rect, window: Rect) -> bool
    ensures { IsTrue result ↔ HasAllOf window rect }
{
    if window.x0 < rect.x0 {
        return false;
    }
    if window.x1 > rect.x1 {
        return false;
    }
    if window.y0 < rect.y0 {
        return false;
    }
    if window.y1 > rect.y1 {
        return false;
    }
    true
}

/// The columns of the window before the place and the others, or its rows.
pub fn parts_at(window: Rect, axis: Axis, place: i32) -> (Rect, Rect)
    requires { IsBetween (low_along axis window) (high_along axis window) place }
    ensures parts { AreParts window result.0 result.1 }
    ensures cut { AreCutAt axis place window result.0 result.1 }
{
    let places = window.along(axis);
    let before = Interval {
        low: places.low,
        high: place,
    };
    let behind = Interval {
        low: place,
        high: places.high,
    };
    match axis {
        Axis::X => (
            Rect::of(before, window.rows()),
            Rect::of(behind, window.rows()),
        ),
        Axis::Y => (
            Rect::of(window.columns(), before),
            Rect::of(window.columns(), behind),
        ),
    }
}

/// The first column of the window, for the axis from left to right, or its first row, for that from bottom to top.
pub fn first_line(window: Rect, axis: Axis) -> Rect
    ensures { IsFirstLine axis window result }
{
    let places = window.along(axis);
    let first = Interval {
        low: places.low,
        high: places.low + 1,
    };
    match axis {
        Axis::X => Rect::of(first, window.rows()),
        Axis::Y => Rect::of(window.columns(), first),
    }
}
