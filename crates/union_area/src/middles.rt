ghost use Rattle.std.specs.Prelude.{ℤ, ◌<ℤ◌, ◌≡◌, ◌≢◌, ◌≤◌, ◌↔◌, IfNone, IfSome, IsTrue};
ghost use Rattle.geo_core.specs.Intervals.{IsIn};
ghost use Rattle.union_area.specs.WindowParts.{IsBetween, IsBroad, IsHalfWay, count_along, twice_from_middle};

use geo_core::{Axis, Interval, Rect};

/// A broad rectangle is at most so many times as wide as high, or as high as wide.
const BREADTH: u64 = 4;

/// The place half way, which is the lowest one where there is no other.
pub fn half_way(places: Interval) -> i32
    ensures one { IsIn places.low places.high result }
    ensures inner { (place : ℤ) → IsBetween places.low places.high place → places.low <ℤ result }
    ensures half { IsHalfWay places.low places.high result }
{
    places.low + (places.high - places.low) / 2
}

/// The place half way, where there is one with places on both sides of it.
pub fn inner_half_way(places: Interval) -> Option<i32>
    ensures some { IfSome result (IsBetween places.low places.high) }
    ensures half { IfSome result (IsHalfWay places.low places.high) }
    ensures none { IfNone result ((place : ℤ) → IsBetween places.low places.high place → ⊥) }
{
    let middle = half_way(places);
    if places.low < middle {
        return Some(middle);
    }
    None
}

/// Twice the distance of the place from the middle of the places. It serves to choose among places that are all right.
pub fn distance_from_middle(places: Interval, place: i32) -> u64
    ensures { result ≡ twice_from_middle places.low places.high place }
{
    let middle = i64::from(places.low) + i64::from(places.high);
    (2 * i64::from(place)).abs_diff(middle)
}

/// Whether neither side is longer than four times the other. It serves to choose among ways that all lead to the answer.
pub fn is_broad(rect: Rect) -> bool
    ensures { IsTrue result ↔ IsBroad rect }
{
    let width = u64::from(rect.x1.abs_diff(rect.x0));
    let height = u64::from(rect.y1.abs_diff(rect.y0));
    width <= BREADTH * height && height <= BREADTH * width
}

/// The axis of the longer side, and the other one. It serves to choose among ways that all lead to the answer.
pub fn longer_first(window: Rect) -> (Axis, Axis)
    ensures longer { count_along result.1 window ≤ count_along result.0 window }
    ensures both { result.0 ≢ result.1 }
{
    if window.x1.abs_diff(window.x0) < window.y1.abs_diff(window.y0) {
        return (Axis::Y, Axis::X);
    }
    (Axis::X, Axis::Y)
}
