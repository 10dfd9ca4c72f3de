ghost use Rattle.std.specs.Prelude.{ℤ, ◌≡◌, ◌<◌, flat_map, length, Contains, IfOk};
ghost use Rattle.cover_tree.specs.Columns.{AreRising, place_at};
ghost use Rattle.depth_sweep.specs.inside.SweepPlaces.{ArePlaces, moved, moved_sides};

use geo_core::{Interval, Rect};
use lists::NoMemory;
use std::alloc::{AllocError, Global};

/// The number of the interval, or the end of it, that is nearest to this number.
pub fn moved_into(interval: Interval, x: i32) -> i32
    ensures { result ≡ moved interval.low interval.high x }
{
    x.clamp(interval.low, interval.high)
}

/// The left and right sides of the rectangles, moved into the window.
fn sides_in(alloc: Global, rects: &[Rect], window: Rect) -> Result<Vec<i32>, AllocError>
    ensures { IfOk result (λ sides. sides.items ≡ flat_map (moved_sides window) rects.now) }
{
    let mut sides = Vec::new(alloc);
    for rect in rects {
        sides.push(moved_into(window.columns(), rect.x0))?;
        sides.push(moved_into(window.columns(), rect.x1))?;
    }
    Ok(sides)
}

/// The places between which columns lie: the left and right sides of the rectangles, moved into the window, from left to
/// right and each once. So there are no more of them than different sides, wherever the window lies.
pub fn places(alloc: Global, rects: &[Rect], window: Rect) -> Result<Vec<i32>, NoMemory>
    ensures { IfOk result (λ places. ArePlaces window rects.now places.items) }
{
    let mut places = sides_in(alloc, rects, window)?;
    places.sort_unstable();
    places.dedup();
    Ok(places)
}

/// The number of the place that is this one.
pub fn number_of(places: &[i32], x: i32) -> usize
    requires rising { AreRising places.now }
    requires found { Contains places.now x }
    ensures within { result < length places.now }
    ensures place { place_at places.now result ≡ x }
{
    places.partition_point(|place| *place < x)
}
