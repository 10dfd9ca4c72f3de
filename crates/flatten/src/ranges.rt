//! Whether placed points are in range.

ghost use Rattle.std.specs.Prelude.{pos, neg_ℤ, ◌↔◌, ◌≤◌, ◌≤ℤ◌, ◌+ℤ◌, ◌^◌, All, IsTrue, nat_abs};
ghost use Rattle.geo_core.specs.declared.bounds.TheConstants.{FARTHEST};
ghost use Rattle.flatten.specs.Motions.{ShiftsAtMost, image_by};
ghost use Rattle.geo_core.specs.Bounds.{IsInRange};

use super::motion::{Motion, turned};
use geo_core::{FARTHEST, Point};

/// Whether a coordinate is in range once it is shifted.
fn is_near(coordinate: i64, shift: i64) -> bool
    requires coordinate { nat_abs coordinate ≤ 2 ^ 49 }
    requires shift { nat_abs shift ≤ 2 ^ 57 }
    ensures { IsTrue result ↔ ((neg_ℤ FARTHEST ≤ℤ (coordinate +ℤ shift)) × ((coordinate +ℤ shift) ≤ℤ FARTHEST)) }
{
    let placed = coordinate + shift;
    -i64::from(FARTHEST) <= placed && placed <= i64::from(FARTHEST)
}

/// Whether a point is in range where the motion moves it.
fn is_in_range(motion: Motion, point: Point) -> bool
    requires { ShiftsAtMost 256 motion }
    ensures { IsTrue result ↔ IsInRange (image_by motion point) }
{
    let (x, y) = turned(motion.turn, i64::from(point.x), i64::from(point.y));
    is_near(x, motion.dx) && is_near(y, motion.dy)
}

/// Whether all of the points are in range where the motion moves them.
pub fn are_in_range(motion: Motion, points: &[Point]) -> bool
    requires { ShiftsAtMost 256 motion }
    ensures { IsTrue result ↔ All (λ point. IsInRange (image_by motion point)) points.now }
{
    points.iter().all(|point| is_in_range(motion, *point))
}
