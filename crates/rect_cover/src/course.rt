use super::direction::Direction;
use geo_core::Point;

/// How far a path has been followed.
#[derive(Clone, Copy)]
pub struct Course {
    /// The last point that differs from the one before it.
    pub at: Point,
    /// The direction in which it was come to, or none at the first point.
    pub heading: Option<Direction>,
}
