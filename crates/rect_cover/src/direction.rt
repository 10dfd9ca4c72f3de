use geo_core::Point;

/// Where an edge along an axis leads.
#[derive(Clone, Copy, PartialEq, Eq)]
pub enum Direction {
    Right,
    Up,
    Left,
    Down,
}

impl Direction {
    ghost use Rattle.std.specs.Prelude.{◌≡◌};
    ghost use Rattle.rect_cover.specs.PathPieces.{direction_of, opposite};

    /// Where the edge from the one point to the other leads. The points differ in one coordinate.
    pub fn between(from: Point, to: Point) -> Direction
        ensures { result ≡ direction_of (from, to) }
    {
        if from.x < to.x {
            Direction::Right
        } else if to.x < from.x {
            Direction::Left
        } else if from.y < to.y {
            Direction::Up
        } else {
            Direction::Down
        }
    }

    /// The way back.
    pub fn opposite(self) -> Direction
        ensures { result ≡ opposite self }
    {
        match self {
            Direction::Right => Direction::Left,
            Direction::Up => Direction::Down,
            Direction::Left => Direction::Right,
            Direction::Down => Direction::Up,
        }
    }
}
