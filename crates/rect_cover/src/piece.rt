ghost use Rattle.std.specs.Prelude.{neg_ℤ, ◌≡◌, ◌↔◌, ◌+ℤ◌, ◌-ℤ◌, ◌≤ℤ◌, IsTrue};
ghost use Rattle.geo_core.specs.declared.bounds.TheConstants.{FARTHEST};

use super::direction::Direction;
use geo_core::{FARTHEST, Point, Rect};

/// A corner of a path, or one of its two ends.
#[derive(Clone, Copy)]
pub struct PathCorner {
    pub point: Point,
    /// How far pieces reach past it, in database units.
    pub reach: i32,
}

/// The box of a piece of a path, from `x0` to `x1` and from `y0` to `y1`, in database units. It may have no cell, where
/// the reaches take away as much as the piece is long, and it may lie too far from 0 for a layout.
#[derive(Clone, Copy)]
pub struct PieceBox {
    pub x0: i64,
    pub y0: i64,
    pub x1: i64,
    pub y1: i64,
}

/// The coordinate that lies so far below this one.
fn below(at: i32, by: i32) -> i64
    ensures { result ≡ at -ℤ by }
{
    i64::from(at) - i64::from(by)
}

/// The coordinate that lies so far above this one.
fn above(at: i32, by: i32) -> i64
    ensures { result ≡ at +ℤ by }
{
    i64::from(at) + i64::from(by)
}

/// Whether neither end lies more than 1,000,000,000 from 0, in its own direction.
fn lies_in_layout(low: i64, high: i64) -> bool
    ensures { IsTrue result ↔ (neg_ℤ FARTHEST ≤ℤ low) × (high ≤ℤ FARTHEST) }
{
    let most = i64::from(FARTHEST);
    -most <= low && high <= most
}

impl PieceBox {
    ghost use Rattle.rect_cover.specs.ShapeChecks.{HasCells, IsBoxInLayout};
    ghost use Rattle.rect_cover.specs.PathPieces.{box_of};
    ghost use Rattle.rect_cover.specs.inside.PieceBoxes.{box_value, knot_of, rect_value};

    /// The box of the piece from the one corner to the other, of a path with this half width.
    pub fn between(from: PathCorner, to: PathCorner, half_width: i32) -> PieceBox
        ensures { box_value result ≡ box_of half_width (knot_of from, knot_of to) }
    {
        let (x, y) = (from.point.x, from.point.y);
        match Direction::between(from.point, to.point) {
            Direction::Right => PieceBox {
                x0: below(x, from.reach),
                y0: below(y, half_width),
                x1: above(to.point.x, to.reach),
                y1: above(y, half_width),
            },
            Direction::Left => PieceBox {
                x0: below(to.point.x, to.reach),
                y0: below(y, half_width),
                x1: above(x, from.reach),
                y1: above(y, half_width),
            },
            Direction::Up => PieceBox {
                x0: below(x, half_width),
                y0: below(y, from.reach),
                x1: above(x, half_width),
                y1: above(to.point.y, to.reach),
            },
            Direction::Down => PieceBox {
                x0: below(x, half_width),
                y0: below(to.point.y, to.reach),
                x1: above(x, half_width),
                y1: above(y, from.reach),
            },
        }
    }

    /// Whether it has a cell.
    pub fn has_cells(self) -> bool
        ensures { IsTrue result ↔ HasCells (box_value self) }
    {
        self.x0 < self.x1 && self.y0 < self.y1
    }

    /// Whether none of its sides lies more than 1,000,000,000 from 0.
    pub fn is_in_layout(self) -> bool
        ensures { IsTrue result ↔ IsBoxInLayout (box_value self) }
    {
        lies_in_layout(self.x0, self.x1) && lies_in_layout(self.y0, self.y1)
    }

    /// The rectangle of its cells.
    pub fn rect(self) -> Rect
        requires some { HasCells (box_value self) }
        requires within { IsBoxInLayout (box_value self) }
        ensures { rect_value result ≡ box_value self }
    {
        Rect::new(
            self.x0 as i32,
            self.y0 as i32,
            self.x1 as i32,
            self.y1 as i32,
        )
    }
}
