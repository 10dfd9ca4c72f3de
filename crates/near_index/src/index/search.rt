//! The search for the two labels that are nearest to a cell.

ghost use Rattle.std.specs.Prelude.{◌≡◌, ◌≤◌, length};
ghost use Rattle.std.specs.List.{flat_map};
ghost use Rattle.near_index.specs.inside.TwoLeast.{AddsNearest};

use super::super::distances::distance;
use super::super::keeping::{is_settled, nothing, with};
use super::super::nearest::{Near, Nearest};
use super::{Band, Leaf, NearIndex};
use geo_core::{Cell, Labelled, Rect};
use lists::NoMemory;

/// A part of an index of pieces with labels: a leaf or a band.
trait Part {
    ghost use Rattle.std.specs.Prelude.{List};
    ghost use Rattle.geo_core.specs.declared.plane.Labelled.{Labelled as Piece};

    ghost pieces_of: { Self → List Piece };

    /// The rectangle round its pieces.
    fn hull(&self) -> Rect;

    /// The nearest two where there are its pieces, too.
    fn with_pieces(&self, nearest: Nearest, cell: Cell) -> Nearest
        ensures { AddsNearest cell (pieces_of self.now) nearest result };
}

impl Part for Leaf<Labelled> {
    ghost pieces_of = { λ pieces. pieces };

    fn hull(&self) -> Rect {
        self.hull
    }

    fn with_pieces(&self, nearest: Nearest, cell: Cell) -> Nearest {
        if is_settled(nearest, distance(cell, self.hull), self.label) {
            return nearest;
        }
        with_each(self.pieces.as_slice(), nearest, cell)
    }
}

impl Part for Band<Labelled> {
    ghost pieces_of = { λ pieces. pieces };

    fn hull(&self) -> Rect {
        self.hull
    }

    fn with_pieces(&self, nearest: Nearest, cell: Cell) -> Nearest {
        if is_settled(nearest, distance(cell, self.hull), self.label) {
            return nearest;
        }
        with_parts(self.leaves.as_slice(), nearest, cell)
    }
}

impl NearIndex<Labelled> {
    ghost use Rattle.std.specs.Prelude.{IsOkAnd};
    ghost use Rattle.near_index.specs.Nearest.{IsNearestTwo};

    /// The two labels whose pieces are nearest to the cell. It takes no memory, and there is no error.
    pub fn two_nearest(&self, cell: Cell) -> Result<Nearest, NoMemory>
        ensures { IsOkAnd result (IsNearestTwo self.now cell) }
    {
        Ok(with_parts(self.bands.as_slice(), nothing(), cell))
    }
}

/// The nearest two where there are the pieces of these parts, too. It begins at the part that is nearest, where the two are soon
/// found, goes on from there, and then looks at those before it.
fn with_parts<P: Part>(parts: &[P], nearest: Nearest, cell: Cell) -> Nearest
    ensures { AddsNearest cell (flat_map P.pieces_of parts.now) nearest result }
{
    let (before, from) = parts.split_at(nearest_part(parts, cell));
    let found = with_parts_in_order(from, nearest, cell);
    with_parts_in_order(before, found, cell)
}

/// The same, part by part.
fn with_parts_in_order<P: Part>(parts: &[P], nearest: Nearest, cell: Cell) -> Nearest
    ensures { AddsNearest cell (flat_map P.pieces_of parts.now) nearest result }
{
    let mut found = nearest;
    for part in parts {
        found = part.with_pieces(found, cell);
    }
    found
}

/// The nearest two where there are these pieces, too.
fn with_each(pieces: &[Labelled], nearest: Nearest, cell: Cell) -> Nearest
    ensures { AddsNearest cell pieces.now nearest result }
{
    let mut found = nearest;
    for piece in pieces {
        let near = Near {
            distance: distance(cell, piece.rect),
            label: piece.label,
        };
        found = with(found, near);
    }
    found
}

/// The number of a part whose hull is nearest to the cell, or 0.
fn nearest_part<P: Part>(parts: &[P], cell: Cell) -> usize
    ensures { result ≤ length parts.now }
{
    let mut nearest = 0;
    let mut least = u32::MAX;
    for (number, part) in parts.iter().enumerate() {
        let distance = distance(cell, part.hull());
        if distance < least {
            nearest = number;
            least = distance;
        }
    }
    nearest
}
