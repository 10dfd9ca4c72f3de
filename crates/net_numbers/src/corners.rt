ghost use Rattle.std.specs.Prelude.{◌≡◌, IfOk, map};
ghost use Rattle.net_numbers.specs.inside.Corners.{AreFirstCorners, corner_of};

use geo_core::{Cell, Labelled};
use std::alloc::{AllocError, Global};

/// The lower left cell of a piece, with the label of the piece.
#[derive(Clone, Copy)]
pub struct Corner {
    pub label: usize,
    pub cell: Cell,
}

/// The first cell of each label, in the order of the labels.
pub fn first_corners(alloc: Global, pieces: &[Labelled]) -> Result<Vec<Corner>, AllocError>
    ensures { IfOk result (λ corners. AreFirstCorners pieces.now corners.items) }
{
    let mut corners = all_corners(alloc, pieces)?;
    corners.sort_unstable_by_key(|corner| (corner.label, corner.cell.j, corner.cell.i));
    corners.dedup_by(|later, kept| later.label == kept.label);
    Ok(corners)
}

/// The lower left cell of each piece.
fn all_corners(alloc: Global, pieces: &[Labelled]) -> Result<Vec<Corner>, AllocError>
    ensures { IfOk result (λ corners. corners.items ≡ map corner_of pieces.now) }
{
    pieces.iter().map(|piece| lowest_left(piece)).collect(alloc)
}

/// The lower left cell of the piece.
fn lowest_left(piece: &Labelled) -> Corner
    ensures { result ≡ corner_of piece.now }
{
    Corner {
        label: piece.label,
        cell: Cell {
            i: piece.rect.x0,
            j: piece.rect.y0,
        },
    }
}
