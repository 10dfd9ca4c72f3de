ghost use Rattle.std.specs.Prelude.{◌≡◌, ◌<◌, All, AllPairs, Any, Contains, IfOk, Some, slice_get};
ghost use Rattle.lists.specs.Words.{AllZip};
ghost use Rattle.net_numbers.specs.FirstCells.{AreFirstCells, IsNumbered, IsNumberedPiece, Precedes};
ghost use Rattle.net_numbers.specs.inside.Corners.{AreFirstCorners};

use super::corners::{Corner, first_corners};
use super::order::{in_order, place_of};
use geo_core::{Cell, Labelled};
use lists::NoMemory;
use std::alloc::Global;

/// The first cells of the labels of these pieces, row by row from below, and each row from left to right. Where two labels
/// have the same first cell, it is listed once. The one error is that no memory is left.
pub fn first_cells(alloc: Global, pieces: &[Labelled]) -> Result<Vec<Cell>, NoMemory>
    ensures { IfOk result (λ cells. AreFirstCells pieces.now cells.items) }
{
    let corners = first_corners(alloc, pieces)?;
    Ok(in_order(alloc, corners.as_slice())?)
}

/// The pieces in their order, each with a number in place of its label: the place of the label's first cell among those that
/// `first_cells` lists, counted from 0. So labels get one number where they have the same first cell, as they may where pieces
/// of two labels overlap, and no labels without a common cell do. The one error is that no memory is left.
pub fn numbered(alloc: Global, pieces: &[Labelled]) -> Result<Vec<Labelled>, NoMemory>
    ensures { IfOk result (λ numbered. IsNumbered pieces.now numbered.items) }
{
    let corners = first_corners(alloc, pieces)?;
    let cells = in_order(alloc, corners.as_slice())?;
    with_numbers(alloc, pieces, corners.as_slice(), cells.as_slice())
}

/// The pieces with the places of the first cells of their labels.
fn with_numbers(
    alloc: Global,
    pieces: &[Labelled],
    corners: &[Corner],
    cells: &[Cell],
) -> Result<Vec<Labelled>, NoMemory>
    requires corners { AreFirstCorners pieces.now corners.now }
    requires cells { AreFirstCells pieces.now cells.now }
    ensures { IfOk result (λ numbered.
        AllZip (IsNumberedPiece pieces.now cells.now) pieces.now numbered.items) }
{
    let mut numbered = Vec::with_capacity(alloc, pieces.len())?;
    for piece in pieces {
        let number = number_of(corners, cells, piece.label);
        numbered.push(Labelled {
            rect: piece.rect,
            label: number,
        })?;
    }
    Ok(numbered)
}

/// The place of the cell that the corners have for the label.
fn number_of(corners: &[Corner], cells: &[Cell], label: usize) -> usize
    requires by_label { AllPairs (λ a b. a.label < b.label) corners.now }
    requires known { Any (λ corner. corner.label ≡ label) corners.now }
    requires rising { AllPairs Precedes cells.now }
    requires listed { All (λ corner. Contains cells.now corner.cell) corners.now }
    ensures { Any (λ corner. (corner.label ≡ label) × (slice_get cells.now result ≡ Some corner.cell)) corners.now }
{
    let place = corners.partition_point(|corner| corner.label < label);
    place_of(cells, corners[place].cell)
}
