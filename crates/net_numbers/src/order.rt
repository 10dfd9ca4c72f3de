ghost use Rattle.std.specs.Prelude.{◌≡◌, ◌↔◌, AllPairs, Contains, IfOk, IsTrue, Some, map, slice_get};
ghost use Rattle.geo_core.specs.declared.plane.Cell.{Cell as AnyCell};
ghost use Rattle.net_numbers.specs.FirstCells.{Precedes};
ghost use Rattle.net_numbers.specs.inside.Corners.{cells_of};

use super::corners::Corner;
use geo_core::Cell;
use std::alloc::{AllocError, Global};

/// The cells of the corners in their order, each once.
pub fn in_order(alloc: Global, corners: &[Corner]) -> Result<Vec<Cell>, AllocError>
    ensures rising { IfOk result (λ cells. AllPairs Precedes cells.items) }
    ensures same { IfOk result (λ cells.
        (c : AnyCell) → Contains cells.items c ↔ Contains (cells_of corners.now) c) }
{
    let mut cells = cells(alloc, corners)?;
    cells.sort_unstable_by_key(|cell| (cell.j, cell.i));
    cells.dedup();
    Ok(cells)
}

/// The cells of the corners.
fn cells(alloc: Global, corners: &[Corner]) -> Result<Vec<Cell>, AllocError>
    ensures { IfOk result (λ cells. cells.items ≡ cells_of corners.now) }
{
    corners.iter().map(|corner| corner.cell).collect(alloc)
}

/// The place of the cell in such a list.
pub fn place_of(cells: &[Cell], cell: Cell) -> usize
    requires rising { AllPairs Precedes cells.now }
    requires listed { Contains cells.now cell }
    ensures { slice_get cells.now result ≡ Some cell }
{
    cells.partition_point(|other| precedes(*other, cell))
}

/// Whether the cell lies in a lower row than the other one, or further left in the same row.
fn precedes(cell: Cell, other: Cell) -> bool
    ensures { IsTrue result ↔ Precedes cell other }
{
    if cell.j == other.j {
        cell.i < other.i
    } else {
        cell.j < other.j
    }
}
