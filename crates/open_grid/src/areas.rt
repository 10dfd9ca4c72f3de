ghost use Rattle.std.specs.Prelude.{[], ◌∷◌, IfOk, ◌^◌, ◌<◌, ◌≤◌, ◌↔◌};
ghost use Rattle.geo_core.specs.Cells.{Has};
ghost use Rattle.geo_core.specs.Unions.{IsInUnion};
ghost use Rattle.geo_core.specs.declared.plane.Cell.{Cell};
ghost use Rattle.fault_model.specs.Areas.{Tally, cells_of};
ghost use Rattle.fault_model.specs.IslandLists.{IsIslandOpen};
ghost use Rattle.geo_core.specs.declared.bounds.TheConstants.{GREATEST_SIDE};
ghost use Rattle.open_grid.specs.RingCounts.{IsSomeRingMany};
ghost use Rattle.severing.specs.Severing.{IsSomeOpen};
ghost use Rattle.skyline_runs.specs.Runs.{AreApart};

use super::boxes::anchor_boxes;
use super::looked::look;
use super::wires::{cells_of_wire, wire_of};
use super::zones::open_parts;
use fault_model::Island;
use geo_core::Rect;
use lists::NoMemory;
use severing::defects_sever_islands;
use std::alloc::Global;
use union_area::{union_area, union_rects};

/// The cells of the window that are the centre of a defect that parts two anchors of at least one of the islands, as
/// rectangles without common cells, order and number left open. The defect is the square of this side, 1 to 2,000,000 database
/// units, round the cell's centre. The islands may be of one metal, or of several that do not know of one another.
///
/// The rectangles serve for any part of the window, so that islands need to be looked at once a side. The one error is
/// that no memory is left.
pub fn open_cells(
    alloc: Global,
    islands: &[Island],
    window: Rect,
    side: u32,
) -> Result<Vec<Rect>, NoMemory>
    requires some { 1 ≤ side }
    requires few { side ≤ GREATEST_SIDE }
    ensures cells { IfOk result (λ rects. (c : Cell) →
        IsInUnion rects.items c ↔ (Has window c × IsSomeOpen islands.now side c)) }
    ensures apart { IfOk result (λ rects. AreApart rects.items) }
{
    let cells = overlapping_cells(alloc, islands, window, side)?;
    union_rects(alloc, cells.as_slice(), window)
}

/// The same cells, island by island: those of several islands are given several times.
fn overlapping_cells(
    alloc: Global,
    islands: &[Island],
    window: Rect,
    side: u32,
) -> Result<Vec<Rect>, NoMemory>
    requires some { 1 ≤ side }
    requires few { side ≤ GREATEST_SIDE }
    ensures { IfOk result (λ rects. (c : Cell) →
        IsInUnion rects.items c ↔ (Has window c × IsSomeOpen islands.now side c)) }
{
    let mut cells = Vec::new(alloc);
    for island in islands {
        let found = open_cells_of(alloc, island, window, side)?;
        cells.extend_from_slice(&found)?;
    }
    Ok(cells)
}

/// The same cells, with a count of the zones that were found to have a ring with more than one arc of an island.
fn counted_cells(
    alloc: Global,
    islands: &[Island],
    window: Rect,
    side: u32,
    searches: &mut u64,
) -> Result<Vec<Rect>, NoMemory>
    requires some { 1 ≤ side }
    requires few { side ≤ GREATEST_SIDE }
    ensures cells { IfOk result (λ rects. (c : Cell) →
        IsInUnion rects.items c ↔ (Has window c × IsSomeOpen islands.now side c)) }
    ensures never_falls { searches.old ≤ searches.new }
    ensures rises_by_many { searches.old < searches.new → IsSomeRingMany islands.now window side }
{
    let mut cells = Vec::new(alloc);
    for island in islands {
        let found = cells_of_island(alloc, island, window, side, searches)?;
        cells.extend_from_slice(&found)?;
    }
    Ok(cells)
}

/// The cells of the window that are the centre of a defect of this side that parts two anchors of this island, as rectangles in no
/// order. Of an island of one rectangle they are known without zones. The one error is that no memory is left.
pub fn open_cells_of(
    alloc: Global,
    island: &Island,
    window: Rect,
    side: u32,
) -> Result<Vec<Rect>, NoMemory>
    requires some { 1 ≤ side }
    requires few { side ≤ GREATEST_SIDE }
    ensures { IfOk result (λ rects. (c : Cell) →
        IsInUnion rects.items c ↔ (Has window c × IsIslandOpen island.now side c)) }
{
    defects_sever_islands();
    if let Some(wire) = wire_of(island) {
        let hulls = anchor_boxes(alloc, island)?;
        return cells_of_wire(alloc, wire, hulls.as_slice(), window, side);
    }
    let mut searches = 0;
    cells_of_island(alloc, island, window, side, &mut searches)
}

/// The same cells by zones, with the same count. Islands are looked at one by one, since what one needs to know of a zone is the
/// same beside any others, and most zones meet few.
fn cells_of_island(
    alloc: Global,
    island: &Island,
    window: Rect,
    side: u32,
    searches: &mut u64,
) -> Result<Vec<Rect>, NoMemory>
    requires some { 1 ≤ side }
    requires few { side ≤ GREATEST_SIDE }
    ensures cells { IfOk result (λ rects. (c : Cell) →
        IsInUnion rects.items c ↔ (Has window c × IsIslandOpen island.now side c)) }
    ensures never_falls { searches.old ≤ searches.new }
    ensures rises_by_many { searches.old < searches.new → IsSomeRingMany (island.now ∷ []) window side }
{
    let looked = vec![in alloc; look(alloc, island)?]?;
    defects_sever_islands();
    open_parts(alloc, &looked, window, side, searches)
}

/// How many cells of the window are the centre of such a defect. A cell counts once, however many islands it parts. The one
/// error is that no memory is left.
pub fn open_area(
    alloc: Global,
    islands: &[Island],
    window: Rect,
    side: u32,
) -> Result<u64, NoMemory>
    requires some { 1 ≤ side }
    requires few { side ≤ GREATEST_SIDE }
    ensures tally { IfOk result (λ n. Tally (IsSomeOpen islands.now side) (cells_of window) n) }

    // No edge of a window is further than 1,001,000,000 from 0.
    ensures small { IfOk result (λ n. n < 2 ^ 63) }
{
    let rects = overlapping_cells(alloc, islands, window, side)?;
    union_area(alloc, &rects, window)
}

/// The same area by zones of each island, with a count of searches that goes on from what `searches` is and never falls. Where it rises, the ring round
/// a defect at some cell of the window has two or more arcs of an island (`ring` would answer `Many`); by how much it rises, and
/// which cells it counts, no clause says. It stays at `u64::MAX` once it is there.
///
/// The one error is that no memory is left.
pub fn open_area_counted(
    alloc: Global,
    islands: &[Island],
    window: Rect,
    side: u32,
    searches: &mut u64,
) -> Result<u64, NoMemory>
    requires some { 1 ≤ side }
    requires few { side ≤ GREATEST_SIDE }
    ensures tally { IfOk result (λ n. Tally (IsSomeOpen islands.now side) (cells_of window) n) }
    ensures small { IfOk result (λ n. n < 2 ^ 63) }
    ensures never_falls { searches.old ≤ searches.new }
    ensures rises_by_many { searches.old < searches.new → IsSomeRingMany islands.now window side }
{
    let rects = counted_cells(alloc, islands, window, side, searches)?;
    union_area(alloc, &rects, window)
}
