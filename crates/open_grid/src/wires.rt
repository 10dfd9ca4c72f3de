//! Islands of one rectangle, as most pieces of wiring are. What a defect leaves of a rectangle is joined, unless the defect
//! leads across it and leaves a part on either side. So the defects that part two anchors are known at once: those that have
//! all of a spot, and those that lead across where one spot has nothing behind them and one has nothing before them.

ghost use Rattle.std.specs.Prelude.{[], ◌∷◌, ◌<◌, ◌≡◌, ◌≤◌, IfOk, IfSome, OnOk, length};
ghost use Rattle.geo_core.specs.Cells.{Has};
ghost use Rattle.geo_core.specs.declared.bounds.TheConstants.{GREATEST_SIDE};
ghost use Rattle.geo_core.specs.declared.plane.Cell.{Cell};
ghost use Rattle.fault_model.specs.IslandLists.{IslandLists, IsAnchoredIsland};
ghost use Rattle.open_grid.specs.inside.Wires.{AreEndsAmong, BoundEnds, GainsCells, HaveSeveringCells, IsWire, LosesSome, SpansBoth};

use super::changes::span_along;
use super::extents::Extent;
use fault_model::Island;
use geo_core::{Axis, Rect};
use half_boxes::HalfBox;
use lists::NoMemory;
use std::alloc::Global;

/// The rectangle of the island, if it has no other.
pub fn wire_of(island: &Island) -> Option<Rect>
    ensures alone { IfSome result (λ wire. island.now.pieces ≡ wire ∷ []) }
    ensures sound { IsAnchoredIsland island.now }
{
    match island.pieces.as_slice() {
        [wire] => Some(*wire),
        _ => None,
    }
}

/// The cells of the window that are the centre of a defect of this side that parts two anchors of the island of this one
/// rectangle, as rectangles in no order, which may overlap. The hulls are those of the anchors' spots. The one error is that no
/// memory is left.
pub fn cells_of_wire(
    alloc: Global,
    wire: Rect,
    hulls: &[HalfBox],
    window: Rect,
    side: u32,
) -> Result<Vec<Rect>, NoMemory>
    requires some { 1 ≤ side }
    requires few { side ≤ GREATEST_SIDE }
    ensures { (island : IslandLists) → IsWire wire hulls.now island →
        IfOk result (λ rects. HaveSeveringCells island side window rects.items) }
{
    let mut cells = Vec::new(alloc);
    // One anchor alone is parted from none, even where it is lost.
    if hulls.len() < 2 {
        return Ok(cells);
    }
    let wire = HalfBox::of_rect(wire);
    let columns = tightest(hulls, Axis::X);
    let rows = tightest(hulls, Axis::Y);
    add_lost(window, hulls, side, &mut cells)?;
    add_spanning(window, columns, Extent::of(wire.rows), side, &mut cells)?;
    add_spanning(window, Extent::of(wire.columns), rows, side, &mut cells)?;
    Ok(cells)
}

/// Adds the cells of the window at which the defect has all of one of the hulls.
fn add_lost(
    window: Rect,
    hulls: &[HalfBox],
    side: u32,
    cells: &mut Vec<Rect>,
) -> Result<(), NoMemory>
    requires some { 1 ≤ side }
    requires few { side ≤ GREATEST_SIDE }
    ensures { OnOk result (GainsCells (λ (c : Cell). Has window c × LosesSome hulls.now side c)
        cells.old.items cells.new.items) }
{
    for hull in hulls {
        let columns = Extent::of(hull.columns);
        let rows = Extent::of(hull.rows);
        add_spanning(window, columns, rows, side, cells)?;
    }
    Ok(())
}

/// Adds those at which it reaches so far along both axes, which are those of one rectangle.
fn add_spanning(
    window: Rect,
    columns: Extent,
    rows: Extent,
    side: u32,
    cells: &mut Vec<Rect>,
) -> Result<(), NoMemory>
    requires some { 1 ≤ side }
    requires few { side ≤ GREATEST_SIDE }
    ensures { OnOk result (GainsCells (SpansBoth window columns.low columns.high rows.low rows.high side)
        cells.old.items cells.new.items) }
{
    let Some(across) = columns.places(window.columns(), side) else {
        return Ok(());
    };
    let Some(up) = rows.places(window.rows(), side) else {
        return Ok(());
    };
    cells.push(Rect::of(across, up))?;
    Ok(())
}

/// The greatest low end of the boxes along the axis, and their least high end.
fn tightest(boxes: &[HalfBox], axis: Axis) -> Extent
    requires { 0 < length boxes.now }
    ensures among { AreEndsAmong axis boxes.now result.low result.high }
    ensures bounds { BoundEnds axis boxes.now result.low result.high }
{
    let mut extent = Extent::of(span_along(boxes[0], axis));
    for one in boxes {
        extent = extent.tightened(span_along(*one, axis));
    }
    extent
}
