ghost use Rattle.std.specs.Prelude.{◌+◌, ◌/◌, IfOk};
ghost use Rattle.fault_model.specs.Areas.{cells_of};
ghost use Rattle.geo_core.specs.Bounds.{IsSide};
ghost use Rattle.severing.specs.Severing.{IsSomeOpen};
ghost use Rattle.short_area.specs.Labels.{TouchesTwoLabels};
ghost use Rattle.via_clusters.specs.Blocks.{CoversSomeBox};
ghost use Rattle.layout_regions.specs.inside.FoundRects.{AreWantedRects};

use area_parts::{covering_radius, reach_of_side};
use fault_model::Island;
use geo_core::{Labelled, Rect};
use lists::NoMemory;
use open_grid::open_cells;
use short_area::short_rects;
use std::alloc::Global;
use via_clusters::via_rects;

/// The cells of the window at which a defect of this side touches pieces of two labels, which tell nets apart: none at side 1. The
/// only error is that no memory is left.
pub fn shorts(
    alloc: Global,
    pieces: &[Labelled],
    window: Rect,
    side: u32,
) -> Result<Vec<Rect>, NoMemory>
    requires { IsSide side }
    ensures { IfOk result (λ rects. AreWantedRects (TouchesTwoLabels pieces.now (side / 2)) (cells_of window) rects.items) }
{
    if side < 2 {
        return Ok(Vec::new(alloc));
    }
    short_rects(alloc, pieces, window, reach_of_side(side))
}

/// Those at which it parts two anchors of an island.
pub fn opens(
    alloc: Global,
    islands: &[Island],
    window: Rect,
    side: u32,
) -> Result<Vec<Rect>, NoMemory>
    requires { IsSide side }
    ensures { IfOk result (λ rects. AreWantedRects (IsSomeOpen islands.now side) (cells_of window) rects.items) }
{
    open_cells(alloc, islands, window, side)
}

/// Those at which it covers one of the boxes.
pub fn blocks(alloc: Global, boxes: &[Rect], window: Rect, side: u32) -> Result<Vec<Rect>, NoMemory>
    requires { IsSide side }
    ensures { IfOk result (λ rects. AreWantedRects (CoversSomeBox boxes.now ((side + 1) / 2)) (cells_of window) rects.items) }
{
    via_rects(alloc, boxes, window, covering_radius(side))
}
