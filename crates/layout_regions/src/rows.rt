ghost use Rattle.std.specs.Prelude.{◌≡◌, ◌<◌, ◌+◌, All, IfOk, length, slice_index};
ghost use Rattle.first_refusal.specs.Answers.{Answers};
ghost use Rattle.fault_model.specs.Areas.{cells_of, cells_of_window};
ghost use Rattle.geo_core.specs.Bounds.{IsSide};
ghost use Rattle.geo_core.specs.Cells.{IsInLayout};
ghost use Rattle.map_model.specs.MapView.{layer_map_of};
ghost use Rattle.area_parts.specs.AskedCounts.{IsCountedAs};
ghost use Rattle.layout_regions.specs.Regions.{ComeToRegion, IsNumberFor};
ghost use Rattle.layout_regions.specs.inside.FoundRects.{AreWantedRects};

use super::kinds::{blocks, opens, shorts};
use area_parts::{Parts, prepare, reach, window_of};
use geo_core::Rect;
use lists::NoMemory;
use map_model::{Layers, Map};
use net_extract::NetFault;
use questions::Kind;
use std::alloc::Global;

/// The cells that the row of this kind, layer and size counts, as rectangles without common cells: those of the window at which a
/// defect of the size makes the fault. The window is that of the report, the same for all rows. `layers` has one list of rectangles
/// for each metal of the map, and then one for each cut.
///
/// The layer goes by its number as questions have it: a metal's for shorts and opens, and for via blocks a cut's, which goes on behind
/// those of the metals. The size goes by its place in the map. Both are counted from 0. The order and the number of the rectangles
/// are left open.
///
/// The error is the first terminal whose cell its metal does not cover, whatever the kind, or that no memory is left.
pub fn regions(
    alloc: Global,
    map: &Map,
    layers: &Layers,
    kind: Kind,
    number: u32,
    place: u32,
) -> Result<Vec<Rect>, NetFault>
    requires one_each { length layers.now.lists.items ≡ length map.now.metals + length map.now.cuts }
    requires within { All (All IsInLayout) layers.now.lists.items }
    requires numbered { IsNumberFor kind (length map.now.metals) (length map.now.cuts) number }
    requires below { place < length map.now.sizes }
    ensures { Answers NetFault.Memory
        (ComeToRegion (layer_map_of map.now) layers.now.lists.items kind number (slice_index map.now.sizes place)) result }
{
    let parts = prepare(alloc, map, layers)?;
    let window = window_of(layers.lists.as_slice(), reach(map));
    let side = map.side(place);
    Ok(rects_of(alloc, &parts, window, kind, number, side)?)
}

/// The cells of the window, where there is one, that are counted for this kind, number and side. The only error is that no memory is
/// left.
fn rects_of(
    alloc: Global,
    parts: &Parts,
    window: Option<Rect>,
    kind: Kind,
    number: u32,
    side: u32,
) -> Result<Vec<Rect>, NoMemory>
    requires numbered { IsNumberFor kind (length parts.now.metals) (length parts.now.cuts) number }
    requires is_side { IsSide side }
    ensures { IfOk result (λ rects.
        AreWantedRects (IsCountedAs kind parts.now number side) (cells_of_window window) rects.items) }
{
    match window {
        None => Ok(Vec::new(alloc)),
        Some(window) => rects_in(alloc, parts, window, kind, number, side),
    }
}

/// The cells of this window that are counted for this kind, number and side. The only error is that no memory is left.
fn rects_in(
    alloc: Global,
    parts: &Parts,
    window: Rect,
    kind: Kind,
    number: u32,
    side: u32,
) -> Result<Vec<Rect>, NoMemory>
    requires numbered { IsNumberFor kind (length parts.now.metals) (length parts.now.cuts) number }
    requires is_side { IsSide side }
    ensures { IfOk result (λ rects. AreWantedRects (IsCountedAs kind parts.now number side) (cells_of window) rects.items) }
{
    let layer = number as usize;
    match kind {
        Kind::Short => {
            let pieces = parts.metals.as_slice()[layer].as_slice();
            shorts(alloc, pieces, window, side)
        }
        Kind::Open => {
            let islands = parts.islands.as_slice()[layer].as_slice();
            opens(alloc, islands, window, side)
        }
        Kind::Via => {
            let cut = layer - parts.metals.as_slice().len();
            let boxes = parts.cuts.as_slice()[cut].as_slice();
            blocks(alloc, boxes, window, side)
        }
    }
}
