ghost use Rattle.std.specs.Prelude.{◌≡◌, ◌<◌, ◌+◌, ◌/◌, All, IfOk, length, slice_index};
ghost use Rattle.first_refusal.specs.Answers.{Answers};
ghost use Rattle.fault_model.specs.Areas.{cells_of_window};
ghost use Rattle.geo_core.specs.Bounds.{IsSide};
ghost use Rattle.geo_core.specs.Cells.{IsInLayout};
ghost use Rattle.map_model.specs.MapView.{layer_map_of};
ghost use Rattle.net_pairs.specs.Pairs.{ArePairAreas};
ghost use Rattle.layout_pairs.specs.PairAreas.{ComeToPairs};
ghost use Rattle.layout_pairs.specs.inside.NumberedPairs.{AreMadeFor, AreNumberedPairs};

use area_parts::{MetalPieces, metal_pieces, reach, reach_of_side, window_of};
use geo_core::{Labelled, Rect};
use lists::{Items, NoMemory};
use map_model::{Layers, Map, Metal};
use net_extract::NetFault;
use net_numbers::laws::numbers_keep_cells;
use net_numbers::numbered;
use net_pairs::pair_areas;
use pair_report::{MetalPairs, PairTables};
use std::alloc::Global;

/// The pairs of nets of each metal with their areas, for the size of the map with this number, counted from 0. `layers` has one list
/// of rectangles for each metal of the map, and then one for each cut.
///
/// A pair is of two numbers of nets, the lesser one first. Each metal numbers the nets that have a cell on it, from 0 on, row by row
/// by their first cells. The area is the number of cells of the window at which a defect of this size touches both nets; pairs of
/// which it is 0 are left out. The window is that of the report, the same for all sizes.
///
/// The error is the first terminal whose cell its metal does not cover, or that no memory is left.
pub fn pair_tables(
    alloc: Global,
    map: &Map,
    layers: &Layers,
    number: u32,
) -> Result<PairTables, NetFault>
    requires one_each { length layers.now.lists.items ≡ length map.now.metals + length map.now.cuts }
    requires within { All (All IsInLayout) layers.now.lists.items }
    requires below { number < length map.now.sizes }
    ensures { Answers NetFault.Memory (ComeToPairs (layer_map_of map.now) layers.now.lists.items (slice_index map.now.sizes number)) result }
{
    numbers_keep_cells();
    let pieces = metal_pieces(alloc, map, layers)?;
    let window = window_of(layers.lists.as_slice(), reach(map));
    let side = map.side(number);
    let metals = map.metals.as_slice();
    let made = pairs_of_metals(alloc, metals, pieces.as_slice(), window, side)?;
    Ok(PairTables {
        measure: map.measure,
        size: map.sizes.as_slice()[number as usize],
        metals: Items::from_vec(made),
    })
}

/// The pairs of each of the metals, from its pieces, for defects of this side. The only error is that no memory is left.
fn pairs_of_metals(
    alloc: Global,
    metals: &[Metal],
    pieces: &[MetalPieces],
    window: Option<Rect>,
    side: u32,
) -> Result<Vec<MetalPairs>, NoMemory>
    requires one_each { length pieces.now ≡ length metals.now }
    requires side { IsSide side }
    ensures { IfOk result (λ made. AreMadeFor metals.now pieces.now side (cells_of_window window) made.items) }
{
    let mut made = Vec::new(alloc);
    for (number, metal) in metals.iter().enumerate() {
        let pairs = pairs_of_metal(alloc, pieces[number].as_slice(), window, side)?;
        made.push(MetalPairs {
            layer: metal.name,
            pairs: Items::from_vec(pairs),
        })?;
    }
    Ok(made)
}

/// The pairs of one metal, from its pieces, for defects of this side. The only error is that no memory is left.
fn pairs_of_metal(
    alloc: Global,
    pieces: &[Labelled],
    window: Option<Rect>,
    side: u32,
) -> Result<Vec<(usize, usize, u64)>, NoMemory>
    requires { IsSide side }
    ensures { IfOk result (λ pairs. AreNumberedPairs side (cells_of_window window) pieces.now pairs.items) }
{
    let numbered = numbered(alloc, pieces)?;
    match window {
        None => Ok(Vec::new(alloc)),
        Some(window) => areas_at_side(alloc, numbered.as_slice(), window, side),
    }
}

/// The areas by pairs of labels for defects of this side. A defect of an odd side touches the cells that the next lesser even one
/// does; so at side 1 there are none, since a defect touches its own cell alone. The only error is that no memory is left.
fn areas_at_side(
    alloc: Global,
    pieces: &[Labelled],
    window: Rect,
    side: u32,
) -> Result<Vec<(usize, usize, u64)>, NoMemory>
    requires { IsSide side }
    ensures { IfOk result (λ areas. ArePairAreas pieces.now (side / 2) window areas.items) }
{
    if side < 2 {
        return Ok(Vec::new(alloc));
    }
    pair_areas(alloc, pieces, window, reach_of_side(side))
}
