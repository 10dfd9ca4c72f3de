ghost use Rattle.std.specs.Prelude.{◌≡◌, ◌+◌, All, IfOk, length};
ghost use Rattle.first_refusal.specs.Answers.{Answers};
ghost use Rattle.geo_core.specs.Cells.{IsInLayout};
ghost use Rattle.map_model.specs.MapView.{layer_map_of};
ghost use Rattle.layout_probe.specs.Probe.{ComeToProbe};
ghost use Rattle.layout_probe.specs.inside.NumberedNearest.{AreFoundFor, AreNearestNumbers};

use super::metal_near::MetalNear;
use area_parts::{MetalPieces, metal_pieces};
use geo_core::{Cell, Labelled};
use lists::NoMemory;
use map_model::{Layers, Map, Metal};
use near_index::{NearIndex, Nearest, distances_are_one, nearest_two_are_one};
use net_extract::NetFault;
use net_numbers::laws::numbers_keep_cells;
use net_numbers::numbered;
use std::alloc::Global;

/// For each metal of the map, in its order, the net that is nearest to the cell, and the nearest of all others. `layers` has one list
/// of rectangles for each metal of the map, and then one for each cut.
///
/// The distance of the cell to a net is the least one to a cell that the net has on the metal, and that to a cell is the greater of
/// the distances in columns and in rows: 0 where the net has the cell itself. Of nets that are equally near the one with the least
/// number comes first. Each metal numbers the nets that have a cell on it, from 0 on, row by row by their first cells. There is no
/// second where the metal has one net alone, and no first where it has none. The cell may be any, also one that no layout covers.
///
/// The error is the first terminal whose cell its metal does not cover, or that no memory is left.
pub fn probe(
    alloc: Global,
    map: &Map,
    layers: &Layers,
    cell: Cell,
) -> Result<Vec<MetalNear>, NetFault>
    requires one_each { length layers.now.lists.items ≡ length map.now.metals + length map.now.cuts }
    requires within { All (All IsInLayout) layers.now.lists.items }
    ensures { Answers NetFault.Memory (ComeToProbe (layer_map_of map.now) layers.now.lists.items cell) result }
{
    numbers_keep_cells();
    distances_are_one();
    let pieces = metal_pieces(alloc, map, layers)?;
    let metals = map.metals.as_slice();
    Ok(nearest_on_metals(alloc, metals, pieces.as_slice(), cell)?)
}

/// The nearest two nets of each of the metals, from its pieces. The only error is that no memory is left.
fn nearest_on_metals(
    alloc: Global,
    metals: &[Metal],
    pieces: &[MetalPieces],
    cell: Cell,
) -> Result<Vec<MetalNear>, NoMemory>
    requires { length pieces.now ≡ length metals.now }
    ensures { IfOk result (λ told. AreFoundFor metals.now pieces.now cell told.items) }
{
    let mut told = Vec::with_capacity(alloc, metals.len())?;
    for (number, metal) in metals.iter().enumerate() {
        let nearest = nearest_of_pieces(alloc, pieces[number].as_slice(), cell)?;
        told.push(MetalNear {
            layer: metal.name,
            nearest,
        })?;
    }
    Ok(told)
}

/// The nearest two nets of one metal, from its pieces. The only error is that no memory is left.
fn nearest_of_pieces(alloc: Global, pieces: &[Labelled], cell: Cell) -> Result<Nearest, NoMemory>
    ensures { IfOk result (AreNearestNumbers pieces.now cell) }
{
    nearest_two_are_one();
    let numbered = numbered(alloc, pieces)?;
    let index = NearIndex::new(alloc, numbered.as_slice())?;
    index.two_nearest(cell)
}
