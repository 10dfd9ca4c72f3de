//! The critical areas of a layer map over what its layers cover, tile by tile.
//!
//! Two parts also stand alone: `amounts` counts over any window what questions ask for, and `rows` puts amounts into the rows of a
//! report. What is counted from, and the window, come from `area_parts`; `counts_are_amounts`, a law, says that what is counted over
//! the parts of a map is the tally of the faults of the definitions.
//!
//! - `sensible_plan` cuts the window into tiles. Their edge is the one that is asked for, or shorter where several workers
//!   would have too few tiles for opens of many rectangles, and it is doubled where tiles would be too many, would look at
//!   long pieces too often, or would ask too many questions (`tile_size`).
//! - The tiles are work to share (`Tiles`): each is a ticket and each question a slot, and the amount of the two is at
//!   how many cells of the tile a defect does what the question asks for. `tile_work::run_tiles` has this done by
//!   workers, and `close_sums` gives each slot the sum over all tickets, which is the tally of the window. It does not
//!   wrap, since no window has 2^63 cells.
//! - Where there are several tiles, pieces and boxes stand in an index each (`indexes`), so that a tile costs what is
//!   near it. A small island is looked at for opens in each tile that it comes near, and a large one over the whole
//!   window first (`apart`); each tile has the area of the union of both. One tile that is all of the window is the same
//!   job with one ticket: no index is made, all pieces and boxes count as near, and opens are looked for when their
//!   question comes.
#![tactic(auto)]

mod answering;
mod apart;
mod counting;
mod indexes;
pub mod laws;
mod sharing;
mod tile_size;
mod tiles;

ghost use Rattle.std.specs.Prelude.{◌≡◌, ◌≤◌, ◌+◌, IfOk, All, length};
ghost use Rattle.first_refusal.specs.Answers.{Answers};
ghost use Rattle.geo_core.specs.Cells.{IsInLayout};
ghost use Rattle.area_parts.specs.Rows.{ComeToRows};
ghost use Rattle.map_model.specs.MapView.{layer_map_of};
ghost use Rattle.questions.specs.declared.row.TheConstants.{MOST_ROWS};

use answering::counted_rows;
pub use answering::rows;
pub use area_parts::{Asked, Parts};
use area_parts::{prepare, reach, window_of};
pub use counting::amounts;
use map_model::{Layers, Map};
pub use net_extract::NetFault;
use questions::Row;
pub use sharing::Sharing;
use std::alloc::Global;
use std::thread::Threads;
pub use tile_work::{Gate, NoGate};

/// The rows of the report on what the rectangles cover, of which there is one list for each layer of the map: shorts of
/// each metal, then opens of each, and then via blocks of each cut, for each size in order.
///
/// An area is a number of cells of the window: the bounds of what all layers cover, grown by as far as the greatest defect
/// reaches, which is half of its side, rounded down. It is counted
/// tile by tile, by workers who share the tiles as `sharing` says, and the rows are the same for each sharing.
///
/// The error is 50 with the number, counted from 0, of the first terminal whose cell its metal does not cover, or that no
/// memory is left.
pub fn critical_areas<G: Gate + Sync>(
    rt: &(impl Threads + Sync),
    alloc: Global,
    map: &Map,
    layers: &Layers,
    sharing: Sharing<'_, G>,
) -> Result<Vec<Row>, NetFault>
    requires one_each { length layers.now.lists.items ≡ length map.now.metals + length map.now.cuts }
    requires within { All (All IsInLayout) layers.now.lists.items }
    ensures rows { Answers NetFault.Memory (ComeToRows (layer_map_of map.now) layers.now.lists.items) result }
    ensures few { IfOk result (λ rows. length rows.items ≤ MOST_ROWS) }
{
    let window = window_of(layers.lists.as_slice(), reach(map));
    let parts = prepare(alloc, map, layers)?;
    Ok(counted_rows(rt, alloc, parts.asked(), window, sharing)?)
}
