ghost use Rattle.std.specs.Prelude.{◌≡◌, ◌≤◌, ◌<◌, ◌+◌, IfOk, All, length, option_copied};
ghost use Rattle.first_refusal.specs.Answers.{Answers};
ghost use Rattle.geo_core.specs.Cells.{IsInLayout};
ghost use Rattle.map_model.specs.MapView.{layer_map_of};
ghost use Rattle.questions.specs.declared.row.TheConstants.{MOST_ROWS};
ghost use Rattle.region_out.specs.RegionLibraries.{AreUnits};
ghost use Rattle.run_inputs.specs.Inquiries.{IsQueryOf};
ghost use Rattle.run_inputs.specs.StageAnswers.{Analyses};
ghost use Rattle.run_inputs.specs.Layout.{ShortLayoutComesTo};
ghost use Rattle.run_inputs.specs.Refusals.{layout_limit};
ghost use Rattle.critarea_core.specs.Analysis.{AnalysisComesTo};
ghost use Rattle.critarea_core.specs.inside.Finding.{ComeToFound, HasFound};

use super::found::{CriticalRegion, Found, ReportRows};
use critical_areas::{Gate, Sharing, critical_areas};
use gds_syntax::read_library;
use layout_pairs::pair_tables;
use layout_probe::probe;
use layout_regions::regions;
use map_model::{Layers, Map};
use net_extract::NetFault;
use questions::Row;
use run_inputs::{LayoutFault, Query, layers_of_library};
use std::alloc::Global;
use std::mem::drop;
use std::thread::Threads;

/// What is asked of the map on these layers, one for each metal and cut, of a layout with these units. The error is the first terminal
/// whose cell its metal does not cover, whatever is asked, or that no memory is left.
fn find_on_layers<G: Gate + Sync>(
    rt: &(impl Threads + Sync),
    alloc: Global,
    map: &Map,
    query: Query,
    layers: &Layers,
    units: [u8; 16],
    sharing: Sharing<'_, G>,
) -> Result<Found, NetFault>
    requires one_each { length layers.now.lists.items ≡ length map.now.metals + length map.now.cuts }
    requires within { All (All IsInLayout) layers.now.lists.items }
    requires there { IsQueryOf map.now query }
    requires fit { AreUnits units }
    ensures { Answers NetFault.Memory (ComeToFound (layer_map_of map.now) layers.now.lists.items units query) result }
{
    match query {
        Query::Report => {
            let rows = critical_areas(rt, alloc, map, layers, sharing)?;
            Ok(Found::Report(ReportRows { rows }))
        }
        Query::Pairs { size } => {
            let tables = pair_tables(alloc, map, layers, size.place)?;
            Ok(Found::Pairs(tables))
        }
        Query::Probe { cell } => {
            let metals = probe(alloc, map, layers, cell)?;
            Ok(Found::Probe(metals))
        }
        Query::Region { kind, number, size } => {
            let rects = regions(alloc, map, layers, kind, number, size.place)?;
            Ok(Found::Region(CriticalRegion { rects, units }))
        }
    }
}

/// What is asked of the map on the layout with these bytes, of which this top is wanted, or any. The bytes are let go once
/// the library is read, and the library once its layers are known.
pub fn find_in_layout<G: Gate + Sync>(
    rt: &(impl Threads + Sync),
    alloc: Global,
    map: &Map,
    query: Query,
    top: Option<&[u8]>,
    bytes: Vec<u8>,
    sharing: Sharing<'_, G>,
) -> Result<Found, LayoutFault>
    requires within { length bytes.items ≤ layout_limit }
    requires there { IsQueryOf map.now query }
    ensures { Analyses (ShortLayoutComesTo (layer_map_of map.now) (option_copied top.entry) bytes.items) (HasFound query) result }
{
    let library = read_library(alloc, bytes.as_slice())?;
    drop(bytes);
    let units = library.units;
    let layers = layers_of_library(rt, alloc, map, top, library)?;
    let found = find_on_layers(rt, alloc, map, query, &layers, units, sharing)?;
    Ok(found)
}

/// The rows of a report of the map on a layout: shorts of each metal, then opens of each, and then via blocks of each cut,
/// for each size in order.
///
/// The layout is at most 268,435,456 bytes of a GDSII stream. `top` is the name of the structure that is analysed with all
/// that it places; where it is left out it is the one that no reference names. `edge` is that of the tiles over which areas
/// are counted, 1 to 1,000,000,000 database units, and `workers`, 1 to 64, share them at once, in threads of their own where
/// these can be started. None of these changes a row, and no gate does.
///
/// The error is the layout's first fault: of its bytes, then of the placement of its shapes, then of the cover of each placed
/// shape, and at last the first terminal of the map whose cell its metal does not cover; or that no memory is left.
pub fn analyse<G: Gate + Sync>(
    rt: &(impl Threads + Sync),
    alloc: Global,
    map: &Map,
    layout: &[u8],
    top: Option<&[u8]>,
    edge: u32,
    workers: u32,
    gate: &G,
) -> Result<Vec<Row>, LayoutFault>
    requires some { 1 ≤ edge }
    requires short { edge ≤ 1000000000 }
    requires some_workers { 1 ≤ workers }
    requires few_workers { workers ≤ 64 }
    requires within { length layout.now ≤ layout_limit }
    ensures rows { Answers LayoutFault.Memory (AnalysisComesTo (layer_map_of map.now) (option_copied top.entry) layout.now) result }
    ensures few { IfOk result (λ rows. length rows.items ≤ MOST_ROWS) }
{
    let library = read_library(alloc, layout)?;
    let layers = layers_of_library(rt, alloc, map, top, library)?;
    let sharing = Sharing {
        edge,
        workers,
        gate,
    };
    let rows = critical_areas(rt, alloc, map, &layers, sharing)?;
    Ok(rows)
}
