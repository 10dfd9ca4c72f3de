//! Whole runs from tables of text, from the words down to the bytes that are written.
//!
//! Each `[[run]]` gives words, a layout `a` and a map `m`, and the status and the outputs that they must come to: `prepared` makes ready
//! what a run is handed, `region_files` reads the files of critical cells, and `runs` makes the run and compares. The keys of a row:
//!
//! - `words`: the command line. A row with `tiled = true` is run for tiles and workers of several kinds, which change nothing.
//! - The layout and the map, as `row_files` reads them. `generated` is the number of columns of a generated layout, which comes with
//!   its own map.
//! - `files_fail`, `out_fails`, `err_fails`: the numbers of the calls that fail, from 0; `room`: how many bytes the output takes.
//! - `gauges` and `pair_gauges`, if they are not those of the program.
//! - `status`, 0 if there is none, and `out` and `err`, empty if there is none. In place of `out` may stand `report`, the name of a
//!   `[report.NAME]` with its `text`; `shorts = [radius, area]`, the report of one metal with this one area; or `region`, the
//!   critical cells of a region file as rectangles of which no two have a common cell, or `cells`, how many these cells are. `units`
//!   are the bytes of the region file's units, if they are not the usual ones.
//! - `printed` and `pairs_printed`: what the gauges print after the run.
//!
//! Each `[[analysis]]` gives a layout, a map, and perhaps a `top`. Its areas, `areas = [shorts, opens]` of one metal at one size, or
//! its `fault` are the same for each kind of tiles and each number of workers (`analyses`).
#![tactic(auto)]

mod analyses;
mod prepared;
mod region_files;
mod runs;

use row_tables::Case;
use std::thread::Threads;

/// Checks a row, if it is a run or an analysis, and answers whether it is one.
pub fn check(rt: &(impl Threads + Sync), case: &mut Case<'_>) -> bool {
    match case.kind {
        "run" => runs::check(rt, case),
        "analysis" => analyses::check(rt, case),
        _ => return false,
    }
    true
}
