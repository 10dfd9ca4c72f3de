//! Rows on single calls of the geometry.
//!
//! They are on islands, nets, opens, areas, runs and tiles, and on what maps make of them. Each kind of row has a function, which reads
//! the row's keys, makes the call and compares the answer.
#![tactic(auto)]

mod areas;
mod cells;
mod clusters;
mod critical;
mod handed;
mod joined;
mod labelled;
mod layers;
mod maps;
mod names;
mod nets;
mod opens;
mod plane;
mod runs;
mod spots;
mod spotted;
mod tiles;
mod touching;

use row_tables::Case;

/// Checks a row of any kind. A kind that is not known is reported.
pub fn check(case: &mut Case<'_>) {
    match case.kind {
        "critical_cells" => critical::cells(case),
        "gathered" => joined::gathered(case),
        "joined" => joined::rects(case),
        "label" => touching::labels(case),
        "meetings" => touching::meeting(case),
        "merged" => runs::merged(case),
        "near_tile" => tiles::near_tile(case),
        "near_tiles" => tiles::near_all(case),
        "nearest_at" => labelled::nearest_at(case),
        "net_numbers" => labelled::numbers(case),
        "pair_areas" => labelled::pair_list(case),
        "plan" => tiles::plans(case),
        "runs" => runs::runs(case),
        "runs_within" | "twice_runs_within" => runs::within(case),
        "short_area" => areas::shorts(case),
        "sweeps" => areas::sweeps(case),
        "touch_pairs" => touching::pairs(case),
        "turns" => plane::turns(case),
        "two_nearest" => labelled::nearest(case),
        "two_rects" => plane::two_rects(case),
        "union" => areas::union(case),
        "union_runs" => runs::union(case),
        "via_area" => areas::vias(case),
        _ => layers::check(case),
    }
}
