//! Which defects part terminals, and from how many cells.

ghost use Rattle.std.specs.Prelude.{◌≤◌, All};
ghost use Rattle.geo_core.specs.Cells.{IsInLayout};
ghost use Rattle.geo_core.specs.declared.bounds.TheConstants.{GREATEST_SIDE};

use crate::{handed, spots};
use fault_model::Island;
use geo_core::{Cell, Rect};
use open_grid::{open_area, open_area_counted, open_cells, parted, parted_counted};
use ring_test::{RingAnswer, ring};
use row_tables::Case;
use samples::sides::are_near;
use union_area::union_area;

/// What became of a count of searches.
fn searches_from(before: u64, after: u64) -> &'static str {
    if after == before {
        "none"
    } else if after > before {
        "some"
    } else {
        "fewer"
    }
}

/// The area of opens, with searches that are counted from `before`, which are more or stay as they are. The greatest count stays.
fn counted_area(case: &mut Case<'_>, islands: &[Island], window: Rect, side: u32)
    requires some { 1 ≤ side }
    requires few { side ≤ GREATEST_SIDE }
{
    for before in [0, 7, u64::MAX - 1, u64::MAX] {
        let mut after = before;
        let area = open_area_counted(case.alloc, islands, window, side, &mut after);
        case.expect_done("area", area);
        if before < u64::MAX {
            case.expect_text("searches", searches_from(before, after));
        } else if after < u64::MAX {
            case.note("searches", "the greatest count does not stay");
        }
    }
}

/// At which cells of the window a defect parts two terminals: how many there are in each part of a row.
fn cells(case: &mut Case<'_>, islands: &[Island], window: Rect, side: u32)
    requires some { 1 ≤ side }
    requires few { side ≤ GREATEST_SIDE }
{
    let cells = case.list(open_cells(case.alloc, islands, window, side));
    let mut counts = Vec::new(case.alloc);
    for part in case.rects("parts").as_slice() {
        let count = case.done(union_area(case.alloc, cells.as_slice(), *part), 0);
        case.push(&mut counts, count);
    }
    case.expect_list("counts", counts.as_slice());
}

/// From how many cells of the window a defect parts two terminals, or which these cells are.
fn in_window(case: &mut Case<'_>, islands: &[Island]) {
    let side = case.side();
    let window = case.rect("window");
    match case.kind {
        "open_area" => case.expect_done("area", open_area(case.alloc, islands, window, side)),
        "open_cells" => cells(case, islands, window, side),
        _ => counted_area(case, islands, window, side),
    }
}

/// How a row says what the ring tells.
fn told(answer: RingAnswer) -> &'static str {
    match answer {
        RingAnswer::Untouched => "untouched",
        RingAnswer::OneArc { lost: false } => "spared",
        RingAnswer::OneArc { lost: true } => "lost",
        RingAnswer::Many => "many",
    }
}

/// Whether a defect parts two terminals of an island, and to what a count of searches rises that was at `before`.
fn expect_counted(case: &mut Case<'_>, island: &Island, cell: Cell, side: u32)
    requires some { 1 ≤ side }
    requires few { side ≤ GREATEST_SIDE }
    requires within { All IsInLayout island.now.pieces }
{
    let mut searches: u64 = case.text("before").parse().unwrap_or(u64::MAX);
    if searches == u64::MAX {
        return case.note("before", "not a count with room for a search");
    }
    let parted = parted_counted(case.alloc, island, cell, side, &mut searches);
    case.expect_done("parted", parted);
    case.expect("after", searches);
}

/// Whether a defect parts two terminals of the one island, or what the ring round it tells.
fn at_cell(case: &mut Case<'_>, islands: &[Island]) {
    let side = case.side();
    let cell = case.cell("cell");
    let [island] = islands else {
        return case.note("drawn", "not one island");
    };
    if !are_near(island.pieces.as_slice()) {
        return case.note("drawn", "not in a layout");
    }
    match case.kind {
        "parted" => case.expect_done("parted", parted(case.alloc, island, cell, side)),
        "ring" => {
            let answer = case.done(ring(case.alloc, island, cell, side), RingAnswer::Many);
            case.expect_text("tells", told(answer));
        }
        _ => expect_counted(case, island, cell, side),
    }
}

/// Checks a row on islands.
pub fn check(case: &mut Case<'_>, islands: &[Island]) {
    match case.kind {
        "handed_out" => handed::counts(case, islands),
        "open_area" | "open_area_counted" | "open_cells" => in_window(case, islands),
        "parted" | "parted_counted" | "ring" => at_cell(case, islands),
        "spots" => spots::field(case, islands),
        _ => case.unknown_kind(),
    }
}
