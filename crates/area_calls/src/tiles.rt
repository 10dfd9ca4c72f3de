//! The tiles of a window, and what is near one.

use crate::labelled::expect_labels;
use geo_core::{Labelled, Rect};
use row_tables::{Case, sides_of};
use tile_plan::{GREATEST_EDGE, NearIndex, TilePlan, near, plan};

/// The plan of the window of a row for its edge.
fn plan_of(case: &mut Case<'_>) -> TilePlan {
    let window = case.rect("window");
    let edge = case.number("edge");
    if edge == 0 || edge > GREATEST_EDGE {
        case.note("edge", "not the edge of a tile");
        return plan(window, 1);
    }
    plan(window, edge)
}

/// The plan of a window for a given edge, and those of its tiles that have these numbers.
pub fn plans(case: &mut Case<'_>) {
    let plan = plan_of(case);
    let mut tiles = Vec::new(case.alloc);
    for number in case.numbers("numbers").as_slice() {
        if *number < plan.count() {
            case.push(&mut tiles, plan.tile(*number));
        }
    }
    case.expect_list("window", &sides_of(plan.window));
    case.expect("planned_edge", plan.edge);
    case.expect("columns", plan.columns);
    case.expect("rows", plan.rows);
    case.expect("cap", plan.cap());
    case.expect_rects("tiles", tiles.as_slice());
}

/// The rectangles, each with its number as its label.
fn numbered(case: &mut Case<'_>, rects: &[Rect]) -> Vec<Labelled> {
    let mut pieces = Vec::new(case.alloc);
    for (label, rect) in rects.iter().enumerate() {
        case.push(&mut pieces, Labelled { rect: *rect, label });
    }
    pieces
}

/// Whether an index of the pieces finds those near the tile that a look at each finds.
fn agrees(
    case: &mut Case<'_>,
    index: &NearIndex<Labelled>,
    pieces: &[Labelled],
    tile: Rect,
    reach: u32,
) -> bool {
    let wanted = case.list(near(case.alloc, pieces, tile, reach));
    let mut found = case.list(index.near(case.alloc, tile, reach));
    found.sort_unstable_by_key(|piece| piece.label);
    found.as_slice() == wanted.as_slice()
}

/// Compares how many rectangles without labels are near a tile, by a look at each and by an index.
fn expect_counts(case: &mut Case<'_>, rects: &[Rect], tile: Rect, reach: u32) {
    let found = case.list(near(case.alloc, rects, tile, reach));
    case.expect("count", found.len());
    match NearIndex::new(case.alloc, rects) {
        Ok(index) => {
            let listed = case.list(index.near(case.alloc, tile, reach));
            case.expect("count", listed.len());
        }
        Err(_) => case.no_memory(),
    }
}

/// Which rectangles are near a tile, with labels and without.
pub fn near_tile(case: &mut Case<'_>) {
    let tile = case.rect("tile");
    let reach = case.number("reach");
    let rects = case.rects("rects");
    expect_counts(case, rects.as_slice(), tile, reach);
    let pieces = numbered(case, rects.as_slice());
    match NearIndex::new(case.alloc, pieces.as_slice()) {
        Ok(index) if agrees(case, &index, pieces.as_slice(), tile, reach) => {}
        _ => case.note("near", "an index finds others"),
    }
    let found = case.list(near(case.alloc, pieces.as_slice(), tile, reach));
    case.expect("count", found.len());
    if case.has("near") {
        expect_labels(case, "near", found.as_slice());
    }
}

/// What is near each tile of a plan, by a look at each rectangle and by an index.
pub fn near_all(case: &mut Case<'_>) {
    let plan = plan_of(case);
    let reach = case.number("reach");
    case.share("rects_of");
    let rects = case.rects("rects");
    let pieces = numbered(case, rects.as_slice());
    let Ok(index) = NearIndex::new(case.alloc, pieces.as_slice()) else {
        return case.no_memory();
    };
    let mut agree = true;
    for number in 0..plan.count() {
        agree = agrees(case, &index, pieces.as_slice(), plan.tile(number), reach) && agree;
    }
    case.expect("agree", agree);
}
