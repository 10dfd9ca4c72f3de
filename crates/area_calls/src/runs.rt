//! Runs: rectangles without common cells that have the cells of a list, or the cells of two of its rectangles.

use crate::cells::{count_all, depth};
use geo_core::{Cell, Rect};
use row_tables::{Case, Text};
use skyline_runs::{merge_rects, runs_within, twice_runs, twice_runs_within, union_runs};

/// How a cell is drawn that lies in so many runs of all rectangles, and in so many of what lies in two.
fn mark(once: usize, twice: usize) -> char {
    match (once, twice) {
        (0, 0) => '.',
        (1, 0) => '+',
        (1, 1) => '#',
        _ => '!',
    }
}

/// Compares the picture of the window of a row with runs of all rectangles, and runs of what lies in two, the highest row first.
fn expect_picture(case: &mut Case<'_>, once: &[Rect], twice: &[Rect]) {
    let window = case.rect("window");
    let mut picture = Text::new(case.alloc);
    for j in (window.y0..window.y1).rev() {
        for i in window.x0..window.x1 {
            let cell = Cell { i, j };
            picture.print(mark(depth(once, cell), depth(twice, cell)));
        }
        picture.say("\n");
    }
    case.expect_text("picture", picture.shown());
}

/// Runs of the rectangles, and runs of what lies in two of them, which are found with all looks that there can be, and by themselves.
pub fn runs(case: &mut Case<'_>) {
    let rects = case.rects("rects");
    let once = case.list(union_runs(case.alloc, rects.as_slice()));
    case.expect("once", count_all(once.as_slice()));
    let mut looks = usize::MAX;
    let Ok(Some(found)) = twice_runs_within(case.alloc, rects.as_slice(), &mut looks) else {
        return case.note("twice", "all looks are too few");
    };
    let twice = case.list(twice_runs(case.alloc, rects.as_slice()));
    for twice in [found.as_slice(), twice.as_slice()] {
        case.expect("twice", count_all(twice));
        expect_picture(case, once.as_slice(), twice);
    }
}

/// The runs of the rectangles, one by one.
pub fn union(case: &mut Case<'_>) {
    let rects = case.rects("rects");
    let runs = case.list(union_runs(case.alloc, rects.as_slice()));
    case.expect_rects("runs", runs.as_slice());
}

/// How many cells rectangles have that are no more than those of the list, and have the same cells.
pub fn merged(case: &mut Case<'_>) {
    let rects = case.rects("rects");
    let merged = case.list(merge_rects(case.alloc, rects.as_slice()));
    case.expect("cells", count_all(merged.as_slice()));
}

/// Runs of the rectangles, or of what lies in two, that are looked for with so many looks at rectangles and no more: how many cells
/// those have that are found, and their picture, or else how many looks are left.
pub fn within(case: &mut Case<'_>) {
    let mut looks = case.number("looks");
    let rects = case.rects("rects");
    let found = if case.kind == "runs_within" {
        runs_within(case.alloc, rects.as_slice(), &mut looks)
    } else {
        twice_runs_within(case.alloc, rects.as_slice(), &mut looks)
    };
    let found = case.done(found, None);
    case.expect("found", found.is_some());
    match found {
        Some(runs) => {
            case.expect_if_wanted("cells", count_all(runs.as_slice()));
            expect_picture(case, runs.as_slice(), &[]);
        }
        None => case.expect("left", looks),
    }
}
