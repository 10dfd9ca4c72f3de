//! The cells of rectangles, looked at one by one.

use geo_core::{Cell, Rect};
use row_tables::Case;
use union_area::count_of;

/// Whether the rectangle has the cell.
pub fn has(rect: Rect, cell: Cell) -> bool {
    rect.x0 <= cell.i && cell.i < rect.x1 && rect.y0 <= cell.j && cell.j < rect.y1
}

/// In how many of the rectangles the cell lies.
pub fn depth(rects: &[Rect], cell: Cell) -> usize {
    let mut depth: usize = 0;
    for rect in rects {
        if has(*rect, cell) {
            depth = depth.saturating_add(1);
        }
    }
    depth
}

/// Whether one of the rectangles has the cell.
pub fn covers(rects: &[Rect], cell: Cell) -> bool {
    for rect in rects {
        if has(*rect, cell) {
            return true;
        }
    }
    false
}

/// Whether the rectangles have all cells of this one.
fn cover_rect(rects: &[Rect], rect: Rect) -> bool {
    for j in rect.y0..rect.y1 {
        for i in rect.x0..rect.x1 {
            if !covers(rects, Cell { i, j }) {
                return false;
            }
        }
    }
    true
}

/// Whether the rectangles have all cells of the others.
fn cover_all(rects: &[Rect], others: &[Rect]) -> bool {
    for rect in others {
        if !cover_rect(rects, *rect) {
            return false;
        }
    }
    true
}

/// Whether both lists have the same cells.
pub fn have_same_cells(rects: &[Rect], others: &[Rect]) -> bool {
    cover_all(rects, others) && cover_all(others, rects)
}

/// Compares the cells of the rectangles that came with those of the rectangles at the key.
pub fn expect_cells<'a>(case: &mut Case<'a>, key: &'a str, came: &[Rect]) {
    let wanted = case.rects(key);
    if have_same_cells(came, wanted.as_slice()) {
        case.expect_rects(key, wanted.as_slice());
    } else {
        case.expect_rects(key, came);
    }
}

/// How many cells the rectangles have that have none in common.
pub fn count_all(rects: &[Rect]) -> u64 {
    let mut cells: u64 = 0;
    for rect in rects {
        cells = cells.saturating_add(count_of(*rect));
    }
    cells
}

/// How far the place is from the nearest of the places from `low` to before `high`.
fn gap(low: i32, high: i32, place: i32) -> u32 {
    if place < low {
        low.abs_diff(place)
    } else if place < high {
        0
    } else {
        place.abs_diff(high).saturating_add(1)
    }
}

/// How far the cell is from the nearest one of the rectangle.
pub fn distance(rect: Rect, cell: Cell) -> u32 {
    gap(rect.x0, rect.x1, cell.i).max(gap(rect.y0, rect.y1, cell.j))
}
