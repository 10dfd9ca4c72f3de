//! Cells that are critical to shorts or to vias, as rectangles, compared with cells that are looked at one by one.

use crate::cells::{count_all, covers, expect_cells};
use crate::labelled::{nearest_by_looks, pieces};
use geo_core::{Cell, Labelled, Rect};
use row_tables::Case;
use short_area::short_rects;
use via_clusters::via_rects;

/// Whether pieces of two labels are at most the radius from the cell.
fn is_short(pieces: &[Labelled], cell: Cell, radius: u32) -> bool {
    match nearest_by_looks(pieces, cell).second {
        Some(near) => near.distance <= radius,
        None => false,
    }
}

/// Whether each of these places is less than so far from the other.
fn are_nearer(low: i32, high: i32, place: i32, far: u32) -> bool {
    low.abs_diff(place) < far && high.saturating_sub(1).abs_diff(place) < far
}

/// Whether the defect of this radius at the cell covers all of the rectangle of a piece.
fn is_block(pieces: &[Labelled], cell: Cell, radius: u32) -> bool {
    for piece in pieces {
        let rect = piece.rect;
        if are_nearer(rect.x0, rect.x1, cell.i, radius)
            && are_nearer(rect.y0, rect.y1, cell.j, radius)
        {
            return true;
        }
    }
    false
}

/// Whether the rectangles have each cell of the window once that is critical to vias, or else to shorts, and no other cell.
fn agree(rects: &[Rect], to_vias: bool, pieces: &[Labelled], window: Rect, radius: u32) -> bool {
    let mut count: u64 = 0;
    for j in window.y0..window.y1 {
        for i in window.x0..window.x1 {
            let cell = Cell { i, j };
            let wanted = if to_vias {
                is_block(pieces, cell, radius)
            } else {
                is_short(pieces, cell, radius)
            };
            if covers(rects, cell) != wanted {
                return false;
            }
            count = count.saturating_add(u64::from(wanted));
        }
    }
    count_all(rects) == count
}

/// The cells of the window that are critical to shorts of the pieces, and to vias whose boxes are their rectangles.
pub fn cells(case: &mut Case<'_>) {
    let window = case.rect("window");
    let radius = case.radius();
    let pieces = pieces(case);
    let pieces = pieces.as_slice();
    let mut boxes = Vec::new(case.alloc);
    for piece in pieces {
        case.push(&mut boxes, piece.rect);
    }
    let shorts = short_rects(case.alloc, pieces, window, radius);
    let shorts = case.list(shorts);
    case.expect(
        "shorts",
        agree(shorts.as_slice(), false, pieces, window, radius),
    );
    case.expect_if_wanted("count", count_all(shorts.as_slice()));
    let vias = via_rects(case.alloc, boxes.as_slice(), window, radius);
    let vias = case.list(vias);
    case.expect("vias", agree(vias.as_slice(), true, pieces, window, radius));
    if case.has("cells") {
        expect_cells(case, "cells", vias.as_slice());
    }
}
