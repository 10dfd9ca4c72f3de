//! Region files: their bytes, by the GDSII Stream Format Manual, Release 6.0, and the cells of their rectangles.

use geo_core::Rect;
use row_files::records_of;
use row_tables::{Case, Text, rect_of, sides_of};
use samples::layouts::push_plate;

/// The rectangle of an element, whose first point is its lower left corner and whose third point is the upper right one. An element has
/// 16 numbers of four bytes: BOUNDARY, LAYER and DATATYPE have four of them, the head of XY one and its points ten, and ENDEL one.
fn rect_of_element(element: &[u8]) -> Option<Rect> {
    let (numbers, _) = element.as_chunks::<4>();
    let [_, _, _, _, _, left, bottom, _, _, right, top, ..] = numbers else {
        return None;
    };
    rect_of(&[
        i32::from_be_bytes(*left),
        i32::from_be_bytes(*bottom),
        i32::from_be_bytes(*right),
        i32::from_be_bytes(*top),
    ])
}

/// The rectangles of a region file, whose elements begin at 98. What stands behind the last of them is shorter than one.
fn rects_in(case: &mut Case<'_>, file: &[u8]) -> Vec<Rect> {
    let mut rects = Vec::new(case.alloc);
    for element in file.get(98..).unwrap_or_default().chunks(64) {
        if let Some(rect) = rect_of_element(element) {
            case.push(&mut rects, rect);
        }
    }
    rects
}

/// The bytes of the region file of these rectangles: boundaries on layer 1 with the datatype 0, each counterclockwise from its lower left
/// corner. The usual units are two numbers that are 1.
fn file_of(case: &mut Case<'_>, rects: &[Rect]) -> Vec<u8> {
    let units = if case.has("units") {
        case.text("units")
    } else {
        "41 10 00 00 00 00 00 00 41 10 00 00 00 00 00 00"
    };
    let mut head = Text::new(case.alloc);
    head.say("HEADER 600; BGNLIB 0 0 0 0 0 0 0 0 0 0 0 0; LIBNAME CRIT; UNITS hex ");
    head.say(units);
    head.say("; BGNSTR 0 0 0 0 0 0 0 0 0 0 0 0; STRNAME CRIT");
    let mut file = records_of(case.alloc, head.shown()).unwrap_or(Vec::new(case.alloc));
    for rect in rects {
        let [x0, y0, x1, y1] = sides_of(*rect);
        let pushed = push_plate(&mut file, &(1, 0, (x0, y0, x1, y1)));
        case.kept(pushed);
    }
    let ended = file.extend_from_slice(b"\x00\x04\x07\x00\x00\x04\x04\x00");
    case.kept(ended);
    file
}

/// How many numbers are between the two.
fn length(low: i32, high: i32) -> i64 {
    i64::from(high).saturating_sub(i64::from(low)).max(0)
}

/// How many cells the two rectangles have in common.
fn common(one: &Rect, other: &Rect) -> i64 {
    let columns = length(one.x0.max(other.x0), one.x1.min(other.x1));
    let rows = length(one.y0.max(other.y0), one.y1.min(other.y1));
    columns.saturating_mul(rows)
}

/// The sum over all cells of in how many of the first and in how many of the others each is, multiplied.
fn common_cells(rects: &[Rect], others: &[Rect]) -> i64 {
    let mut count = 0i64;
    for one in rects {
        for other in others {
            count = count.saturating_add(common(one, other));
        }
    }
    count
}

/// How many cells the rectangles have, each rectangle counted by itself.
fn count_of(rects: &[Rect]) -> i64 {
    let mut count = 0i64;
    for rect in rects {
        count = count.saturating_add(common(rect, rect));
    }
    count
}

/// Whether no two of the rectangles have a common cell and they have the cells of the others, of which no two have one either: then
/// each have as many cells as both have in common.
fn have_cells(rects: &[Rect], wanted: &[Rect]) -> bool {
    let both = common_cells(rects, wanted);
    both == count_of(rects)
        && both == count_of(wanted)
        && both == common_cells(rects, rects)
        && both == common_cells(wanted, wanted)
}

/// Compares how many cells the rectangles of a region file have with the number in the row.
fn expect_count(case: &mut Case<'_>, rects: &[Rect]) {
    let count = count_of(rects);
    if common_cells(rects, rects) != count {
        case.note("cells", "two rectangles have a common cell");
    }
    case.expect("cells", count);
}

/// Compares the cells of these rectangles of a region file with those of the row's rectangles.
fn expect_region(case: &mut Case<'_>, rects: &[Rect]) {
    let wanted = case.rects("region");
    if !have_cells(rects, wanted.as_slice()) {
        case.note("region", "other cells, or a cell is in two rectangles");
        case.expect_rects("region", rects);
    }
}

/// Compares the bytes of a region file that came with its cells in the row.
pub fn expect_cells(case: &mut Case<'_>, file: &[u8]) {
    let rects = rects_in(case, file);
    if file_of(case, rects.as_slice()).as_slice() != file {
        case.note("out", "not a region file");
    }
    if case.has("cells") {
        expect_count(case, rects.as_slice());
    } else {
        expect_region(case, rects.as_slice());
    }
}
