//! Layouts that are generated, the shapes that a library places, and rectangles that are written as a library.

use crate::layouts::{compare_bytes, compare_read, read, stream, wanted_bytes};
use crate::printing::printed;
use crate::texts::{expect_fault, text_of};
use flatten::{Placed, place, tops_of};
use gds_write::write_library;
use layout_gen::{MOST_COLUMNS, generate};
use map_model::one_metal;
use region_out::region_library;
use row_tables::{Case, Text};

/// `[[generated]]`: the layout of so many `columns`, as the records of `written` and as the library that they `hold`, and its `map`.
pub fn generated(case: &mut Case<'_>) {
    let columns: u32 = case.number("columns");
    if columns < 1 || columns > MOST_COLUMNS {
        return case.note("columns", "out of range");
    }
    let Ok((layout, map)) = generate(case.alloc, columns) else {
        return case.no_memory();
    };
    expect_bytes(case, layout.as_slice());
    case.expect_if_wanted("map", text_of(map.as_slice()));
    match read(case.alloc, layout.as_slice()) {
        Ok(library) => {
            let text = printed(case.alloc, &library, true);
            case.expect_text("holds", text.shown());
        }
        Err(fault) => case.expect("holds", fault),
    }
}

/// Compares the bytes with those that are `written`, if the row has them.
fn expect_bytes(case: &mut Case<'_>, came: &[u8]) {
    if case.has("written") {
        let wanted = wanted_bytes(case);
        compare_bytes(case, wanted.as_slice(), came);
    }
}

/// `[[placed]]`: how many shapes on layer 1 and datatype 0 the library's `top` places, or that of the whole library. `at` is where
/// each lies and by how many quarters it is turned, and `gives` their number, or the number and the place of the fault.
pub fn placed(case: &mut Case<'_>) {
    let top = if case.has("top") {
        Some(case.text("top").as_bytes())
    } else {
        None
    };
    let Ok(library) = read(case.alloc, stream(case).as_slice()) else {
        return case.note("stream", "not a library");
    };
    let Ok(map) = one_metal(case.alloc, 1, 0, 1) else {
        return case.no_memory();
    };
    match place(case.alloc, &library, &map, top) {
        Ok(placed) => expect_places(case, placed.as_slice()),
        Err(fault) => expect_fault(case, fault.number(), fault.place()),
    }
}

/// Compares the number of shapes, and how far each is moved and by how many quarters it is turned.
fn expect_places(case: &mut Case<'_>, placed: &[Placed]) {
    case.expect("gives", placed.len());
    if !case.has("at") {
        return;
    }
    let mut text = Text::new(case.alloc);
    for shape in placed {
        text.print(shape.dx);
        text.say(",");
        text.print(shape.dy);
        text.say(", quarters ");
        text.print(shape.turn.quarters);
        text.say("\n");
    }
    case.expect_text("at", text.shown());
}

/// `[[tops]]`: the numbers of the library's structures that no reference names.
pub fn tops(case: &mut Case<'_>) {
    let Ok(library) = read(case.alloc, stream(case).as_slice()) else {
        return case.note("stream", "not a library");
    };
    match tops_of(case.alloc, &library) {
        Ok(tops) => case.expect_list("gives", tops.as_slice()),
        Err(_) => case.no_memory(),
    }
}

/// `[[region_library]]`: the library of `rects` with these `units`, as text, and the records that it is `written` as, which are read
/// as the same library but for the offsets of its parts.
pub fn regions(case: &mut Case<'_>) {
    let mut units = [0; 16];
    if hex::decode_to_slice(case.text("units"), &mut units).is_err() {
        case.note("units", "not sixteen bytes");
    }
    let rects = case.rects("rects");
    let Ok(library) = region_library(case.alloc, rects.as_slice(), units) else {
        return case.no_memory();
    };
    let text = printed(case.alloc, &library, true);
    case.expect_text("holds", text.shown());
    let written = write_library(case.alloc, &library);
    let written = case.list(written);
    expect_bytes(case, written.as_slice());
    compare_read(case, &library, written.as_slice());
}
