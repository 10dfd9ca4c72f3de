//! The layouts that rows give.

use super::records::records_of;
use row_tables::Case;
use samples::TWO_BARS;
use samples::layouts::{Plate, plates, spliced};

/// The rectangle of these numbers: a layer, a datatype, and left, bottom, right and top.
fn plate_of(numbers: &[i32]) -> Option<Plate> {
    let [layer, datatype, x0, y0, x1, y1] = numbers else {
        return None;
    };
    let layer = u16::try_from(*layer).ok()?;
    let datatype = u16::try_from(*datatype).ok()?;
    Some((layer, datatype, (*x0, *y0, *x1, *y1)))
}

/// The layout of the row's rectangles.
fn layout_of_shapes(case: &mut Case<'_>) -> Vec<u8> {
    let mut shapes = Vec::new(case.alloc);
    for numbers in case.flat("shapes", 6).as_slice().chunks(6) {
        match plate_of(numbers) {
            Some(plate) => case.push(&mut shapes, plate),
            None => case.note("shapes", "not rectangles of layers"),
        }
    }
    let layout = plates(case.alloc, shapes.as_slice());
    case.list(layout)
}

/// The bytes that the row puts into the file of two bars.
fn part_of(case: &mut Case<'_>) -> Vec<u8> {
    if !case.has("records") {
        return case.bytes("bytes");
    }
    match records_of(case.alloc, case.text("records")) {
        Some(bytes) => bytes,
        None => {
            case.note("records", "not records");
            Vec::new(case.alloc)
        }
    }
}

/// The file of two bars in which the row replaces bytes.
fn spliced_bars(case: &mut Case<'_>) -> Vec<u8> {
    let part = part_of(case);
    let (from, to) = match case.numbers("replaced").as_slice() {
        [from, to] => (*from, *to),
        _ => {
            case.note("replaced", "not two offsets");
            (0, 0)
        }
    };
    let layout = spliced(case.alloc, from, part.as_slice(), to);
    case.list(layout)
}

/// Whether the row says what its layout is.
pub fn has_layout(case: &Case<'_>) -> bool {
    case.has("layout") || case.has("shapes") || case.has("replaced")
}

/// The bytes of the row's layout: those of the two bars if the row does not say another.
pub fn layout_of(case: &mut Case<'_>) -> Vec<u8> {
    case.share("layout");
    if case.has("shapes") {
        layout_of_shapes(case)
    } else if case.has("replaced") {
        spliced_bars(case)
    } else {
        let layout = Vec::from_slice(case.alloc, TWO_BARS);
        case.list(layout)
    }
}
