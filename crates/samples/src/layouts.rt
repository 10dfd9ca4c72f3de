//! Layouts of one structure, made element by element.

use crate::sides::Sides;
use crate::two_bars::TWO_BARS;
use std::alloc::{AllocError, Global};

/// A layer, a datatype, and a rectangle on them.
pub type Plate = (u16, u16, Sides);

/// The two bars' file up to the offset `end`, then these bytes, and then the same file from the offset `start` on.
pub fn spliced(
    alloc: Global,
    end: usize,
    middle: &[u8],
    start: usize,
) -> Result<Vec<u8>, AllocError> {
    let front = TWO_BARS.get(..end).unwrap_or_default();
    let back = TWO_BARS.get(start..).unwrap_or_default();
    [front, middle, back].concat(alloc)
}

/// Appends a rectangle: BOUNDARY, LAYER, DATATYPE, XY with its points counterclockwise from the lower left corner, and ENDEL.
pub fn push_plate(elements: &mut Vec<u8>, plate: &Plate) -> Result<(), AllocError> {
    let (layer, datatype, (x0, y0, x1, y1)) = *plate;
    let (layer, datatype) = (layer.to_be_bytes(), datatype.to_be_bytes());
    let (left, bottom) = (x0.to_be_bytes(), y0.to_be_bytes());
    let (right, top) = (x1.to_be_bytes(), y1.to_be_bytes());
    for part in [
        b"\x00\x04\x08\x00\x00\x06\x0D\x02".as_slice(),
        layer.as_slice(),
        b"\x00\x06\x0E\x02".as_slice(),
        datatype.as_slice(),
        b"\x00\x2C\x10\x03".as_slice(),
        [
            left, bottom, right, bottom, right, top, left, top, left, bottom,
        ]
        .as_flattened(),
        b"\x00\x04\x11\x00".as_slice(),
    ] {
        elements.extend_from_slice(part)?;
    }
    Ok(())
}

/// The file of these rectangles.
pub fn plates(alloc: Global, shapes: &[Plate]) -> Result<Vec<u8>, AllocError> {
    let mut elements = Vec::new(alloc);
    for shape in shapes {
        push_plate(&mut elements, shape)?;
    }
    spliced(alloc, 94, elements.as_slice(), 222)
}
