//! Names, classes, and rectangles that grow and have columns and rows.

use classes::classes;
use geo_core::{Axis, Rect, grow, join};
use lists::{Name, NoMemory};
use std::alloc::{AllocError, Global};

/// Whether a name made of these bytes has them, and gives them back.
fn keeps(alloc: Global, text: &[u8]) -> Result<bool, NoMemory> {
    let name = Name::from_vec(text.to_vec(alloc)?);
    let has = name.as_slice() == text;
    Ok(has && name.into_vec().as_slice() == text)
}

#[test]
fn names_keep_their_bytes(rt: HostRuntime) {
    assert!(rt; keeps(rt.alloc(), b"TOP") == Ok(true));
}

/// Whether the classes are these.
fn are(found: Result<Vec<usize>, AllocError>, wanted: &[usize]) -> bool {
    match found {
        Ok(classes) => classes.as_slice() == wanted,
        Err(_) => false,
    }
}

#[test]
fn classes_are_the_least_joined(rt: HostRuntime) {
    let alloc = rt.alloc();
    assert!(rt; are(classes(alloc, 5, &[(3, 1), (1, 4)]), &[0, 1, 2, 1, 1]));
    assert!(rt; are(classes(alloc, 0, &[]), &[]));
    let pairs = [(5, 4), (2, 2), (4, 3), (3, 5), (4, 5), (0, 1)];
    assert!(rt; are(classes(alloc, 6, &pairs), &[0, 0, 2, 3, 3, 3]));
}

/// Whether a square grows and is joined as it should.
fn grows_and_joins() -> bool {
    let square = Rect::new(0, 0, 10, 10);
    grow(square, 0) == square
        && grow(square, 3) == Rect::new(-3, -3, 13, 13)
        && join(square, Rect::new(12, -1, 13, 5)) == Rect::new(0, -1, 13, 10)
}

#[test]
fn rectangles_grow_and_join(rt: HostRuntime) {
    assert!(rt; grows_and_joins());
}

/// Whether a rectangle has the columns and rows that it should, and comes back from them.
fn has_columns_and_rows() -> bool {
    let rect = Rect::new(-5, 4, 15, 6);
    let columns = rect.along(Axis::X);
    let rows = rect.along(Axis::Y);
    (columns.low, columns.high) == (-5, 15)
        && (rows.low, rows.high) == (4, 6)
        && Rect::of(columns, rows) == rect
}

#[test]
fn rectangles_have_columns_and_rows(rt: HostRuntime) {
    assert!(rt; has_columns_and_rows());
}
