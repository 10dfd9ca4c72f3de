//! What the bodies of records hold.

use crate::texts::text_of;
use gds_records::{Record, forms, i16_at, i32_at, kinds, real_whole, text, u16_at};
use row_tables::Case;

/// `[[body]]`: the `bytes` of a body, and what it holds as numbers of two bytes, with a sign and without, as numbers of four bytes, as
/// a text, and as reals, if they are whole.
pub fn body(case: &mut Case<'_>) {
    let bytes = case.bytes("bytes");
    let record = Record {
        at: 0,
        kind: kinds::HEADER,
        form: forms::NO_DATA,
        body: bytes.as_slice(),
    };
    case.expect_if_wanted("text", text_of(text(&record)));
    if case.has("two_bytes") {
        expect_two_bytes(case, &record);
    }
    if case.has("four_bytes") {
        expect_four_bytes(case, &record);
    }
    if case.has("reals") {
        expect_reals(case, &record);
    }
}

/// Compares numbers of two bytes, with a sign and without.
fn expect_two_bytes(case: &mut Case<'_>, record: &Record<'_>) {
    let mut numbers = Vec::new(case.alloc);
    for k in 0..record.body.len() / 2 {
        case.push(&mut numbers, (i16_at(record, k), u16_at(record, k)));
    }
    case.expect_list("two_bytes", numbers.as_slice());
}

/// Compares numbers of four bytes.
fn expect_four_bytes(case: &mut Case<'_>, record: &Record<'_>) {
    let mut numbers = Vec::new(case.alloc);
    for k in 0..record.body.len() / 4 {
        case.push(&mut numbers, i32_at(record, k));
    }
    case.expect_list("four_bytes", numbers.as_slice());
}

/// Compares reals, if they are whole.
fn expect_reals(case: &mut Case<'_>, record: &Record<'_>) {
    let mut numbers = Vec::new(case.alloc);
    for k in 0..record.body.len() / 8 {
        case.push(&mut numbers, real_whole(record, k));
    }
    case.expect_list("reals", numbers.as_slice());
}
