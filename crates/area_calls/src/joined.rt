//! Rectangles that are joined if they share a whole edge.

use crate::cells::{count_all, have_same_cells};
use geo_core::Rect;
use joined_rects::{Gathered, joined};
use row_tables::Case;

/// Whether rectangles without common cells have the same cells as they had before they were joined, each in one rectangle, in fewer
/// rectangles.
fn are_fewer(rects: &[Rect], before: &[Rect]) -> bool {
    rects.len() < before.len()
        && count_all(rects) == count_all(before)
        && have_same_cells(rects, before)
}

/// The rectangles to which others without common cells are joined: from the left one by one, or how many they are, or whether they are
/// fewer with the same cells.
pub fn rects(case: &mut Case<'_>) {
    let rects = case.rects("rects");
    let joined = case.list(joined(case.alloc, rects));
    if case.has("joined") {
        case.expect_sorted_rects("joined", joined.as_slice());
    } else if case.has("count") {
        case.expect("count", joined.len());
    } else {
        let before = case.rects("rects");
        case.expect("fewer", are_fewer(joined.as_slice(), before.as_slice()));
    }
}

/// How long a list gets that is joined now and then while rectangles are added to it, and how many are left at last.
pub fn gathered(case: &mut Case<'_>) {
    let rects = case.rects("rects");
    let mut gathered = Gathered::new(case.alloc);
    let mut longest: usize = 0;
    for rect in rects.as_slice() {
        let grown = gathered.with(case.alloc, &[*rect]);
        gathered = case.done(grown, Gathered::new(case.alloc));
        longest = longest.max(gathered.len());
    }
    let left = case.list(gathered.finish(case.alloc));
    case.expect("longest", longest);
    case.expect("count", left.len());
}
