//! What is made of the nets of two metals and a cut: via clusters, groups of contacts, and how many pieces.

ghost use Rattle.std.specs.Prelude.{◌≡◌, length};

use crate::cells::expect_cells;
use crate::names::numbers_at;
use geo_core::Rect;
use net_extract::{ContactGroup, ContactPiece, Nets, Piece};
use row_tables::Case;
use via_clusters::clusters;

/// The rectangles of the via clusters of a cut, from the left, or how many there are.
pub fn boxes(case: &mut Case<'_>, nets: &Nets)
    requires { length nets.now.contacts ≡ 1 }
{
    let boxes = case.list(clusters(case.alloc, nets, 0));
    if case.has("count") {
        case.expect("count", boxes.len());
    } else {
        case.expect_sorted_rects("boxes", boxes.as_slice());
    }
}

/// The rectangles of the group that carries the islands with these numbers, if there is one.
fn rects_of(groups: &[ContactGroup], lower: usize, upper: usize) -> &[Rect] {
    for group in groups {
        if group.lower == lower && group.upper == upper {
            return group.rects.as_slice();
        }
    }
    &[]
}

/// The group of contacts between the islands of two cells, and how many groups there are. Which numbers their islands have, in which
/// order they come and into how many rectangles their contacts fall is not promised.
pub fn groups(case: &mut Case<'_>, groups: &[ContactGroup], lower: &[Piece], upper: &[Piece]) {
    let lower = numbers_at(lower, case.cell("from"));
    let upper = numbers_at(upper, case.cell("to"));
    case.expect("count", groups.len());
    match (lower, upper) {
        (Some(lower), Some(upper)) => {
            expect_cells(case, "group", rects_of(groups, lower.0, upper.0));
        }
        _ => case.note("from", "the cells are not on the metals"),
    }
}

/// How many of the pieces are of another net than the first of these others.
fn count_others(pieces: &[Piece], others: &[Piece]) -> usize {
    let mut count: usize = 0;
    for piece in pieces {
        match others.first() {
            Some(other) if other.net == piece.net => {}
            _ => count = count.saturating_add(1),
        }
    }
    count
}

/// Compares the counts with the bounds at the key, if the row has the key: a count that is past its bound comes in place of it. No
/// count is greater than its bound if the bounds are the most, or else less.
fn expect_bounds<'a>(case: &mut Case<'a>, key: &'a str, counts: &[usize], are_most: bool) {
    if !case.has(key) {
        return;
    }
    let mut bounds = case.numbers(key);
    for (bound, count) in bounds.as_mut_slice().iter_mut().zip(counts) {
        if (*count > *bound) == are_most {
            *bound = *count;
        }
    }
    case.expect_list(key, bounds.as_slice());
}

/// How many pieces, contact pieces and contacts of the first group there are, how many groups, and how many pieces of the lower metal
/// are of another net than the first of the upper one.
pub fn pieces(
    case: &mut Case<'_>,
    groups: &[ContactGroup],
    contacts: &[ContactPiece],
    lower: &[Piece],
    upper: &[Piece],
) {
    let first = match groups.first() {
        Some(group) => group.rects.as_slice().len(),
        None => 0,
    };
    let counts = [lower.len(), upper.len(), contacts.len(), first];
    case.expect_if_wanted("groups", groups.len());
    case.expect_if_wanted("others", count_others(lower, upper));
    expect_bounds(case, "most", &counts, true);
    expect_bounds(case, "least", &counts, false);
}
