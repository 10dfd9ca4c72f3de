//! Rectangles that touch: pairs of them, their islands, and pairs of two lists that have a cell in common.

use geo_core::{Rect, overlaps, touches};
use islands::label;
use row_tables::Case;
use touch_sweep::{meetings, touch_links, touch_pairs};

/// Compares the pairs with all that are found by a look at each: those of two lists that have a cell in common, or else those of one
/// list that touch, of which the lesser number comes first.
fn expect_all(
    case: &mut Case<'_>,
    pairs: &[(usize, usize)],
    rects: &[Rect],
    others: &[Rect],
    are_two: bool,
) {
    let mut all = Vec::new(case.alloc);
    for (first, one) in rects.iter().enumerate() {
        for (second, other) in others.iter().enumerate() {
            let is_pair = if are_two {
                overlaps(*one, *other)
            } else {
                first < second && touches(*one, *other)
            };
            if is_pair {
                case.push(&mut all, (first, second));
            }
        }
    }
    case.expect("agree", all.as_slice() == pairs);
}

/// Compares the pairs one by one.
fn expect_each(case: &mut Case<'_>, pairs: &[(usize, usize)]) {
    let mut lists = Vec::new(case.alloc);
    for (one, other) in pairs {
        case.push(&mut lists, [*one, *other]);
    }
    case.expect_list("pairs", lists.as_slice());
}

/// Compares whether the pairs that link all that are joined touch, and are no more than the row has, if it has a number.
fn expect_links(case: &mut Case<'_>, rects: &[Rect], links: &[(usize, usize)]) {
    for (one, other) in links {
        match (rects.get(*one), rects.get(*other)) {
            (Some(one), Some(other)) if touches(*one, *other) => {}
            _ => case.note("links", "one that does not touch is linked"),
        }
    }
    if case.has("most_links") && links.len() > case.number("most_links") {
        case.note("most_links", "there are more");
    }
}

/// The pairs of rectangles that touch, one by one or by a look at each, and their number if it is wanted. Some of these pairs link all
/// that are joined, and no others do.
pub fn pairs(case: &mut Case<'_>) {
    let rects = case.rects("rects");
    let rects = rects.as_slice();
    let pairs = case.list(touch_pairs(case.alloc, rects));
    if case.has("pairs") {
        expect_each(case, pairs.as_slice());
    } else {
        expect_all(case, pairs.as_slice(), rects, rects, false);
    }
    case.expect_if_wanted("count", pairs.len());
    let links = case.list(touch_links(case.alloc, rects));
    expect_links(case, rects, links.as_slice());
}

/// The pairs of rectangles of two lists that have a cell in common, whichever of the two lists comes first.
pub fn meeting(case: &mut Case<'_>) {
    case.share("rects_of");
    let rects = case.rects("rects");
    case.share("others_of");
    let others = case.rects("rects");
    let (rects, others) = (rects.as_slice(), others.as_slice());
    for (rects, others) in [(rects, others), (others, rects)] {
        let pairs = case.list(meetings(case.alloc, rects, others));
        expect_all(case, pairs.as_slice(), rects, others, true);
    }
}

/// What is said of labels that are too many for a list.
fn summary(labels: &[usize]) -> &'static str {
    let mut are_one = true;
    let mut are_apart = true;
    for (number, label) in labels.iter().enumerate() {
        are_one = are_one && *label == 0;
        are_apart = are_apart && *label == number;
    }
    if are_one {
        "one island"
    } else if are_apart {
        "an island each"
    } else {
        "others"
    }
}

/// The island of each rectangle, or what is said of all and how many there are.
pub fn labels(case: &mut Case<'_>) {
    let rects = case.rects("rects");
    let labels = case.list(label(case.alloc, rects.as_slice()));
    if case.has("count") {
        case.expect("count", labels.len());
        case.expect_text("labels", summary(labels.as_slice()));
    } else {
        case.expect_list("labels", labels.as_slice());
    }
}
