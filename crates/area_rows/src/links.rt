//! Boxes in a row, of which each touches the next, and by which pairs they are joined.

use half_boxes::{HalfBox, grown_links, links_of};
use lists::NoMemory;
use samples::sides::rect_of;
use std::alloc::Global;

/// Boxes of one cell, side by side.
fn boxes_in_a_row(alloc: Global, count: i32) -> Option<Vec<HalfBox>> {
    let mut boxes = Vec::new(alloc);
    for column in 0..count {
        let rect = rect_of(&(column, 0, column.saturating_add(1), 1))?;
        boxes.push(HalfBox::of_rect(rect)).ok()?;
    }
    Some(boxes)
}

/// Marks the lesser number of each pair of neighbours, and says whether all pairs are such.
fn mark_all(marks: &mut [bool], pairs: &[(usize, usize)]) -> bool {
    for (a, b) in pairs {
        let low = (*a).min(*b);
        if a.abs_diff(*b) != 1 || low >= marks.len() {
            return false;
        }
        marks[low] = true;
    }
    true
}

/// Whether the pairs were found, all of them are neighbours, and each box of a row is joined to the next.
fn are_links(alloc: Global, found: Result<Vec<(usize, usize)>, NoMemory>, count: i32) -> bool {
    let mut marks = Vec::new(alloc);
    for _ in 1..count {
        if marks.push(false).is_err() {
            return false;
        }
    }
    match found {
        Ok(pairs) => {
            mark_all(marks.as_mut_slice(), pairs.as_slice()) && !marks.as_slice().contains(&false)
        }
        Err(_) => false,
    }
}

/// Whether pairs join so many boxes in a row.
fn are_joined(alloc: Global, count: i32) -> bool {
    match boxes_in_a_row(alloc, count) {
        Some(boxes) => are_links(alloc, links_of(alloc, boxes.as_slice()), count),
        None => false,
    }
}

/// Whether pairs of trees that grow from box to box do, which only lists with more edges than ranks need.
fn are_grown(alloc: Global, count: i32) -> bool {
    match boxes_in_a_row(alloc, count) {
        Some(boxes) => are_links(alloc, grown_links(alloc, boxes.as_slice()), count),
        None => false,
    }
}

/// Five boxes are compared one with another, of 500 the edges are numbered first, and 70,000 are more than 16 bits count.
#[test]
fn boxes_in_a_row_are_joined(rt: HostRuntime) {
    for count in [5, 500, 70_000] {
        assert!(rt; are_joined(rt.alloc(), count), "{count} boxes");
    }
}

#[test]
fn trees_join_boxes_in_a_row(rt: HostRuntime) {
    for count in [5, 500] {
        assert!(rt; are_grown(rt.alloc(), count), "{count} boxes");
    }
}
