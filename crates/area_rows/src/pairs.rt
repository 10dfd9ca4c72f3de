//! Pairs of 70,000 squares side by side, which are more than 16 bits count.

use geo_core::Rect;
use lists::NoMemory;
use std::alloc::{AllocError, Global};
use touch_sweep::{meetings, touch_links, touch_pairs};

const MANY: usize = 70_000;

/// The squares.
fn squares(alloc: Global) -> Result<Vec<Rect>, AllocError> {
    let mut squares = Vec::new(alloc);
    for number in 0..MANY {
        let column = 2 * number as i32;
        squares.push(Rect::new(column, 0, column + 2, 2))?;
    }
    Ok(squares)
}

/// Whether these are the pairs of each number and the one so much further, for all numbers below the count.
fn are_steps(pairs: &[(usize, usize)], further: usize, count: usize) -> bool {
    for (number, (a, b)) in pairs.iter().enumerate() {
        if *a != number || b.checked_sub(number) != Some(further) {
            return false;
        }
    }
    pairs.len() == count
}

/// Whether each pair is of two numbers in a row, and there is one for each number but the last.
fn are_links(pairs: &[(usize, usize)]) -> bool {
    for (a, b) in pairs {
        if b.checked_sub(*a) != Some(1) {
            return false;
        }
    }
    pairs.len() >= MANY - 1
}

/// Whether squares side by side touch the next one alone.
fn touch_the_next(alloc: Global, squares: &[Rect]) -> Result<bool, NoMemory> {
    let pairs = touch_pairs(alloc, squares)?;
    let links = touch_links(alloc, squares)?;
    Ok(are_steps(pairs.as_slice(), 1, MANY - 1) && are_links(links.as_slice()))
}

/// Whether they do, and have cells in common with themselves alone.
fn have_their_pairs(alloc: Global) -> Result<bool, NoMemory> {
    let squares = squares(alloc)?;
    let met = meetings(alloc, squares.as_slice(), squares.as_slice())?;
    Ok(are_steps(met.as_slice(), 0, MANY) && touch_the_next(alloc, squares.as_slice())?)
}

#[test]
fn long_lists_have_their_pairs(rt: HostRuntime) {
    assert!(rt; have_their_pairs(rt.alloc()) == Ok(true));
}
