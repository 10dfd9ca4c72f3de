//! Which rectangles of a list touch, and which of two lists meet.
//!
//! This is a streamed segment tree (Zomorodian and Edelsbrunner, "Fast software for box intersections"): the columns
//! are halved again and again, and rectangles that reach over all columns of a part are paired by a sweep up the rows
//! with those that begin in it. How many pairs join all that touch is promised, and no number of steps.
#![tactic(auto)]

mod across;
mod chain;
mod link;
mod numbered;
mod order;
mod search;
mod spanning_forest;
mod strip;
mod sweep;

ghost use Rattle.std.specs.Prelude.{ℕ, length, AllPairs, Contains, IfOk, ◌+◌, ◌*◌, ◌^◌, ◌≤◌, ◌↔◌};
ghost use Rattle.classes.specs.Classes.{AreJoined};
ghost use Rattle.touch_sweep.specs.Touching.{AreMeeting, AreTouching, ComesBefore};

use across::{joined, meeting_among, touching_across};
use geo_core::Rect;
use link::link;
use lists::NoMemory;
use numbered::by_row;
use order::in_order;
use search::search;
use std::alloc::Global;
use strip::{Strip, beginnings};

/// All pairs of rectangles that touch, by their numbers, which are counted from 0.
///
/// A pair has the lesser number first. Each pair comes once, and they rise by the first number and then by the second.
/// Rectangles touch where they have a common cell or two cells that share an edge; a common corner alone is not enough.
/// The only error is that no memory is left.
pub fn touch_pairs(alloc: Global, rects: &[Rect]) -> Result<Vec<(usize, usize)>, NoMemory>
    ensures exact { IfOk result (λ pairs. (a b : ℕ) → Contains pairs.items (a, b) ↔ AreTouching rects.now a b) }
    ensures rising { IfOk result (λ pairs. AllPairs ComesBefore pairs.items) }
{
    let entries = by_row(alloc, rects)?;
    let entries = entries.as_slice();
    let columns = beginnings(alloc, rects)?;
    let strip = Strip::around(entries, columns.as_slice());
    let mut pairs = Vec::new(alloc);
    search(alloc, entries, entries, strip, &mut pairs)?;
    Ok(in_order(pairs))
}

/// Some pairs of rectangles that touch, by which all that touch are joined: where two rectangles touch, a chain of the
/// pairs leads from the one to the other.
///
/// Where many rectangles lie on one another, or across one another, these are far fewer than all pairs. A pair has the
/// lesser number first. Pairs come in no order, and may come more than once. Numbers are counted from 0. The only error is
/// that no memory is left.
///
/// For n rectangles there are at most 51 n (levels + 1) pairs, where n is at most 2 to the power of the levels.
pub fn touch_links(alloc: Global, rects: &[Rect]) -> Result<Vec<(usize, usize)>, NoMemory>
    ensures touching { IfOk result (λ pairs. (a b : ℕ) → Contains pairs.items (a, b) → AreTouching rects.now a b) }
    ensures joined { IfOk result (λ pairs. (a b : ℕ) → AreTouching rects.now a b →
        AreJoined (length rects.now) pairs.items a b) }
    ensures few { IfOk result (λ pairs. (levels : ℕ) → length rects.now ≤ 2 ^ levels →
        length pairs.items ≤ 51 * length rects.now * (levels + 1)) }
{
    let entries = by_row(alloc, rects)?;
    let columns = beginnings(alloc, rects)?;
    let strip = Strip::around(entries.as_slice(), columns.as_slice());
    let mut pairs = Vec::new(alloc);
    link(alloc, rects.len(), entries, strip, &mut pairs)?;
    Ok(pairs)
}

/// All pairs of a rectangle of the first list and one of the second list that have a cell in common, by their numbers,
/// which are counted from 0 in each list.
///
/// Each pair comes once, and they rise by the first number and then by the second. Pairs within one list are not looked
/// at. The only error is that no memory is left.
pub fn meetings(
    alloc: Global,
    first: &[Rect],
    second: &[Rect],
) -> Result<Vec<(usize, usize)>, NoMemory>
    ensures exact { IfOk result (λ pairs. (a b : ℕ) →
        Contains pairs.items (a, b) ↔ AreMeeting first.now second.now a b) }
    ensures rising { IfOk result (λ pairs. AllPairs ComesBefore pairs.items) }
{
    if first.is_empty() || second.is_empty() {
        return Ok(Vec::new(alloc));
    }
    let rects = joined(alloc, first, second)?;
    let touching = touching_across(alloc, rects.as_slice(), first.len())?;
    let pairs = meeting_among(alloc, first, second, touching.as_slice())?;
    Ok(in_order(pairs))
}
