ghost use Rattle.std.specs.Prelude.{ℕ, Contains, IfOk, ◌++◌, ◌+◌, ◌≡◌, ◌↔◌, filter, length, nat_lt, not};
ghost use Rattle.touch_sweep.specs.Touching.{AreMeeting, AreTouchingAcross};

use super::numbered::{Numbered, by_row};
use super::search::search;
use super::strip::{Strip, beginnings};
use geo_core::{Rect, overlaps};
use std::alloc::{AllocError, Global};

/// The rectangles of both lists in one, those of the first list before the others.
pub fn joined(alloc: Global, first: &[Rect], second: &[Rect]) -> Result<Vec<Rect>, AllocError>
    ensures { IfOk result (λ rects. rects.items ≡ first.now ++ second.now) }
{
    let mut rects = Vec::from_slice(alloc, first)?;
    rects.extend_from_slice(second)?;
    Ok(rects)
}

/// The pairs of rectangles that touch, one of which is among the first so many and the other one behind these, by their
/// numbers. Pairs come in no order, and may come twice.
pub fn touching_across(
    alloc: Global,
    rects: &[Rect],
    count: usize,
) -> Result<Vec<(usize, usize)>, AllocError>
    ensures { IfOk result (λ pairs. (a b : ℕ) →
        Contains pairs.items (a, b) ↔ AreTouchingAcross rects.now count a b) }
{
    let entries = by_row(alloc, rects)?;
    let entries = entries.as_slice();
    let columns = beginnings(alloc, rects)?;
    let strip = Strip::around(entries, columns.as_slice());
    let Parts { before, behind } = parted(alloc, entries, count)?;
    let (before, behind) = (before.as_slice(), behind.as_slice());
    let mut pairs = Vec::new(alloc);
    search(alloc, before, behind, strip, &mut pairs)?;
    search(alloc, behind, before, strip, &mut pairs)?;
    Ok(pairs)
}

/// Entries with the first so many numbers, and those with the others.
#[derive(Drop)]
struct Parts {
    before: Vec<Numbered>,
    behind: Vec<Numbered>,
}

/// The entries with the first so many numbers and the others, both in their order.
fn parted(alloc: Global, entries: &[Numbered], count: usize) -> Result<Parts, AllocError>
    ensures before { IfOk result (λ parts.
        parts.before.items ≡ filter (λ e. nat_lt e.number count) entries.now) }
    ensures behind { IfOk result (λ parts.
        parts.behind.items ≡ filter (λ e. not (nat_lt e.number count)) entries.now) }
{
    let mut before = Vec::new(alloc);
    let mut behind = Vec::new(alloc);
    for entry in entries {
        if entry.number < count {
            before.push(*entry)?;
        } else {
            behind.push(*entry)?;
        }
    }
    Ok(Parts { before, behind })
}

/// Those of the pairs whose rectangles have a cell in common, each with the second number as one of the second list. In
/// the pairs given the numbers of the second list go on behind those of the first list.
pub fn meeting_among(
    alloc: Global,
    first: &[Rect],
    second: &[Rect],
    pairs: &[(usize, usize)],
) -> Result<Vec<(usize, usize)>, AllocError>
    requires { (a b : ℕ) → Contains pairs.now (a, b) →
        AreTouchingAcross (first.now ++ second.now) (length first.now) a b }
    ensures { IfOk result (λ met. (a b : ℕ) → Contains met.items (a, b) ↔
        (Contains pairs.now (a, length first.now + b) × AreMeeting first.now second.now a b)) }
{
    let mut met = Vec::new(alloc);
    for (a, b) in pairs {
        let place = *b - first.len();
        if overlaps(first[*a], second[place]) {
            met.push((*a, place))?;
        }
    }
    Ok(met)
}
