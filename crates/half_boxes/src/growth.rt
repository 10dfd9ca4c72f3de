//! Pairs by which boxes that touch are joined, for lists that have more edges than ranks: trees grow from a box to all that
//! it touches.

ghost use Rattle.std.specs.Prelude.{ℕ, [], ◌≡◌, ◌≤◌, length, Contains, IfNone, IfOk, IfSome};
ghost use Rattle.classes.specs.Classes.{AreJoined};
ghost use Rattle.half_boxes.specs.HalfBoxes.{AreTouchingBoxes};
ghost use Rattle.half_boxes.specs.inside.Growths.{IsNext, Reaches};

use super::boxes::HalfBox;
use super::scan::{Numbered, with_numbers};
use lists::NoMemory;
use std::alloc::{AllocError, Global};

/// Some pairs of boxes that touch, by which all that touch are joined: no more of them than there are boxes.
///
/// Pairs come in no order. Numbers are counted from 0. The only error is that no memory is left. For n boxes it may take n
/// times n steps: `links_of` takes far fewer, and asks here only where boxes have more edges than ranks.
pub fn grown_links(alloc: Global, boxes: &[HalfBox]) -> Result<Vec<(usize, usize)>, NoMemory>
    ensures touching { IfOk result (λ pairs. (a b : ℕ) → Contains pairs.items (a, b) → AreTouchingBoxes boxes.now a b) }
    ensures joined { IfOk result (λ pairs. (a b : ℕ) → AreTouchingBoxes boxes.now a b →
        AreJoined (length boxes.now) pairs.items a b) }
    ensures few { IfOk result (λ pairs. length pairs.items ≤ length boxes.now) }
{
    let mut left = with_numbers(alloc, boxes)?;
    let mut front = Vec::new(alloc);
    let mut pairs = Vec::new(alloc);
    while let Some(one) = next(&mut front, &mut left) {
        left = reach(alloc, one, &left, &mut front, &mut pairs)?;
    }
    Ok(pairs)
}

/// The box from which a tree goes on: one of the front of the tree that grows, or else one that is left, from which another
/// tree grows.
fn next(front: &mut Vec<Numbered>, left: &mut Vec<Numbered>) -> Option<Numbered>
    ensures none { IfNone result ((front.old.items ≡ []) × (left.old.items ≡ [])) }
    ensures some { IfSome result (IsNext front.old.items left.old.items front.new.items left.new.items) }
{
    match front.pop() {
        Some(one) => Some(one),
        None => left.pop(),
    }
}

/// Puts those that this box touches behind the front, with a pair for each, and gives the others.
fn reach(
    alloc: Global,
    one: Numbered,
    left: &[Numbered],
    front: &mut Vec<Numbered>,
    pairs: &mut Vec<(usize, usize)>,
) -> Result<Vec<Numbered>, AllocError>
    ensures { IfOk result (λ kept. Reaches one left.now kept.items
        front.old.items front.new.items pairs.old.items pairs.new.items) }
{
    let mut kept = Vec::new(alloc);
    for other in left {
        if one.one.touches(other.one) {
            front.push(*other)?;
            pairs.push((one.number, other.number))?;
        } else {
            kept.push(*other)?;
        }
    }
    Ok(kept)
}
