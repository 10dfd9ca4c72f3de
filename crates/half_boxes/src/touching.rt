ghost use Rattle.std.specs.Prelude.{ℕ, length, Contains, IfOk, ◌+◌, ◌*◌, ◌^◌, ◌≤◌};
ghost use Rattle.classes.specs.Classes.{AreJoined};
ghost use Rattle.half_boxes.specs.HalfBoxes.{AreTouchingBoxes};

use super::boxes::HalfBox;
use super::growth::grown_links;
use super::ranks::ranked;
use super::scan::touching_pairs;
use lists::NoMemory;
use std::alloc::Global;
use touch_sweep::touch_links;

/// Lists of up to so many boxes are compared box by box, which is faster there than ranks and a sweep.
const SHORT_LIST: usize = 400;

/// Some pairs of boxes that touch, by which all that touch are joined: where two boxes touch, a chain of the pairs leads
/// from the one to the other. Boxes touch where they have a half square in common, or two half squares that share an
/// edge; a common corner alone is not enough.
///
/// Pairs come in no order, and may come more than once. Numbers are counted from 0. The only error is that no memory is
/// left.
///
/// For n boxes there are at most 51 n (levels + 1) pairs, where n is at most 2 to the power of the levels. Where the boxes
/// have more than 1,001,000,000 different edges along an axis it may take n times n steps.
pub fn links_of(alloc: Global, boxes: &[HalfBox]) -> Result<Vec<(usize, usize)>, NoMemory>
    ensures touching { IfOk result (λ pairs. (a b : ℕ) → Contains pairs.items (a, b) → AreTouchingBoxes boxes.now a b) }
    ensures joined { IfOk result (λ pairs. (a b : ℕ) → AreTouchingBoxes boxes.now a b →
        AreJoined (length boxes.now) pairs.items a b) }
    ensures few { IfOk result (λ pairs. (levels : ℕ) → length boxes.now ≤ 2 ^ levels →
        length pairs.items ≤ 51 * length boxes.now * (levels + 1)) }
{
    if boxes.len() <= SHORT_LIST {
        return touching_pairs(alloc, boxes);
    }
    match ranked(alloc, boxes)? {
        Some(rects) => touch_links(alloc, rects.as_slice()),
        None => grown_links(alloc, boxes),
    }
}
