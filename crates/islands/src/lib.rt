//! Islands: which rectangles of a list are connected.
//!
//! `touch_sweep::touch_links` gives few pairs that touch, by which all that touch are joined, and `classes` walks over
//! them. So rectangles that lie on one another or across one another cost no more than others.
#![tactic(auto)]

ghost use Rattle.std.specs.Prelude.{IfOk};
ghost use Rattle.fault_model.specs.RectChains.{IsLabelling};
ghost use Rattle.islands.specs.Islands.{LabelsAreIslands};

use classes::classes;
use geo_core::Rect;
use lists::NoMemory;
use std::alloc::Global;
use touch_sweep::touch_links;

/// Labels each rectangle with its island, which goes by the least number of its rectangles.
///
/// Two rectangles are of one island exactly where a chain of them leads from the one to the other, each touching the
/// next, and so exactly where a walk of half squares does within what all of them cover. Rectangles touch where they
/// have a common cell or two cells that share an edge; a common corner alone does not join them. The only error is that
/// no memory is left.
pub fn label(alloc: Global, rects: &[Rect]) -> Result<Vec<usize>, NoMemory>
    ensures least { IfOk result (λ labels. IsLabelling rects.now labels.items) }
    ensures islands { IfOk result (λ labels. LabelsAreIslands rects.now labels.items) }
{
    let pairs = touch_links(alloc, rects)?;
    Ok(classes(alloc, rects.len(), &pairs)?)
}
