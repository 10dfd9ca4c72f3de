ghost use Rattle.std.specs.Prelude.{Contains, IfOk, IsTrue};
ghost use Rattle.geo_core.specs.Cells.{Has};
ghost use Rattle.geo_core.specs.Unions.{IsInUnion};
ghost use Rattle.geo_core.specs.declared.plane.Cell.{Cell};
ghost use Rattle.geo_core.specs.declared.plane.Rect.{Rect};
ghost use Rattle.union_area.specs.PartRects.{AreClipped};
ghost use Rattle.union_area.specs.WindowParts.{HasAllOf};

use super::parts::fills;
use geo_core::{Rect, clip};
use lists::NoMemory;
use std::alloc::Global;

/// What each of the rectangles has in common with the window, if anything, in their order. The one error is that no
/// memory is left.
pub fn clipped(alloc: Global, rects: &[Rect], window: Rect) -> Result<Vec<Rect>, NoMemory>
    ensures { IfOk result (λ inside. AreClipped rects.now window inside.items) }
{
    let mut inside = Vec::new(alloc);
    for rect in rects {
        match clip(*rect, window) {
            None => {}
            Some(part) => inside.push(part)?,
        }
    }
    Ok(inside)
}

/// Whether one of the rectangles has all of the window.
pub fn is_filled(rects: &[Rect], window: Rect) -> bool
    ensures filled { IsTrue result → (c : Cell) → Has window c → IsInUnion rects.now c }

    // Without this one no window might ever count as filled, and each be parted down to its cells.
    ensures by_one { (rect : Rect) → Contains rects.now rect → HasAllOf window rect → IsTrue result }
{
    for rect in rects {
        if fills(*rect, window) {
            return true;
        }
    }
    false
}
