ghost use Rattle.std.specs.Prelude.{All, IfOk};
ghost use Rattle.geo_core.specs.Bounds.{IsInRange};
ghost use Rattle.geo_core.specs.Circuits.{IsOutline};
ghost use Rattle.outlines.specs.Fillings.{IsCover};
ghost use Rattle.outlines.specs.Outlines.{IsInside};

use super::sweep::fill_turns;
use super::turns::turns_of;
use geo_core::{Point, Rect};
use std::alloc::{AllocError, Global};

/// Rectangles that have together the cells inside the outline through these points, of which no neighbours differ in both
/// coordinates. They may overlap, and stand in no order.
pub fn cover_outline(alloc: Global, points: &[Point]) -> Result<Vec<Rect>, AllocError>
    requires outline { IsOutline points.now }
    requires in_range { All IsInRange points.now }
    ensures { IfOk result (λ rects. IsCover (IsInside points.now) rects.items) }
{
    let turns = turns_of(alloc, points)?;
    fill_turns(alloc, turns)
}
