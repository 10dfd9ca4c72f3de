ghost use Rattle.std.specs.Prelude.{All};
ghost use Rattle.first_refusal.specs.Answers.{Answers};
ghost use Rattle.geo_core.specs.Bounds.{IsInRange};
ghost use Rattle.geo_core.specs.Circuits.{IsOutline};
ghost use Rattle.library_model.specs.declared.element.ShapeKind.TheVariants.{Boundary};
ghost use Rattle.rect_cover.specs.Coverings.{CoverComesTo, with_items};
ghost use Rattle.rect_cover.specs.declared.fault.CoverFault.TheVariants.{Memory};

use super::fault::CoverFault;
use geo_core::{Point, Rect};
use outlines::{are_along_axes, cover_outline};
use std::alloc::Global;

/// Rectangles of the cells inside the outline through these points, of a shape that begins at this offset.
#[tactic(auto, using(first_refusal::proofs::AnswerLaws::out_of_memory))]
pub fn cover_closed(alloc: Global, points: &[Point], at: u32) -> Result<Vec<Rect>, CoverFault>
    requires outline { IsOutline points.now }
    requires in_range { All IsInRange points.now }
    ensures { Answers Memory (λ outcome. CoverComesTo Boundary points.now at (with_items outcome)) result }
{
    if !are_along_axes(points) {
        return Err(CoverFault::NotRectilinear { at });
    }
    Ok(cover_outline(alloc, points)?)
}
