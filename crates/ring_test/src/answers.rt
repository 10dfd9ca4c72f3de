ghost use Rattle.std.specs.Prelude.{All, IfOk, ◌≤◌, ◌↔◌, IsTrue, Contains, length};
ghost use Rattle.geo_core.specs.Cells.{IsInLayout};
ghost use Rattle.geo_core.specs.Unions.{IsInUnion};
ghost use Rattle.geo_core.specs.declared.plane.Half.{Half};
ghost use Rattle.fault_model.specs.Halves.{IsOn};
ghost use Rattle.fault_model.specs.IslandLists.{IsIslandOpen};
ghost use Rattle.fault_model.specs.declared.island.Spot.{Spot as AnySpot};
ghost use Rattle.geo_core.specs.declared.bounds.TheConstants.{GREATEST_SIDE};
ghost use Rattle.ring_test.specs.Rings.{IsInHole, hole_at, hole_of};
ghost use Rattle.ring_test.specs.RingAnswers.{IsRingAnswer, Settles};

use super::holes::{defect_hole, overlap};
use super::rounds::has_one_arc;
use fault_model::{Island, Spot};
use geo_core::{Cell, Rect};
use half_boxes::HalfBox;
use lists::NoMemory;
use severing::defects_sever_islands;
use std::alloc::Global;

/// What the half squares round a defect tell of an island.
#[derive(Clone, Copy, PartialEq, Eq)]
pub enum RingAnswer {
    /// The defect has no half square of the island.
    Untouched,
    /// The defect has a half square of the island, which has none of the half squares round the defect, all of them, or one run
    /// of consecutive ones.
    OneArc {
        /// Whether the defect has all of the spot of an anchor.
        lost: bool,
    },
    /// The defect has a half square of the island, which has two or more runs of those round the defect.
    Many,
}

/// What the half squares round a defect tell of the island: those outside the defect that share an edge or a corner with
/// one that it has, in their cyclic order. The defect is the square of this side, 1 to 2,000,000 database units, round the
/// cell's centre. For an island with two or more anchors the answer settles whether the defect parts two, unless it is `Many`.
///
/// The one error is that no memory is left.
pub fn ring(alloc: Global, island: &Island, cell: Cell, side: u32) -> Result<RingAnswer, NoMemory>
    requires some { 1 ≤ side }
    requires few { side ≤ GREATEST_SIDE }
    requires within { All IsInLayout island.now.pieces }
    ensures answer { IfOk result (IsRingAnswer island.now (hole_at cell side)) }
    ensures parted { IfOk result (λ answer. 2 ≤ length island.now.anchors → Settles answer
        (IsIslandOpen island.now side cell)) }
{
    defects_sever_islands();
    let Some(hole) = defect_hole(cell, side) else {
        return Ok(RingAnswer::Untouched);
    };
    let pieces = island.pieces.as_slice();
    if !reaches_into(pieces, hole) {
        return Ok(RingAnswer::Untouched);
    }
    let one_arc = has_one_arc(alloc, hole, pieces)?;
    if !one_arc {
        return Ok(RingAnswer::Many);
    }
    let lost = loses_any(hole, island.anchors.as_slice());
    Ok(RingAnswer::OneArc { lost })
}

/// Whether a rectangle has a half square in the hole.
fn reaches_into(pieces: &[Rect], hole: HalfBox) -> bool
    ensures { IsTrue result ↔ ((h : Half) × IsOn (IsInUnion pieces.now) h × IsInHole (hole_of hole) h) }
{
    for piece in pieces {
        if overlap(HalfBox::of_rect(*piece), hole) {
            return true;
        }
    }
    false
}

/// Whether the hole has all of one of the spots.
fn loses_any(hole: HalfBox, spots: &[Spot]) -> bool
    ensures { IsTrue result ↔ ((spot : AnySpot) × Contains spots.now spot
        × ((h : Half) → IsOn (IsInUnion spot.rects) h → IsInHole (hole_of hole) h)) }
{
    for spot in spots {
        let rects = spot.rects.as_slice();
        if has_all(hole, rects) {
            return true;
        }
    }
    false
}

/// Whether the hole has all of each of the rectangles.
fn has_all(hole: HalfBox, rects: &[Rect]) -> bool
    ensures { IsTrue result ↔ ((h : Half) → IsOn (IsInUnion rects.now) h → IsInHole (hole_of hole) h) }
{
    for rect in rects {
        let one = HalfBox::of_rect(*rect);
        if !one.is_within(hole) {
            return false;
        }
    }
    true
}
