ghost use Rattle.std.specs.Prelude.{Contains, IfOk, IsTrue, ◌≤◌};
ghost use Rattle.fault_model.specs.IslandLists.{IslandLists};
ghost use Rattle.half_boxes.specs.HalfBoxes.{LiesWithin};
ghost use Rattle.half_boxes.specs.declared.boxes.HalfBox.{HalfBox as AnyBox};
ghost use Rattle.geo_core.specs.declared.bounds.TheConstants.{GREATEST_SIDE};
ghost use Rattle.open_grid.specs.declared.looked.Told.TheVariants.{Never};
ghost use Rattle.open_grid.specs.inside.ZoneNeeds.{StandsFor};
ghost use Rattle.open_grid.specs.inside.ZoneSteps.{IsToldAtOnce, IsToldOf};

use super::looked::{Looked, Told, look_at};
use geo_core::Rect;
use half_boxes::{HalfBox, HalfSpan, reach_of};
use lists::NoMemory;
use ring_test::{boxes_have_one_arc, one_arc_spares};
use std::alloc::Global;

/// Looks at an island for a zone, as `look_at` does, but first at the ring round all that the zone's defects have: that takes
/// less than a remnant, and often tells that no defect parts two anchors.
pub fn look_at_ring_first(
    alloc: Global,
    looked: &Looked,
    zone: Rect,
    side: u32,
) -> Result<Told, NoMemory>
    requires some { 1 ≤ side }
    requires few { side ≤ GREATEST_SIDE }
    ensures told { (island : IslandLists) → StandsFor zone side looked.now island → IfOk result (IsToldOf zone side island) }
    ensures at_once { IfOk result (IsToldAtOnce zone) }
{
    if is_spared(alloc, looked, zone, side)? {
        return Ok(Told::Never);
    }
    look_at(alloc, looked, zone, side)
}

/// Whether the island has one arc of the ring round all that the zone's defects have, and no anchor that lies wholly in it:
/// then no defect of the zone parts two anchors. If not, some may, or none. The only error is that no memory is left.
fn is_spared(alloc: Global, looked: &Looked, zone: Rect, side: u32) -> Result<bool, NoMemory>
    requires some { 1 ≤ side }
    requires few { side ≤ GREATEST_SIDE }
    ensures { (island : IslandLists) → StandsFor zone side looked.now island →
        IfOk result (λ answer. IsTrue answer → IsToldOf zone side island Never) }
{
    one_arc_spares();
    let reach = reach_of(zone, side);
    if !are_outside(looked.anchors.as_slice(), reach) {
        return Ok(false);
    }
    // Here there is hardly ever one arc, and the ring would only take time.
    if some_leads_across(looked.near.as_slice(), reach) {
        return Ok(false);
    }
    boxes_have_one_arc(alloc, reach, looked.near.as_slice())
}

/// Whether one of the boxes leads from beyond one side of the reach to beyond the opposite one, between the other two.
fn some_leads_across(boxes: &[HalfBox], reach: HalfBox) -> bool {
    for one in boxes {
        if leads_across(one.columns, one.rows, reach.columns, reach.rows) {
            return true;
        }
        if leads_across(one.rows, one.columns, reach.rows, reach.columns) {
            return true;
        }
    }
    false
}

/// Whether it does so along an axis, where these are the spans along the axis and across it.
fn leads_across(
    along: HalfSpan,
    across: HalfSpan,
    reach_along: HalfSpan,
    reach_across: HalfSpan,
) -> bool {
    along.low < reach_along.low && reach_along.high < along.high && across.is_within(reach_across)
}

/// Whether none of the boxes lies wholly in the reach.
fn are_outside(boxes: &[HalfBox], reach: HalfBox) -> bool
    ensures { IsTrue result → (one : AnyBox) → Contains boxes.now one → LiesWithin one reach → ⊥ }
{
    for one in boxes {
        if one.is_within(reach) {
            return false;
        }
    }
    true
}
