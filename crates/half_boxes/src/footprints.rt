//! The half squares of defects, as boxes. A defect of side `s` whose centre is the middle of the cell `(i, j)` has the half
//! units from `2i + 1 - s` to before `2i + 1 + s`, and so in rows.

ghost use Rattle.std.specs.Prelude.{ℤ, ◌≤◌, ◌↔◌, IfSome, IfNone};
ghost use Rattle.fault_model.specs.Halves.{IsUnder};
ghost use Rattle.geo_core.specs.Intervals.{IsIn};
ghost use Rattle.geo_core.specs.declared.bounds.TheConstants.{GREATEST_SIDE};
ghost use Rattle.geo_core.specs.declared.plane.Half.{Half};
ghost use Rattle.half_boxes.specs.Footprints.{IsAlwaysHit, IsReached};
ghost use Rattle.half_boxes.specs.HalfBoxes.{HasHalf, HasHalfIn};

use super::boxes::HalfBox;
use super::span::HalfSpan;
use geo_core::{GREATEST_SIDE, Interval, Rect};

/// The half squares that some defect of this side with its centre in the zone has: all of a box, since the defects of
/// neighbouring cells overlap, or abut.
pub fn reach_of(zone: Rect, side: u32) -> HalfBox
    requires some { 1 ≤ side }
    requires few { side ≤ GREATEST_SIDE }
    ensures { (h : Half) → HasHalf result h ↔ IsReached zone side h }
{
    HalfBox {
        columns: reached(zone.columns(), side),
        rows: reached(zone.rows(), side),
    }
}

/// The half squares that each defect of this side with its centre in the zone has, if there are any.
pub fn core_of(zone: Rect, side: u32) -> Option<HalfBox>
    requires some { 1 ≤ side }
    requires few { side ≤ GREATEST_SIDE }
    ensures { (h : Half) → HasHalfIn result h ↔ IsAlwaysHit zone side h }
{
    let columns = always_hit(zone.columns(), side)?;
    let rows = always_hit(zone.rows(), side)?;
    Some(HalfBox { columns, rows })
}

/// The half units that some defect of this side has whose centre is one of the places, along one axis.
fn reached(places: Interval, side: u32) -> HalfSpan
    requires some { 1 ≤ side }
    requires few { side ≤ GREATEST_SIDE }
    ensures { (u : ℤ) → IsIn result.low result.high u
        ↔ ((i : ℤ) × IsIn places.low places.high i × IsUnder i side u) }
{
    let side = side as i32;
    let units = HalfSpan::of_units(places);
    HalfSpan {
        low: units.low + 1 - side,
        high: units.high - 1 + side,
    }
}

/// The half units that each defect of this side has whose centre is one of the places, along one axis.
fn always_hit(places: Interval, side: u32) -> Option<HalfSpan>
    requires some { 1 ≤ side }
    requires few { side ≤ GREATEST_SIDE }
    ensures some { IfSome result (λ hit. (u : ℤ) → IsIn hit.low hit.high u
        ↔ ((i : ℤ) → IsIn places.low places.high i → IsUnder i side u)) }
    ensures none { IfNone result ((u : ℤ) → ((i : ℤ) → IsIn places.low places.high i → IsUnder i side u) → ⊥) }
{
    let side = side as i32;
    let units = HalfSpan::of_units(places);
    let low = units.high - 1 - side;
    let high = units.low + 1 + side;
    if low >= high {
        return None;
    }
    Some(HalfSpan { low, high })
}
