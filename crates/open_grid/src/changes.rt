//! The places at which a defect that moves along an axis comes to an edge, or past it.

ghost use Rattle.std.specs.Prelude.{ℤ, pos, negsuc, [], ◌∷◌, ◌≡◌, ◌+ℤ◌, ◌≤ℤ◌, ◌<ℤ◌, ◌≤◌, ◌↔◌, IfOk, IsSorted, OnOk};
ghost use Rattle.std.specs.Ordering.{int_cmp};
ghost use Rattle.geo_core.specs.declared.bounds.TheConstants.{GREATEST_SIDE};
ghost use Rattle.half_boxes.specs.HalfBoxes.{span_along as span_of};
ghost use Rattle.open_grid.specs.inside.Wires.{high_end, low_end};
ghost use Rattle.open_grid.specs.inside.ZoneSteps.{AreChanges, GainsChanges, GainsPlace};

use super::looked::Looked;
use geo_core::{Axis, Interval, Rect};
use half_boxes::{HalfBox, HalfSpan};
use lists::NoMemory;
use std::alloc::Global;

/// Half of the number, rounded down.
fn half_below(number: i32) -> i32
    ensures low { (result +ℤ result) ≤ℤ number }
    ensures high { number ≤ℤ (result +ℤ result +ℤ pos 1) }
{
    let size = number.unsigned_abs();
    if number >= 0 {
        return (size / 2) as i32;
    }
    -((size / 2 + size % 2) as i32)
}

/// The place from which on the high end of the defect is at the edge or past it.
pub fn first_reaching(edge: i32, side: u32) -> i32
    requires low { negsuc 2004000000 ≤ℤ edge }
    requires high { edge ≤ℤ pos 2004000001 }
    requires few { side ≤ GREATEST_SIDE }
    ensures { (x : ℤ) → (result ≤ℤ x) ↔ (edge ≤ℤ high_end x side) }
{
    half_below(edge - side as i32)
}

/// The place from which on the low end of the defect is past the edge.
pub fn first_passing(edge: i32, side: u32) -> i32
    requires low { negsuc 2004000000 ≤ℤ edge }
    requires high { edge ≤ℤ pos 2004000001 }
    requires some { 1 ≤ side }
    requires few { side ≤ GREATEST_SIDE }
    ensures { (x : ℤ) → (result ≤ℤ x) ↔ (edge <ℤ low_end x side) }
{
    half_below(edge + (side as i32 - 1)) + 1
}

/// The half units of the box along the axis.
pub fn span_along(one: HalfBox, axis: Axis) -> HalfSpan
    ensures { result ≡ span_of axis one }
{
    match axis {
        Axis::X => one.columns,
        Axis::Y => one.rows,
    }
}

/// Adds the place, if it lies inside the zone along the axis.
fn add_inside(zone: Rect, axis: Axis, place: i32, places: &mut Vec<i32>) -> Result<(), NoMemory>
    ensures { OnOk result (GainsPlace axis zone place places.old.items places.new.items) }
{
    let along = zone.along(axis);
    if along.low < place && place < along.high {
        places.push(place)?;
    }
    Ok(())
}

/// Adds the places inside the zone at which the defects change at an end of the box.
fn add_changes(
    one: HalfBox,
    axis: Axis,
    zone: Rect,
    side: u32,
    places: &mut Vec<i32>,
) -> Result<(), NoMemory>
    requires some { 1 ≤ side }
    requires few { side ≤ GREATEST_SIDE }
    ensures { OnOk result (GainsChanges axis zone side (one ∷ []) places.old.items places.new.items) }
{
    let span = span_along(one, axis);
    add_inside(zone, axis, first_reaching(span.low, side), places)?;
    add_inside(zone, axis, first_passing(span.low, side), places)?;
    add_inside(zone, axis, first_reaching(span.high, side), places)?;
    add_inside(zone, axis, first_passing(span.high, side), places)?;
    Ok(())
}

/// Adds those of each box of the list.
fn add_all_changes(
    near: &[HalfBox],
    axis: Axis,
    zone: Rect,
    side: u32,
    places: &mut Vec<i32>,
) -> Result<(), NoMemory>
    requires some { 1 ≤ side }
    requires few { side ≤ GREATEST_SIDE }
    ensures { OnOk result (GainsChanges axis zone side near.now places.old.items places.new.items) }
{
    for one in near {
        add_changes(*one, axis, zone, side, places)?;
    }
    Ok(())
}

/// The places inside the zone along the axis at which its defects change at an end of a box that is near, in rising order. The
/// only error is that no memory is left.
pub fn changes_of(
    alloc: Global,
    looked: &[Looked],
    axis: Axis,
    zone: Rect,
    side: u32,
) -> Result<Vec<i32>, NoMemory>
    requires some { 1 ≤ side }
    requires few { side ≤ GREATEST_SIDE }
    ensures changes { IfOk result (λ places. AreChanges axis zone side looked.now places.items) }
    ensures rising { IfOk result (λ places. IsSorted int_cmp places.items) }
{
    let mut places = Vec::new(alloc);
    for one in looked {
        add_all_changes(one.near.as_slice(), axis, zone, side, &mut places)?;
    }
    places.sort_unstable();
    Ok(places)
}
