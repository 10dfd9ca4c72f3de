ghost use Rattle.std.specs.Prelude.{◌≡◌, ◌<◌, ◌≤◌, ◌↔◌, IfOk, IsTrue, false};
ghost use Rattle.geo_core.specs.declared.bounds.TheConstants.{GREATEST_SIDE};
ghost use Rattle.open_grid.specs.inside.ZoneSteps.{HasSeveral, IsSingle, IsStepOf, IsToHalve};

use super::changes::{changes_of, span_along};
use super::looked::Looked;
use geo_core::{Axis, Rect};
use half_boxes::{HalfBox, HalfSpan, reach_of};
use lists::NoMemory;
use std::alloc::Global;

/// What comes next of a zone of more than one cell.
pub enum Step {
    /// Nothing changes along the axis: its first column, or row, stands for all.
    Repeat(Axis),
    /// It is halved along the axis at the place.
    Halve(Axis, i32),
}

/// Whether the zone is one cell.
pub fn is_single(zone: Rect) -> bool
    ensures { IsTrue result ↔ IsSingle zone }
{
    if has_several(zone, Axis::X) {
        return false;
    }
    !has_several(zone, Axis::Y)
}

/// Whether the zone has more than one column, or row.
fn has_several(zone: Rect, axis: Axis) -> bool
    ensures { IsTrue result ↔ HasSeveral axis zone }
{
    let places = zone.along(axis);
    places.low + 1 < places.high
}

/// Whether the box has half units, along an axis on which the defects reach so far, that some of them have and others do not.
fn is_open_along(one: HalfSpan, reach: HalfSpan, side: u32) -> bool
    requires few { side ≤ GREATEST_SIDE }
{
    let width = 2 * side as i32;
    let core_low = reach.high - width;
    let core_high = reach.low + width;
    one.low.max(reach.low) < core_low || core_high < one.high.min(reach.high)
}

/// How many of the boxes have such half units along the axis.
fn open_boxes(near: &[HalfBox], axis: Axis, reach: HalfBox, side: u32) -> u64
    requires few { side ≤ GREATEST_SIDE }
{
    let reach = span_along(reach, axis);
    let mut count = 0_u64;
    for one in near {
        if is_open_along(span_along(*one, axis), reach, side) {
            count = count.saturating_add(1);
        }
    }
    count
}

/// How many boxes of all these islands have such half units along the axis.
fn all_open_boxes(looked: &[Looked], axis: Axis, reach: HalfBox, side: u32) -> u64
    requires few { side ≤ GREATEST_SIDE }
{
    let mut count = 0_u64;
    for one in looked {
        count = count.saturating_add(open_boxes(one.near.as_slice(), axis, reach, side));
    }
    count
}

/// Whether the zone is rather halved by columns: where changes along this axis are all that there are, where more boxes stay
/// open along it, or where as many do and there are more changes along it. Where thousands of rows end in one strip of columns,
/// a cut through the strip decides them all, and one between two rows leaves as many open.
fn prefers_columns(looked: &[Looked], zone: Rect, side: u32, columns: usize, rows: usize) -> bool
    requires some { 1 ≤ side }
    requires few { side ≤ GREATEST_SIDE }
    requires any { columns ≡ 0 → 0 < rows }
    ensures columns { IsTrue result → 0 < columns }
    ensures rows { result ≡ false → 0 < rows }
{
    if columns == 0 || rows == 0 {
        return rows == 0;
    }
    let reach = reach_of(zone, side);
    let across = all_open_boxes(looked, Axis::X, reach, side);
    let up = all_open_boxes(looked, Axis::Y, reach, side);
    up < across || up == across && rows < columns
}

/// The places at which the zone may be halved along the axis, which are its changes; or nothing where there are no changes, and
/// the zone has several columns, or rows.
fn places_to_halve(
    alloc: Global,
    looked: &[Looked],
    axis: Axis,
    zone: Rect,
    side: u32,
) -> Result<Option<Vec<i32>>, NoMemory>
    requires some { 1 ≤ side }
    requires few { side ≤ GREATEST_SIDE }
    ensures { IfOk result (IsToHalve axis zone side looked.now) }
{
    let places = changes_of(alloc, looked, axis, zone, side)?;
    if places.is_empty() && has_several(zone, axis) {
        return Ok(None);
    }
    Ok(Some(places))
}

/// What comes next of a zone for which these islands are looked at. It is halved at the middle one of its changes along an
/// axis, so that each change lies in few of the zones that are halved. The only error is that no memory is left.
pub fn next_step(alloc: Global, looked: &[Looked], zone: Rect, side: u32) -> Result<Step, NoMemory>
    requires some { 1 ≤ side }
    requires few { side ≤ GREATEST_SIDE }
    requires several { IsSingle zone → ⊥ }
    ensures { IfOk result (IsStepOf zone side looked.now) }
{
    let Some(columns) = places_to_halve(alloc, looked, Axis::X, zone, side)? else {
        return Ok(Step::Repeat(Axis::X));
    };
    let Some(rows) = places_to_halve(alloc, looked, Axis::Y, zone, side)? else {
        return Ok(Step::Repeat(Axis::Y));
    };
    if prefers_columns(looked, zone, side, columns.len(), rows.len()) {
        return Ok(Step::Halve(Axis::X, columns[columns.len() / 2]));
    }
    Ok(Step::Halve(Axis::Y, rows[rows.len() / 2]))
}
