ghost use Rattle.std.specs.Prelude.{ℤ, pos, negsuc, ◌≡◌, ◌+ℤ◌, ◌-ℤ◌, ◌≤ℤ◌, ◌⊎◌, ◌↔◌, IsTrue, IfOk, OnOk};
ghost use Rattle.geo_core.specs.Intervals.{IsIn};
ghost use Rattle.geo_core.specs.Unions.{IsInUnion};
ghost use Rattle.fault_model.specs.Halves.{IsOn};
ghost use Rattle.half_boxes.specs.HalfBoxes.{HasHalf, IsInBoxes};
ghost use Rattle.ring_test.specs.Rings.{HasOneArc, IsRingNumber, hole_of, ring_length, ring_of};
ghost use Rattle.ring_test.specs.inside.RingSides.{IsAbove, IsBelow, IsOnLeft, IsOnRight};
ghost use Rattle.ring_test.specs.inside.NumberRuns.{IsInRunOf, IsInRuns};

use super::merging::merge;
use super::runs::Run;
use geo_core::Rect;
use half_boxes::{HalfBox, HalfSpan};
use lists::NoMemory;
use std::alloc::{AllocError, Global};

/// Whether the rectangles have one arc of the ring round the hole.
pub fn has_one_arc(alloc: Global, hole: HalfBox, pieces: &[Rect]) -> Result<bool, NoMemory>
    ensures { IfOk result (λ answer. IsTrue answer ↔ HasOneArc (hole_of hole) (IsOn (IsInUnion pieces.now))) }
{
    let mut runs = runs_of(alloc, hole, pieces)?;
    runs.sort_unstable_by_key(|run| run.from);
    Ok(merge(&runs).is_arc(length_round(hole)))
}

/// Whether the boxes have one arc of the ring round the hole. The only error is that no memory is left.
pub fn boxes_have_one_arc(alloc: Global, hole: HalfBox, boxes: &[HalfBox]) -> Result<bool, NoMemory>
    ensures { IfOk result (λ answer. IsTrue answer ↔ HasOneArc (hole_of hole) (IsInBoxes boxes.now)) }
{
    let mut runs = runs_of_boxes(alloc, hole, boxes)?;
    runs.sort_unstable_by_key(|run| run.from);
    Ok(merge(&runs).is_arc(length_round(hole)))
}

/// The numbers of the half squares on the ring round the hole that the boxes have, in no order.
fn runs_of_boxes(alloc: Global, hole: HalfBox, boxes: &[HalfBox]) -> Result<Vec<Run>, AllocError>
    ensures { IfOk result (λ runs. (k : ℤ) → IsInRuns runs.items k
        ↔ (IsRingNumber (hole_of hole) k × IsInBoxes boxes.now (ring_of (hole_of hole) k))) }
{
    let mut runs = Vec::new(alloc);
    for one in boxes {
        add_runs(hole, *one, &mut runs)?;
    }
    Ok(runs)
}

/// The numbers of the half squares on the ring round the hole that the rectangles have, in no order.
fn runs_of(alloc: Global, hole: HalfBox, pieces: &[Rect]) -> Result<Vec<Run>, AllocError>
    ensures { IfOk result (λ runs. (k : ℤ) → IsInRuns runs.items k
        ↔ (IsRingNumber (hole_of hole) k × IsOn (IsInUnion pieces.now) (ring_of (hole_of hole) k))) }
{
    let mut runs = Vec::new(alloc);
    for piece in pieces {
        add_runs(hole, HalfBox::of_rect(*piece), &mut runs)?;
    }
    Ok(runs)
}

/// Adds the numbers of those that the box has.
fn add_runs(hole: HalfBox, one: HalfBox, runs: &mut Vec<Run>) -> Result<(), AllocError>
    ensures { OnOk result ((k : ℤ) → IsInRuns runs.new.items k ↔ (IsInRuns runs.old.items k
        ⊎ (IsRingNumber (hole_of hole) k × HasHalf one (ring_of (hole_of hole) k)))) }
{
    add(below(hole, one), runs)?;
    add(on_right(hole, one), runs)?;
    add(above(hole, one), runs)?;
    add(on_left(hole, one), runs)?;
    Ok(())
}

/// Adds the run, where there is one.
fn add(run: Option<Run>, runs: &mut Vec<Run>) -> Result<(), AllocError>
    ensures { OnOk result ((k : ℤ) → IsInRuns runs.new.items k ↔ (IsInRuns runs.old.items k ⊎ IsInRunOf run k)) }
{
    if let Some(run) = run {
        runs.push(run)?;
    }
    Ok(())
}

/// The numbers of the half squares below the hole that the box has, with the lower left corner.
fn below(hole: HalfBox, one: HalfBox) -> Option<Run>
    ensures { (k : ℤ) → IsInRunOf result k ↔ (IsBelow (hole_of hole) k × HasHalf one (ring_of (hole_of hole) k)) }
{
    if !has(one.rows, hole.rows.low - 1) {
        return None;
    }
    rising(0, hole.columns.low - 1, hole.columns.high, one.columns)
}

/// The numbers of those on its right, with the lower right corner.
fn on_right(hole: HalfBox, one: HalfBox) -> Option<Run>
    ensures { (k : ℤ) → IsInRunOf result k ↔ (IsOnRight (hole_of hole) k × HasHalf one (ring_of (hole_of hole) k)) }
{
    if !has(one.columns, hole.columns.high) {
        return None;
    }
    let first = steps_along(hole.columns);
    rising(first, hole.rows.low - 1, hole.rows.high, one.rows)
}

/// The numbers of those above it, with the upper right corner.
fn above(hole: HalfBox, one: HalfBox) -> Option<Run>
    ensures { (k : ℤ) → IsInRunOf result k ↔ (IsAbove (hole_of hole) k × HasHalf one (ring_of (hole_of hole) k)) }
{
    if !has(one.rows, hole.rows.high) {
        return None;
    }
    let first = steps_along(hole.columns) + steps_along(hole.rows);
    falling(first, hole.columns.low, hole.columns.high + 1, one.columns)
}

/// The numbers of those on its left, with the upper left corner.
fn on_left(hole: HalfBox, one: HalfBox) -> Option<Run>
    ensures { (k : ℤ) → IsInRunOf result k ↔ (IsOnLeft (hole_of hole) k × HasHalf one (ring_of (hole_of hole) k)) }
{
    if !has(one.columns, hole.columns.low - 1) {
        return None;
    }
    let first = length_round(hole) - steps_along(hole.rows);
    falling(first, hole.rows.low, hole.rows.high + 1, one.rows)
}

/// The numbers of the half units of the part that lie from `low` to before `high`, of which the first has the number
/// `first`, and each next one the next number.
fn rising(first: i64, low: i32, high: i32, part: HalfSpan) -> Option<Run>
    requires { IsIn (pos 0) (pos 100000000000) first }
    ensures { (k : ℤ) → IsInRunOf result k
        ↔ (IsIn first (first +ℤ (high -ℤ low)) k × IsIn part.low part.high (low +ℤ (k -ℤ first))) }
{
    let from = difference(part.low.max(low), low);
    let to = difference(part.high.min(high), low);
    run_from(first, from, to)
}

/// The same where the last of them has the number `first`, and each one before it the next number.
fn falling(first: i64, low: i32, high: i32, part: HalfSpan) -> Option<Run>
    requires { IsIn (pos 0) (pos 100000000000) first }
    ensures { (k : ℤ) → IsInRunOf result k
        ↔ (IsIn first (first +ℤ (high -ℤ low)) k × IsIn part.low part.high (high -ℤ pos 1 -ℤ (k -ℤ first))) }
{
    let from = difference(high, part.high.min(high));
    let to = difference(high, part.low.max(low));
    run_from(first, from, to)
}

/// The numbers from `from` to before `to`, counted from the first, where there are some.
fn run_from(first: i64, from: i64, to: i64) -> Option<Run>
    requires first { IsIn (pos 0) (pos 100000000000) first }
    requires from { IsIn (negsuc 4294967295) (pos 4294967296) from }
    requires to { IsIn (negsuc 4294967295) (pos 4294967296) to }
    ensures { (k : ℤ) → IsInRunOf result k ↔ IsIn (first +ℤ from) (first +ℤ to) k }
{
    if from >= to {
        return None;
    }
    Some(Run {
        from: first + from,
        to: first + to,
    })
}

/// Whether the half unit is one of the span's.
fn has(span: HalfSpan, unit: i32) -> bool
    ensures { IsTrue result ↔ IsIn span.low span.high unit }
{
    span.low <= unit && unit < span.high
}

/// How far the one number lies above the other.
fn difference(high: i32, low: i32) -> i64
    ensures is { result ≡ high -ℤ low }
    ensures least { negsuc 4294967295 ≤ℤ result }
    ensures most { result ≤ℤ pos 4294967295 }
{
    i64::from(high) - i64::from(low)
}

/// How many steps lead along a side of the ring.
fn steps_along(span: HalfSpan) -> i64
    ensures is { result ≡ span.high -ℤ span.low +ℤ pos 1 }
    ensures least { pos 1 ≤ℤ result }
    ensures most { result ≤ℤ pos 4294967296 }
{
    difference(span.high, span.low) + 1
}

/// How many half squares the ring has.
fn length_round(hole: HalfBox) -> i64
    ensures is { result ≡ ring_length (hole_of hole) }
    ensures least { pos 1 ≤ℤ result }
    ensures most { result ≤ℤ pos 17179869184 }
{
    let across = steps_along(hole.columns);
    let up = steps_along(hole.rows);
    across + up + across + up
}
