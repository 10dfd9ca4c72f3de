ghost use Rattle.std.specs.Prelude.{◌<◌, ◌^◌, IfOk};
ghost use Rattle.geo_core.specs.Bounds.{IsRadius};
ghost use Rattle.fault_model.specs.Areas.{Tally, cells_of};
ghost use Rattle.short_area.specs.Labels.{TouchesTwoLabels};
ghost use Rattle.short_area.specs.Zones.{IsCountOf};
ghost use Rattle.short_area.specs.inside.AreaSteps.{IsStepOf};
ghost use Rattle.short_area.specs.inside.WhatIsLeft.{IsLeftOf};
ghost use Rattle.short_area.specs.inside.ZonesNearCells.{HaveNoThird};

use super::halves::halves;
use super::labels::split;
use super::leaders::counted_by_leader;
use super::part_case::{NONE_TRIED, PartCase, left_of_many, soon_left};
use super::steps::Step;
use super::sweeps::area_of_two;
use super::zones::zones_of;
use geo_core::{Labelled, Rect};
use lists::NoMemory;
use std::alloc::Global;
use union_area::{count_of, parts_at, union_area};

/// How many cells of the window are the centre of a defect that touches pieces of two labels. The defect is the square
/// of side `2r` round the cell's centre, in database units. A cell counts once, whether it is near two labels or more,
/// and pieces of one label count as one piece.
///
/// The one error is that no memory is left.
pub fn short_area(alloc: Global, pieces: &[Labelled], window: Rect, r: u32) -> Result<u64, NoMemory>
    requires { IsRadius r }
    ensures tally { IfOk result (λ n. Tally (TouchesTwoLabels pieces.now r) (cells_of window) n) }

    // No edge of a window is further than 1,001,000,000 from 0.
    ensures small { IfOk result (λ n. n < 2 ^ 63) }
{
    let zones = zones_of(alloc, pieces, window, r)?;
    two_label_area(alloc, zones, window)
}

/// How many cells of the window lie in zones of two labels. A cell counts once, whether it lies in zones of two labels or of more.
///
/// The one error is that no memory is left.
pub fn two_label_area(alloc: Global, zones: Vec<Labelled>, window: Rect) -> Result<u64, NoMemory>
    ensures { IfOk result (λ n. IsCountOf zones.items window n) }
{
    counted(alloc, zones, window, NONE_TRIED)
}

/// How many cells of the window lie in zones of two labels. Of more than an eighth of `hopeless` zones no runs are tried,
/// since so many had too many of them.
fn counted(
    alloc: Global,
    zones: Vec<Labelled>,
    window: Rect,
    hopeless: usize,
) -> Result<u64, NoMemory>
    ensures { IfOk result (λ n. IsCountOf zones.items window n) }
{
    match next_step(alloc, zones.as_slice(), window, hopeless)? {
        Step::Count(count) => Ok(count),
        Step::Halve(axis, place, hopeless) => {
            let (first, second) = parts_at(window, axis, place);
            let (before, behind) = halves(alloc, zones, first, second)?;
            let one = counted(alloc, before, first, hopeless)?;
            let other = counted(alloc, behind, second, hopeless)?;
            Ok(one + other)
        }
    }
}

/// What comes next of a window with these zones: its count, or a place at which to halve it.
fn next_step(
    alloc: Global,
    zones: &[Labelled],
    window: Rect,
    hopeless: usize,
) -> Result<Step, NoMemory>
    ensures { IfOk result (IsStepOf zones.now window) }
{
    if let Some(left) = soon_left(alloc, zones, window, hopeless)? {
        return step_from(alloc, zones, window, left);
    }
    if let Some(count) = counted_by_leader(alloc, zones, window)? {
        return Ok(Step::Count(count));
    }
    let left = left_of_many(alloc, zones, window, hopeless)?;
    step_from(alloc, zones, window, left)
}

/// The count of what is left of a window, or the place at which to halve it.
fn step_from(
    alloc: Global,
    zones: &[Labelled],
    window: Rect,
    left: PartCase,
) -> Result<Step, NoMemory>
    requires { IsLeftOf zones.now window left }
    ensures { IfOk result (IsStepOf zones.now window) }
{
    match left {
        PartCase::Nothing => Ok(Step::Count(0)),
        PartCase::All => Ok(Step::Count(count_of(window))),
        PartCase::InOne(rects) => Ok(Step::Count(union_area(alloc, rects.as_slice(), window)?)),
        PartCase::InTwo(rects) => Ok(Step::Count(area_of_two(alloc, rects.as_slice(), window)?)),
        PartCase::InBoth(one, other) => {
            Ok(Step::Count(counted_apart(alloc, zones, window, one, other)?))
        }
        PartCase::InHalves(axis, place, hopeless) => Ok(Step::Halve(axis, place, hopeless)),
    }
}

/// The count where there are these two labels alone, without runs: the cells of the one and those of the other, less those
/// of either.
pub fn counted_apart(
    alloc: Global,
    zones: &[Labelled],
    window: Rect,
    one: usize,
    other: usize,
) -> Result<u64, NoMemory>
    requires { HaveNoThird zones.now one other }
    ensures { IfOk result (λ n. IsCountOf zones.now window n) }
{
    let (mut own, others) = split(alloc, zones, one)?;
    let in_one = union_area(alloc, own.as_slice(), window)?;
    let in_other = union_area(alloc, others.as_slice(), window)?;
    own.extend_from_slice(others.as_slice())?;
    let in_either = union_area(alloc, own.as_slice(), window)?;
    Ok(in_one + in_other - in_either)
}
