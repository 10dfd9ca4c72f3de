ghost use Rattle.std.specs.Prelude.{◌<◌, ◌^◌, ◌≡◌, IfOk};
ghost use Rattle.geo_core.specs.Cells.{Has};
ghost use Rattle.geo_core.specs.Unions.{IsInUnion};
ghost use Rattle.geo_core.specs.declared.plane.Cell.{Cell};
ghost use Rattle.skyline_runs.specs.Runs.{AreApart};
ghost use Rattle.fault_model.specs.Areas.{Tally, cells_of};

use super::part_case::{NONE_TRIED, PartCase, rest_of};
use super::parts::count_of;
use depth_sweep::area_once;
use geo_core::{Rect, Steps};
use lists::NoMemory;
use std::alloc::Global;
use std::marker::Brand;
use std::sync::ledger::{Blank, Ledger};

/// How many cells of the window lie in at least one rectangle of the list. The one error is that no memory is left.
pub fn union_area(alloc: Global, rects: &[Rect], window: Rect) -> Result<u64, NoMemory>
    ensures tally { IfOk result (λ n. Tally (IsInUnion rects.now) (cells_of window) n) }
    ensures small { IfOk result (λ n. n < 2 ^ 63) }
{
    match rest_of(alloc, rects, window, NONE_TRIED)? {
        PartCase::Nothing => Ok(0),
        PartCase::All => Ok(count_of(window)),
        PartCase::Runs(runs) => Ok(area_of_runs(runs.as_slice(), window)),
        PartCase::Across(inside, _) => swept_area(alloc, inside.as_slice(), window),
        PartCase::Halves(inside, first, second) => {
            let one = union_area(alloc, inside.as_slice(), first)?;
            let other = union_area(alloc, inside.as_slice(), second)?;
            Ok(one + other)
        }
    }
}

/// The area of rectangles in the window that have no cells in common.
fn area_of_runs(runs: &[Rect], window: Rect) -> u64
    requires apart { AreApart runs.now }
    requires within { (c : Cell) → IsInUnion runs.now c → Has window c }
    ensures tally { Tally (IsInUnion runs.now) (cells_of window) result }
    ensures small { result < 2 ^ 63 }
{
    let mut area = 0;
    for run in runs {
        area += count_of(*run);
    }
    area
}

/// The area by a sweep.
fn swept_area(alloc: Global, rects: &[Rect], window: Rect) -> Result<u64, NoMemory>
    ensures tally { IfOk result (λ n. Tally (IsInUnion rects.now) (cells_of window) n) }
    ensures small { IfOk result (λ n. n < 2 ^ 63) }
{
    counted_area::<Brand>(alloc, rects, window, Blank::new(1))
}

/// The same, with a counter of its own for steps, which nobody reads.
fn counted_area<L: Ledger>(
    alloc: Global,
    rects: &[Rect],
    window: Rect,
    blank: Blank,
) -> Result<u64, NoMemory>
    requires name { blank.name ≡ L.name }
    requires parts { blank.parts ≡ L.parts }
    requires some { 0 < blank.parts }
    ensures tally { IfOk result (λ n. Tally (IsInUnion rects.now) (cells_of window) n) }
    ensures small { IfOk result (λ n. n < 2 ^ 63) }
{
    let mut steps = Steps::<L>::start(blank);
    area_once(alloc, rects, window, &mut steps)
}
