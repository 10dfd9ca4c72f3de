ghost use Rattle.std.specs.Prelude.{◌<◌, ◌≤◌, ◌*◌, ◌^◌, ◌≡◌, ◌-ℤ◌, [], pos, unsigned_abs, IfOk};
ghost use Rattle.geo_core.specs.Unions.{IsInUnion};
ghost use Rattle.fault_model.specs.Areas.{Tally, cells_of};
ghost use Rattle.cover_tree.specs.CoverTrees.{width_of_depth};
ghost use Rattle.skyline_runs.specs.Runs.{IsInTwo};
ghost use Rattle.depth_sweep.specs.RectSides.{IsInStepBound};
ghost use Rattle.depth_sweep.specs.inside.DeepCells.{IsDeep, least_of};

use super::bars::bars;
use super::events::events;
use super::places::places;
use cover_tree::CoverTree;
use geo_core::{Rect, Steps};
use lists::NoMemory;
use std::alloc::Global;
use std::sync::ledger::Ledger;

/// Which cells are counted.
#[derive(Clone, Copy)]
pub enum Depth {
    /// Those in at least one rectangle.
    Once,
    /// Those in at least two.
    Twice,
}

/// How many cells of the window lie in at least one rectangle of the list. The one error is that no memory is left.
///
/// A step is a look at a node of a counting tree or a change of one. There are at most 32 for each rectangle and each
/// level of the least tree that has a column between any two neighbouring sides, wherever the rectangles lie.
pub fn area_once<L: Ledger>(
    alloc: Global,
    rects: &[Rect],
    window: Rect,
    steps: &mut Steps<L>,
) -> Result<u64, NoMemory>
    ensures tally { IfOk result (λ n. Tally (IsInUnion rects.now) (cells_of window) n) }
    ensures small { IfOk result (λ n. n < 2 ^ 63) }
    ensures steps_rise { steps.old ≤ steps.new }
    ensures few_steps { IsInStepBound rects.now steps.old steps.new }
    ensures some_steps { IfOk result (λ n. 0 < n → steps.old < steps.new) }
    ensures no_steps { rects.now ≡ [] → steps.new ≡ steps.old }
{
    area(alloc, rects, window, Depth::Once, steps)
}

/// How many cells of the window lie in at least two rectangles of the list. Equal rectangles are two. The one error is
/// that no memory is left. The bound on steps is that of `area_once`.
pub fn area_twice<L: Ledger>(
    alloc: Global,
    rects: &[Rect],
    window: Rect,
    steps: &mut Steps<L>,
) -> Result<u64, NoMemory>
    ensures tally { IfOk result (λ n. Tally (IsInTwo rects.now) (cells_of window) n) }
    ensures small { IfOk result (λ n. n < 2 ^ 63) }
    ensures steps_rise { steps.old ≤ steps.new }
    ensures few_steps { IsInStepBound rects.now steps.old steps.new }
    ensures some_steps { IfOk result (λ n. 0 < n → steps.old < steps.new) }
    ensures no_steps { rects.now ≡ [] → steps.new ≡ steps.old }
{
    area(alloc, rects, window, Depth::Twice, steps)
}

/// How many cells of the window lie in at least so many rectangles of the list.
///
/// A plane sweep: rows are passed from the lowest to the highest, and a tree tells how wide the columns are that are deep
/// enough. It changes at the lowest row of a rectangle and past its highest, so the rows between two changes are alike.
fn area<L: Ledger>(
    alloc: Global,
    rects: &[Rect],
    window: Rect,
    depth: Depth,
    steps: &mut Steps<L>,
) -> Result<u64, NoMemory>
    ensures tally { IfOk result (λ n. Tally (IsDeep rects.now (least_of depth)) (cells_of window) n) }
    ensures small { IfOk result (λ n. n < 2 ^ 63) }
    ensures steps_rise { steps.old ≤ steps.new }
    ensures few_steps { IsInStepBound rects.now steps.old steps.new }
    ensures some_steps { IfOk result (λ n. 0 < n → steps.old < steps.new) }
{
    let places = places(alloc, rects, window)?;
    let bars = bars(alloc, rects, window, places.as_slice())?;
    if bars.is_empty() {
        return Ok(0);
    }
    let events = events(alloc, bars.as_slice())?;
    let mut tree = CoverTree::new(alloc, places.as_slice())?;
    let mut total: u64 = 0;
    let mut row = window.y0;
    for event in events.as_slice() {
        // the width as it was in all rows before this event
        total += cells(width(&tree, depth), row, event.row);
        row = event.row;
        event.apply(&mut tree, steps);
    }
    Ok(total + cells(width(&tree, depth), row, window.y1))
}

/// The total width of the columns that are deep enough.
fn width(tree: &CoverTree, depth: Depth) -> i64
    ensures { result ≡ pos (width_of_depth (least_of depth) tree.now) }
{
    match depth {
        Depth::Once => tree.once(),
        Depth::Twice => tree.twice(),
    }
}

/// How many cells columns of this total width have in the rows from the one to before the other.
fn cells(width: i64, low: i32, high: i32) -> u64
    requires { unsigned_abs width * unsigned_abs (high -ℤ low) < 2 ^ 63 }
    ensures { result ≡ unsigned_abs width * unsigned_abs (high -ℤ low) }
{
    width.unsigned_abs() * u64::from(high.abs_diff(low))
}
