ghost use Rattle.std.specs.Prelude.{◌≡◌, ◌<◌, ◌^◌, IfOk};
ghost use Rattle.fault_model.specs.Areas.{Tally, cells_of};
ghost use Rattle.skyline_runs.specs.Runs.{IsInTwo};

use depth_sweep::area_twice;
use geo_core::{Rect, Steps};
use lists::NoMemory;
use std::alloc::Global;
use std::marker::Brand;
use std::sync::ledger::{Blank, Ledger};

/// How many cells of the window lie in two of the rectangles.
pub fn area_of_two(alloc: Global, rects: &[Rect], window: Rect) -> Result<u64, NoMemory>
    ensures tally { IfOk result (λ n. Tally (IsInTwo rects.now) (cells_of window) n) }
    ensures small { IfOk result (λ n. n < 2 ^ 63) }
{
    counted_area_of_two::<Brand>(alloc, rects, window, Blank::new(1))
}

/// The same, with a counter of its own for steps, which nobody reads.
fn counted_area_of_two<L: Ledger>(
    alloc: Global,
    rects: &[Rect],
    window: Rect,
    blank: Blank,
) -> Result<u64, NoMemory>
    requires name { blank.name ≡ L.name }
    requires parts { blank.parts ≡ L.parts }
    requires some { 0 < blank.parts }
    ensures tally { IfOk result (λ n. Tally (IsInTwo rects.now) (cells_of window) n) }
    ensures small { IfOk result (λ n. n < 2 ^ 63) }
{
    let mut steps = Steps::<L>::start(blank);
    area_twice(alloc, rects, window, &mut steps)
}
