ghost use Rattle.std.specs.Prelude.{IfOk};
ghost use Rattle.open_grid.specs.inside.ZoneSteps.{AreStretched, IsStretched};

use geo_core::{Axis, Rect};
use lists::NoMemory;
use std::alloc::Global;

/// The rectangles along all of the zone.
pub fn stretched(
    alloc: Global,
    lines: &[Rect],
    zone: Rect,
    axis: Axis,
) -> Result<Vec<Rect>, NoMemory>
    ensures { IfOk result (λ rects. AreStretched axis zone lines.now rects.items) }
{
    let mut rects = Vec::with_capacity(alloc, lines.len())?;
    for line in lines {
        rects.push(stretch(*line, zone, axis))?;
    }
    Ok(rects)
}

/// The rectangle along all of the zone.
fn stretch(line: Rect, zone: Rect, axis: Axis) -> Rect
    ensures { IsStretched axis zone line result }
{
    match axis {
        Axis::X => Rect::of(zone.columns(), line.rows()),
        Axis::Y => Rect::of(line.columns(), zone.rows()),
    }
}
