ghost use Rattle.std.specs.Prelude.{Contains, IfOk, IfSome, IfNone};
ghost use Rattle.cover_tree.specs.Columns.{AreRising};
ghost use Rattle.depth_sweep.specs.inside.Bars.{AreBarsOf, HasNoPart, IsBarOf};
ghost use Rattle.depth_sweep.specs.inside.SweepPlaces.{ArePlaces, moved};

use super::bar::Bar;
use super::places::{moved_into, number_of};
use geo_core::Rect;
use lists::NoMemory;
use std::alloc::Global;

/// The bars of the rectangles that have cells in the window.
pub fn bars(
    alloc: Global,
    rects: &[Rect],
    window: Rect,
    places: &[i32],
) -> Result<Vec<Bar>, NoMemory>
    requires { ArePlaces window rects.now places.now }
    ensures { IfOk result (λ bars. AreBarsOf window rects.now places.now bars.items) }
{
    let mut bars = Vec::new(alloc);
    for rect in rects {
        if let Some(bar) = bar_of(*rect, window, places) {
            bars.push(bar)?;
        }
    }
    Ok(bars)
}

/// The bar of a rectangle whose sides, moved into the window, are places.
fn bar_of(rect: Rect, window: Rect, places: &[i32]) -> Option<Bar>
    requires rising { AreRising places.now }
    requires left { Contains places.now (moved window.x0 window.x1 rect.x0) }
    requires right { Contains places.now (moved window.x0 window.x1 rect.x1) }
    ensures some { IfSome result (IsBarOf window places.now rect) }
    ensures none { IfNone result (HasNoPart window rect) }
{
    let left = moved_into(window.columns(), rect.x0);
    let right = moved_into(window.columns(), rect.x1);
    let bottom = moved_into(window.rows(), rect.y0);
    let top = moved_into(window.rows(), rect.y1);
    if left >= right || bottom >= top {
        return None;
    }
    Some(Bar {
        low: number_of(places, left),
        high: number_of(places, right),
        bottom,
        top,
    })
}
