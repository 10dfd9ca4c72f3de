ghost use Rattle.near_index.specs.Nearest.{IsDistance};
ghost use Rattle.near_index.specs.inside.Gaps.{IsGap};

use geo_core::{Cell, Interval, Rect};

/// How far the cell is from the rectangle: the greater of the distances in columns and in rows.
pub fn distance(cell: Cell, rect: Rect) -> u32
    ensures { IsDistance cell rect result }
{
    let across = gap(rect.columns(), cell.i);
    let up = gap(rect.rows(), cell.j);
    across.max(up)
}

/// How far the place is from the nearest of the others: 0 where it is one of them.
fn gap(others: Interval, place: i32) -> u32
    ensures { IsGap others.low others.high place result }
{
    if place < others.low {
        return others.low.abs_diff(place);
    }
    let last = others.high - 1;
    if place > last {
        return place.abs_diff(last);
    }
    0
}
