ghost use Rattle.std.specs.Prelude.{ℤ, ℕ, pos, ◌↔◌, ◌-ℤ◌, ◌+ℤ◌, ◌≤ℤ◌, IfOk, IsTrue, OnOk};
ghost use Rattle.geo_core.specs.Intervals.{IntervalsOverlap};
ghost use Rattle.near_index.specs.Near.{AreNear, IsNearTile};
ghost use Rattle.near_index.specs.inside.Gaining.{GainsNear};

use super::rectangular::Rectangular;
use geo_core::{Interval, Rect};
use lists::NoMemory;
use std::alloc::Global;

/// Exactly those of the pieces whose rectangle, grown by the reach, has a cell in the tile, in the given order. These alone
/// decide what defects of that reach do at the cells of the tile.
///
/// It looks at each of the pieces. Where there are many tiles, a `NearIndex` serves better. The one error is that no memory is
/// left.
pub fn near<T: Rectangular>(
    alloc: Global,
    pieces: &[T],
    tile: Rect,
    reach: u32,
) -> Result<Vec<T>, NoMemory>
    ensures { IfOk result (λ found. AreNear T.rect_of tile reach pieces.now found.items) }
{
    let mut found = Vec::new(alloc);
    add_near(&mut found, pieces, tile, reach)?;
    Ok(found)
}

/// Adds those of the pieces that are near the tile, in order.
pub fn add_near<T: Rectangular>(
    found: &mut Vec<T>,
    pieces: &[T],
    tile: Rect,
    reach: u32,
) -> Result<(), NoMemory>
    ensures { OnOk result (GainsNear T.rect_of tile reach pieces.now found.old.items found.new.items) }
{
    for piece in pieces {
        if is_near(piece.rect(), tile, reach) {
            found.push(*piece)?;
        }
    }
    Ok(())
}

/// Whether the tile has a cell of the rectangle, grown by the reach.
pub fn is_near(rect: Rect, tile: Rect, reach: u32) -> bool
    ensures { IsTrue result ↔ IsNearTile tile reach rect }
{
    if !come_near(rect.columns(), tile.columns(), reach) {
        return false;
    }
    come_near(rect.rows(), tile.rows(), reach)
}

/// Whether one of these places is at most the reach from one of the others.
fn come_near(places: Interval, others: Interval, reach: u32) -> bool
    ensures { IsTrue result ↔ IntervalsOverlap (places.low -ℤ pos reach) (places.high +ℤ pos reach) others.low others.high }
{
    if end_before(places, others, reach) {
        return false;
    }
    if end_before(others, places, reach) {
        return false;
    }
    true
}

/// Whether these places, moved up by the reach, still come before all of the others.
fn end_before(places: Interval, others: Interval, reach: u32) -> bool
    ensures { IsTrue result ↔ ((places.high +ℤ pos reach) ≤ℤ others.low) }
{
    let high = i64::from(places.high) + i64::from(reach);
    let low = i64::from(others.low);
    if high > low {
        return false;
    }
    true
}
