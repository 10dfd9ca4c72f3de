ghost use Rattle.std.specs.Prelude.{ℤ, ℕ, ◌↔◌, ◌⊎◌, IfNone, IfOk, IfSome, OnOk};
ghost use Rattle.geo_core.specs.Bounds.{IsRadius};
ghost use Rattle.geo_core.specs.Cells.{Has};
ghost use Rattle.geo_core.specs.Intervals.{IsIn};
ghost use Rattle.geo_core.specs.declared.plane.Cell.{Cell};
ghost use Rattle.short_area.specs.Zones.{AreAlikeIn, AreZonesOf};
ghost use Rattle.short_area.specs.inside.ZonesNearCells.{GainsZone, IsInside, IsNearCell, IsNearPlaces};

use geo_core::{Interval, Labelled, Rect, clip};
use lists::NoMemory;
use std::alloc::Global;

/// The places within a window that are at most the radius from one of these.
fn near_places(places: Interval, within: Interval, radius: u32) -> Option<Interval>
    requires { IsRadius radius }
    ensures some { IfSome result (λ near. (x : ℤ) →
        IsIn near.low near.high x ↔ (IsNearPlaces places.low places.high radius x × IsIn within.low within.high x)) }
    ensures none { IfNone result ((x : ℤ) →
        IsNearPlaces places.low places.high radius x → IsIn within.low within.high x → ⊥) }
{
    let by = radius as i32;
    let low = (places.low - by).max(within.low);
    let high = (places.high + by).min(within.high);
    if low >= high {
        return None;
    }
    Some(Interval { low, high })
}

/// The cells of the window that are near the rectangle.
fn zone_of(rect: Rect, window: Rect, radius: u32) -> Option<Rect>
    requires { IsRadius radius }
    ensures { (c : Cell) → IsInside result c ↔ (IsNearCell rect radius c × Has window c) }
{
    let columns = near_places(rect.columns(), window.columns(), radius)?;
    let rows = near_places(rect.rows(), window.rows(), radius)?;
    Some(Rect::of(columns, rows))
}

/// Adds a zone with this label, where there is a rectangle.
fn add_zone(zones: &mut Vec<Labelled>, rect: Option<Rect>, label: usize) -> Result<(), NoMemory>
    ensures { OnOk result (GainsZone zones.old.items zones.new.items rect label) }
{
    if let Some(rect) = rect {
        zones.push(Labelled { rect, label })?;
    }
    Ok(())
}

/// The zones of those pieces that are near the window, with the labels of their pieces. The radius is in database units. The one
/// error is that no memory is left.
pub fn zones_of(
    alloc: Global,
    pieces: &[Labelled],
    window: Rect,
    radius: u32,
) -> Result<Vec<Labelled>, NoMemory>
    requires { IsRadius radius }
    ensures { IfOk result (λ zones. AreZonesOf pieces.now radius window zones.items) }
{
    let mut zones = Vec::with_capacity(alloc, pieces.len())?;
    for piece in pieces {
        add_zone(&mut zones, zone_of(piece.rect, window, radius), piece.label)?;
    }
    Ok(zones)
}

/// What the zones have in a part of the window. The one error is that no memory is left.
pub fn zones_in(alloc: Global, zones: &[Labelled], part: Rect) -> Result<Vec<Labelled>, NoMemory>
    ensures { IfOk result (λ inside. AreAlikeIn part zones.now inside.items) }
{
    let mut inside = Vec::with_capacity(alloc, zones.len() / 2)?;
    for zone in zones {
        add_zone(&mut inside, clip(zone.rect, part), zone.label)?;
    }
    Ok(inside)
}
