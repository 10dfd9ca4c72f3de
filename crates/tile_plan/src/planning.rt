ghost use Rattle.std.specs.Prelude.{◌≡◌, ◌≤◌, ◌*◌, IfNone, IfSome};
ghost use Rattle.tile_plan.specs.TilesAlong.{AreTilesAlong};
ghost use Rattle.tile_plan.specs.Tiles.{HasFewTiles, IsDoubledEdge};

use super::tiles::{MOST_TILES, TilePlan};
use geo_core::{Interval, Rect};

/// The tiles of the window with this edge, which is from 1 to 1,000,000,000, in database units. Where that makes more than
/// 1,000,000 tiles the edge is doubled until it does not, so that no edge is refused.
pub fn plan(window: Rect, edge: u32) -> TilePlan
    requires some { 1 ≤ edge }
    requires short { edge ≤ 1000000000 }
    ensures window { result.window ≡ window }
    ensures edge { IsDoubledEdge window edge result.edge }
    ensures kept { HasFewTiles window edge → result.edge ≡ edge }
{
    match plan_with(window, edge) {
        Some(plan) => plan,
        None => plan(window, edge * 2),
    }
}

/// The tiles with exactly this edge, where there are at most 1,000,000.
fn plan_with(window: Rect, edge: u32) -> Option<TilePlan>
    requires some { 1 ≤ edge }
    requires short { edge ≤ 1000000000 }
    ensures window { IfSome result (λ plan. plan.window ≡ window) }
    ensures edge { IfSome result (λ plan. plan.edge ≡ edge) }
    ensures none { IfNone result (HasFewTiles window edge → ⊥) }

    // A long edge makes few tiles.
    ensures doubles { IfNone result (edge * 2 ≤ 1000000000) }
{
    let columns = tiles_along(window.columns(), edge);
    let rows = tiles_along(window.rows(), edge);
    if columns * rows > MOST_TILES {
        return None;
    }
    Some(TilePlan {
        window,
        edge,
        columns,
        rows,
    })
}

/// How many tiles with this edge reach over the places. There is no more than one for each.
fn tiles_along(places: Interval, edge: u32) -> u64
    requires { 1 ≤ edge }
    ensures tiles { AreTilesAlong places.low places.high edge result }
    ensures small { result ≤ 2002000000 }
{
    let places = u64::from(places.high.abs_diff(places.low));
    places.div_ceil(u64::from(edge))
}
