ghost use Rattle.std.specs.Prelude.{ℤ, pos, ◌*◌, ◌≤◌, ◌+ℤ◌, ◌<ℤ◌, ◌↔◌};
ghost use Rattle.geo_core.specs.Intervals.{IsIn};
ghost use Rattle.tile_plan.specs.TilesAlong.{AreTilesAlong, IsInTileAlong};

use geo_core::{Interval, Rect};

/// The greatest edge of a tile, in database units.
pub const GREATEST_EDGE: u32 = 1_000_000_000;

/// A plan has at most so many tiles.
pub const MOST_TILES: u64 = 1_000_000;

// Definitions have the numbers themselves, so that a changed bound is refused here.
const _: () = prove!(GREATEST_EDGE == 1_000_000_000);

const _: () = prove!(MOST_TILES == 1_000_000);

/// The tiles of a window: squares with this edge, in columns and rows from the window's lower left, of which each has what lies
/// in the window. Tile `k` stands in column `k % columns` and row `k / columns`.
#[derive(Clone, Copy)]
pub struct TilePlan {
    pub window: Rect,
    /// The width and the height of a tile, in database units: from 1 to 1,000,000,000.
    pub edge: u32,
    /// How many tiles stand beside one another: the window's width, divided by the edge and rounded up.
    pub columns: u64,
    /// How many stand over one another: the window's height, divided by the edge and rounded up.
    pub rows: u64,
    pub ghost some: { 1 ≤ edge },
    pub ghost short: { edge ≤ 1000000000 },
    pub ghost across: { AreTilesAlong window.x0 window.x1 edge columns },
    pub ghost up: { AreTilesAlong window.y0 window.y1 edge rows },
    pub ghost few: { columns * rows ≤ 1000000 },
}

impl TilePlan {
    ghost use Rattle.std.specs.Prelude.{◌≡◌, ◌*◌, ◌<◌, ◌^◌};
    ghost use Rattle.tile_plan.specs.Tiles.{IsGreatestTile, IsTile, tile_count};

    /// How many tiles there are. It is from 1 to 1,000,000.
    pub fn count(&self) -> u64
        ensures count { result ≡ tile_count self.now }
        ensures some { 1 ≤ result }
        ensures few { result ≤ 1000000 }
    {
        self.columns * self.rows
    }

    /// The cells of the tile with this number, counted from 0.
    pub fn tile(&self, k: u64) -> Rect
        requires { k < tile_count self.now }
        ensures { IsTile self.now k result }
    {
        let across = tile_along(self.window.columns(), self.edge, k % self.columns);
        let up = tile_along(self.window.rows(), self.edge, k / self.columns);
        Rect::of(across, up)
    }

    /// The greatest number of cells of a tile. The first tile has so many.
    pub fn cap(&self) -> u64
        ensures greatest { IsGreatestTile self.now result }
        ensures product { tile_count self.now * result < 2 ^ 63 }
    {
        let first = self.tile(0);
        let width = first.x1.abs_diff(first.x0);
        let height = first.y1.abs_diff(first.y0);
        u64::from(width) * u64::from(height)
    }
}

/// The places of these that lie in the tile with this number, counted from 0 at the lowest place. There has to be one.
fn tile_along(places: Interval, edge: u32, number: u64) -> Interval
    requires some { 1 ≤ edge }
    requires short { edge ≤ 1000000000 }
    requires begins { (places.low +ℤ pos (number * edge)) <ℤ places.high }
    ensures { (x : ℤ) → IsIn result.low result.high x ↔
        (IsIn places.low places.high x × IsInTileAlong places.low edge number x) }
{
    let start = number * u64::from(edge);
    let low = places.low + start as i32;
    let high = (low + edge as i32).min(places.high);
    Interval { low, high }
}
