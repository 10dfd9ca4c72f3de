//! Laws of tiles, of tallies over them, and of what is near a tile.

ghost use Rattle.std.specs.Prelude.{ℕ, List, sum, ◌+◌, ◌/◌, ◌<◌, ◌≤◌, ◌≡◌, ◌↔◌};
ghost use Rattle.std.specs.List.Sorted.{IsPermutation};
ghost use Rattle.geo_core.specs.Cells.{Has};
ghost use Rattle.geo_core.specs.declared.plane.Cell.{Cell};
ghost use Rattle.geo_core.specs.Unions.{IsInUnion};
ghost use Rattle.geo_core.specs.declared.plane.Labelled.{Labelled};
ghost use Rattle.geo_core.specs.declared.plane.Rect.{Rect};
ghost use Rattle.fault_model.specs.Areas.{Tally, cells_of};
ghost use Rattle.tile_plan.specs.NearTiles.{AreNear, HasExactlyNear, HitsLabel, HitsTwoLabels, IsHit, IsNearTile};
ghost use Rattle.tile_plan.specs.Tiles.{IsInTile, IsTile, tile_count};
ghost use Rattle.tile_plan.specs.TileTallies.{AreTalliesOfTiles, IsTallyOfFirst};
ghost use Rattle.tile_plan.specs.declared.tiles.TilePlan.{TilePlan as Plan};

use fault_model::Property;
use near_index::Rectangular;

/// Each cell of the window lies in exactly one tile, and no other cell lies in one. Each tile is a rectangle, and there is one
/// rectangle alone that is it.
pub fn tiles_part_the_window()
    ensures some { (plan : Plan) (c : Cell) → Has plan.window c → (k : ℕ) × (k < tile_count plan) × IsInTile plan k c }
    ensures one { (plan : Plan) (j k : ℕ) (c : Cell) → j < tile_count plan → k < tile_count plan →
        IsInTile plan j c → IsInTile plan k c → j ≡ k }
    ensures within { (plan : Plan) (k : ℕ) (c : Cell) → IsInTile plan k c → Has plan.window c }
    ensures rectangles { (plan : Plan) (k : ℕ) → k < tile_count plan → (tile : Rect) × IsTile plan k tile }
    ensures alone { (plan : Plan) (k : ℕ) (one other : Rect) → IsTile plan k one → IsTile plan k other → one ≡ other }
{}

/// The tallies over the tiles of a window add up to the tally over the window: one tile after the other, from none of them to
/// all, or all of them at once.
pub fn tallies_of_tiles_add<P: Property>()
    ensures no_tile { (plan : Plan) → IsTallyOfFirst P.holds plan 0 0 }
    ensures next_tile { (plan : Plan) (k m n : ℕ) (tile : Rect) → k < tile_count plan → IsTile plan k tile →
        IsTallyOfFirst P.holds plan k m → Tally P.holds (cells_of tile) n → IsTallyOfFirst P.holds plan (k + 1) (m + n) }
    ensures all_tiles { (plan : Plan) (n : ℕ) → IsTallyOfFirst P.holds plan (tile_count plan) n →
        Tally P.holds (cells_of plan.window) n }
    ensures sum_of_tiles { (plan : Plan) (amounts : List ℕ) → AreTalliesOfTiles P.holds plan amounts →
        Tally P.holds (cells_of plan.window) (sum amounts) }
{}

/// A rectangle is near a tile where a defect at a cell of the tile has a half square of it, and the reach is no less than the
/// defect's: half of its side, rounded down, which is the radius where there is one. It is near, too, where it has a cell of the
/// tile.
pub fn what_is_hit_is_near()
    ensures hit { (tile rect : Rect) (reach s : ℕ) (c : Cell) → Has tile c → s / 2 ≤ reach →
        IsHit c s rect → IsNearTile tile reach rect }
    ensures met { (tile rect : Rect) (reach : ℕ) (c : Cell) → Has tile c → Has rect c → IsNearTile tile reach rect }
{}

/// What is listed as near in order is exactly what is near, and so it is where the things were first put into another order.
pub fn near_things_are_listed<T: Rectangular>()
    ensures in_order { (things found : List T) (tile : Rect) (reach : ℕ) →
        AreNear T.rect_of tile reach things found → HasExactlyNear T.rect_of tile reach things found }
    ensures in_any_order { (things others found : List T) (tile : Rect) (reach : ℕ) → IsPermutation things others →
        AreNear T.rect_of tile reach others found → HasExactlyNear T.rect_of tile reach things found }
{}

/// The law of seams. At a cell of a tile a defect touches the same labels, and so two of them, whether one asks all pieces or
/// exactly those that are near the tile, in any order.
pub fn near_pieces_decide_labels()
    ensures labels { (pieces near : List Labelled) (tile : Rect) (reach s : ℕ) (c : Cell) →
        HasExactlyNear (λ piece. piece.rect) tile reach pieces near → Has tile c → s / 2 ≤ reach →
        (label : ℕ) → HitsLabel near s c label ↔ HitsLabel pieces s c label }
    ensures two_labels { (pieces near : List Labelled) (tile : Rect) (reach s : ℕ) (c : Cell) →
        HasExactlyNear (λ piece. piece.rect) tile reach pieces near → Has tile c → s / 2 ≤ reach →
        HitsTwoLabels near s c ↔ HitsTwoLabels pieces s c }
{}

/// The rectangles that are near a tile have the same cells of it as all of them have, whatever the reach.
pub fn near_rectangles_decide_cells()
    ensures { (rects near : List Rect) (tile : Rect) (reach : ℕ) (c : Cell) →
        HasExactlyNear (λ rect. rect) tile reach rects near → Has tile c → IsInUnion near c ↔ IsInUnion rects c }
{}
