//! Facts about the definitions, each the contract of a function that does nothing else.

ghost use Rattle.std.specs.Prelude.{ℕ, List, ◌/◌, ◌≤◌, ◌↔◌};
ghost use Rattle.area_parts.specs.AreaParts.{ArePartsOf, ArePiecesOf};
ghost use Rattle.area_parts.specs.AskedCounts.{AreCounted};
ghost use Rattle.area_parts.specs.declared.parts.Parts.{Parts};
ghost use Rattle.critical_areas.specs.RoundPieces.{IsRound};
ghost use Rattle.area_parts.specs.Rows.{AreAmounts};
ghost use Rattle.fault_model.specs.Faults.{IsShort};
ghost use Rattle.fault_model.specs.IslandLists.{IslandLists, IsIslandOpen};
ghost use Rattle.fault_model.specs.Nets.{Cut};
ghost use Rattle.geo_core.specs.Cells.{Has};
ghost use Rattle.geo_core.specs.Unions.{IsCoveredIn};
ghost use Rattle.geo_core.specs.declared.plane.Cell.{Cell};
ghost use Rattle.geo_core.specs.declared.plane.Labelled.{Labelled};
ghost use Rattle.geo_core.specs.declared.plane.Rect.{Rect};
ghost use Rattle.map_model.specs.LayerMap.{LayerMap};
ghost use Rattle.tile_plan.specs.NearTiles.{HasExactlyNear, HitsTwoLabels, IsNearTile};

use fault_model::Layout;

/// The law of seams. At a cell of a tile a defect makes a short of a metal exactly where it touches two labels of the metal's
/// pieces that are near the tile. The labels tell the nets apart, and the reach is no less than the defect's: half of its side,
/// rounded down, which is the radius where there is one.
pub fn near_pieces_decide_shorts<L: Layout>()
    ensures { (cuts : List Cut) (metal : ℕ) (pieces near : List Labelled) (tile : Rect) (reach s : ℕ) (c : Cell) →
        ArePiecesOf L.covers cuts metal pieces → HasExactlyNear (λ piece. piece.rect) tile reach pieces near → Has tile c →
        s / 2 ≤ reach → HitsTwoLabels near s c ↔ IsShort L.covers cuts metal s c }
{}

/// So it is for opens: at a cell of a tile no defect parts two anchors of an island where a rectangle round the island's pieces is not
/// near the tile. The way round the defect may lie far off, but one that has nothing of the island leaves it whole.
pub fn near_islands_decide_opens()
    ensures { (tile hull : Rect) (island : IslandLists) (reach s : ℕ) (c : Cell) → IsRound hull island.pieces → Has tile c →
        s / 2 ≤ reach → (IsNearTile tile reach hull → ⊥) → IsIslandOpen island s c → ⊥ }
{}

/// What is counted over the parts of a layer map for its questions are the amounts of their faults.
pub fn counts_are_amounts()
    ensures { (layer_map : LayerMap) (lists : List (List Rect)) (parts : Parts) (cells : List Cell) (amounts : List ℕ) →
        ArePartsOf layer_map lists parts → AreCounted parts cells parts.questions amounts →
        AreAmounts layer_map (IsCoveredIn lists) cells amounts }
{}
