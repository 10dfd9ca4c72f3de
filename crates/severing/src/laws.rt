//! Laws of what is left of islands.

ghost use Rattle.std.specs.Prelude.{ℕ, List, ◌≤◌, ◌≡◌, ◌↔◌};
ghost use Rattle.geo_core.specs.Cells.{Has};
ghost use Rattle.geo_core.specs.declared.axis.Axis.TheVariants.{X, Y};
ghost use Rattle.geo_core.specs.declared.plane.Cell.{Cell};
ghost use Rattle.geo_core.specs.declared.plane.Half.{Half};
ghost use Rattle.geo_core.specs.declared.plane.Rect.{Rect};
ghost use Rattle.fault_model.specs.Halves.{IsInFootprint};
ghost use Rattle.fault_model.specs.IslandLists.{IslandLists, IsAnchoredIsland, IsIslandOpen};
ghost use Rattle.half_boxes.specs.HalfBoxes.{HasHalf};
ghost use Rattle.half_boxes.specs.declared.boxes.HalfBox.{HalfBox};
ghost use Rattle.severing.specs.Changes.{HasNear, IsSteady};
ghost use Rattle.severing.specs.Severing.{IsSevered};

use fault_model::HalfSet;

/// A defect makes an open of an island's anchors exactly where the removal of its half squares parts two of them.
pub fn defects_sever_islands()
    ensures { (island : IslandLists) (s : ℕ) (c : Cell) → IsAnchoredIsland island →
        IsIslandOpen island s c ↔ IsSevered island (IsInFootprint c s) }
{}

/// The removal of more parts what the removal of less does.
pub fn larger_removals_sever<R: HalfSet, S: HalfSet>()
    ensures { (island : IslandLists) → ((h : Half) → R.has h → S.has h) → IsSevered island R.has → IsSevered island S.has }
{}

/// So a defect parts what the removal of a box parts whose half squares it has, and the removal of a box parts what a
/// defect parts that lies in it.
pub fn boxes_and_defects_sever()
    ensures defects { (island : IslandLists) (one : HalfBox) (s : ℕ) (c : Cell) →
        ((h : Half) → HasHalf one h → IsInFootprint c s h) → IsSevered island (HasHalf one) →
        IsSevered island (IsInFootprint c s) }
    ensures boxes { (island : IslandLists) (one : HalfBox) (s : ℕ) (c : Cell) →
        ((h : Half) → IsInFootprint c s h → HasHalf one h) → IsSevered island (IsInFootprint c s) →
        IsSevered island (HasHalf one) }
{}

/// Where nothing near changes from column to column of a zone, the defects in a row of it part the same.
pub fn steady_columns_sever_alike()
    ensures { (island : IslandLists) (side : ℕ) (zone : Rect) (near : List HalfBox) → 1 ≤ side →
        HasNear island zone side near → IsSteady X zone side near → (c d : Cell) → Has zone c → Has zone d → c.j ≡ d.j →
        IsSevered island (IsInFootprint c side) ↔ IsSevered island (IsInFootprint d side) }
{}

/// Where nothing near changes from row to row of a zone, the defects in a column of it part the same.
pub fn steady_rows_sever_alike()
    ensures { (island : IslandLists) (side : ℕ) (zone : Rect) (near : List HalfBox) → 1 ≤ side →
        HasNear island zone side near → IsSteady Y zone side near → (c d : Cell) → Has zone c → Has zone d → c.i ≡ d.i →
        IsSevered island (IsInFootprint c side) ↔ IsSevered island (IsInFootprint d side) }
{}
