//! Laws of what is nearest to a cell.

ghost use Rattle.std.specs.Prelude.{ℕ, List, All, IfSome, ◌≡◌, ◌≤◌};
ghost use Rattle.std.specs.List.Sorted.{IsPermutation};
ghost use Rattle.geo_core.specs.Cells.{IsInLayout};
ghost use Rattle.geo_core.specs.declared.plane.Cell.{Cell};
ghost use Rattle.geo_core.specs.declared.plane.Labelled.{Labelled};
ghost use Rattle.geo_core.specs.declared.plane.Rect.{Rect};
ghost use Rattle.near_index.specs.Nearest.{IsDistance, IsLayoutCell, IsNearestTwo};
ghost use Rattle.near_index.specs.declared.nearest.Nearest.{Nearest};

/// Each cell has a distance to each rectangle, and one alone. In a layout it is at most 1,999,999,999.
pub fn distances_are_one()
    ensures some { (cell : Cell) (rect : Rect) → (distance : ℕ) × IsDistance cell rect distance }
    ensures one { (cell : Cell) (rect : Rect) (one other : ℕ) → IsDistance cell rect one → IsDistance cell rect other → one ≡ other }
    ensures within { (cell : Cell) (rect : Rect) (distance : ℕ) → IsLayoutCell cell → IsInLayout rect →
        IsDistance cell rect distance → distance ≤ 1999999999 }
{}

/// The nearest two of pieces are the same whoever finds them, and in whatever order the pieces stand. In a layout neither is further
/// away than 1,999,999,999.
pub fn nearest_two_are_one()
    ensures one { (pieces : List Labelled) (cell : Cell) (one other : Nearest) →
        IsNearestTwo pieces cell one → IsNearestTwo pieces cell other → one ≡ other }
    ensures in_any_order { (pieces others : List Labelled) (cell : Cell) (nearest : Nearest) → IsPermutation pieces others →
        IsNearestTwo others cell nearest → IsNearestTwo pieces cell nearest }
    ensures within { (pieces : List Labelled) (cell : Cell) (nearest : Nearest) → IsLayoutCell cell →
        All (λ piece. IsInLayout piece.rect) pieces → IsNearestTwo pieces cell nearest →
        IfSome nearest.first (λ near. near.distance ≤ 1999999999) × IfSome nearest.second (λ near. near.distance ≤ 1999999999) }
{}
