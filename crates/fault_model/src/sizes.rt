//! Laws of the sizes of defects.

ghost use Rattle.std.specs.Prelude.{pos, ℕ, ◌+◌, ◌-◌, ◌/◌, ◌≤◌, ◌↔◌};
ghost use Rattle.geo_core.specs.Cells.{Has, IsNear, ComesNear};
ghost use Rattle.geo_core.specs.declared.plane.Cell.{Cell};
ghost use Rattle.geo_core.specs.declared.plane.Half.{Half};
ghost use Rattle.geo_core.specs.declared.plane.Rect.{Rect};
ghost use Rattle.fault_model.specs.Halves.{IsOn, IsInFootprint, IsTouched, IsSwallowed};

/// A defect of radius `r` reaches the cells up to a distance of `r`, and has all of those up to a distance of `r - 1`.
/// Of the distances of two cells in the two directions the greater one counts.
pub fn radii_reach()
    ensures touches { (r : ℕ) (c d : Cell) → 1 ≤ r → IsTouched c (r + r) d ↔ IsNear c d (pos r) }
    ensures covers { (r : ℕ) (c d : Cell) → 1 ≤ r → IsSwallowed c (r + r) d ↔ IsNear c d (pos (r - 1)) }
{}

/// Of a defect of side `s` the reach is `s / 2`, rounded down: so far away are the cells that it touches at most. It
/// has all of a cell where the cell is at most `(s - 1) / 2` away, rounded down.
pub fn sides_reach()
    ensures touches { (s : ℕ) (c d : Cell) → 1 ≤ s → IsTouched c s d ↔ IsNear c d (pos (s / 2)) }
    ensures covers { (s : ℕ) (c d : Cell) → 1 ≤ s → IsSwallowed c s d ↔ IsNear c d (pos ((s - 1) / 2)) }
{}

/// A defect of side 0 touches no cell, which is why a side is at least 1.
pub fn side_0_touches_none()
    ensures { (c d : Cell) → IsTouched c 0 d → ⊥ }
{}

/// A defect of side `s` has a half square of a rectangle exactly where the rectangle comes as near to the defect's cell
/// as the defect reaches, which is `s / 2`, rounded down.
pub fn footprints_come_near()
    ensures { (rect : Rect) (s : ℕ) (c : Cell) → 1 ≤ s →
        ComesNear rect (pos (s / 2)) c ↔ (h : Half) × IsOn (Has rect) h × IsInFootprint c s h }
{}
