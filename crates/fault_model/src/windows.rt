//! Laws of windows and of the cells that they list.

ghost use Rattle.std.specs.Prelude.{ℕ, List, Option, Contains, ◌/◌, ◌≤◌, ◌≡◌, ◌↔◌};
ghost use Rattle.geo_core.specs.Cells.{Has};
ghost use Rattle.geo_core.specs.declared.plane.Cell.{Cell};
ghost use Rattle.geo_core.specs.declared.plane.Rect.{Rect};
ghost use Rattle.fault_model.specs.Halves.{IsTouched};
ghost use Rattle.fault_model.specs.Areas.{Tally, cells_of, cells_of_window, IsCovered, IsWindow, IsWindowOf};
ghost use Rattle.fault_model.specs.Faults.{IsShort, IsViaBlock};
ghost use Rattle.fault_model.specs.Nets.{Cut};
ghost use Rattle.fault_model.specs.Vias.{IsViasOpen};

use super::sets::{Layout, Property};

/// The list of a rectangle's cells has each of them once and no other.
pub fn cells_are_listed_once()
    ensures same_cells { (rect : Rect) (c : Cell) → Contains (cells_of rect) c ↔ Has rect c }
    ensures once { (rect : Rect) (c : Cell) → Has rect c → Tally (λ d. d ≡ c) (cells_of rect) 1 }
    ensures no_others { (rect : Rect) (c : Cell) → (Has rect c → ⊥) → Tally (λ d. d ≡ c) (cells_of rect) 0 }
{}

/// There is at most one window, and none exactly where no cell is covered, so its cells are listed in one way.
#[tactic(auto, using(crate::proofs::WindowLaws::agree))]
pub fn windows_agree<P: Property>()
    ensures { (reach : ℕ) (v w : Option Rect) →
        IsWindowOf P.holds reach v → IsWindowOf P.holds reach w → cells_of_window v ≡ cells_of_window w }
{}

/// A defect whose side is at most twice the reach, or one more, touches a covered cell at cells of the window alone.
pub fn touches_stay_in_windows<P: Property>()
    ensures { (reach s : ℕ) (window : Rect) (c d : Cell) →
        IsWindow P.holds reach window → s / 2 ≤ reach → P.holds d → IsTouched c s d → Has window c }
{}

/// So does it make each of the three faults, with any cuts and any cells as terminals: the window has each cell at which
/// one happens.
pub fn faults_stay_in_windows<L: Layout, T: Property>()
    ensures shorts { (cuts : List Cut) (m reach s : ℕ) (window : Rect) (c : Cell) →
        IsWindow (IsCovered L.covers) reach window → s / 2 ≤ reach → IsShort L.covers cuts m s c → Has window c }
    ensures opens { (cuts : List Cut) (m reach s : ℕ) (window : Rect) (c : Cell) →
        IsWindow (IsCovered L.covers) reach window → s / 2 ≤ reach → IsViasOpen L.covers cuts T.holds m s c →
        Has window c }
    ensures blocks { (cut : Cut) (reach s : ℕ) (window : Rect) (c : Cell) →
        IsWindow (IsCovered L.covers) reach window → s / 2 ≤ reach → IsViaBlock L.covers cut s c → Has window c }
{}
