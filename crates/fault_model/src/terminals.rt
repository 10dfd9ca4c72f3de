//! Laws of terminals and opens.

ghost use Rattle.std.specs.Prelude.{ℕ, [], ◌≡◌, ◌≢◌, ◌↔◌};
ghost use Rattle.geo_core.specs.declared.plane.Cell.{Cell};
ghost use Rattle.geo_core.specs.declared.plane.Half.{Half};
ghost use Rattle.fault_model.specs.Halves.{LiesIn, IsSwallowed};
ghost use Rattle.fault_model.specs.Walks.{IsSameIsland};
ghost use Rattle.fault_model.specs.Faults.{AreTied, AreParted, IsCellsOpen};
ghost use Rattle.fault_model.specs.Vias.{IsViasOpen};

use super::sets::{Layout, Property};

/// Where no cell is named as a terminal, nothing is open.
#[tactic(auto, using(crate::proofs::TerminalLaws::no_terminal))]
pub fn no_terminal_is_parted<P: Property, T: Property>()
    ensures { (s : ℕ) (c : Cell) → ((d : Cell) → T.holds d → ⊥) → IsCellsOpen P.holds T.holds s c → ⊥ }
{}

/// Where one cell alone is named as a terminal, nothing is open.
#[tactic(auto, using(crate::proofs::TerminalLaws::one_terminal))]
pub fn one_terminal_is_not_parted<P: Property, T: Property>()
    ensures { (s : ℕ) (c : Cell) →
        ((d e : Cell) → T.holds d → T.holds e → d ≡ e) → IsCellsOpen P.holds T.holds s c → ⊥ }
{}

/// A terminal that is wholly covered is parted from each other, and that is an open where the two are of one island.
pub fn covered_terminals_are_parted<P: Property, T: Property>()
    ensures parted { (s : ℕ) (c d e : Cell) → IsSwallowed c s d →
        AreParted P.holds c s (λ h. LiesIn h d) (λ h. LiesIn h e) }
    ensures opened { (s : ℕ) (c d e : Cell) (p q : Half) →
        T.holds d → T.holds e → d ≢ e → LiesIn p d → LiesIn q e → IsSameIsland P.holds p q →
        IsSwallowed c s d → IsCellsOpen P.holds T.holds s c }
{}

/// Two covered cells are tied by one half square of each exactly where all their half squares are of one island.
pub fn cells_are_tied_as_wholes<P: Property>()
    ensures { (d e : Cell) → P.holds d → P.holds e →
        AreTied P.holds (λ h. LiesIn h d) (λ h. LiesIn h e) ↔
        ((p q : Half) → LiesIn p d → LiesIn q e → IsSameIsland P.holds p q) }
{}

/// Where there are no cuts, the terminals with via clusters among them are the named cells.
#[tactic(auto, using(crate::proofs::TerminalLaws::no_vias))]
pub fn no_vias_are_cells<L: Layout, T: Property>()
    ensures { (m s : ℕ) (c : Cell) → IsViasOpen L.covers [] T.holds m s c ↔ IsCellsOpen (L.covers m) T.holds s c }
{}
