//! Facts about the definitions, each the contract of a function that does nothing else.

ghost use Rattle.std.specs.Prelude.{ℕ, ◌≡◌, ◌↔◌, Contains, List};
ghost use Rattle.std.specs.List.{zip};
ghost use Rattle.geo_core.specs.declared.plane.Cell.{Cell};
ghost use Rattle.geo_core.specs.declared.plane.Labelled.{Labelled};
ghost use Rattle.net_numbers.specs.FirstCells.{AreFirstCells, HaveOwnCells, IsLabelCell, IsNumberOf, IsNumbered};

/// The definition leaves no choice: pieces have one list of first cells, and get numbers in one way.
pub fn numbers_are_determined()
    ensures first_cells { (pieces : List Labelled) (cells other : List Cell) →
        AreFirstCells pieces cells → AreFirstCells pieces other → cells ≡ other }
    ensures numbered { (pieces numbered other : List Labelled) →
        IsNumbered pieces numbered → IsNumbered pieces other → numbered ≡ other }
{}

/// Where no cell belongs to two labels, a number has the cells of the label that it stands for.
pub fn numbers_keep_cells()
    ensures { (pieces numbered : List Labelled) (cells : List Cell) (label number : ℕ) (c : Cell) →
        HaveOwnCells pieces → IsNumbered pieces numbered → AreFirstCells pieces cells → IsNumberOf pieces cells label number →
        IsLabelCell numbered number c ↔ IsLabelCell pieces label c }
{}

/// Where no cell belongs to two labels, two pieces get one number exactly where they have one label.
pub fn numbers_tell_labels()
    ensures { (pieces numbered : List Labelled) (p q : Labelled × Labelled) →
        HaveOwnCells pieces → IsNumbered pieces numbered →
        Contains (zip pieces numbered) p → Contains (zip pieces numbered) q →
        (p.1.label ≡ q.1.label) ↔ (p.0.label ≡ q.0.label) }
{}
