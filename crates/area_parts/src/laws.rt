//! Facts about the definitions, each the contract of a function that does nothing else.

ghost use Rattle.std.specs.Prelude.{ℕ, Contains, false, ◌≡◌, ◌↔◌};
ghost use Rattle.area_parts.specs.FaultKinds.{IsFault};
ghost use Rattle.area_parts.specs.Rows.{AreRows};
ghost use Rattle.fault_model.specs.Faults.{IsCellsOpen};
ghost use Rattle.first_refusal.specs.Laws.{IsUnique};
ghost use Rattle.geo_core.specs.declared.plane.Cell.{Cell};
ghost use Rattle.map_model.specs.LayerMap.{LayerMap};
ghost use Rattle.questions.specs.declared.kind.Kind.TheVariants.{Open};

use fault_model::Layout;

/// The questions of a layer map have one list of rows at most, whatever its metals and cuts cover.
pub fn rows_agree<L: Layout>()
    ensures { (layer_map : LayerMap) → IsUnique (AreRows layer_map L.covers) }
{}

/// Where a layer map does not say that via clusters are terminals, what rows count as opens are opens between cells: a defect makes
/// one of a metal exactly where it parts two of the cells that the map names as the metal's terminals.
pub fn opens_are_of_cells<L: Layout>()
    ensures { (layer_map : LayerMap) (metal s : ℕ) (c : Cell) → layer_map.contacts ≡ false →
        IsFault layer_map L.covers Open metal s c ↔
        IsCellsOpen (L.covers metal) (λ d. Contains layer_map.terminals (metal, d)) s c }
{}
