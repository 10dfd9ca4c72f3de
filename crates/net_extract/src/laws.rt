//! Facts about the definitions, each the contract of a function that does nothing else.

ghost use Rattle.std.specs.Prelude.{ℕ, ◌≡◌, ◌↔◌, Contains, List, Some, slice_get};
ghost use Rattle.fault_model.specs.IslandLists.{IslandLists, IsIslandOpen};
ghost use Rattle.fault_model.specs.Nets.{Cut};
ghost use Rattle.fault_model.specs.Vias.{IsViasOpen};
ghost use Rattle.geo_core.specs.Unions.{IsCoveredIn};
ghost use Rattle.geo_core.specs.declared.plane.Cell.{Cell};
ghost use Rattle.geo_core.specs.declared.plane.Rect.{Rect};
ghost use Rattle.map_model.specs.LayerMap.{LayerMap};
ghost use Rattle.net_extract.specs.AnchoredIslands.{AreAnchoredIslands};
ghost use Rattle.net_extract.specs.ContactGroups.{CarryClusters};
ghost use Rattle.net_extract.specs.Cuts.{cuts_of, terminal_cuts_of};
ghost use Rattle.net_extract.specs.Extraction.{AreNetsOf};
ghost use Rattle.net_extract.specs.NetLists.{NetLists};

/// In the nets that `extract` makes, the contact pieces of a cut have exactly its contacts, and two of them carry the same
/// two islands exactly where they are of one via cluster. So the groups of contact pieces are the clusters.
pub fn groups_are_clusters()
    ensures { (layer_map : LayerMap) (lists : List (List Rect)) (nets : NetLists) (number : ℕ) (cut : Cut) →
        AreNetsOf layer_map lists nets → slice_get (cuts_of layer_map) number ≡ Some cut →
        CarryClusters (IsCoveredIn lists) cut nets number }
{}

/// A defect parts two terminals of a metal exactly where it parts two spots of some island of those that `islands` gives for
/// the metal. So each island may be looked at by itself, and those with fewer terminals not at all.
pub fn opens_are_of_islands()
    ensures { (layer_map : LayerMap) (lists : List (List Rect)) (nets : NetLists) (metal : ℕ) (islands : List IslandLists) →
        AreNetsOf layer_map lists nets → AreAnchoredIslands nets metal islands → (s : ℕ) (c : Cell) →
        ((island : IslandLists) × Contains islands island × IsIslandOpen island s c)
        ↔ IsViasOpen (IsCoveredIn lists) (terminal_cuts_of layer_map) (λ d. Contains layer_map.terminals (metal, d)) metal s c }
{}
