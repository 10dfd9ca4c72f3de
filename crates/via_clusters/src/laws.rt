//! Facts about the definitions, each the contract of a function that does nothing else.

ghost use Rattle.std.specs.Prelude.{ℕ, List, All, Some, slice_get, ◌+◌, ◌/◌, ◌≤◌, ◌≡◌, ◌↔◌};
ghost use Rattle.fault_model.specs.Areas.{IsBoundsOf, Tally};
ghost use Rattle.fault_model.specs.Faults.{IsViaBlock};
ghost use Rattle.fault_model.specs.Halves.{IsSwallowed};
ghost use Rattle.fault_model.specs.Nets.{Cut};
ghost use Rattle.geo_core.specs.Cells.{Has, IsInLayout};
ghost use Rattle.geo_core.specs.Unions.{IsCoveredIn};
ghost use Rattle.geo_core.specs.declared.plane.Cell.{Cell};
ghost use Rattle.geo_core.specs.declared.plane.Rect.{Rect};
ghost use Rattle.map_model.specs.LayerMap.{LayerMap};
ghost use Rattle.net_extract.specs.Cuts.{cuts_of};
ghost use Rattle.net_extract.specs.Extraction.{AreNetsOf};
ghost use Rattle.net_extract.specs.NetLists.{NetLists};
ghost use Rattle.via_clusters.specs.Blocks.{CoversSomeBox};
ghost use Rattle.via_clusters.specs.Clusters.{AreClusterBoxes};

use fault_model::Property;

/// A defect covers all cells of a set, of which there is one, exactly where it covers those of the least rectangle that
/// has the set.
pub fn defects_cover_bounds<P: Property>()
    ensures { (s : ℕ) (box : Rect) (c member : Cell) → 1 ≤ s → IsBoundsOf P.holds box → P.holds member →
        ((d : Cell) → P.holds d → IsSwallowed c s d) ↔ ((d : Cell) → Has box d → IsSwallowed c s d) }
{}

/// In nets that `extract` makes, a defect blocks a cluster of a cut exactly where it covers the whole rectangle that
/// `clusters` gives for some cluster. The side `s` stands here for the radius `(s + 1) / 2`, a whole part, which covers the
/// same cells; the radius `r` is the side `r + r`, which stands for itself.
pub fn blocks_are_covered_boxes()
    ensures each { (layer_map : LayerMap) (lists : List (List Rect)) (nets : NetLists) (number : ℕ) (cut : Cut) (boxes : List Rect) →
        AreNetsOf layer_map lists nets → slice_get (cuts_of layer_map) number ≡ Some cut → AreClusterBoxes nets number boxes →
        (s : ℕ) (c : Cell) → 1 ≤ s → IsViaBlock (IsCoveredIn lists) cut s c ↔ CoversSomeBox boxes ((s + 1) / 2) c }
    ensures tally { (layer_map : LayerMap) (lists : List (List Rect)) (nets : NetLists) (number : ℕ) (cut : Cut) (boxes : List Rect) →
        AreNetsOf layer_map lists nets → slice_get (cuts_of layer_map) number ≡ Some cut → AreClusterBoxes nets number boxes →
        (s : ℕ) (cells : List Cell) (n : ℕ) → 1 ≤ s → Tally (CoversSomeBox boxes ((s + 1) / 2)) cells n →
        Tally (IsViaBlock (IsCoveredIn lists) cut s) cells n }
{}

/// The rectangles lie where those of the layers may lie.
pub fn boxes_stay_in_layouts()
    ensures { (layer_map : LayerMap) (lists : List (List Rect)) (nets : NetLists) (number : ℕ) (cut : Cut) (boxes : List Rect) →
        AreNetsOf layer_map lists nets → slice_get (cuts_of layer_map) number ≡ Some cut → AreClusterBoxes nets number boxes →
        All (All IsInLayout) lists → All IsInLayout boxes }
{}
