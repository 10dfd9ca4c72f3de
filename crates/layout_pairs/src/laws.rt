//! Facts about the definitions, each the contract of a function that does nothing else.

ghost use Rattle.std.specs.Prelude.{ℕ, List, [], All, Any, length, ◌<◌, ◌≡◌, ◌↔◌};
ghost use Rattle.area_parts.specs.Rows.{AreRows};
ghost use Rattle.fault_model.specs.Faults.{IsShort};
ghost use Rattle.first_refusal.specs.Laws.{IsUnique};
ghost use Rattle.gauges.specs.declared.pair_row.PairRow.{PairRow};
ghost use Rattle.geo_core.specs.declared.plane.Cell.{Cell};
ghost use Rattle.map_model.specs.LayerMap.{LayerMap};
ghost use Rattle.map_model.specs.Measures.{side_by};
ghost use Rattle.layout_pairs.specs.PairAreas.{ArePairRows, TouchesSomeNets};
ghost use Rattle.net_extract.specs.Cuts.{cuts_of};
ghost use Rattle.questions.specs.declared.kind.Kind.TheVariants.{Short};
ghost use Rattle.questions.specs.declared.row.Row.{Row};

use fault_model::Layout;

/// A layer map, what its layers cover and a size of defects have one list of rows of pairs at most.
pub fn pair_rows_agree<L: Layout>()
    ensures { (layer_map : LayerMap) (size : ℕ) → IsUnique (ArePairRows layer_map L.covers size) }
{}

/// A defect of a size that the map lists makes a short of a metal exactly where it touches two nets with different numbers. This
/// holds wherever there are rows of pairs, which decide at which cells of the window a defect touches two nets. So no pair of
/// nets has a row exactly where each metal's area of shorts at that size is 0.
pub fn pairs_are_shorts<L: Layout>()
    ensures shorts { (layer_map : LayerMap) (size metal : ℕ) (rows : List PairRow) (c : Cell) →
        Any (λ listed. listed.size ≡ size) layer_map.sizes → ArePairRows layer_map L.covers size rows →
        metal < length layer_map.metals →
        IsShort L.covers (cuts_of layer_map) metal (side_by layer_map.measure size) c ↔
        TouchesSomeNets L.covers (cuts_of layer_map) metal (side_by layer_map.measure size) c }
    ensures none { (layer_map : LayerMap) (size : ℕ) (rows : List PairRow) (report : List Row) →
        Any (λ listed. listed.size ≡ size) layer_map.sizes → ArePairRows layer_map L.covers size rows →
        AreRows layer_map L.covers report →
        (rows ≡ []) ↔ All (λ row. row.kind ≡ Short → row.size ≡ size → row.area ≡ 0) report }
{}
