//! Facts about the definitions, each the contract of a function that does nothing else.

ghost use Rattle.std.specs.Prelude.{ℕ, List, Contains, Some, slice_get, ◌≡◌, ◌↔◌};
ghost use Rattle.area_parts.specs.Rows.{AreRows};
ghost use Rattle.geo_core.specs.Unions.{IsInUnion};
ghost use Rattle.geo_core.specs.declared.plane.Cell.{Cell};
ghost use Rattle.geo_core.specs.declared.plane.Rect.{Rect};
ghost use Rattle.lists.specs.Differing.{AreDifferent};
ghost use Rattle.map_model.specs.LayerMap.{LayerMap, layers_of};
ghost use Rattle.map_model.specs.Layers.{names_of};
ghost use Rattle.layout_regions.specs.Regions.{IsRegion, cell_count};
ghost use Rattle.questions.specs.Questions.{IsRowFor, questions};
ghost use Rattle.questions.specs.declared.kind.Kind.{Kind};
ghost use Rattle.questions.specs.declared.question.Question.{Question};
ghost use Rattle.questions.specs.declared.row.Row.{Row};

use fault_model::Layout;

/// The region of a row has as many cells as the row says: the row that stands in the report where its question stands among those of
/// the map, and, where the names of the map's layers differ, as a map's do, each row that is for the question.
pub fn region_counts<L: Layout>()
    ensures at_its_place { (layer_map : LayerMap) (rows : List Row) (k : ℕ) (question : Question) (row : Row) (rects : List Rect) →
        AreRows layer_map L.covers rows → slice_get (questions layer_map) k ≡ Some question → slice_get rows k ≡ Some row →
        IsRegion layer_map L.covers question.kind question.number question.size rects → row.area ≡ cell_count rects }
    ensures by_name { (layer_map : LayerMap) (rows : List Row) (question : Question) (row : Row) (rects : List Rect) →
        AreDifferent (names_of (layers_of layer_map)) → AreRows layer_map L.covers rows →
        Contains (questions layer_map) question → Contains rows row → IsRowFor question row →
        IsRegion layer_map L.covers question.kind question.number question.size rects → row.area ≡ cell_count rects }
{}

/// A row has one region: two lists of rectangles that are it have the same cells, and as many.
pub fn regions_cover_alike<L: Layout>()
    ensures cells { (layer_map : LayerMap) (kind : Kind) (number size : ℕ) (one other : List Rect) (c : Cell) →
        IsRegion layer_map L.covers kind number size one → IsRegion layer_map L.covers kind number size other →
        IsInUnion one c ↔ IsInUnion other c }
    ensures count { (layer_map : LayerMap) (kind : Kind) (number size : ℕ) (one other : List Rect) →
        IsRegion layer_map L.covers kind number size one → IsRegion layer_map L.covers kind number size other →
        cell_count one ≡ cell_count other }
{}

/// What is covered alike has the same regions.
pub fn regions_follow<L: Layout, O: Layout>()
    ensures { ((m : ℕ) (c : Cell) → L.covers m c ↔ O.covers m c) →
        (layer_map : LayerMap) (kind : Kind) (number size : ℕ) (rects : List Rect) →
        IsRegion layer_map L.covers kind number size rects → IsRegion layer_map O.covers kind number size rects }
{}
