//! Laws of the sides of defects, which side makes the faults of which other one; laws of pairs of nets and of probes, that they
//! tell of shorts; and a law of region files, that they have as many cells as the rows of a report say.
//!
//! Each defect has its centre in the middle of a cell. One of an even side has the cells at its rim in halves, and one of
//! an odd side has each cell wholly or not at all.

ghost use Rattle.std.specs.Prelude.{ℕ, pos, List, [], All, Any, Contains, Some, length, slice_get, ◌+◌, ◌-◌, ◌/◌, ◌<◌, ◌≤◌, ◌≡◌, ◌↔◌};
ghost use Rattle.run_inputs.specs.Coverage.{IsCoveredOn};
ghost use Rattle.run_inputs.specs.Layout.{Subject};
ghost use Rattle.critarea_core.specs.Outputs.{ArePairRowsOn, AreRowsOn, IsProbeOn, IsRegionOn};
ghost use Rattle.critarea_core.specs.WholeCells.{IsOfWholeCells};
ghost use Rattle.area_parts.specs.FaultKinds.{IsFault};
ghost use Rattle.fault_model.specs.Areas.{Tally};
ghost use Rattle.fault_model.specs.Faults.{AreParted, IsCellsOpen, IsShort, IsViaBlock};
ghost use Rattle.fault_model.specs.Halves.{IsSwallowed, IsTouched};
ghost use Rattle.fault_model.specs.Nets.{Cut};
ghost use Rattle.fault_model.specs.Vias.{IsViasOpen};
ghost use Rattle.flatten.specs.Routes.{Route};
ghost use Rattle.gauges.specs.declared.pair_row.PairRow.{PairRow};
ghost use Rattle.geo_core.specs.Cells.{IsNear};
ghost use Rattle.geo_core.specs.declared.plane.Cell.{Cell};
ghost use Rattle.geo_core.specs.declared.plane.Rect.{Rect};
ghost use Rattle.lists.specs.Differing.{AreDifferent};
ghost use Rattle.map_model.specs.LayerMap.{LayerMap, layers_of};
ghost use Rattle.map_model.specs.Layers.{names_of};
ghost use Rattle.map_model.specs.Measures.{side_by};
ghost use Rattle.layout_pairs.specs.PairAreas.{TouchesSomeNets};
ghost use Rattle.layout_probe.specs.declared.metal_near.MetalNear.{MetalNear};
ghost use Rattle.layout_regions.specs.Regions.{cell_count};
ghost use Rattle.near_index.specs.declared.nearest.Near.{Near};
ghost use Rattle.net_extract.specs.Cuts.{cuts_of};
ghost use Rattle.questions.specs.Questions.{IsRowFor, questions};
ghost use Rattle.questions.specs.declared.kind.Kind.TheVariants.{Open, Short, Via};
ghost use Rattle.questions.specs.declared.question.Question.{Question};
ghost use Rattle.questions.specs.declared.row.Row.{Row};

use fault_model::{HalfSet, Layout, Property};

/// A defect of side `s` touches the cells up to a distance of `s / 2`, and has all of those up to a distance of
/// `(s - 1) / 2`, where of the distances in the two directions the greater one counts. So on what placed shapes cover, a side of
/// 2 or more makes the shorts of the radius `s / 2`, side 1 makes none, and a side of 1 or more makes the via blocks of the
/// radius `(s + 1) / 2`. All are whole parts.
pub fn sides_as_halves()
    ensures touches { (s : ℕ) (c d : Cell) → 1 ≤ s → IsTouched c s d ↔ IsNear c d (pos (s / 2)) }
    ensures covers { (s : ℕ) (c d : Cell) → 1 ≤ s → IsSwallowed c s d ↔ IsNear c d (pos ((s - 1) / 2)) }
    ensures shorts { (layer_map : LayerMap) (routes : List Route) (cuts : List Cut) (m s : ℕ) (c : Cell) → 2 ≤ s →
        IsShort (IsCoveredOn layer_map routes) cuts m s c ↔ IsShort (IsCoveredOn layer_map routes) cuts m (s / 2 + s / 2) c }
    ensures no_short { (layer_map : LayerMap) (routes : List Route) (cuts : List Cut) (m : ℕ) (c : Cell) →
        IsShort (IsCoveredOn layer_map routes) cuts m 1 c → ⊥ }
    ensures blocks { (layer_map : LayerMap) (routes : List Route) (cut : Cut) (s : ℕ) (c : Cell) → 1 ≤ s →
        IsViaBlock (IsCoveredOn layer_map routes) cut s c
        ↔ IsViaBlock (IsCoveredOn layer_map routes) cut ((s + 1) / 2 + (s + 1) / 2) c }
{}

/// A defect of an odd side has each cell wholly or not at all.
pub fn odd_sides_have_whole_cells()
    ensures { (k : ℕ) (c d : Cell) → IsTouched c (k + k + 1) d → IsSwallowed c (k + k + 1) d }
{}

/// A defect of an odd side parts what one of the next even side at the same cell parts, of whatever is made of whole cells.
pub fn odd_sides_part_as_the_next<P: Property, R: HalfSet, S: HalfSet>()
    ensures { (k : ℕ) (c : Cell) → IsOfWholeCells R.has → IsOfWholeCells S.has →
        AreParted P.holds c (k + k + 1) R.has S.has ↔ AreParted P.holds c (k + k + 2) R.has S.has }
{}

/// So it makes the same opens, whether cells alone are terminals, or via clusters are, too.
pub fn odd_sides_open_as_the_next<L: Layout, T: Property>()
    ensures cells { (m k : ℕ) (c : Cell) →
        IsCellsOpen (L.covers m) T.holds (k + k + 1) c ↔ IsCellsOpen (L.covers m) T.holds (k + k + 2) c }
    ensures vias { (cuts : List Cut) (m k : ℕ) (c : Cell) →
        IsViasOpen L.covers cuts T.holds m (k + k + 1) c ↔ IsViasOpen L.covers cuts T.holds m (k + k + 2) c }
{}

/// So each area of an odd side is that of an even neighbour over the same cells: shorts have the area of the side before, where
/// that is 2 or more, and opens and via blocks that of the next.
pub fn odd_sides_have_even_areas<L: Layout>()
    ensures shorts { (layer_map : LayerMap) (cells : List Cell) (number k n : ℕ) → 1 ≤ k →
        Tally (IsFault layer_map L.covers Short number (k + k + 1)) cells n
        ↔ Tally (IsFault layer_map L.covers Short number (k + k)) cells n }
    ensures opens { (layer_map : LayerMap) (cells : List Cell) (number k n : ℕ) →
        Tally (IsFault layer_map L.covers Open number (k + k + 1)) cells n
        ↔ Tally (IsFault layer_map L.covers Open number (k + k + 2)) cells n }
    ensures blocks { (layer_map : LayerMap) (cells : List Cell) (number k n : ℕ) →
        Tally (IsFault layer_map L.covers Via number (k + k + 1)) cells n
        ↔ Tally (IsFault layer_map L.covers Via number (k + k + 2)) cells n }
{}

/// A defect of a size that the map lists makes a short of a metal exactly where it touches two nets with different numbers. This
/// holds wherever there are rows of pairs, as there are of each subject that a run comes to. So a run tells no pair of nets
/// exactly where each metal's area of shorts at that size is 0.
pub fn pairs_are_shorts()
    ensures shorts { (subject : Subject) (size metal : ℕ) (pairs : List PairRow) (c : Cell) →
        Any (λ listed. listed.size ≡ size) subject.layer_map.sizes → ArePairRowsOn subject size pairs →
        metal < length subject.layer_map.metals →
        IsShort (IsCoveredOn subject.layer_map subject.routes) (cuts_of subject.layer_map) metal
        (side_by subject.layer_map.measure size) c
        ↔ TouchesSomeNets (IsCoveredOn subject.layer_map subject.routes) (cuts_of subject.layer_map) metal
        (side_by subject.layer_map.measure size) c }
    ensures none { (subject : Subject) (size : ℕ) (pairs : List PairRow) (rows : List Row) →
        Any (λ listed. listed.size ≡ size) subject.layer_map.sizes → ArePairRowsOn subject size pairs →
        AreRowsOn subject rows →
        (pairs ≡ []) ↔ All (λ row. row.kind ≡ Short → row.size ≡ size → row.area ≡ 0) rows }
{}

/// A probe tells of each metal of the map once, in its order. The distance to the second net of a metal is the least radius that makes
/// a short: a defect of side `r + r` at the cell makes one of this metal exactly where a second net is told and it is at most `r`
/// away. So one of side `s` does where the net is at most `s / 2` away.
pub fn second_within()
    ensures each { (subject : Subject) (c : Cell) (told : List MetalNear) → IsProbeOn subject c told →
        length told ≡ length subject.layer_map.metals }
    ensures radii { (subject : Subject) (metal r : ℕ) (c : Cell) (told : List MetalNear) (item : MetalNear) →
        IsProbeOn subject c told → slice_get told metal ≡ Some item →
        IsShort (IsCoveredOn subject.layer_map subject.routes) (cuts_of subject.layer_map) metal (r + r) c
        ↔ ((near : Near) × (item.nearest.second ≡ Some near) × (near.distance ≤ r)) }
    ensures sides { (subject : Subject) (metal s : ℕ) (c : Cell) (told : List MetalNear) (item : MetalNear) →
        IsProbeOn subject c told → slice_get told metal ≡ Some item → 1 ≤ s →
        IsShort (IsCoveredOn subject.layer_map subject.routes) (cuts_of subject.layer_map) metal s c
        ↔ ((near : Near) × (item.nearest.second ≡ Some near) × (near.distance ≤ s / 2)) }
{}

/// The region of a row has as many cells as the row says: the row that stands in the report where its question stands among those of
/// the map, and, where the names of the map's layers differ, each row of its kind, layer and size.
pub fn region_counts()
    ensures at_its_place { (subject : Subject) (rows : List Row) (k : ℕ) (question : Question) (row : Row) (rects : List Rect) →
        AreRowsOn subject rows → slice_get (questions subject.layer_map) k ≡ Some question → slice_get rows k ≡ Some row →
        IsRegionOn subject question.kind question.number question.size rects → row.area ≡ cell_count rects }
    ensures by_name { (subject : Subject) (rows : List Row) (question : Question) (row : Row) (rects : List Rect) →
        AreDifferent (names_of (layers_of subject.layer_map)) → AreRowsOn subject rows →
        Contains (questions subject.layer_map) question → Contains rows row → IsRowFor question row →
        IsRegionOn subject question.kind question.number question.size rects → row.area ≡ cell_count rects }
{}
