//! Laws of the library of rectangles. Each is a function with an empty body, and its contract says what holds of the definitions.

ghost use Rattle.std.specs.Prelude.{◌≡◌, ◌↔◌, ◌+◌, ◌*◌, ℕ, List, length};
ghost use Rattle.first_refusal.specs.Outcomes.{value};
ghost use Rattle.geo_core.specs.Cells.{Has};
ghost use Rattle.geo_core.specs.Unions.{IsInUnion};
ghost use Rattle.geo_core.specs.declared.plane.Cell.{Cell};
ghost use Rattle.geo_core.specs.declared.plane.Rect.{Rect};
ghost use Rattle.gds_records.specs.RecordSpelling.{spellings};
ghost use Rattle.library_grammar.specs.FirstFault.{BytesComeTo};
ghost use Rattle.library_model.specs.declared.library.Library.{Library};
ghost use Rattle.gds_write.specs.SameLibrary.{IsSameButOffsets};
ghost use Rattle.gds_write.specs.WellFormed.{IsWellFormed};
ghost use Rattle.gds_write.specs.Written.{written};
ghost use Rattle.rect_cover.specs.Covers.{Covers};
ghost use Rattle.region_out.specs.RegionCells.{IsCoveredByTop};
ghost use Rattle.region_out.specs.RegionLibraries.{AreUnits, region_boundary, region_library_of};

/// A rectangle's boundary covers exactly its cells.
pub fn a_boundary_covers_its_rectangle()
    ensures { (rect : Rect) (c : Cell) → Covers (region_boundary rect).kind (region_boundary rect).points c ↔ Has rect c }
{}

/// The cells that the library covers are those of its rectangles: its one structure is its top, which places one shape for each
/// of them, all on layer 1 with datatype 0.
pub fn the_library_covers_its_rectangles()
    ensures { (rects : List Rect) (units : List ℕ) (fit : AreUnits units) (c : Cell) →
        IsCoveredByTop (region_library_of rects units fit).structures 1 0 c ↔ IsInUnion rects c }
{}

/// The library can be written.
pub fn the_library_is_well_formed()
    ensures { (rects : List Rect) (units : List ℕ) (fit : AreUnits units) → IsWellFormed (region_library_of rects units fit) }
{}

/// What is written has 106 bytes, and 64 more for each rectangle.
pub fn bytes_are_counted()
    ensures { (rects : List Rect) (units : List ℕ) (fit : AreUnits units) →
        length (spellings (written (region_library_of rects units fit))) ≡ 106 + 64 * length rects }
{}

/// What is written reads as the library, but for offsets.
pub fn region_libraries_read()
    ensures { (rects : List Rect) (units : List ℕ) (fit : AreUnits units) →
        (read : Library) × IsSameButOffsets (region_library_of rects units fit) read ×
        BytesComeTo (spellings (written (region_library_of rects units fit))) (value read) }
{}
