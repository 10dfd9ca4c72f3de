//! Facts about the definitions, each the contract of a function that does nothing else. Those about winding numbers alone stand
//! in `outlines`.

ghost use Rattle.std.specs.Prelude.{ℤ, List, [], ◌∷◌, ◌≡◌, ◌≢◌, ◌↔◌, pos, ◌≤ℤ◌, map};
ghost use Rattle.geo_core.specs.Intervals.{IsIn};
ghost use Rattle.geo_core.specs.Cells.{Has};
ghost use Rattle.geo_core.specs.Unions.{IsInUnion};
ghost use Rattle.geo_core.specs.declared.plane.Point.{Point};
ghost use Rattle.geo_core.specs.declared.plane.Cell.{Cell};
ghost use Rattle.geo_core.specs.declared.plane.Rect.{Rect};
ghost use Rattle.library_model.specs.declared.element.ShapeKind.{ShapeKind};
ghost use Rattle.library_model.specs.declared.element.ShapeKind.TheVariants.{Boundary, BoxElement, Path};
ghost use Rattle.library_model.specs.declared.library.Structure.{Structure};
ghost use Rattle.flatten.specs.Steps.{shifted};
ghost use Rattle.flatten.specs.declared.placed.Placed.{Placed};
ghost use Rattle.first_refusal.specs.Outcomes.{value, refused};
ghost use Rattle.first_refusal.specs.Laws.{CannotLack};
ghost use Rattle.outlines.specs.Rectangles.{GoesRound};
ghost use Rattle.outlines.specs.Sights.{part_again, part_back, shifted_cell};
ghost use Rattle.rect_cover.specs.Covers.{Covers, IsInBox};
ghost use Rattle.rect_cover.specs.PathPieces.{box_of, half_width_of, reach_before, reach_behind, style_of};
ghost use Rattle.rect_cover.specs.Coverings.{IsWellPlaced, PlacedComesTo};
ghost use Rattle.rect_cover.specs.declared.fault.CoverFault.{CoverFault};

/// An outline of a rectangle, in either direction and from any corner, covers exactly the rectangle.
pub fn an_outline_of_a_rectangle_covers_the_rectangle()
    ensures boundary { (rect : Rect) (points : List Point) (c : Cell) → GoesRound rect points → Covers Boundary points c ↔ Has rect c }
    ensures box_element { (rect : Rect) (points : List Point) (c : Cell) → GoesRound rect points → Covers BoxElement points c ↔ Has rect c }
{}

/// A shape that is shifted covers the shifted cells, and no others.
pub fn a_shifted_shape_covers_the_shifted_cells()
    ensures { (by : Point) (kind : ShapeKind) (points : List Point) (c : Cell) →
        Covers kind (map (shifted by) points) (shifted_cell by c) ↔ Covers kind points c }
{}

/// A part round which an outline goes twice is covered.
pub fn a_part_wound_twice_is_covered()
    ensures { (x0 x1 x2 y0 y1 : ℤ) (c : Cell) → x0 ≤ℤ x1 → IsIn x1 x2 c.i → IsIn y0 y1 c.j →
        Covers Boundary (part_again x0 x1 x2 y0 y1) c }
{}

/// A part round which an outline goes once in each direction is not.
pub fn a_part_wound_each_way_is_not_covered()
    ensures { (x0 x1 x2 y0 y1 : ℤ) (c : Cell) → x0 ≤ℤ x1 → IsIn x1 x2 c.i → IsIn y0 y1 c.j →
        Covers Boundary (part_back x0 x1 x2 y0 y1) c → ⊥ }
{}

/// A path of two points that has a width covers exactly its one rectangle.
pub fn a_path_of_two_points_is_one_rectangle()
    ensures { (pathtype width begin end : ℤ) (first last : Point) (c : Cell) → first ≢ last →
        let style = style_of pathtype width begin end in
        Covers (Path pathtype width begin end) (first ∷ last ∷ []) c
        ↔ ((width ≢ pos 0) × IsInBox (box_of (half_width_of style) ((first, reach_before style), (last, reach_behind style))) c) }
{}

/// What the cover of a placed shape comes to is one fault, or rectangles that have the same cells, and never both.
pub fn covers_agree()
    ensures faults { (structures : List Structure) (placed : Placed) (one other : CoverFault) →
        PlacedComesTo structures placed (refused one) → PlacedComesTo structures placed (refused other) → one ≡ other }
    ensures cells { (structures : List Structure) (placed : Placed) (one other : List Rect) →
        PlacedComesTo structures placed (value one) → PlacedComesTo structures placed (value other) →
        (c : Cell) → IsInUnion one c ↔ IsInUnion other c }
    ensures apart { (structures : List Structure) (placed : Placed) (rects : List Rect) (fault : CoverFault) →
        PlacedComesTo structures placed (value rects) → PlacedComesTo structures placed (refused fault) → ⊥ }
{}

/// It is one of the two: it cannot be that a well placed shape has neither a cover nor a fault.
pub fn covers_cannot_be_lacking()
    ensures { (structures : List Structure) (placed : Placed) →
        IsWellPlaced structures placed → CannotLack (PlacedComesTo structures placed) }
{}
