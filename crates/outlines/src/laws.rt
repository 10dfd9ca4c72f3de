//! Facts about winding numbers, each the contract of a function that does nothing else.

ghost use Rattle.std.specs.Prelude.{List, [], ◌∷◌, ◌++◌, ◌≡◌, neg_ℤ, ◌+ℤ◌};
ghost use Rattle.geo_core.specs.Circuits.{circuit};
ghost use Rattle.geo_core.specs.declared.plane.Cell.{Cell};
ghost use Rattle.geo_core.specs.declared.plane.Point.{Point};
ghost use Rattle.outlines.specs.Outlines.{winding_number};
ghost use Rattle.outlines.specs.Sights.{winding_number_by_right};

/// Counted on the right of a cell, an outline's winding number is the same but for its sign: no outline has an open side.
pub fn no_outline_has_an_open_side()
    ensures { (corners : List Point) (c : Cell) →
        winding_number_by_right (circuit corners) c ≡ neg_ℤ (winding_number (circuit corners) c) }
{}

/// Where an outline comes back to a point, the winding numbers of its two parts add up.
pub fn winding_numbers_add_up()
    ensures { (front : List Point) (at : Point) (behind : List Point) (c : Cell) →
        winding_number (front ++ at ∷ behind) c ≡ winding_number (front ++ at ∷ []) c +ℤ winding_number (at ∷ behind) c }
{}
