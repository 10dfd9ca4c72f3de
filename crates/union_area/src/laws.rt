//! Laws of tallies over a window and over its parts.

ghost use Rattle.std.specs.Prelude.{ℕ, pos, ◌+◌, ◌*◌, ◌^◌, ◌<◌, ◌+ℤ◌, ◌<ℤ◌, length};
ghost use Rattle.geo_core.specs.Axes.{low_along, high_along};
ghost use Rattle.geo_core.specs.Cells.{Has};
ghost use Rattle.geo_core.specs.declared.axis.Axis.{Axis};
ghost use Rattle.geo_core.specs.declared.plane.Cell.{Cell};
ghost use Rattle.geo_core.specs.declared.plane.Rect.{Rect};
ghost use Rattle.fault_model.specs.Areas.{Tally, cells_of};
ghost use Rattle.union_area.specs.WindowParts.{AreInLine, AreParts, IsFirstLine, count_along};

use fault_model::Property;

/// The tallies over the two parts of a window add up to the tally over the window.
pub fn tallies_of_parts_add<P: Property>()
    ensures { (window first second : Rect) (m n : ℕ) → AreParts window first second →
        Tally P.holds (cells_of first) m → Tally P.holds (cells_of second) n →
        Tally P.holds (cells_of window) (m + n) }
{}

/// Each of the two parts has fewer cells than the window, so that halving ends.
pub fn parts_are_smaller()
    ensures { (window first second : Rect) → AreParts window first second →
        (length (cells_of first) < length (cells_of window)) × (length (cells_of second) < length (cells_of window)) }
{}

/// The first line has fewer cells than the window, where it is not all of it.
pub fn lines_are_smaller()
    ensures { (axis : Axis) (window line : Rect) → IsFirstLine axis window line →
        (low_along axis window +ℤ pos 1) <ℤ high_along axis window → length (cells_of line) < length (cells_of window) }
{}

/// A property that holds of each cell of a window has the number of its cells as its tally, and no tally is as large as
/// 2 ^ 63.
pub fn tallies_of_whole_windows<P: Property>()
    ensures whole { (window : Rect) → ((c : Cell) → Has window c → P.holds c) →
        Tally P.holds (cells_of window) (length (cells_of window)) }
    ensures small { (window : Rect) (n : ℕ) → Tally P.holds (cells_of window) n → n < 2 ^ 63 }
{}

/// Where a property does not change along an axis, each column of the window has the tally of the first one, or each row.
pub fn lines_repeat<P: Property>()
    ensures { (axis : Axis) (window line : Rect) (n : ℕ) → IsFirstLine axis window line →
        ((c d : Cell) → Has window c → Has window d → AreInLine axis c d → P.holds c → P.holds d) →
        Tally P.holds (cells_of line) n → Tally P.holds (cells_of window) (count_along axis window * n) }
{}
