ghost use Rattle.std.specs.Prelude.{ℤ, pos, ◌≡◌, ◌≤◌, ◌+ℤ◌, ◌-ℤ◌, ◌↔◌, IsTrue, IfSome, IfNone};
ghost use Rattle.geo_core.specs.Cells.{Has, IsInLayout};
ghost use Rattle.geo_core.specs.Intervals.{IntervalsOverlap, IsInterval};
ghost use Rattle.geo_core.specs.declared.plane.Half.{Half};
ghost use Rattle.geo_core.specs.declared.plane.Rect.{Rect as AnyRect};
ghost use Rattle.fault_model.specs.Halves.{IsOn};
ghost use Rattle.half_boxes.specs.HalfBoxes.{OverlapHalves};
ghost use Rattle.geo_core.specs.declared.bounds.TheConstants.{GREATEST_SIDE};
ghost use Rattle.ring_test.specs.Rings.{IsInHole, hole_at, hole_of};

use geo_core::{Cell, FARTHEST_GROWN};
use half_boxes::{HalfBox, HalfSpan};

/// The half squares that a defect of this side at the cell has. So far out that it has nothing of a layout there is no
/// such box.
pub fn defect_hole(cell: Cell, side: u32) -> Option<HalfBox>
    requires few { side ≤ GREATEST_SIDE }
    requires some { 1 ≤ side }
    ensures some { IfSome result (λ hole. hole_of hole ≡ hole_at cell side) }
    ensures none { IfNone result ((rect : AnyRect) (h : Half) → IsInLayout rect → IsOn (Has rect) h →
        IsInHole (hole_at cell side) h → ⊥) }
{
    let columns = defect_span(cell.i, side)?;
    let rows = defect_span(cell.j, side)?;
    Some(HalfBox { columns, rows })
}

/// The half units that a defect of this side round the middle of the unit has, along one axis.
fn defect_span(unit: i32, side: u32) -> Option<HalfSpan>
    requires few { side ≤ GREATEST_SIDE }
    requires some { 1 ≤ side }
    ensures low { IfSome result (λ span. span.low ≡ unit +ℤ unit +ℤ pos 1 -ℤ pos side) }
    ensures high { IfSome result (λ span. span.high ≡ unit +ℤ unit +ℤ pos 1 +ℤ pos side) }
    ensures none { IfNone result ((low high : ℤ) → IsInterval (pos 1000000000) low high →
        IntervalsOverlap (low +ℤ low) (high +ℤ high) (unit +ℤ unit +ℤ pos 1 -ℤ pos side)
        (unit +ℤ unit +ℤ pos 1 +ℤ pos side) → ⊥) }
{
    if unit < -FARTHEST_GROWN {
        return None;
    }
    if unit >= FARTHEST_GROWN {
        return None;
    }
    let middle = unit + unit + 1;
    let side = side as i32;
    Some(HalfSpan {
        low: middle - side,
        high: middle + side,
    })
}

/// Whether the boxes have a half square in common.
pub fn overlap(one: HalfBox, other: HalfBox) -> bool
    ensures { IsTrue result ↔ OverlapHalves one other }
{
    one.columns.overlaps(other.columns) && one.rows.overlaps(other.rows)
}
