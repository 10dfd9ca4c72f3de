//! Whether some defect of a zone covers none of an island's anchors. Where each of its defects parts two of them, the ring
//! round that one has more than one arc of the island.

ghost use Rattle.std.specs.Prelude.{IsTrue, ◌≤◌};
ghost use Rattle.geo_core.specs.Cells.{Has};
ghost use Rattle.geo_core.specs.Intervals.{IsIn};
ghost use Rattle.geo_core.specs.declared.plane.Cell.{Cell};
ghost use Rattle.geo_core.specs.declared.bounds.TheConstants.{GREATEST_SIDE};
ghost use Rattle.open_grid.specs.inside.ZoneCounts.{CoversNone, SomeCoversNone};

use geo_core::Rect;
use half_boxes::{HalfBox, reach_of};

/// Whether the defect at one of the zone's four corner cells covers none of the boxes. If not, that at another cell may.
pub fn covers_none_at_a_corner(boxes: &[HalfBox], zone: Rect, side: u32) -> bool
    requires some { 1 ≤ side }
    requires few { side ≤ GREATEST_SIDE }
    ensures { IsTrue result → SomeCoversNone boxes.now zone side }
{
    covers_none_at_an_end(boxes, zone, zone.y0, side)
        || covers_none_at_an_end(boxes, zone, zone.y1 - 1, side)
}

/// Whether the defect at the first cell of the zone's row does, or that at the last one.
fn covers_none_at_an_end(boxes: &[HalfBox], zone: Rect, row: i32, side: u32) -> bool
    requires some { 1 ≤ side }
    requires few { side ≤ GREATEST_SIDE }
    requires row { IsIn zone.y0 zone.y1 row }
    ensures { IsTrue result → SomeCoversNone boxes.now zone side }
{
    cover_none(boxes, cell_of(zone, zone.x0, row), side)
        || cover_none(boxes, cell_of(zone, zone.x1 - 1, row), side)
}

/// The zone of the cell in this column and this row of a zone.
fn cell_of(zone: Rect, column: i32, row: i32) -> Rect
    requires column { IsIn zone.x0 zone.x1 column }
    requires row { IsIn zone.y0 zone.y1 row }
    ensures { (c : Cell) → Has result c → Has zone c }
{
    Rect::new(column, row, column + 1, row + 1)
}

/// Whether all of the zone's defects together cover none of the boxes.
fn cover_none(boxes: &[HalfBox], zone: Rect, side: u32) -> bool
    requires some { 1 ≤ side }
    requires few { side ≤ GREATEST_SIDE }
    ensures { IsTrue result → (c : Cell) → Has zone c → CoversNone boxes.now side c }
{
    let reach = reach_of(zone, side);
    for one in boxes {
        if one.is_within(reach) {
            return false;
        }
    }
    true
}
