use super::span::HalfSpan;
use geo_core::Rect;

/// The half squares in these columns and these rows of half units.
#[derive(Clone, Copy)]
pub struct HalfBox {
    pub columns: HalfSpan,
    pub rows: HalfSpan,
}

impl HalfBox {
    ghost use Rattle.std.specs.Prelude.{◌↔◌, IsTrue, IfSome, IfNone};
    ghost use Rattle.geo_core.specs.Cells.{Has};
    ghost use Rattle.geo_core.specs.declared.plane.Half.{Half};
    ghost use Rattle.fault_model.specs.Halves.{IsOn};
    ghost use Rattle.half_boxes.specs.HalfBoxes.{HasHalf, IsBoxJoin, LiesWithin, OverlapHalves, TouchHalves};

    /// The half squares of the rectangle's cells.
    pub fn of_rect(rect: Rect) -> HalfBox
        ensures { (h : Half) → HasHalf result h ↔ IsOn (Has rect) h }
    {
        HalfBox {
            columns: HalfSpan::of_units(rect.columns()),
            rows: HalfSpan::of_units(rect.rows()),
        }
    }

    /// The common half squares.
    pub fn clip(self, other: HalfBox) -> Option<HalfBox>
        ensures some { IfSome result (λ common. (h : Half) → HasHalf common h ↔ (HasHalf self h × HasHalf other h)) }
        ensures none { IfNone result (OverlapHalves self other → ⊥) }
    {
        let columns = self.columns.clip(other.columns)?;
        let rows = self.rows.clip(other.rows)?;
        Some(HalfBox { columns, rows })
    }

    /// The least box that has the half squares of both.
    pub fn join(self, other: HalfBox) -> HalfBox
        ensures { IsBoxJoin self other result }
    {
        HalfBox {
            columns: self.columns.join(other.columns),
            rows: self.rows.join(other.rows),
        }
    }

    /// Whether all of its half squares lie in the other box.
    pub fn is_within(self, other: HalfBox) -> bool
        ensures { IsTrue result ↔ LiesWithin self other }
    {
        self.columns.is_within(other.columns) && self.rows.is_within(other.rows)
    }

    /// Whether the two are connected: by a half square that both have, or by an edge between a half square of the one and
    /// a half square of the other. A corner alone does not connect them.
    pub fn touches(self, other: HalfBox) -> bool
        ensures { IsTrue result ↔ TouchHalves self other }
    {
        if self.columns.overlaps(other.columns) {
            self.rows.touches(other.rows)
        } else {
            self.rows.overlaps(other.rows) && self.columns.touches(other.columns)
        }
    }
}
