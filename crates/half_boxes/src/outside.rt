use super::boxes::HalfBox;
use super::span::HalfSpan;

/// What a box has outside another one, the hole, in four parts without common half squares, of which some may be missing.
#[derive(Clone, Copy)]
pub struct Outside {
    /// What lies in rows below those of the hole.
    pub below: Option<HalfBox>,
    /// What lies in rows above those of the hole.
    pub above: Option<HalfBox>,
    /// What lies beside the hole, in its rows, on the left.
    pub left: Option<HalfBox>,
    /// What lies beside the hole, in its rows, on the right.
    pub right: Option<HalfBox>,
}

impl HalfBox {
    ghost use Rattle.std.specs.Prelude.{◌↔◌, ◌<ℤ◌, ◌≤ℤ◌};
    ghost use Rattle.geo_core.specs.Intervals.{IsIn};
    ghost use Rattle.geo_core.specs.declared.plane.Half.{Half};
    ghost use Rattle.half_boxes.specs.HalfBoxes.{HasHalf, HasHalfIn};
    ghost use Rattle.half_boxes.specs.inside.MissingSpans.{IsInSpan};

    /// What the box has outside the hole.
    pub fn outside(self, hole: HalfBox) -> Outside
        ensures below { (h : Half) → HasHalfIn result.below h ↔ (HasHalf self h × (h.v <ℤ hole.rows.low)) }
        ensures above { (h : Half) → HasHalfIn result.above h ↔ (HasHalf self h × (hole.rows.high ≤ℤ h.v)) }
        ensures left { (h : Half) → HasHalfIn result.left h
            ↔ (HasHalf self h × IsIn hole.rows.low hole.rows.high h.v × (h.u <ℤ hole.columns.low)) }
        ensures right { (h : Half) → HasHalfIn result.right h
            ↔ (HasHalf self h × IsIn hole.rows.low hole.rows.high h.v × (hole.columns.high ≤ℤ h.u)) }
    {
        let below = self.rows_at(self.rows.below(hole.rows));
        let above = self.rows_at(self.rows.above(hole.rows));
        match self.rows_at(self.rows.clip(hole.rows)) {
            None => Outside {
                below,
                above,
                left: None,
                right: None,
            },
            Some(beside) => Outside {
                below,
                above,
                left: beside.columns_at(beside.columns.below(hole.columns)),
                right: beside.columns_at(beside.columns.above(hole.columns)),
            },
        }
    }

    /// The box with these rows in place of its own, where there are some.
    fn rows_at(self, rows: Option<HalfSpan>) -> Option<HalfBox>
        ensures { (h : Half) → HasHalfIn result h ↔ (IsIn self.columns.low self.columns.high h.u × IsInSpan rows h.v) }
    {
        let rows = rows?;
        Some(HalfBox {
            columns: self.columns,
            rows,
        })
    }

    /// The box with these columns in place of its own, where there are some.
    fn columns_at(self, columns: Option<HalfSpan>) -> Option<HalfBox>
        ensures { (h : Half) → HasHalfIn result h ↔ (IsInSpan columns h.u × IsIn self.rows.low self.rows.high h.v) }
    {
        let columns = columns?;
        Some(HalfBox {
            columns,
            rows: self.rows,
        })
    }
}
