//! At which places along an axis a defect reaches so far.

ghost use Rattle.std.specs.Prelude.{neg_ℤ, ◌≤ℤ◌};
ghost use Rattle.half_boxes.specs.declared.span.TheConstants.{FARTHEST_HALF};

use super::changes::{first_passing, first_reaching};
use geo_core::Interval;
use half_boxes::HalfSpan;

/// How far a defect has to reach along an axis, in half units: down to `low` or below it, and up to `high` or above it. It may
/// be that `high` lies below `low`, as where the first of two spans is to have nothing behind the defect, and the last
/// nothing before it.
#[derive(Clone, Copy)]
pub struct Extent {
    pub low: i32,
    pub high: i32,
    pub ghost low_least: { neg_ℤ FARTHEST_HALF ≤ℤ low },
    pub ghost low_most: { low ≤ℤ FARTHEST_HALF },
    pub ghost high_least: { neg_ℤ FARTHEST_HALF ≤ℤ high },
    pub ghost high_most: { high ≤ℤ FARTHEST_HALF },
}

impl Extent {
    ghost use Rattle.std.specs.Prelude.{ℤ, ◌≡◌, ◌≤◌, ◌↔◌, IfNone, IfSome};
    ghost use Rattle.std.specs.Int.{int_max, int_min};
    ghost use Rattle.geo_core.specs.Intervals.{IsIn};
    ghost use Rattle.geo_core.specs.declared.bounds.TheConstants.{GREATEST_SIDE};
    ghost use Rattle.open_grid.specs.inside.Wires.{Spans};

    /// From the one end of the span to the other.
    pub fn of(span: HalfSpan) -> Extent
        ensures low { result.low ≡ span.low }
        ensures high { result.high ≡ span.high }
    {
        Extent {
            low: span.low,
            high: span.high,
        }
    }

    /// The greater low end and the lesser high end.
    pub fn tightened(self, span: HalfSpan) -> Extent
        ensures low { result.low ≡ int_max self.low span.low }
        ensures high { result.high ≡ int_min self.high span.high }
    {
        Extent {
            low: self.low.max(span.low),
            high: self.high.min(span.high),
        }
    }

    /// The places of these at which the defect of this side reaches so far, if there are any.
    pub fn places(self, window: Interval, side: u32) -> Option<Interval>
        requires some { 1 ≤ side }
        requires few { side ≤ GREATEST_SIDE }
        ensures some { IfSome result (λ places. (x : ℤ) → IsIn places.low places.high x
            ↔ (IsIn window.low window.high x × Spans self.low self.high side x)) }
        ensures none { IfNone result ((x : ℤ) → IsIn window.low window.high x → Spans self.low self.high side x → ⊥) }
    {
        let low = window.low.max(first_reaching(self.high, side));
        let high = window.high.min(first_passing(self.low, side));
        if low >= high {
            return None;
        }
        Some(Interval { low, high })
    }
}
