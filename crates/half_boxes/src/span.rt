ghost use Rattle.geo_core.specs.Intervals.{IsInterval};
ghost use Rattle.half_boxes.specs.declared.span.TheConstants.{FARTHEST_HALF};

use geo_core::Interval;

/// The greatest amount of the end of a span, in half units. A cell of a window is at most 1,001,000,000 from 0, a defect
/// reaches at most 1,000,000 from the middle of its cell, and half units are left to grow by.
pub const FARTHEST_HALF: i32 = 2_004_000_001;

// Definitions have the number itself, so that a changed bound is refused here.
const _: () = prove!(FARTHEST_HALF == 2_004_000_001);

/// The half units from `low` to before `high`, of which there is at least one. Both ends lie within 2,004,000,001 of 0.
#[derive(Clone, Copy)]
pub struct HalfSpan {
    pub low: i32,
    pub high: i32,
    pub ghost within: { IsInterval FARTHEST_HALF low high },
}

impl HalfSpan {
    ghost use Rattle.std.specs.Prelude.{ℤ, ◌≡◌, ◌+ℤ◌, ◌<ℤ◌, ◌≤ℤ◌, ◌↔◌, IsTrue, IfSome, IfNone};
    ghost use Rattle.geo_core.specs.Intervals.{IsIn, IntervalsOverlap, IntervalsTouch, IsIntervalJoin, IsPartOf};

    /// The half units of these units.
    pub fn of_units(units: Interval) -> HalfSpan
        ensures low { result.low ≡ units.low +ℤ units.low }
        ensures high { result.high ≡ units.high +ℤ units.high }
    {
        HalfSpan {
            low: units.low + units.low,
            high: units.high + units.high,
        }
    }

    /// The common half units.
    pub fn clip(self, other: HalfSpan) -> Option<HalfSpan>
        ensures some { IfSome result (λ common.
            (x : ℤ) → IsIn common.low common.high x ↔ (IsIn self.low self.high x × IsIn other.low other.high x)) }
        ensures none { IfNone result (IntervalsOverlap self.low self.high other.low other.high → ⊥) }
    {
        let low = self.low.max(other.low);
        let high = self.high.min(other.high);
        if low >= high {
            return None;
        }
        Some(HalfSpan { low, high })
    }

    /// The half units of this span that lie below the other one.
    pub fn below(self, other: HalfSpan) -> Option<HalfSpan>
        ensures some { IfSome result (λ part.
            (x : ℤ) → IsIn part.low part.high x ↔ (IsIn self.low self.high x × (x <ℤ other.low))) }
        ensures none { IfNone result ((x : ℤ) → IsIn self.low self.high x → x <ℤ other.low → ⊥) }
    {
        let high = self.high.min(other.low);
        if self.low >= high {
            return None;
        }
        Some(HalfSpan {
            low: self.low,
            high,
        })
    }

    /// The half units of this span that lie above the other one.
    pub fn above(self, other: HalfSpan) -> Option<HalfSpan>
        ensures some { IfSome result (λ part.
            (x : ℤ) → IsIn part.low part.high x ↔ (IsIn self.low self.high x × (other.high ≤ℤ x))) }
        ensures none { IfNone result ((x : ℤ) → IsIn self.low self.high x → other.high ≤ℤ x → ⊥) }
    {
        let low = self.low.max(other.high);
        if low >= self.high {
            return None;
        }
        Some(HalfSpan {
            low,
            high: self.high,
        })
    }

    /// The least span that has the half units of both.
    pub fn join(self, other: HalfSpan) -> HalfSpan
        ensures { IsIntervalJoin self.low self.high other.low other.high result.low result.high }
    {
        HalfSpan {
            low: self.low.min(other.low),
            high: self.high.max(other.high),
        }
    }

    /// Whether there is a common half unit.
    pub fn overlaps(self, other: HalfSpan) -> bool
        ensures { IsTrue result ↔ IntervalsOverlap self.low self.high other.low other.high }
    {
        self.low < other.high && other.low < self.high
    }

    /// Whether there is a common half unit, or two of which one follows the other.
    pub fn touches(self, other: HalfSpan) -> bool
        ensures { IsTrue result ↔ IntervalsTouch self.low self.high other.low other.high }
    {
        self.low <= other.high && other.low <= self.high
    }

    /// Whether all of these half units lie in the other span.
    pub fn is_within(self, other: HalfSpan) -> bool
        ensures { IsTrue result ↔ IsPartOf self.low self.high other.low other.high }
    {
        other.low <= self.low && self.high <= other.high
    }
}
