ghost use Rattle.geo_core.specs.Intervals.{IsInterval};
ghost use Rattle.geo_core.specs.declared.bounds.TheConstants.{FARTHEST_GROWN};

/// The whole numbers from `low` to before `high`, of which there is at least one. Both ends lie within 1,001,000,000 of
/// 0.
#[derive(Clone, Copy)]
pub struct Interval {
    pub low: i32,
    pub high: i32,
    pub ghost within: { IsInterval FARTHEST_GROWN low high },
}

impl Interval {
    ghost use Rattle.std.specs.Prelude.{ℤ, pos, ◌≤ℤ◌, ◌↔◌, IsTrue, IfSome, IfNone};
    ghost use Rattle.geo_core.specs.Intervals.{IsIn, ComesWithin, IntervalsOverlap, IntervalsTouch, IsIntervalJoin};
    ghost use Rattle.geo_core.specs.declared.bounds.TheConstants.{FARTHEST, GREATEST_REACH};

    /// The numbers that are at most `by` from one of these.
    pub fn grow(self, by: i32) -> Interval
        requires low { pos 0 ≤ℤ by }
        requires high { by ≤ℤ GREATEST_REACH }
        requires within { IsInterval FARTHEST self.low self.high }
        ensures { (x : ℤ) → IsIn result.low result.high x ↔ ComesWithin self.low self.high by x }
    {
        Interval {
            low: self.low - by,
            high: self.high + by,
        }
    }

    /// The common numbers.
    pub fn clip(self, other: Interval) -> Option<Interval>
        ensures some { IfSome result (λ common.
            (x : ℤ) → IsIn common.low common.high x ↔ (IsIn self.low self.high x × IsIn other.low other.high x)) }
        ensures none { IfNone result (IntervalsOverlap self.low self.high other.low other.high → ⊥) }
    {
        let low = self.low.max(other.low);
        let high = self.high.min(other.high);
        if low >= high {
            return None;
        }
        Some(Interval { low, high })
    }

    /// The least interval that has the numbers of both.
    pub fn join(self, other: Interval) -> Interval
        ensures { IsIntervalJoin self.low self.high other.low other.high result.low result.high }
    {
        Interval {
            low: self.low.min(other.low),
            high: self.high.max(other.high),
        }
    }

    /// Whether there is a common number.
    pub fn overlaps(self, other: Interval) -> bool
        ensures { IsTrue result ↔ IntervalsOverlap self.low self.high other.low other.high }
    {
        self.low < other.high && other.low < self.high
    }

    /// Whether there is a common number, or two of which one follows the other.
    pub fn touches(self, other: Interval) -> bool
        ensures { IsTrue result ↔ IntervalsTouch self.low self.high other.low other.high }
    {
        self.low <= other.high && other.low <= self.high
    }
}
