ghost use Rattle.std.specs.Prelude.{◌≡◌, ◌⊎◌, ◌↔◌, IsTrue};
ghost use Rattle.union_area.specs.WindowParts.{IsAsCentral, IsBetween, IsHalfWay};

use super::middles::{distance_from_middle, half_way, inner_half_way, is_broad, longer_first};
use super::parts::parts_at;
use geo_core::{Axis, Interval, Rect};
use std::marker::Model;

/// Where so many broad rectangles lie over the middle, parts of the window are soon covered whole.
const MANY_BROAD: usize = 8;

/// No more than one rectangle of so many is to lie on both sides of where the window is parted.
const TO_EACH_ACROSS: usize = 8;

/// So few rectangles need no parting.
const FEW: usize = 64;

/// The middle of places along an axis, and what lies near it.
#[derive(Clone, Copy)]
struct Middle {
    places: Interval,
    at: i32,
    /// How many rectangles lie on both sides.
    across: usize,
    /// An edge of a rectangle, of which none is nearer.
    edge: i32,
}

/// How rectangles lie in a window, by which it is decided where to part it. Any decision is right, and all of this is
/// for speed. Contracts see the window.
#[derive(Drop)]
pub struct Survey {
    window: Rect,
    count: usize,
    columns: Middle,
    rows: Middle,
    broad: usize,
}

impl Model for Survey {
    ghost use Rattle.geo_core.specs.declared.plane.Rect.{Rect};

    ghost Value = { Rect };

    ghost view = { λ survey. survey.window };
}

/// The one of two places that is nearer to the middle.
fn nearer(places: Interval, place: i32, other: i32) -> i32
    ensures one { (result ≡ place) ⊎ (result ≡ other) }
    ensures first { IsAsCentral places.low places.high result place }
    ensures second { IsAsCentral places.low places.high result other }
{
    if distance_from_middle(places, other) < distance_from_middle(places, place) {
        return other;
    }
    place
}

/// One more where something is so.
fn more_if(is_so: bool, count: usize) -> usize {
    if is_so {
        return count.saturating_add(1);
    }
    count
}

impl Middle {
    /// The middle of these places.
    fn of(places: Interval) -> Middle
        ensures places { result.places ≡ places }
        ensures half_way { IsHalfWay places.low places.high result.at }
    {
        Middle {
            places,
            at: half_way(places),
            across: 0,
            edge: places.low,
        }
    }

    /// Whether these lie on both sides.
    fn is_in(self, places: Interval) -> bool
        ensures { IsTrue result ↔ IsBetween places.low places.high self.at }
    {
        places.low < self.at && self.at < places.high
    }

    /// The same with these places of one more rectangle.
    fn with(self, places: Interval) -> Middle
        ensures places { result.places ≡ self.places }
        ensures middle { result.at ≡ self.at }

        // No edge that was seen is nearer to the middle than the one that is kept.
        ensures kept { IsAsCentral self.places.low self.places.high result.edge self.edge }
        ensures low { IsAsCentral self.places.low self.places.high result.edge places.low }
        ensures high { IsAsCentral self.places.low self.places.high result.edge places.high }
    {
        let edge = nearer(self.places, self.edge, places.low);
        Middle {
            places: self.places,
            at: self.at,
            across: more_if(self.is_in(places), self.across),
            edge: nearer(self.places, edge, places.high),
        }
    }
}

impl Survey {
    ghost use Rattle.std.specs.Prelude.{◌≡◌, IfSome};
    ghost use Rattle.geo_core.specs.Axes.{low_along, high_along};
    ghost use Rattle.union_area.specs.WindowParts.{AreParts, IsBetween, IsHalfWay};

    /// Of no rectangles so far.
    pub fn of(window: Rect) -> Survey
        ensures { result ≡ window }
    {
        Survey {
            window,
            count: 0,
            columns: Middle::of(window.columns()),
            rows: Middle::of(window.rows()),
            broad: 0,
        }
    }

    /// Looks at one more rectangle, which lies in the window.
    pub fn add(&mut self, rect: Rect)
        ensures { self.new ≡ self.old }
    {
        let is_over = self.columns.is_in(rect.columns()) && self.rows.is_in(rect.rows());
        self.count = self.count.saturating_add(1);
        self.columns = self.columns.with(rect.columns());
        self.rows = self.rows.with(rect.rows());
        self.broad = more_if(is_over && is_broad(rect), self.broad);
    }

    /// Whether many broad rectangles lie over the middle.
    pub fn has_many_broad(&self) -> bool {
        MANY_BROAD <= self.broad
    }

    /// Whether the rectangles are so few that the window needs no parting.
    pub fn is_few(&self) -> bool {
        self.count <= FEW
    }

    /// Whether few rectangles lie on both sides of the middle along some axis.
    pub fn parts_well(&self) -> bool {
        let across = self.columns.across.min(self.rows.across);
        across <= self.count / TO_EACH_ACROSS
    }

    /// Where to halve the window, along which axis; a single cell has no such place. It is the middle of the axis on which
    /// fewer rectangles lie on both sides, if they are few. Else it is the edge of a rectangle that is nearest to the middle
    /// of its longer side, or of the other one, since rectangles that reach over all of a part soon decide it.
    pub fn place(&self) -> Option<(Axis, i32)>
        ensures { IfSome result (λ cut. IsBetween (low_along cut.0 self.now) (high_along cut.0 self.now) cut.1) }
    {
        if self.parts_well() {
            return self.middle();
        }
        let (longer, shorter) = longer_first(self.window);
        if let Some(place) = self.edge_along(longer) {
            return Some((longer, place));
        }
        if let Some(place) = self.edge_along(shorter) {
            return Some((shorter, place));
        }
        self.middle()
    }

    /// Two parts of the window, cut at that place.
    pub fn halves(&self) -> Option<(Rect, Rect)>
        ensures { IfSome result (λ parts. AreParts self.now parts.0 parts.1) }
    {
        let (axis, place) = self.place()?;
        Some(parts_at(self.window, axis, place))
    }

    /// The middle along one of the axes.
    fn middle(&self) -> Option<(Axis, i32)>
        ensures between { IfSome result (λ cut. IsBetween (low_along cut.0 self.now) (high_along cut.0 self.now) cut.1) }
        ensures half { IfSome result (λ cut. IsHalfWay (low_along cut.0 self.now) (high_along cut.0 self.now) cut.1) }
    {
        let (first, second) = self.clearer_first();
        if let Some(place) = inner_half_way(self.window.along(first)) {
            return Some((first, place));
        }
        match inner_half_way(self.window.along(second)) {
            None => None,
            Some(place) => Some((second, place)),
        }
    }

    /// The edge that is nearest to the middle, where one lies within.
    fn edge_along(&self, axis: Axis) -> Option<i32>
        ensures { IfSome result (IsBetween (low_along axis self.now) (high_along axis self.now)) }
    {
        let places = self.window.along(axis);
        let edge = match axis {
            Axis::X => self.columns.edge,
            Axis::Y => self.rows.edge,
        };
        if edge <= places.low || places.high <= edge {
            return None;
        }
        Some(edge)
    }

    /// The axis on which fewer rectangles lie on both sides of the middle, and the other one.
    fn clearer_first(&self) -> (Axis, Axis) {
        if self.columns.across < self.rows.across {
            return (Axis::X, Axis::Y);
        }
        if self.rows.across < self.columns.across {
            return (Axis::Y, Axis::X);
        }
        longer_first(self.window)
    }
}
