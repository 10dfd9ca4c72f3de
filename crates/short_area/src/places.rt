ghost use Rattle.std.specs.Prelude.{ℤ, ◌≡◌, ◌⊎◌, IfSome};
ghost use Rattle.union_area.specs.WindowParts.{IsBetween};
ghost use Rattle.short_area.specs.inside.AreaSteps.{AreNoNearer, IsCentralCut, IsMiddleCut, IsNoNearer};

use geo_core::{Axis, Interval, Labelled, Rect};
use union_area::{distance_from_middle, half_way, inner_half_way, is_broad, longer_first};

/// How zones lie about the middle of a window.
#[derive(Clone, Copy)]
pub struct Spread {
    /// How many zones there are.
    zones: usize,
    /// How many have columns on both sides of the middle.
    across: usize,
    /// How many have rows on both sides of it.
    up: usize,
    /// How many do both and are about as wide as high.
    broad: usize,
}

/// Of so few zones each pair may be looked at.
const FEW: usize = 64;

/// One of so many zones on both sides of the middle is few.
const SHARE: usize = 8;

/// So many broad zones over the middle soon have all cells of the parts.
const BROAD: usize = 8;

impl Spread {
    /// Counts one zone more.
    fn add(self, across: bool, up: bool, broad: bool) -> Spread {
        Spread {
            zones: self.zones.saturating_add(1),
            across: self.across.saturating_add(usize::from(across)),
            up: self.up.saturating_add(usize::from(up)),
            broad: self
                .broad
                .saturating_add(usize::from(across && up && broad)),
        }
    }

    /// Whether so many broad zones lie over the middle that parts will soon be covered whole.
    pub fn is_deep(self) -> bool {
        BROAD <= self.broad
    }

    /// Whether each pair of the zones may be looked at.
    pub fn is_few(self) -> bool {
        self.zones <= FEW
    }

    /// Whether few zones lie on both sides of the middle along one of the axes.
    pub fn is_parted(self) -> bool {
        self.across.min(self.up) <= self.zones / SHARE
    }
}

/// How the zones lie about the middle of the window.
pub fn spread_of(zones: &[Labelled], window: Rect) -> Spread {
    let x = half_way(window.columns());
    let y = half_way(window.rows());
    let mut spread = Spread {
        zones: 0,
        across: 0,
        up: 0,
        broad: 0,
    };
    for zone in zones {
        let rect = zone.rect;
        let across = rect.x0 < x && x < rect.x1;
        let up = rect.y0 < y && y < rect.y1;
        spread = spread.add(across, up, is_broad(rect));
    }
    spread
}

/// This place, where it lies between the ends of the places and nearer to their middle than the one found before.
fn more_central(places: Interval, found: Option<i32>, place: i32) -> Option<i32>
    requires { IfSome found (IsBetween places.low places.high) }
    ensures within { IfSome result (IsBetween places.low places.high) }
    ensures kept { (edge : ℤ) → IsNoNearer places.low places.high found edge
        → IsNoNearer places.low places.high result edge }
    ensures one_more { IsNoNearer places.low places.high result place }
{
    if place <= places.low || places.high <= place {
        return found;
    }
    let Some(other) = found else {
        return Some(place);
    };
    if distance_from_middle(places, other) <= distance_from_middle(places, place) {
        return Some(other);
    }
    Some(place)
}

/// Of the edges of zones that lie between the ends of the places, one that is nearest to their middle.
fn central_edge(zones: &[Labelled], axis: Axis, places: Interval) -> Option<i32>
    ensures within { IfSome result (IsBetween places.low places.high) }
    ensures central { AreNoNearer zones.now axis places.low places.high result }
{
    let mut nearest = None;
    for zone in zones {
        let edges = zone.rect.along(axis);
        nearest = more_central(places, nearest, edges.low);
        nearest = more_central(places, nearest, edges.high);
    }
    nearest
}

/// The axis along which fewer zones lie on both sides of the middle, and the other one.
fn less_crossed_first(window: Rect, spread: Spread) -> (Axis, Axis) {
    if spread.across < spread.up {
        return (Axis::X, Axis::Y);
    }
    if spread.up < spread.across {
        return (Axis::Y, Axis::X);
    }
    longer_first(window)
}

/// The edge of a zone at which to halve the window: nearest to the middle of its longer side, or else of the other.
fn edge_to_halve_at(zones: &[Labelled], window: Rect) -> Option<(Axis, i32)>
    ensures { IfSome result (λ cut. IsCentralCut zones.now window cut.0 cut.1) }
{
    let (longer, shorter) = longer_first(window);
    if let Some(place) = central_edge(zones, longer, window.along(longer)) {
        return Some((longer, place));
    }
    match central_edge(zones, shorter, window.along(shorter)) {
        None => None,
        Some(place) => Some((shorter, place)),
    }
}

/// The middle at which to halve the window: along the axis with fewer zones on both sides, or else along the other.
fn middle_to_halve_at(window: Rect, spread: Spread) -> Option<(Axis, i32)>
    ensures { IfSome result (λ cut. IsMiddleCut window cut.0 cut.1) }
{
    let (first, second) = less_crossed_first(window, spread);
    if let Some(place) = inner_half_way(window.along(first)) {
        return Some((first, place));
    }
    match inner_half_way(window.along(second)) {
        None => None,
        Some(place) => Some((second, place)),
    }
}

/// Where to halve the window, along which axis: in the middle where few zones lie on both sides of it. Else at the edge of
/// a zone, since zones that reach over all of a part soon decide it. There is no place where there is one cell.
pub fn place_to_halve(zones: &[Labelled], window: Rect, spread: Spread) -> Option<(Axis, i32)>
    ensures { IfSome result (λ cut. IsCentralCut zones.now window cut.0 cut.1) }
{
    if !spread.is_parted() {
        if let Some(cut) = edge_to_halve_at(zones, window) {
            return Some(cut);
        }
    }
    middle_to_halve_at(window, spread)
}
