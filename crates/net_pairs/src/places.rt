ghost use Rattle.std.specs.Prelude.{IfSome};
ghost use Rattle.net_pairs.specs.inside.PairSteps.{IsMiddleCut};

use geo_core::{Axis, Labelled, Rect};
use union_area::{half_way, inner_half_way, longer_first};

/// How zones lie about the middle of a window.
#[derive(Clone, Copy)]
pub struct Spread {
    /// How many zones there are.
    zones: usize,
    /// How many have columns on both sides of the middle.
    across: usize,
    /// How many have rows on both sides of it.
    up: usize,
}

/// Each pair of so few zones may meet.
const FEW: usize = 64;

/// One of so many zones on both sides of the middle is few.
const SHARE: usize = 8;

impl Spread {
    /// Counts one zone more.
    fn add(self, across: bool, up: bool) -> Spread {
        Spread {
            zones: self.zones.saturating_add(1),
            across: self.across.saturating_add(usize::from(across)),
            up: self.up.saturating_add(usize::from(up)),
        }
    }

    /// Whether the zones are so few that no halving pays.
    pub fn is_few(self) -> bool {
        self.zones <= FEW
    }

    /// Whether few zones lie on both sides of the middle along one of the axes.
    pub fn is_parted(self) -> bool {
        self.across.min(self.up) <= self.zones / SHARE
    }
}

/// How the zones lie about the middle of the window.
pub fn spread_of(zones: &[Labelled], window: Rect) -> Spread {
    let x = half_way(window.columns());
    let y = half_way(window.rows());
    let mut spread = Spread {
        zones: 0,
        across: 0,
        up: 0,
    };
    for zone in zones {
        let rect = zone.rect;
        let across = rect.x0 < x && x < rect.x1;
        let up = rect.y0 < y && y < rect.y1;
        spread = spread.add(across, up);
    }
    spread
}

/// The axis along which fewer zones lie on both sides of the middle, and the other one.
fn less_crossed_first(window: Rect, spread: Spread) -> (Axis, Axis) {
    if spread.across < spread.up {
        return (Axis::X, Axis::Y);
    }
    if spread.up < spread.across {
        return (Axis::Y, Axis::X);
    }
    longer_first(window)
}

/// Where to halve the window, along which axis: in the middle, along the axis with fewer zones on both sides of it, or else along
/// the other. There is no place where there is one cell.
pub fn place_to_halve(window: Rect, spread: Spread) -> Option<(Axis, i32)>
    ensures { IfSome result (λ cut. IsMiddleCut window cut.0 cut.1) }
{
    let (first, second) = less_crossed_first(window, spread);
    if let Some(place) = inner_half_way(window.along(first)) {
        return Some((first, place));
    }
    match inner_half_way(window.along(second)) {
        None => None,
        Some(place) => Some((second, place)),
    }
}
