ghost use Rattle.std.specs.Prelude.{pos, ◌≡◌, ◌≤ℤ◌, ◌++◌, List, All};
ghost use Rattle.std.specs.List.{flat_map};
ghost use Rattle.geo_core.specs.Cells.{IsInLayout};
ghost use Rattle.geo_core.specs.declared.bounds.TheConstants.{GREATEST_REACH};
ghost use Rattle.geo_core.specs.declared.plane.Rect.{Rect as Rectangle};
ghost use Rattle.fault_model.specs.Areas.{IsCovered, IsWindowOf};
ghost use Rattle.geo_core.specs.Unions.{IsCoveredIn};
ghost use Rattle.area_parts.specs.inside.LayoutBounds.{AreBounds};
ghost use Rattle.map_model.specs.LayerMap.{reach_of};
ghost use Rattle.map_model.specs.MapView.{layer_map_of};

use super::sides::reach_of_side;
use geo_core::{Rect, RectList, grow, join};
use map_model::Map;

/// How far a defect of the map reaches at most: half of the greatest side, rounded down. The greatest size is the last.
pub fn reach(map: &Map) -> u32
    ensures reach { result ≡ reach_of (layer_map_of map.now) }
    ensures within { pos result ≤ℤ GREATEST_REACH }
{
    let last = map.sizes.as_slice().len() - 1;
    reach_of_side(map.side(last as u32))
}

/// The bounds of the rectangles, where there are any.
fn bounds_of(rects: &[Rect]) -> Option<Rect>
    requires { All IsInLayout rects.now }
    ensures { AreBounds rects.now result }
{
    let mut bounds = None;
    for rect in rects {
        bounds = bounds_of_both(bounds, Some(*rect));
    }
    bounds
}

/// The bounds of two lists together, from those of each.
fn bounds_of_both(one: Option<Rect>, other: Option<Rect>) -> Option<Rect>
    ensures { (first second : List Rectangle) → AreBounds first one → AreBounds second other → AreBounds (first ++ second) result }
{
    let Some(a) = one else {
        return other;
    };
    let Some(b) = other else {
        return one;
    };
    Some(join(a, b))
}

/// The bounds of all rectangles of the lists, where there are any.
fn bounds_of_all(lists: &[RectList]) -> Option<Rect>
    requires { All (All IsInLayout) lists.now }
    ensures { AreBounds (flat_map (λ list. list) lists.now) result }
{
    let mut bounds = None;
    for list in lists {
        bounds = bounds_of_both(bounds, bounds_of(list.as_slice()));
    }
    bounds
}

/// The window: the bounds of all rectangles, grown by the reach of the defects. There is none where there are no
/// rectangles.
pub fn window_of(lists: &[RectList], reach: u32) -> Option<Rect>
    requires reach { pos reach ≤ℤ GREATEST_REACH }
    requires within { All (All IsInLayout) lists.now }
    ensures { IsWindowOf (IsCovered (IsCoveredIn lists.now)) reach result }
{
    let bounds = bounds_of_all(lists)?;
    Some(grow(bounds, reach as i32))
}
