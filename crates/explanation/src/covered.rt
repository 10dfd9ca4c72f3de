//! What the layers of a map cover, as it is analysed.

ghost use Rattle.std.specs.Prelude.{◌≡◌, ◌+◌, true, All, IfSome, length};
ghost use Rattle.geo_core.specs.Cells.{IsInLayout};

use geo_core::{FARTHEST, Rect, RectList};
use input_explanation::{Held, Telling};
use map_model::{Layers, Map};

/// What a layer covers, as a list of its own.
fn list_of(told: &mut Telling, held: &Held) -> RectList {
    let mut rects = Vec::new(told.alloc);
    if rects.extend_from_slice(held.rects.as_slice()).is_err() {
        told.lose();
    }
    RectList::from_vec(rects)
}

/// What the layers cover, a list for each.
fn layers_of(told: &mut Telling, held: &[Held]) -> Layers {
    let mut lists = Vec::new(told.alloc);
    for one in held {
        let list = list_of(told, one);
        told.keep(&mut lists, list);
    }
    Layers { lists }
}

/// Whether a rectangle lies where those of a layout do.
fn is_near(rect: Rect) -> bool
    ensures { result ≡ true → IsInLayout rect }
{
    if rect.x0 < -FARTHEST || rect.x1 > FARTHEST {
        return false;
    }
    -FARTHEST <= rect.y0 && rect.y1 <= FARTHEST
}

/// Whether all of these do.
fn are_near(rects: &[Rect]) -> bool
    ensures { result ≡ true → All IsInLayout rects.now }
{
    for rect in rects {
        if !is_near(*rect) {
            return false;
        }
    }
    true
}

/// Whether all of each list do.
fn are_all_near(lists: &[RectList]) -> bool
    ensures { result ≡ true → All (All IsInLayout) lists.now }
{
    for list in lists {
        if !are_near(list.as_slice()) {
            return false;
        }
    }
    true
}

/// What these layers cover, where there is one for each metal and each cut of the map and all of it lies where that of a layout
/// does. So it is with the layers of every layout.
pub fn covered_layers(told: &mut Telling, map: &Map, held: &[Held]) -> Option<Layers>
    ensures one_each { IfSome result (λ layers. length layers.lists.items ≡ length map.now.metals + length map.now.cuts) }
    ensures within { IfSome result (λ layers. All (All IsInLayout) layers.lists.items) }
{
    let layers = layers_of(told, held);
    let count = map.metals.as_slice().len() + map.cuts.as_slice().len();
    if layers.lists.len() != count || !are_all_near(layers.lists.as_slice()) {
        return None;
    }
    Some(layers)
}
