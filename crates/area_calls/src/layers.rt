//! Rows on the layers of a map: which map it is, and which rectangles its layers have.

ghost use Rattle.std.specs.Prelude.{◌≡◌, ◌+◌, All, IfSome, length, true};
ghost use Rattle.geo_core.specs.Cells.{IsInLayout};

use crate::{maps, nets};
use geo_core::RectList;
use layer_map::read_map;
use map_model::{Layers, Map};
use row_tables::{Case, Text};
use samples::sides::are_near;

/// Two metals and a cut between them.
const METALS: &str = "version = 1\nradii = [1]\nweights = [1]\n\
    [[metal]]\nname = \"m0\"\npairs = [[1, 0]]\n\
    [[metal]]\nname = \"m1\"\npairs = [[3, 0]]\n\
    [[cut]]\nname = \"v1\"\npairs = [[2, 0]]\nlower = \"m0\"\nupper = \"m1\"\n";

/// Appends the terminals of a row to the text of a map, if it has some: the metal, the column and the row of each.
fn add_terminals(case: &mut Case<'_>, text: &mut Text) {
    if !case.has("terminals") {
        return;
    }
    for terminal in case.flat("terminals", 3).as_slice().chunks(3) {
        if let [metal, x, y] = terminal {
            text.print(format_args!("[[terminal]]\nmetal = \"m{metal}\"\nx = {x}\ny = {y}\n"));
        }
    }
}

/// The map that a row names, or else the two metals and the cut, with the row's terminals.
fn map_of(case: &mut Case<'_>) -> Option<Map> {
    let mut text = Text::new(case.alloc);
    if case.has("map") {
        case.share("map");
        text.say(case.text("text"));
    } else {
        text.say(METALS);
    }
    add_terminals(case, &mut text);
    read_map(case.alloc, text.shown().as_bytes()).ok()
}

/// The rectangles of a row on the lower metal, on the upper metal and on the cut, where it has some.
fn add_layers(case: &mut Case<'_>, lists: &mut Vec<RectList>) {
    for key in ["lower", "upper", "cut"] {
        let rects = if case.has(key) {
            case.rects(key)
        } else {
            Vec::new(case.alloc)
        };
        case.push(lists, RectList::from_vec(rects));
    }
}

/// The rectangles of a row on each layer, which are four numbers each.
fn lists_of(case: &mut Case<'_>) -> Vec<RectList> {
    let mut lists = Vec::new(case.alloc);
    if !case.has("layers") {
        add_layers(case, &mut lists);
        return lists;
    }
    for numbers in case.number_lists("layers").as_slice() {
        let rects = case.rects_in("layers", numbers.as_slice());
        case.push(&mut lists, RectList::from_vec(rects));
    }
    lists
}

/// Whether all rectangles lie where those of a layout do.
fn are_all_near(lists: &[RectList]) -> bool
    ensures { result ≡ true → All (All IsInLayout) lists.now }
{
    for list in lists {
        if !are_near(list.as_slice()) {
            return false;
        }
    }
    true
}

/// The rectangles of the layers, if there is one list for each metal of the map and then one for each cut.
fn layers_of(lists: Vec<RectList>, map: &Map) -> Option<Layers>
    ensures one_each { IfSome result (λ layers. length layers.lists.items ≡ length map.now.metals + length map.now.cuts) }
    ensures within { IfSome result (λ layers. All (All IsInLayout) layers.lists.items) }
{
    if lists.len() != map.metals.as_slice().len() + map.cuts.as_slice().len() {
        return None;
    }
    if !are_all_near(lists.as_slice()) {
        return None;
    }
    Some(Layers { lists })
}

/// Checks a row on a map and on its layers.
fn check_layers(case: &mut Case<'_>, map: &Map) {
    let lists = lists_of(case);
    let Some(layers) = layers_of(lists, map) else {
        return case.note("layers", "not one in a layout for each layer of the map");
    };
    match case.kind {
        "layout_pairs" => maps::pairs(case, map, &layers),
        "probe" => maps::near(case, map, &layers),
        "region" => maps::region(case, map, &layers),
        _ => nets::check(case, map, &layers),
    }
}

/// Checks a row on the rectangles that it names or has.
pub fn check(case: &mut Case<'_>) {
    case.share("drawn");
    match map_of(case) {
        Some(map) => check_layers(case, &map),
        None => case.note("map", "not a map with these terminals"),
    }
}
