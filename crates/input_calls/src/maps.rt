//! Layer maps: what is read, or the first fault.

use crate::texts::{joined, print_fault};
use layer_map::{LayerName, Map, one_metal, read_map};
use row_tables::{Case, Text};

/// `[[map]]` and `[[long_map]]`: a map as `text`, as `bytes` if it is none, or in `parts`, each as often as `times` says, with a number
/// that rises from `first` in place of `#`. It `holds` that, or `gives` the number and the place of its fault.
pub fn map(case: &mut Case<'_>) {
    if case.has("parts") {
        let text = joined(case);
        expect_map(case, "map", text.shown().as_bytes());
    } else if case.has("text") {
        let text = case.text("text");
        expect_map(case, "map", text.as_bytes());
    } else {
        let bytes = case.bytes("bytes");
        expect_map(case, "map", bytes.as_slice());
    }
}

/// `[[changed_map]]`: the map that is named by `sample`, with each text of `becomes` in place of its first `part`.
pub fn changes(case: &mut Case<'_>) {
    case.share("sample");
    let part = case.text("part");
    let Some((front, back)) = case.text("text").split_once(part) else {
        return case.note("part", "not in the sample");
    };
    for middle in case.texts("becomes").as_slice() {
        let mut text = Text::new(case.alloc);
        text.say(front);
        text.say(middle);
        text.say(back);
        expect_map(case, middle, text.shown().as_bytes());
    }
}

/// Compares what is read from the bytes with what is wanted: what the map `holds`, or that it `gives` a map or the number and the place
/// of a fault.
fn expect_map(case: &mut Case<'_>, what: &str, bytes: &[u8]) {
    let holds = case.has("holds");
    let wanted = case.text(if holds { "holds" } else { "gives" });
    let mut came = Text::new(case.alloc);
    match read_map(case.alloc, bytes) {
        Ok(map) if holds => print_map(&mut came, &map),
        Ok(_) => came.say("a map"),
        Err(fault) => print_fault(&mut came, fault.number(), fault.place()),
    }
    case.compare(what, wanted, came.shown());
}

/// Appends what the map holds.
fn print_map(text: &mut Text, map: &Map) {
    let (measure, contacts) = (map.measure, map.contacts);
    let (sizes, weights) = (map.sizes.as_slice(), map.weights.as_slice());
    text.print(format_args!(
        "{measure:?} {sizes:?}, weights {weights:?}, contacts {contacts}\nsides"
    ));
    for number in 0u32..32 {
        if (number as usize) < sizes.len() {
            text.say(" ");
            text.print(map.side(number));
        }
    }
    text.say("\n");
    print_layers(text, map);
    for terminal in map.terminals.as_slice() {
        let (metal, cell) = (terminal.metal, terminal.cell);
        text.print(format_args!("terminal on {metal} at {},{}\n", cell.i, cell.j));
    }
}

/// Appends the map's metals and cuts.
fn print_layers(text: &mut Text, map: &Map) {
    for metal in map.metals.as_slice() {
        let pairs = metal.pairs.as_slice();
        text.print(format_args!("metal {} {pairs:?}\n", metal.name.as_str()));
    }
    for cut in map.cuts.as_slice() {
        let (name, pairs) = (cut.name.as_str(), cut.pairs.as_slice());
        let (lower, upper) = (cut.lower, cut.upper);
        text.print(format_args!("cut {name} {pairs:?} joins {lower} and {upper}\n"));
    }
}

/// `[[layer_of]]`: a `layer` and a `datatype`, and the number of the layer of the `sample` that has them, or `none`.
pub fn layers(case: &mut Case<'_>) {
    let layer = case.number("layer");
    let datatype = case.number("datatype");
    case.share("sample");
    match read_map(case.alloc, case.text("text").as_bytes()) {
        Ok(map) => match map.layer_of(layer, datatype) {
            Some(number) => case.expect("gives", number),
            None => case.expect_text("gives", "none"),
        },
        Err(fault) => case.expect("gives", fault),
    }
}

/// `[[one_metal]]`: the map of one metal, of this `layer` and `datatype`, for defects of this `radius`.
pub fn one(case: &mut Case<'_>) {
    let layer = case.number("layer");
    let datatype = case.number("datatype");
    let radius = case.radius();
    let Ok(map) = one_metal(case.alloc, layer, datatype, radius) else {
        return case.no_memory();
    };
    let mut text = Text::new(case.alloc);
    print_map(&mut text, &map);
    case.expect_text("holds", text.shown());
}

/// `[[layer_name]]`: texts, and whether they are `names` of a layer that print as they are.
pub fn names(case: &mut Case<'_>) {
    for text in case.texts("names").as_slice() {
        let is_name = match LayerName::new(text.as_bytes()) {
            Some(name) => name.as_str() == *text,
            None => false,
        };
        case.expect("gives", is_name);
    }
}
