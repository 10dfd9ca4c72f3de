//! What is wrong with a map.

use crate::layouts::beginnings::{format_of, is_gdsii};
use crate::maps::lines::{Sought, front, is_known, last_line, line_ends, line_of};
use crate::maps::wanted::wanted;
use crate::remedies::remedy_of;
use crate::telling::Telling;
use layer_map::{
    Cause, ItemKind, MapFault, Measure, Place, cause_of, first_named, first_pair, first_terminal,
    measure_of,
};
use toml::{Table, Value};

/// Tells of a map that is no TOML document, and what the reader of TOML says of it.
fn tell_no_document(told: &mut Telling, name: &[u8], bytes: &[u8], error: &toml::de::Error) {
    told.name("map ", name, ": it is ");
    if is_gdsii(bytes) {
        told.say("a GDSII layout; were the layout and the map exchanged?\n");
        return;
    }
    told.say("no TOML document");
    if let Some(format) = format_of(bytes) {
        told.word(", but ", format, "");
    }
    told.say("\n");
    if let Some(span) = error.span() {
        let before = front(bytes, span.start);
        told.number("  line ", line_ends(before).saturating_add(1), ", column ");
        told.number("", last_line(before).saturating_add(1) as u64, ": ");
        told.raw(error.message().as_bytes());
        told.say("\n");
    }
}

/// The place of a path in a document whose sizes are measured so, and the document where none has it.
pub fn place_of(path: u64, measure: Measure) -> Place {
    match u32::try_from(path) {
        Ok(path) => Place::of_path(path, measure).unwrap_or(Place::Document),
        Err(_) => Place::Document,
    }
}

/// Tells which place of a map is meant, where the items of the document have these names.
pub fn tell_place(told: &mut Telling, document: Option<&Table>, place: Place) {
    match place {
        Place::Document => told.say("the document"),
        Place::Key(key) => told.word("`", key, "`"),
        Place::Item(kind, number) => tell_item(told, "", document, kind, number),
        Place::ItemKey(kind, number, key) => {
            told.word("`", key, "`");
            tell_item(told, " of ", document, kind, number);
        }
    }
}

/// Tells behind some words the name of a metal or a cut, where it has one.
fn tell_name(told: &mut Telling, before: &str, item: &Value) {
    if let Some(Value::String(name)) = item.get("name") {
        told.name(before, name.as_bytes(), "");
    }
}

/// Tells behind some words which item is meant, by its number from 1 and by its name, where the document is known and it has
/// one.
fn tell_item(
    told: &mut Telling,
    before: &str,
    document: Option<&Table>,
    kind: ItemKind,
    number: usize,
) {
    told.say(before);
    told.word("[[", kind.list(), "]] number ");
    told.number("", number.saturating_add(1) as u64, "");
    if let Some(document) = document {
        if let Some(item) = kind.items_of(document).get(number) {
            tell_name(told, ", ", item);
        }
    }
}

/// Tells a value and its kind, as the end of a line.
fn tell_kind(told: &mut Telling, value: &Value) {
    told.word(", of the kind ", value.type_str(), ": ");
    told.value(value);
    told.say("\n");
}

/// Tells the keys of the table at a place that are not known, and those that are.
fn tell_bad_key(told: &mut Telling, document: &Table, place: Place) {
    let measure = measure_of(document);
    told.say("it has a key that is not known\n  not known:");
    let table = match place.value_in(document) {
        Some(Value::Table(table)) => table,
        _ => document,
    };
    for key in table.keys() {
        if !is_known(place, measure, key.as_str()) {
            told.name(" ", key.as_bytes(), "");
        }
    }
    told.say("\n  known:");
    for key in place.known_keys(measure) {
        told.word(" ", *key, "");
    }
    told.say("\n");
    if place == Place::Document {
        tell_other_version(told, document, measure);
    }
}

/// Keys that version 1 alone has, and what is said of each in a map of version 2.
const OF_RADII: &[(&str, &str)] = &[("radii", "  version 2 has `sides` in place of `radii`\n")];

/// Keys that version 2 alone has, and what is said of each in a map of version 1.
const OF_SIDES: &[(&str, &str)] = &[
    (
        "sides",
        "  version 1 has `radii` in place of `sides`, which stand in version 2\n",
    ),
    (
        "contacts",
        "  `contacts` stands in version 2, with `sides`\n",
    ),
];

/// Tells of the keys that one version alone has, where the document has those of the other one.
fn tell_other_version(told: &mut Telling, document: &Table, measure: Measure) {
    let others = match measure {
        Measure::Side => OF_RADII,
        Measure::Radius => OF_SIDES,
    };
    for (key, words) in others {
        if document.get(*key).is_some() {
            told.say(*words);
        }
    }
}

/// Tells the value with this number of a list, which may not stand there, and between these words the one before it.
fn tell_one_of(told: &mut Telling, values: &[Value], number: usize, before: &str) {
    told.number(
        "  there stands as number ",
        number.saturating_add(1) as u64,
        "",
    );
    if number > 0
        && let Some(value) = values.get(number - 1)
    {
        told.say(before);
        told.value(value);
    }
    if let Some(value) = values.get(number) {
        tell_kind(told, value);
    }
}

/// Tells what stands at a place where it may not, by its cause.
fn tell_there(told: &mut Telling, value: &Value, cause: Option<Cause>, measure: Measure) {
    match (cause, value) {
        (Some(Cause::Uneven { weights, sizes }), Value::Array(_)) => {
            let counts = [weights as u64, sizes as u64];
            told.numbers("  there stand {} weights, and there are {} ", &counts);
            told.say(match measure {
                Measure::Radius => "radii\n",
                Measure::Side => "sides\n",
            });
        }
        (Some(Cause::Outside { number, .. }), Value::Array(values)) => {
            tell_one_of(told, values, number, ", behind ")
        }
        (Some(Cause::Falls { number }), Value::Array(values)) => {
            tell_one_of(
                told,
                values,
                number,
                ", not greater than the one before it, ",
            )
        }
        _ => {
            told.say("  there stands");
            tell_kind(told, value)
        }
    }
}

/// Tells of a value that may not stand where it does, or is missing.
fn tell_bad_value(told: &mut Telling, document: &Table, place: Place) {
    let measure = measure_of(document);
    match place.value_in(document) {
        Some(value) => {
            told.say("this may not stand there\n");
            tell_there(told, value, cause_of(document, place), measure);
        }
        None => told.say("this is missing\n"),
    }
    told.word("  there may stand: ", wanted(place, measure), "\n");
}

/// The layer and the datatype that a value is, where it is a pair of them.
fn pair_of(value: &Value) -> Option<(u16, u16)> {
    let Value::Array(numbers) = value else {
        return None;
    };
    let [Value::Integer(layer), Value::Integer(datatype)] = numbers.as_slice() else {
        return None;
    };
    match (u16::try_from(*layer), u16::try_from(*datatype)) {
        (Ok(layer), Ok(datatype)) => Some((layer, datatype)),
        _ => None,
    }
}

/// Tells which pairs of the item at a place stand twice: those of which another place is the first.
fn tell_repeated_pair(told: &mut Telling, document: &Table, place: Place) {
    told.say("a layer and a datatype stand twice in the map; leave them to one metal or cut\n");
    let (Some((kind, number)), Some(Value::Array(pairs))) = (place.item(), place.value_in(document))
    else {
        return;
    };
    for (at, pair) in pairs.iter().enumerate() {
        if let Some((layer, datatype)) = pair_of(pair) {
            if first_pair(document, layer, datatype) != Some((kind, number, at)) {
                let pair = [u64::from(layer), u64::from(datatype)];
                told.numbers("  twice: layer {}, datatype {}\n", &pair);
            }
        }
    }
}

/// Tells which metal or cut is the first to have the name that stands at a place.
fn tell_first_named(told: &mut Telling, document: &Table, place: Place) {
    told.say("an earlier metal or cut has this name; give each one of its own\n");
    if let Some(Value::String(name)) = place.value_in(document) {
        if let Some((kind, number)) = first_named(document, name.as_str()) {
            tell_item(told, "  earlier: ", Some(document), kind, number);
            told.say("\n");
        }
    }
}

/// The metal and the cell of a terminal, where the value is one.
pub fn terminal_of(value: &Value) -> Option<(&str, i64, i64)> {
    match (value.get("metal"), value.get("x"), value.get("y")) {
        (Some(Value::String(metal)), Some(Value::Integer(x)), Some(Value::Integer(y))) => {
            Some((metal.as_str(), *x, *y))
        }
        _ => None,
    }
}

/// Tells which terminal is the first to have the cell and the metal of the one at a place.
fn tell_first_terminal(told: &mut Telling, document: &Table, place: Place) {
    told.say("an earlier terminal is the same cell of the same metal; leave one out\n");
    if let Some(item) = place.value_in(document)
        && let Some((metal, x, y)) = terminal_of(item)
        && let Some(number) = first_terminal(document, metal, x, y)
    {
        tell_item(
            told,
            "  earlier: ",
            Some(document),
            ItemKind::Terminal,
            number,
        );
        told.signed(", the cell (", x, ", ");
        told.signed("", y, ") of ");
        told.name("", metal.as_bytes(), "\n");
    }
}

/// Tells the name that stands at a place, and those of the metals.
fn tell_unknown_metal(told: &mut Telling, document: &Table, place: Place) {
    told.say("no metal has the name that stands there\n  there stands");
    if let Some(value) = place.value_in(document) {
        tell_kind(told, value);
    }
    told.say("  metals:");
    for item in ItemKind::Metal.items_of(document) {
        tell_name(told, " ", item);
    }
    told.say("\n");
}

/// Tells how long a list is that is too long.
fn tell_limit(told: &mut Telling, document: &Table, place: Place) {
    if let Some(Cause::TooMany { count, most }) = cause_of(document, place) {
        let counts = [count as u64, most as u64];
        told.numbers("it has {} items, and at most {} are taken; ", &counts);
    }
    told.word("", remedy_of(3, 47).remedy, "\n");
}

/// Tells which map is meant, and what is sought in it, with the line in which that stands where it is known.
pub fn tell_where(
    told: &mut Telling,
    name: &[u8],
    bytes: &[u8],
    document: Option<&Table>,
    sought: Sought,
) {
    told.name("map ", name, ", ");
    if let Some(line) = line_of(told.alloc, bytes, sought) {
        line.tell(told, "", ", ");
    }
    tell_place(told, document, sought.place);
    told.say(": ");
}

/// Tells why this document, which is the text of the map of this name, is no layer map.
fn tell_document(told: &mut Telling, name: &[u8], bytes: &[u8], document: &Table, fault: MapFault) {
    let measure = measure_of(document);
    let place = place_of(fault.place(), measure);
    let sought = Sought {
        place,
        is_unknown_key: matches!(fault, MapFault::BadKey { .. }),
        measure,
    };
    tell_where(told, name, bytes, Some(document), sought);
    match fault {
        MapFault::BadKey { .. } => tell_bad_key(told, document, place),
        MapFault::BadValue { .. } => tell_bad_value(told, document, place),
        MapFault::RepeatedPair { .. } => tell_repeated_pair(told, document, place),
        MapFault::RepeatedName { .. } => tell_first_named(told, document, place),
        MapFault::UnknownMetal { .. } => tell_unknown_metal(told, document, place),
        MapFault::RepeatedTerminal { .. } => tell_first_terminal(told, document, place),
        MapFault::LimitPassed { .. } => tell_limit(told, document, place),
        MapFault::Syntax | MapFault::Memory => {}
    }
}

/// Tells why these bytes of the map of this name are no layer map.
pub fn tell_map_fault(told: &mut Telling, name: &[u8], bytes: &[u8], fault: MapFault) {
    if matches!(fault, MapFault::Memory) {
        told.lose();
        return;
    }
    told.refuse(3, fault.number(), fault.place());
    match toml::table_from_slice(told.alloc, bytes) {
        Ok(document) => tell_document(told, name, bytes, &document, fault),
        Err(error) => tell_no_document(told, name, bytes, &error),
    }
}
