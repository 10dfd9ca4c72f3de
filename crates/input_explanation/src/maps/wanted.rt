//! What may stand at a place of a map.

use layer_map::{ItemKind, Measure, Place};

/// The keys of the document, and what may stand at each. At `weights` it is this where sizes are radii.
const IN_DOCUMENT: &[(&str, &str)] = &[
    ("version", "1, or 2 with `sides` in place of `radii`"),
    (
        "radii",
        "an array of 1 to 32 whole numbers from 1 to 1000000, each greater than the one before",
    ),
    (
        "sides",
        "an array of 1 to 32 whole numbers from 1 to 2000000, each greater than the one before",
    ),
    (
        "weights",
        "an array of as many whole numbers as there are radii, from 0 to 1000000000",
    ),
    ("metal", "1 to 16 tables [[metal]] with `name` and `pairs`"),
    (
        "cut",
        "at most 16 tables [[cut]] with `name`, `pairs`, `lower` and `upper`, or no such key",
    ),
    (
        "terminal",
        "tables [[terminal]] with `metal`, `x` and `y`, or no such key",
    ),
    (
        "contacts",
        "true or false: whether each via cluster is a terminal of both its metals; or no such key",
    ),
];

/// The keys of items, and what may stand at each.
const IN_ITEM: &[(&str, &str)] = &[
    ("name", "a text of 1 to 32 ASCII letters, digits and `_`"),
    (
        "pairs",
        "an array of 1 to 16 arrays of a layer and a datatype, each a whole number from 0 to 65535, as [[1, 0]]",
    ),
    ("lower", "the name of a metal"),
    ("upper", "the name of a metal, and not that of `lower`"),
    ("metal", "the name of a metal"),
    ("x", "a whole number from -1000000000 to 999999999"),
    ("y", "a whole number from -1000000000 to 999999999"),
];

/// What may stand at a key of these.
fn wanted_at(keys: &'static [(&'static str, &'static str)], key: &str) -> &'static str {
    for (known, words) in keys {
        if *known == key {
            return *words;
        }
    }
    "nothing"
}

/// What may stand at a place of a document whose sizes are measured so.
pub fn wanted(place: Place, measure: Measure) -> &'static str {
    match (place, measure) {
        (Place::Document, _) => "what docs/REFUSALS.md says",
        (Place::Key("weights"), Measure::Side) =>
            "an array of as many whole numbers as there are sides, from 0 to 1000000000",
        (Place::Key(key), _) => wanted_at(IN_DOCUMENT, key),
        (Place::Item(ItemKind::Metal, _), _) => "a table with `name` and `pairs`",
        (Place::Item(ItemKind::Cut, _), _) => "a table with `name`, `pairs`, `lower` and `upper`",
        (Place::Item(ItemKind::Terminal, _), _) => "a table with `metal`, `x` and `y`",
        (Place::ItemKey(_, _, key), _) => wanted_at(IN_ITEM, key),
    }
}
