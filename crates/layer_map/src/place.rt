//! The places of a document, of which each has a path.

ghost use Rattle.std.specs.Prelude.{ℕ, ◌≡◌, ◌+◌, ◌*◌, ◌<◌, ◌≤◌, None, Some, IfSome, IsSomeAnd, length, map, option_map};
ghost use Rattle.toml.specs.View.{table_view, view};
ghost use Rattle.layer_map.specs.DocumentPaths.{version_path};
ghost use Rattle.map_model.specs.declared.measure.Measure.{Measure as Measured};
ghost use Rattle.layer_map.specs.MapChecks.{map_keys};
ghost use Rattle.layer_map.specs.MapPlaces.{HasPath, IsWithinLimits, item_keys, item_of, item_path, items_of, known_at, list_key, there};

use super::cuts::CUT_KEYS;
use super::metals::METAL_KEYS;
use super::paths;
use super::sizes::map_keys;
use super::terminals::TERMINAL_KEYS;
use super::values::{items_in, value_at};
use map_model::Measure;
use toml::{Table, Value};

/// What the items of a list of a document say.
#[derive(Clone, Copy, PartialEq, Eq)]
pub enum ItemKind {
    Metal,
    Cut,
    Terminal,
}

impl ItemKind {
    /// The key of their list in the document.
    pub fn list(self) -> &'static str
        ensures { result.now ≡ list_key self }
    {
        match self {
            ItemKind::Metal => "metal",
            ItemKind::Cut => "cut",
            ItemKind::Terminal => "terminal",
        }
    }

    /// The keys that such an item may have, in the order of their paths.
    pub fn keys(self) -> &'static [&'static str]
        ensures { map (λ key. key.now) result.now ≡ item_keys self }
    {
        match self {
            ItemKind::Metal => &METAL_KEYS,
            ItemKind::Cut => &CUT_KEYS,
            ItemKind::Terminal => &TERMINAL_KEYS,
        }
    }

    /// The items of the document. Where no array stands there are none.
    pub fn items_of(self, document: &Table) -> &[Value]
        ensures { map view result.now ≡ items_of self (table_view document.now) }
    {
        items_in(value_at(document, self.list()))
    }
}

/// A place of a document.
#[derive(Clone, Copy, PartialEq, Eq)]
pub enum Place {
    /// The document.
    Document,
    /// What stands at this key of the document.
    Key(&'static str),
    /// The item with this number, counted from 0.
    Item(ItemKind, usize),
    /// What stands at this key of such an item.
    ItemKey(ItemKind, usize, &'static str),
}

impl Place {
    /// The place with this path in a document whose sizes are measured so, if one has it: none exactly where no item within the
    /// limits of a document, no key and not the document has the path.
    pub fn of_path(path: u32, measure: Measure) -> Option<Place>
        ensures path { IfSome result (λ place. HasPath measure place path) }
        ensures each { (place : Place) → IsWithinLimits place → HasPath measure place path → IsSomeAnd result IsWithinLimits }
    {
        if path >= paths::terminal(0) {
            return item_place(ItemKind::Terminal, path - paths::terminal(0));
        }
        if path >= paths::cut(0) {
            return item_place(ItemKind::Cut, path - paths::cut(0));
        }
        if path >= paths::metal(0) {
            return item_place(ItemKind::Metal, path - paths::metal(0));
        }
        if path >= paths::VERSION {
            return key_place((path - paths::VERSION) as usize, measure);
        }
        if path == paths::DOCUMENT {
            return Some(Place::Document);
        }
        None
    }

    /// The item that has it, or that it is, by its number.
    pub fn item(self) -> Option<(ItemKind, usize)>
        ensures { result ≡ item_of self }
    {
        match self {
            Place::Document | Place::Key(_) => None,
            Place::Item(kind, number) | Place::ItemKey(kind, number, _) => Some((kind, number)),
        }
    }

    /// What stands there. The document itself is no value.
    pub fn value_in(self, document: &Table) -> Option<&Value>
        ensures { option_map (λ v. view v.now) result ≡ there self (table_view document.now) }
    {
        match self {
            Place::Document => None,
            Place::Key(key) => value_at(document, key),
            Place::Item(kind, number) => kind.items_of(document).get(number),
            Place::ItemKey(kind, number, key) => match kind.items_of(document).get(number) {
                Some(item) => item.get(key),
                None => None,
            },
        }
    }

    /// The keys that the table there may have, in a document whose sizes are measured so. At a key they are those of the table
    /// round it.
    pub fn known_keys(self, measure: Measure) -> &'static [&'static str]
        ensures { map (λ key. key.now) result.now ≡ known_at measure self }
    {
        match self {
            Place::Document | Place::Key(_) => map_keys(measure),
            Place::Item(kind, _) | Place::ItemKey(kind, _, _) => kind.keys(),
        }
    }
}

/// What stands at a key of the document, by the number of the key.
fn key_place(number: usize, measure: Measure) -> Option<Place>
    ensures path { IfSome result (λ place. HasPath measure place (version_path + number)) }
    ensures each { number < length (map_keys measure) → IsSomeAnd result (λ place. item_of place ≡ None) }
{
    match map_keys(measure).get(number) {
        Some(key) => Some(Place::Key(*key)),
        None => None,
    }
}

/// An item, or what stands at a key of it, by how much its path is past that of the first item.
fn item_place(kind: ItemKind, past: u32) -> Option<Place>
    ensures path { (measure : Measured) → IfSome result (λ place. HasPath measure place (item_path kind 0 + past)) }
    ensures each { (number further : ℕ) → further ≤ length (item_keys kind) → past ≡ 10 * number + further →
        IsSomeAnd result (λ place. item_of place ≡ Some (kind, number)) }
{
    let number = (past / 10) as usize;
    let further = (past % 10) as usize;
    if further == 0 {
        return Some(Place::Item(kind, number));
    }
    match kind.keys().get(further - 1) {
        Some(key) => Some(Place::ItemKey(kind, number, *key)),
        None => None,
    }
}
