//! Where something stands first in a document that may stand in it once.

ghost use Rattle.std.specs.Prelude.{ℕ, [], ◌∷◌, ◌≡◌, ◌↔◌, Some, Contains, IfNone, IfSome, IsTrue, map, option_and_then, option_copied};
ghost use Rattle.toml.specs.Data.{as_integer, as_str, get, integer, string};
ghost use Rattle.toml.specs.View.{table_view, view};
ghost use Rattle.layer_map.specs.FirstPlaces.{IsFirstAmong, IsFirstAt, IsFirstNamed, IsFirstPair, IsNoPairOf};
ghost use Rattle.layer_map.specs.TerminalChecks.{place_in};
ghost use Rattle.layer_map.specs.Values.{name_of_item, pair_value, pairs_of_item, terminals_in, values_in, whole_number};
ghost use Rattle.layer_map.specs.declared.place.ItemKind.{ItemKind as Kind};

use super::place::ItemKind;
use super::values::items_in;
use toml::{Table, Value};

/// The first metal of the document that has this name, and else the first cut.
pub fn first_named(document: &Table, name: &str) -> Option<(ItemKind, usize)>
    ensures some { IfSome result (λ found. IsFirstNamed (table_view document.now) name.now found.0 found.1) }
    ensures none { IfNone result ((kind : Kind) (number : ℕ) → IsFirstNamed (table_view document.now) name.now kind number → ⊥) }
{
    if let Some(number) = named_in(ItemKind::Metal.items_of(document), name) {
        return Some((ItemKind::Metal, number));
    }
    match named_in(ItemKind::Cut.items_of(document), name) {
        Some(number) => Some((ItemKind::Cut, number)),
        None => None,
    }
}

/// The number of the first of the items that has this name.
fn named_in(items: &[Value], name: &str) -> Option<usize>
    ensures some { IfSome result (IsFirstAt (map name_of_item (map view items.now)) (Some (string name.now))) }
    ensures none { IfNone result (Contains (map name_of_item (map view items.now)) (Some (string name.now)) → ⊥) }
{
    for (number, item) in items.iter().enumerate() {
        if has_text(item, "name", name) {
            return Some(number);
        }
    }
    None
}

/// The text that stands at the key of the item, if a text does.
fn text_in<'a>(item: &'a Value, key: &str) -> Option<&'a str>
    ensures { option_copied result ≡ option_and_then as_str (get key.now (view item.now)) }
{
    match item.get(key) {
        Some(value) => value.as_str(),
        None => None,
    }
}

/// The whole number that stands at the key of the item, if one does.
fn number_in(item: &Value, key: &str) -> Option<i64>
    ensures { result ≡ option_and_then as_integer (get key.now (view item.now)) }
{
    match item.get(key) {
        Some(value) => value.as_integer(),
        None => None,
    }
}

/// Whether this text stands at the key of the item.
fn has_text(item: &Value, key: &str, text: &str) -> bool
    ensures { IsTrue result ↔ (get key.now (view item.now) ≡ Some (string text.now)) }
{
    match text_in(item, key) {
        Some(other) => other == text,
        None => false,
    }
}

/// Whether this number stands at the key of the item.
fn has_number(item: &Value, key: &str, number: i64) -> bool
    ensures { IsTrue result ↔ (get key.now (view item.now) ≡ Some (integer number)) }
{
    match number_in(item, key) {
        Some(other) => other == number,
        None => false,
    }
}

/// Whether the item says this of a terminal.
fn is_terminal(item: &Value, metal: &str, x: i64, y: i64) -> bool
    ensures { IsTrue result ↔ (place_in (view item.now) ≡ (Some (string metal.now), Some (integer x), Some (integer y))) }
{
    has_text(item, "metal", metal) && has_number(item, "x", x) && has_number(item, "y", y)
}

/// The number of the first terminal of the document at this cell of the metal of this name.
pub fn first_terminal(document: &Table, metal: &str, x: i64, y: i64) -> Option<usize>
    ensures some { IfSome result (IsFirstAt (map place_in (terminals_in (table_view document.now))) (Some (string metal.now), Some (integer x), Some (integer y))) }
    ensures none { IfNone result
        (Contains (map place_in (terminals_in (table_view document.now))) (Some (string metal.now), Some (integer x), Some (integer y)) → ⊥) }
{
    terminal_in(ItemKind::Terminal.items_of(document), metal, x, y)
}

/// The same of the items of `terminal`.
fn terminal_in(items: &[Value], metal: &str, x: i64, y: i64) -> Option<usize>
    ensures some { IfSome result (IsFirstAt (map place_in (map view items.now)) (Some (string metal.now), Some (integer x), Some (integer y))) }
    ensures none { IfNone result
        (Contains (map place_in (map view items.now)) (Some (string metal.now), Some (integer x), Some (integer y)) → ⊥) }
{
    for (number, item) in items.iter().enumerate() {
        if is_terminal(item, metal, x, y) {
            return Some(number);
        }
    }
    None
}

/// Where a layer and a datatype stand first in the document as a pair: in which metal, or else in which cut, and as which of
/// its pairs.
pub fn first_pair(document: &Table, layer: u16, datatype: u16) -> Option<(ItemKind, usize, usize)>
    ensures some { IfSome result (λ found. IsFirstPair (table_view document.now) (pair_value (layer, datatype)) found.0 found.1 found.2) }
    ensures none { IfNone result
        ((kind : Kind) (number at : ℕ) → IsFirstPair (table_view document.now) (pair_value (layer, datatype)) kind number at → ⊥) }
{
    if let Some((number, at)) = pair_among(ItemKind::Metal.items_of(document), layer, datatype) {
        return Some((ItemKind::Metal, number, at));
    }
    match pair_among(ItemKind::Cut.items_of(document), layer, datatype) {
        Some((number, at)) => Some((ItemKind::Cut, number, at)),
        None => None,
    }
}

/// The number of the first of the items that has the pair, and as which of its pairs.
fn pair_among(items: &[Value], layer: u16, datatype: u16) -> Option<(usize, usize)>
    ensures some { IfSome result (λ found. IsFirstAmong (map view items.now) (pair_value (layer, datatype)) found.0 found.1) }
    ensures none { IfNone result (IsNoPairOf (map view items.now) (pair_value (layer, datatype))) }
{
    for (number, item) in items.iter().enumerate() {
        if let Some(at) = pair_in(item, layer, datatype) {
            return Some((number, at));
        }
    }
    None
}

/// The place at which the pair stands first among those of the item.
fn pair_in(item: &Value, layer: u16, datatype: u16) -> Option<usize>
    ensures some { IfSome result (IsFirstAt (values_in (pairs_of_item (view item.now))) (pair_value (layer, datatype))) }
    ensures none { IfNone result (Contains (values_in (pairs_of_item (view item.now))) (pair_value (layer, datatype)) → ⊥) }
{
    pair_at(items_in(item.get("pairs")), layer, datatype)
}

/// The place at which the pair stands first among the values.
fn pair_at(values: &[Value], layer: u16, datatype: u16) -> Option<usize>
    ensures some { IfSome result (IsFirstAt (map view values.now) (pair_value (layer, datatype))) }
    ensures none { IfNone result (Contains (map view values.now) (pair_value (layer, datatype)) → ⊥) }
{
    for (number, value) in values.iter().enumerate() {
        if is_pair(value, layer, datatype) {
            return Some(number);
        }
    }
    None
}

/// Whether the value is this pair.
fn is_pair(value: &Value, layer: u16, datatype: u16) -> bool
    ensures { IsTrue result ↔ (view value.now ≡ pair_value (layer, datatype)) }
{
    match value.as_array() {
        Some(numbers) => are_both(numbers.as_slice(), layer, datatype),
        None => false,
    }
}

/// Whether the values are these two numbers.
fn are_both(values: &[Value], layer: u16, datatype: u16) -> bool
    ensures { IsTrue result ↔ (map view values.now ≡ whole_number layer ∷ whole_number datatype ∷ []) }
{
    values.len() == 2 && is_number(&values[0], layer) && is_number(&values[1], datatype)
}

/// Whether the value is this number.
fn is_number(value: &Value, number: u16) -> bool
    ensures { IsTrue result ↔ (view value.now ≡ whole_number number) }
{
    match value.as_integer() {
        Some(other) => other == i64::from(number),
        None => false,
    }
}
