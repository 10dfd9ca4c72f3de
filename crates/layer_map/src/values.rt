//! What stands at the keys of a table.

ghost use Rattle.std.specs.Prelude.{
  ◌≡◌,
  ◌↔◌,
  Some,
  map,
  option_map,
  option_copied,
  option_and_then,
  IsTrue,
  IfOk,
  IfErr,
  All,
  Contains,
};
ghost use Rattle.toml.specs.Data.{array, as_str, get_member};
ghost use Rattle.toml.specs.View.{items_view, table_view, view};
ghost use Rattle.layer_map.specs.MapChecks.{IsArray, IsArrayOrNone};
ghost use Rattle.layer_map.specs.inside.ReadValues.{AreWholesIn, Finds, IsWholeIn, texts_of};
ghost use Rattle.layer_map.specs.Values.{keys_in, values_in};

use super::fault::MapFault;
use lists::NoMemory;
use std::alloc::Global;
use toml::{Table, Value};

/// What stands at the key.
#[tactic(auto, using(toml::proofs::Views::table_get))]
pub fn value_at<'a>(table: &'a Table, key: &str) -> Option<&'a Value>
    ensures { option_map (λ v. view v.now) result ≡ get_member key.now (table_view table.now) }
{
    table.get(key)
}

/// The text that stands at the key, if a text does.
pub fn text_at<'a>(table: &'a Table, key: &str) -> Option<&'a str>
    ensures { option_copied result ≡ option_and_then as_str (get_member key.now (table_view table.now)) }
{
    match value_at(table, key) {
        Some(value) => value.as_str(),
        None => None,
    }
}

/// The items of the array that stands at the key. What else stands there, or nothing, is a wrong value with this path.
pub fn array_at<'a>(table: &'a Table, key: &str, path: u32) -> Result<&'a [Value], MapFault>
    ensures array { IfOk result (λ items. get_member key.now (table_view table.now) ≡
        Some (array (items_view items.now))) }
    ensures refused { IfErr result (λ fault.
        (fault ≡ MapFault.BadValue path) × (IsArray (get_member key.now (table_view table.now)) → ⊥)) }
{
    array_in(value_at(table, key), path)
}

/// The same of the array that stands there.
pub fn array_in(there: Option<&Value>, path: u32) -> Result<&[Value], MapFault>
    ensures array { IfOk result (λ items. option_map (λ v. view v.now) there.entry ≡
        Some (array (items_view items.now))) }
    ensures refused { IfErr result (λ fault.
        (fault ≡ MapFault.BadValue path) × (IsArray (option_map (λ v. view v.now) there.entry) → ⊥)) }
{
    match there {
        Some(value) => match value.as_array() {
            Some(items) => Ok(items.as_slice()),
            None => Err(MapFault::BadValue { path }),
        },
        None => Err(MapFault::BadValue { path }),
    }
}

/// The same, but that nothing may stand there, which is no item.
pub fn array_or_none_at<'a>(table: &'a Table, key: &str, path: u32) -> Result<&'a [Value], MapFault>
    ensures items { IfOk result (λ items. values_in (get_member key.now (table_view table.now)) ≡ map view items.now) }
    ensures array { IfOk result (λ _. IsArrayOrNone (get_member key.now (table_view table.now))) }
    ensures refused { IfErr result (λ fault.
        (fault ≡ MapFault.BadValue path) × (IsArrayOrNone (get_member key.now (table_view table.now)) → ⊥)) }
{
    match value_at(table, key) {
        Some(value) => match value.as_array() {
            Some(items) => Ok(items.as_slice()),
            None => Err(MapFault::BadValue { path }),
        },
        None => Ok(&[]),
    }
}

/// The items of the array that stands there. Of anything else there are none.
pub fn items_in(there: Option<&Value>) -> &[Value]
    ensures { map view result.now ≡ values_in (option_map (λ v. view v.now) there.entry) }
{
    match there {
        Some(value) => match value.as_array() {
            Some(items) => items.as_slice(),
            None => &[],
        },
        None => &[],
    }
}

/// The whole number that the value is, if it is one within these bounds.
pub fn whole_in(value: &Value, low: u32, high: u32) -> Option<u32>
    ensures { Finds (IsWholeIn low high (view value.now)) result }
{
    match value.as_integer() {
        Some(number) => match u32::try_from(number) {
            Ok(number) => {
                if number < low {
                    return None;
                }
                if number > high {
                    return None;
                }
                Some(number)
            }
            Err(_) => None,
        },
        None => None,
    }
}

/// The whole numbers that the values are, if each is one within these bounds.
pub fn wholes_in(
    alloc: Global,
    values: &[Value],
    low: u32,
    high: u32,
) -> Result<Option<Vec<u32>>, NoMemory>
    ensures { IfOk result (λ found. Finds (AreWholesIn low high (map view values.now))
        (option_map (λ v. v.items) found)) }
{
    let mut numbers = Vec::new(alloc);
    for value in values {
        match whole_in(value, low, high) {
            Some(number) => numbers.push(number)?,
            None => return Ok(None),
        }
    }
    Ok(Some(numbers))
}

/// Whether the table has no key but these.
pub fn has_only(table: &Table, known: &[&str]) -> bool
    ensures { IsTrue result ↔ All (Contains (texts_of known.now)) (keys_in (table_view table.now)) }
{
    for key in table.keys() {
        if !has_text(&*known, key.as_str()) {
            return false;
        }
    }
    true
}

/// Whether the text is one of these.
fn has_text(texts: &[&str], text: &str) -> bool
    ensures { IsTrue result ↔ Contains (texts_of texts.now) text.now }
{
    for other in texts {
        if *other == text {
            return true;
        }
    }
    false
}
