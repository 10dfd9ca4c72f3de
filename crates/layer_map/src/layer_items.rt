//! What the items of metals and of cuts have in common: a name and pairs.

ghost use Rattle.std.specs.Prelude.{
  ℕ,
  ◌≡◌,
  ◌↔◌,
  ◌^◌,
  ◌<◌,
  List,
  [],
  ◌∷◌,
  ◌++◌,
  map,
  flat_map,
  codes,
  option_map,
  IsTrue,
  IfOk,
  MatchBool,
  Contains,
};
ghost use Rattle.map_model.specs.MapNames.{IsLayerName, IsPair};
ghost use Rattle.first_refusal.specs.Checks.{Checks};
ghost use Rattle.toml.specs.Data.{Data, array, table as table_value, get_member, string};
ghost use Rattle.toml.specs.View.{items_view, table_view, view};
ghost use Rattle.layer_map.specs.LayerChecks.{
  LayerHolds,
  has_name as name_check,
  has_new_name,
  has_pairs,
  has_new_pairs,
  layer_checks,
  layer_fault,
};
ghost use Rattle.map_model.specs.Limits.{ArePairs};
ghost use Rattle.lists.specs.Differing.{AreDifferent};
ghost use Rattle.first_refusal.specs.Answers.{Answers};
ghost use Rattle.layer_map.specs.inside.ReadValues.{Finds, IsWholeIn, texts_of, AreWritten, IsThere, IsWritten};
ghost use Rattle.layer_map.specs.inside.ReadLayers.{AreSeen, TakesLayer, TakesName, TakesPairs, pair_values, written_name};
ghost use Rattle.layer_map.specs.Values.{name_of_item, pair_value, pairs_value};
ghost use Rattle.map_model.specs.declared.limits.TheConstants.{GREATEST_PAIR_NUMBER};

use super::fault::MapFault;
use super::items::table_of;
use super::paths;
use super::seen::{Layer, Seen};
use super::values::{text_at, value_at, whole_in};
use lists::NoMemory;
use map_model::layers::{Pairs, has_pair};
use map_model::limits::{GREATEST_PAIR_NUMBER, MOST_PAIRS};
use map_model::name::LayerName;
use std::alloc::Global;
use toml::{Table, Value};

/// What the item says of a metal or a cut, which is added to those so far.
pub fn read_layer(
    alloc: Global,
    item: &Value,
    known: &[&str],
    path: u32,
    seen: &mut Seen,
) -> Result<Layer, MapFault>
    requires { path < 2 ^ 31 }
    ensures { (earlier : List Data) → AreSeen earlier seen.old → Answers MapFault.Memory (Checks
        (LayerHolds (texts_of known.now) earlier (view item.now)) layer_checks (layer_fault path)
        (TakesLayer earlier (view item.now) seen.old seen.new)) result }
{
    let table = table_of(item, &*known, path)?;
    let name = add_name(&mut seen.names, table, path)?;
    let pairs = add_pairs(alloc, &mut seen.pairs, table, path)?;
    Ok(Layer { name, pairs })
}

/// The name in the item, a name that is none of these, and is added.
fn add_name(names: &mut Vec<LayerName>, item: &Table, path: u32) -> Result<LayerName, MapFault>
    requires { path < 2 ^ 31 }
    ensures { (known : List (List ℕ)) (earlier : List Data) →
        map name_of_item earlier ≡ map written_name names.old.items →
        Answers MapFault.Memory (Checks
        (LayerHolds known earlier (table_value (table_view item.now))) (name_check ∷ has_new_name ∷ [])
        (layer_fault path) (TakesName (table_value (table_view item.now)) names.old.items names.new.items)) result }
{
    let path = path + paths::NAME;
    match name_at(item) {
        Some(name) => {
            if has_name(names, &name) {
                return Err(MapFault::RepeatedName { path });
            }
            names.push(name)?;
            Ok(name)
        }
        None => Err(MapFault::BadValue { path }),
    }
}

/// The name that stands at `name`.
fn name_at(item: &Table) -> Option<LayerName>
    ensures { Finds (IsThere string IsLayerName (get_member (codes "name") (table_view item.now))) result }
{
    match text_at(item, "name") {
        Some(name) => LayerName::new(name.as_bytes()),
        None => None,
    }
}

/// Whether the name is one of these.
fn has_name(names: &[LayerName], name: &LayerName) -> bool
    ensures { IsTrue result ↔ Contains names.now name.now }
{
    for other in names {
        if other.as_slice() == name.as_slice() {
            return true;
        }
    }
    false
}

/// The pairs in the item, which are different and none of these, and are added.
fn add_pairs(
    alloc: Global,
    pairs: &mut Vec<(u16, u16)>,
    item: &Table,
    path: u32,
) -> Result<Pairs, MapFault>
    requires { path < 2 ^ 31 }
    ensures judged { (known : List (List ℕ)) (earlier : List Data) →
        flat_map pair_values earlier ≡ map pair_value pairs.old.items →
        AreDifferent pairs.old.items →
        Answers MapFault.Memory (Checks
        (LayerHolds known earlier (table_value (table_view item.now))) (has_pairs ∷ has_new_pairs ∷ [])
        (layer_fault path) (TakesPairs (table_value (table_view item.now)) pairs.old.items pairs.new.items)) result }
    ensures pairs { IfOk result ArePairs }
{
    let path = path + paths::PAIRS;
    match pairs_at(alloc, item)? {
        Some(more) => {
            if !add_different(pairs, &more)? {
                return Err(MapFault::RepeatedPair { path });
            }
            Ok(Pairs::from_vec(more))
        }
        None => Err(MapFault::BadValue { path }),
    }
}

/// Adds the pairs, as long as each is a new one; whether all are.
fn add_different(pairs: &mut Vec<(u16, u16)>, more: &[(u16, u16)]) -> Result<bool, NoMemory>
    ensures { IfOk result (λ all_new. AreDifferent pairs.old.items → MatchBool all_new
        ((pairs.new.items ≡ pairs.old.items ++ more.now) × AreDifferent pairs.new.items)
        (AreDifferent (pairs.old.items ++ more.now) → ⊥)) }
{
    for pair in more {
        if has_pair(pairs, *pair) {
            return Ok(false);
        }
        pairs.push(*pair)?;
    }
    Ok(true)
}

/// The pairs that stand at `pairs`, 1 to 16.
fn pairs_at(alloc: Global, item: &Table) -> Result<Option<Vec<(u16, u16)>>, NoMemory>
    ensures { IfOk result (λ found.
        Finds (IsThere pairs_value ArePairs (get_member (codes "pairs") (table_view item.now))) (option_map (λ v. v.items) found)) }
{
    match value_at(item, "pairs") {
        Some(value) => match value.as_array() {
            Some(values) => pairs_of(alloc, values.as_slice()),
            None => Ok(None),
        },
        None => Ok(None),
    }
}

/// The pairs that the values are, 1 to 16.
fn pairs_of(alloc: Global, values: &[Value]) -> Result<Option<Vec<(u16, u16)>>, NoMemory>
    ensures { IfOk result (λ found. Finds (AreWritten pair_value ArePairs (map view values.now)) (option_map (λ v. v.items) found)) }
{
    if values.is_empty() {
        return Ok(None);
    }
    if values.len() > MOST_PAIRS {
        return Ok(None);
    }
    let mut pairs = Vec::new(alloc);
    for value in values {
        match pair_of(value) {
            Some(pair) => pairs.push(pair)?,
            None => return Ok(None),
        }
    }
    Ok(Some(pairs))
}

/// The pair that the value is.
#[tactic(auto, using(crate::proofs::PairLaws::no_array_no_pair))]
fn pair_of(value: &Value) -> Option<(u16, u16)>
    ensures { Finds (IsWritten pair_value IsPair (view value.now)) result }
{
    match value.as_array() {
        Some(numbers) => pair_in(numbers.as_slice()),
        None => None,
    }
}

/// The pair that the two values are.
fn pair_in(numbers: &[Value]) -> Option<(u16, u16)>
    ensures { Finds (IsWritten pair_value IsPair (array (items_view numbers.now))) result }
{
    if numbers.len() != 2 {
        return None;
    }
    match pair_number(&numbers[0]) {
        Some(layer) => match pair_number(&numbers[1]) {
            Some(datatype) => Some((layer, datatype)),
            None => None,
        },
        None => None,
    }
}

/// The layer or datatype that the value is.
fn pair_number(value: &Value) -> Option<u16>
    ensures { Finds (IsWholeIn 0 GREATEST_PAIR_NUMBER (view value.now)) result }
{
    match whole_in(value, 0, u32::from(GREATEST_PAIR_NUMBER)) {
        Some(number) => Some(number as u16),
        None => None,
    }
}
