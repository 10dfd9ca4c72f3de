//! The version, the sizes and the weights.

ghost use Rattle.std.specs.Prelude.{◌≡◌, ◌↔◌, ◌≤◌, [], ◌∷◌, map, option_map, Some, length, IsTrue, IfOk};
ghost use Rattle.std.specs.List.Sorted.{IsStrictlyIncreasing};
ghost use Rattle.map_model.specs.MapNames.{AreSizes, AreWeights};
ghost use Rattle.layer_map.specs.DocumentSizes.{measure_of, sizes_in};
ghost use Rattle.first_refusal.specs.Checks.{Checks};
ghost use Rattle.toml.specs.View.{table_view, view};
ghost use Rattle.layer_map.specs.MapChecks.{
  Holds,
  IsVersion,
  fault_of,
  has_known_keys,
  has_sizes,
  has_version,
  has_weights,
  map_keys,
  sizes_are_array,
  sizes_are_few,
};
ghost use Rattle.first_refusal.specs.Answers.{Answers};
ghost use Rattle.layer_map.specs.inside.ReadValues.{Finds, AreWritten, IsThere, texts_of};
ghost use Rattle.layer_map.specs.Values.{StandsAs, values_in, weights_in, whole_number, whole_numbers};
ghost use Rattle.map_model.specs.declared.limits.TheConstants.{MOST_SIZES};

use super::fault::MapFault;
use super::paths;
use super::values::{array_in, has_only, value_at, whole_in, wholes_in};
use lists::NoMemory;
use map_model::Measure;
use map_model::layers::{Sizes, Weights};
use map_model::limits::{GREATEST_WEIGHT, MOST_SIZES};
use std::alloc::Global;
use toml::{Table, Value};

/// The keys of a document whose sizes are radii, in the order of their paths.
pub const RADII_KEYS: [&str; 6] = ["version", "radii", "weights", "metal", "cut", "terminal"];

/// The keys of one whose sizes are sides.
pub const SIDES_KEYS: [&str; 7] = [
    "version", "sides", "weights", "metal", "cut", "terminal", "contacts",
];

/// The keys of a document whose sizes are measured so, in the order of their paths.
pub fn map_keys(measure: Measure) -> &'static [&'static str]
    ensures { texts_of result.now ≡ map_keys measure }
{
    match measure {
        Measure::Radius => &RADII_KEYS,
        Measure::Side => &SIDES_KEYS,
    }
}

/// What measures the sizes of the document: sides where the whole number 2 stands at `version`, and else radii.
pub fn measure_of(document: &Table) -> Measure
    ensures { result ≡ measure_of (table_view document.now) }
{
    let Some(version) = value_at(document, "version") else {
        return Measure::Radius;
    };
    match whole_in(version, 2, 2) {
        Some(_) => Measure::Side,
        None => Measure::Radius,
    }
}

/// What stands at the key of the document's sizes.
pub fn sizes_at(document: &Table) -> Option<&Value>
    ensures { option_map (λ v. view v.now) result ≡ sizes_in (table_view document.now) }
{
    match measure_of(document) {
        Measure::Radius => value_at(document, "radii"),
        Measure::Side => value_at(document, "sides"),
    }
}

/// That the document has no key but those of its sizes and these, and its version is 1 or 2.
pub fn check_head(document: &Table) -> Result<(), MapFault>
    ensures { Answers MapFault.Memory (Checks
        (Holds (table_view document.now)) (has_known_keys ∷ has_version ∷ []) fault_of
        (λ _. Unit {0})) result }
{
    if !has_only(document, map_keys(measure_of(document))) {
        return Err(MapFault::BadKey {
            path: paths::DOCUMENT,
        });
    }
    if !is_version(value_at(document, "version")) {
        return Err(MapFault::BadValue {
            path: paths::VERSION,
        });
    }
    Ok(())
}

/// Whether a version stands there.
fn is_version(there: Option<&Value>) -> bool
    ensures { IsTrue result ↔ StandsAs whole_number IsVersion (option_map (λ v. view v.now) there.entry) }
{
    match there {
        Some(value) => whole_in(value, 1, 2).is_some(),
        None => false,
    }
}

/// The sizes: radii, or sides.
pub fn read_sizes(alloc: Global, document: &Table) -> Result<Sizes, MapFault>
    ensures { Answers MapFault.Memory (Checks
        (Holds (table_view document.now)) (sizes_are_array ∷ sizes_are_few ∷ has_sizes ∷ [])
        fault_of (IsThere whole_numbers (AreSizes (measure_of (table_view document.now))) (sizes_in (table_view document.now)))) result }
{
    let values = array_in(sizes_at(document), paths::SIZES)?;
    if values.len() > MOST_SIZES {
        return Err(MapFault::LimitPassed { path: paths::SIZES });
    }
    match sizes_of(alloc, values, measure_of(document))? {
        Some(sizes) => Ok(Sizes::from_vec(sizes)),
        None => Err(MapFault::BadValue { path: paths::SIZES }),
    }
}

/// The sizes by this measure that the values are, which are not too many.
fn sizes_of(alloc: Global, values: &[Value], measure: Measure) -> Result<Option<Vec<u32>>, NoMemory>
    requires { length values.now ≤ MOST_SIZES }
    ensures { IfOk result (λ found.
        Finds (AreWritten whole_number (AreSizes measure) (map view values.now)) (option_map (λ v. v.items) found)) }
{
    match wholes_in(alloc, values, 1, measure.greatest())? {
        Some(sizes) => {
            if sizes.is_empty() {
                return Ok(None);
            }
            if !is_rising(&sizes) {
                return Ok(None);
            }
            Ok(Some(sizes))
        }
        None => Ok(None),
    }
}

/// Whether each number is above the one before.
fn is_rising(numbers: &[u32]) -> bool
    ensures { IsTrue result ↔ IsStrictlyIncreasing numbers.now }
{
    for i in 1..numbers.len() {
        if numbers[i - 1] >= numbers[i] {
            return false;
        }
    }
    true
}

/// The weights of so many sizes.
pub fn read_weights(alloc: Global, document: &Table, count: usize) -> Result<Weights, MapFault>
    ensures { count ≡ length (values_in (sizes_in (table_view document.now))) →
        Answers MapFault.Memory (Checks (Holds (table_view document.now)) (has_weights ∷ []) fault_of
        (IsThere whole_numbers (AreWeights count) (weights_in (table_view document.now)))) result }
{
    match weights_at(alloc, document, count)? {
        Some(weights) => Ok(Weights::from_vec(weights)),
        None => Err(MapFault::BadValue {
            path: paths::WEIGHTS,
        }),
    }
}

/// The weights that stand at `weights`.
fn weights_at(alloc: Global, document: &Table, count: usize) -> Result<Option<Vec<u64>>, NoMemory>
    ensures { IfOk result (λ found.
        Finds (IsThere whole_numbers (AreWeights count) (weights_in (table_view document.now))) (option_map (λ v. v.items) found)) }
{
    match value_at(document, "weights") {
        Some(value) => match value.as_array() {
            Some(values) => weights_of(alloc, values.as_slice(), count),
            None => Ok(None),
        },
        None => Ok(None),
    }
}

/// The weights that the values are.
fn weights_of(alloc: Global, values: &[Value], count: usize) -> Result<Option<Vec<u64>>, NoMemory>
    ensures { IfOk result (λ found. Finds (AreWritten whole_number (AreWeights count) (map view values.now))
        (option_map (λ v. v.items) found)) }
{
    if values.len() != count {
        return Ok(None);
    }
    match wholes_in(alloc, values, 0, GREATEST_WEIGHT as u32)? {
        Some(weights) => Ok(Some(widened(alloc, &weights)?)),
        None => Ok(None),
    }
}

/// The same numbers in a wider type.
fn widened(alloc: Global, numbers: &[u32]) -> Result<Vec<u64>, NoMemory>
    ensures { IfOk result (λ wide. wide.items ≡ numbers.now) }
{
    let mut wide = Vec::new(alloc);
    for number in numbers {
        wide.push(u64::from(*number))?;
    }
    Ok(wide)
}
