//! What the reader knows of a list besides its place.

ghost use Rattle.std.specs.Prelude.{ℕ, ◌≡◌, ◌↔◌, false, true, None, Some, IfNone, IfSome, IsSomeAnd, IsTrue, length, map, slice_get};
ghost use Rattle.toml.specs.View.{table_view, view};
ghost use Rattle.map_model.specs.MapNames.{greatest_size};
ghost use Rattle.map_model.specs.declared.limits.TheConstants.{MOST_SIZES};
ghost use Rattle.layer_map.specs.MapCauses.{FallsAt, IsCause, IsCauseIn, IsFall, IsOutside, asked_at};
ghost use Rattle.layer_map.specs.declared.cause.Cause.TheVariants.{Falls, Outside, TooMany, Uneven};

use super::place::Place;
use super::sizes::sizes_at;
use super::values::{items_in, whole_in};
use map_model::Measure;
use map_model::limits::{GREATEST_WEIGHT, MOST_CUTS, MOST_METALS, MOST_SIZES, MOST_TERMINALS};
use toml::{Table, Value};

/// Why a list may not stand where it does. Its values are counted from 0.
#[derive(Clone, Copy)]
pub enum Cause {
    /// It has so many values, and so many are the most.
    TooMany { count: usize, most: usize },
    /// It has so many weights, and the document so many sizes.
    Uneven { weights: usize, sizes: usize },
    /// The value with this number is no whole number within these bounds.
    Outside { number: usize, low: u32, high: u32 },
    /// The value with this number is not greater than the one before it, and both are whole numbers.
    Falls { number: usize },
}

/// What is asked of a list.
#[derive(Clone, Copy)]
struct Asked {
    /// The most values, where that is asked.
    most: Option<usize>,
    /// Whether it has as many values as there are sizes.
    is_even: bool,
    /// Between what bounds each value lies, which is a whole number.
    bounds: Option<(u32, u32)>,
    /// Whether each value is greater than the one before it.
    rises: bool,
}

/// What is asked of a list of items, which are at most so many, beside what is asked of each.
fn at_most(most: usize) -> Asked
    ensures most { result.most ≡ Some most }
    ensures is_even { result.is_even ≡ false }
    ensures bounds { result.bounds ≡ None }
    ensures rises { result.rises ≡ false }
{
    Asked {
        most: Some(most),
        is_even: false,
        bounds: None,
        rises: false,
    }
}

/// What is asked of the list of sizes that are measured so.
fn sizes_by(measure: Measure) -> Asked
    ensures most { result.most ≡ Some MOST_SIZES }
    ensures is_even { result.is_even ≡ false }
    ensures bounds { result.bounds ≡ Some (1, greatest_size measure) }
    ensures rises { result.rises ≡ true }
{
    Asked {
        most: Some(MOST_SIZES),
        is_even: false,
        bounds: Some((1, measure.greatest())),
        rises: true,
    }
}

/// What is asked of the list at a place: nothing where none stands that has a cause of its own.
fn asked_at(place: Place) -> Asked
    ensures { result ≡ asked_at place }
{
    match place {
        Place::Key("radii") => sizes_by(Measure::Radius),
        Place::Key("sides") => sizes_by(Measure::Side),
        Place::Key("weights") => Asked {
            most: None,
            is_even: true,
            bounds: Some((0, GREATEST_WEIGHT as u32)),
            rises: false,
        },
        Place::Key("metal") => at_most(MOST_METALS),
        Place::Key("cut") => at_most(MOST_CUTS),
        Place::Key("terminal") => at_most(MOST_TERMINALS),
        _ => Asked {
            most: None,
            is_even: false,
            bounds: None,
            rises: false,
        },
    }
}

/// Why the list at this place of the document may not stand there: the first cause that the reader comes to. There is none
/// where the list is as it has to be, and where something else than such a list belongs.
pub fn cause_of(document: &Table, place: Place) -> Option<Cause>
    ensures some { IfSome result (IsCause (table_view document.now) place) }
    ensures none { IfNone result ((cause : Cause) → IsCause (table_view document.now) place cause → ⊥) }
{
    let values = items_in(place.value_in(document));
    let sizes = items_in(sizes_at(document));
    cause_in(asked_at(place), values, sizes.len())
}

/// The same of values of which this is asked, with so many sizes in the document.
fn cause_in(asked: Asked, values: &[Value], sizes: usize) -> Option<Cause>
    ensures some { IfSome result (IsCauseIn asked (map view values.now) sizes) }
    ensures none { IfNone result ((cause : Cause) → IsCauseIn asked (map view values.now) sizes cause → ⊥) }
{
    if let Some(cause) = too_many(asked, values) {
        return Some(cause);
    }
    if let Some(cause) = uneven(asked, values, sizes) {
        return Some(cause);
    }
    if let Some(cause) = outside(asked, values) {
        return Some(cause);
    }
    fall(asked, values)
}

/// That the values are more than may be, if they are.
fn too_many(asked: Asked, values: &[Value]) -> Option<Cause>
    ensures some { IfSome result (λ cause. (sizes : ℕ) → IsCauseIn asked (map view values.now) sizes cause) }
    ensures none { IfNone result ((sizes count most : ℕ) → IsCauseIn asked (map view values.now) sizes (TooMany count most) → ⊥) }
{
    let most = asked.most?;
    let count = values.len();
    if count > most {
        return Some(Cause::TooMany { count, most });
    }
    None
}

/// That the values are not as many as the sizes, if they have to be.
fn uneven(asked: Asked, values: &[Value], sizes: usize) -> Option<Cause>
    ensures some { IfSome result (IsCauseIn asked (map view values.now) sizes) }
    ensures none { IfNone result ((count wanted : ℕ) → IsCauseIn asked (map view values.now) sizes (Uneven count wanted) → ⊥) }
{
    let weights = values.len();
    if asked.is_even && weights != sizes {
        return Some(Cause::Uneven { weights, sizes });
    }
    None
}

/// The first value outside of the bounds, if there are bounds and such a value.
fn outside(asked: Asked, values: &[Value]) -> Option<Cause>
    ensures some { IfSome result (λ cause. (sizes : ℕ) → IsCauseIn asked (map view values.now) sizes cause) }
    ensures none { IfNone result ((sizes number low high : ℕ) → IsCauseIn asked (map view values.now) sizes (Outside number low high) → ⊥) }
{
    let (low, high) = asked.bounds?;
    let number = first_outside(values, low, high)?;
    Some(Cause::Outside { number, low, high })
}

/// The number of the first value that is no whole number within these bounds, if there is one.
fn first_outside(values: &[Value], low: u32, high: u32) -> Option<usize>
    ensures some { IfSome result (λ number. IsSomeAnd (slice_get (map view values.now) number) (IsOutside low high)) }
    ensures none { IfNone result ((number : ℕ) → IsSomeAnd (slice_get (map view values.now) number) (IsOutside low high) → ⊥) }
{
    for (number, value) in values.iter().enumerate() {
        match whole_in(value, low, high) {
            Some(_) => {}
            None => return Some(number),
        }
    }
    None
}

/// The first value that falls, if the values have to rise.
fn fall(asked: Asked, values: &[Value]) -> Option<Cause>
    ensures some { IfSome result (λ cause. (sizes : ℕ) → IsCauseIn asked (map view values.now) sizes cause) }
    ensures none { IfNone result ((sizes number : ℕ) → IsCauseIn asked (map view values.now) sizes (Falls number) → ⊥) }
{
    if !asked.rises {
        return None;
    }
    match first_fall(values) {
        Some(number) => Some(Cause::Falls { number }),
        None => None,
    }
}

/// The number of the first value that is not greater than the one before it, where both are whole numbers, if there is one.
fn first_fall(values: &[Value]) -> Option<usize>
    ensures some { IfSome result (FallsAt (map view values.now)) }
    ensures none { IfNone result ((number : ℕ) → FallsAt (map view values.now) number → ⊥) }
{
    for number in 1..values.len() {
        let before = number - 1;
        if is_fall(&values[before], &values[number]) {
            return Some(number);
        }
    }
    None
}

/// Whether both are whole numbers, of which the other is not greater.
fn is_fall(one: &Value, other: &Value) -> bool
    ensures { IsTrue result ↔ IsFall (view one.now) (view other.now) }
{
    match one.as_integer() {
        Some(first) => match other.as_integer() {
            Some(second) => {
                if second > first {
                    return false;
                }
                true
            }
            None => false,
        },
        None => false,
    }
}
