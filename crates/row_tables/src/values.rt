//! What the values of a row are.

ghost use Rattle.std.specs.Prelude.{◌≡◌, true};
ghost use Rattle.geo_core.specs.Intervals.{IsInterval};
ghost use Rattle.geo_core.specs.declared.bounds.TheConstants.{FARTHEST_GROWN};

use geo_core::{FARTHEST_GROWN, Rect};
use std::alloc::Global;
use toml::Value;

/// The sides of a rectangle as a row has them: left, bottom, right and top.
pub fn sides_of(rect: Rect) -> [i32; 4] {
    [rect.x0, rect.y0, rect.x1, rect.y1]
}

/// The whole number that the value is.
pub fn whole_of<T: TryFrom<i64>>(value: Option<&Value>) -> Option<T>
where
    T::Error: Drop,
{
    match value {
        Some(Value::Integer(number)) => T::try_from(*number).ok(),
        _ => None,
    }
}

/// The number at the place, or 0 if the list ends before.
pub fn number_at(numbers: &[i32], place: usize) -> i32 {
    match numbers.get(place) {
        Some(number) => *number,
        None => 0,
    }
}

/// Whether the low side comes before the high one, and neither is too far out.
fn is_interval(low: i32, high: i32) -> bool
    ensures { result ≡ true → IsInterval FARTHEST_GROWN low high }
{
    -FARTHEST_GROWN <= low && low < high && high <= FARTHEST_GROWN
}

/// The rectangle with these sides: left, bottom, right and top.
pub fn rect_of(sides: &[i32]) -> Option<Rect> {
    match sides {
        [left, bottom, right, top] if is_interval(*left, *right) && is_interval(*bottom, *top) => {
            Some(Rect::new(*left, *bottom, *right, *top))
        }
        _ => None,
    }
}

/// The bytes with these hexadecimal digits, two for each. Spaces and newlines may stand between digits.
pub fn bytes_of(alloc: Global, digits: &str) -> Option<Vec<u8>> {
    let mut plain = Vec::new(alloc);
    for byte in digits.as_bytes() {
        if !byte.is_ascii_whitespace() {
            plain.push(*byte).ok()?;
        }
    }
    hex::decode(alloc, plain.as_slice()).ok()
}
