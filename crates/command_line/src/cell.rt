ghost use Rattle.std.specs.Prelude.{ℤ, IfSome, IfNone};
ghost use Rattle.command_line.specs.CellTexts.{HasParts, IsCoordinate};
ghost use Rattle.command_line.specs.OptionNames.{Text};

use crate::number::number;
use crate::range::{BELOW_0, FROM_0};

/// The coordinate that a text stands for: 1 to 10 digits, perhaps with a dash in front.
pub fn coordinate(text: &str) -> Option<i32>
    ensures some { IfSome result (IsCoordinate text.now) }
    ensures none { IfNone result ((z : ℤ) → IsCoordinate text.now z → ⊥) }
{
    match text.strip_prefix('-') {
        None => Some(number(text, FROM_0)? as i32),
        Some(digits) => Some(-(number(digits, BELOW_0)? as i32)),
    }
}

/// The two parts of a text with one comma.
pub fn parts(text: &str) -> Option<(&str, &str)>
    ensures some { IfSome result (λ found. HasParts text.now found.0.now found.1.now) }
    ensures none { IfNone result ((column row : Text) → HasParts text.now column row → ⊥) }
{
    let Some((column, row)) = text.split_once(',') else {
        return None;
    };
    if row.contains(',') {
        return None;
    }
    Some((column, row))
}
