ghost use Rattle.std.specs.Prelude.{ℕ, IfSome, IfNone};
ghost use Rattle.command_line.specs.Numbers.{IsNumber};

use crate::range::NumberRange;

/// The number that a text of 1 to 10 digits stands for, where it lies within the range.
pub fn number(text: &str, range: NumberRange) -> Option<u32>
    ensures some { IfSome result (λ n. IsNumber range.least range.most text.now n) }
    ensures none { IfNone result ((n : ℕ) → IsNumber range.least range.most text.now n → ⊥) }
{
    if text.len() > 10 || text.starts_with('+') {
        return None;
    }
    let Ok(value) = text.parse::<u32>() else {
        return None;
    };
    if value < range.least || value > range.most {
        return None;
    }
    Some(value)
}
