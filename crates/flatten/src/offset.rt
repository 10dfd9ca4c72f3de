//! How far copies are shifted, in one direction.

ghost use Rattle.std.specs.Prelude.{pos, ◌≡◌, ◌+◌, ◌≤◌, ◌<◌, ◌^◌, ◌+ℤ◌, ◌*ℤ◌, nat_abs};

/// Two shifts, one after the other.
pub fn both_shifts(one: i64, other: i64) -> i64
    requires one_amount { nat_abs one ≤ 2 ^ 58 }
    requires other_amount { nat_abs other ≤ 2 ^ 58 }
    ensures value { result ≡ one +ℤ other }
    ensures amount { nat_abs result ≤ nat_abs one + nat_abs other }
{
    one + other
}

/// So many steps of a lattice.
fn steps_along(count: u16, step: i64) -> i64
    requires few { count < 2 ^ 15 }
    requires short { nat_abs step ≤ 2 ^ 32 }
    ensures value { result ≡ pos count *ℤ step }
    ensures amount { nat_abs result ≤ 2 ^ 47 }
{
    i64::from(count) * step
}

/// How far the copy in this column and row lies from the first.
pub fn lattice_offset(column: u16, column_step: i64, row: u16, row_step: i64) -> i64
    requires few_columns { column < 2 ^ 15 }
    requires few_rows { row < 2 ^ 15 }
    requires short_columns { nat_abs column_step ≤ 2 ^ 32 }
    requires short_rows { nat_abs row_step ≤ 2 ^ 32 }
    ensures value { result ≡ (pos column *ℤ column_step) +ℤ (pos row *ℤ row_step) }
    ensures amount { nat_abs result ≤ 2 ^ 48 }
{
    both_shifts(steps_along(column, column_step), steps_along(row, row_step))
}
