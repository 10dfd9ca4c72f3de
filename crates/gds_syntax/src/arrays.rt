ghost use Rattle.std.specs.Prelude.{◌≡◌, ◌≤◌, ◌^◌, ◌+ℤ◌, ◌*ℤ◌, ◌≤ℤ◌, ℤ, pos, nat_abs, All, IfErr, IfNone, IfOk, IfSome, OnOk, length};
ghost use Rattle.library_grammar.specs.ElementChecks.{ElementHolds, IsFaultOfFirst, array_checks};
ghost use Rattle.library_grammar.specs.Elements.{IsLattice};
ghost use Rattle.library_grammar.specs.OwnRecords.{HasSteps, Leads, columns_of, points_of, rows_of};
ghost use Rattle.library_model.specs.Ranges.{IsStep};

use super::own_records::OwnRecords;
use super::points::point_of;
use gds_records::{i16_at, kinds};
use geo_core::Point;
use library_grammar::fault::SyntaxFault;
use library_model::element::Lattice;

/// How many columns and rows an array has, with sign, or 0 and 0 where it does not say.
fn columns_and_rows(own: &OwnRecords<'_>) -> (i16, i16)
    ensures columns { result.0 ≡ columns_of own.now }
    ensures rows { result.1 ≡ rows_of own.now }
{
    match own.find(kinds::COLROW) {
        Some(colrow) => (i16_at(&colrow, 0), i16_at(&colrow, 1)),
        None => (0, 0),
    }
}

/// The part of a way of which so many make it up, if it is whole.
fn part_of(way: i64, count: i64) -> Option<i64>
    requires { pos 1 ≤ℤ count }
    ensures whole { IfSome result (λ part. (count *ℤ part) ≡ way) }
    ensures shorter { IfSome result (λ part. nat_abs part ≤ nat_abs way) }
    ensures none { IfNone result ((part : ℤ) → (count *ℤ part) ≡ way → ⊥) }
{
    if way % count == 0 {
        Some(way / count)
    } else {
        None
    }
}

/// The step, if so many equal ones lead from one coordinate to another.
fn step_along(from: i32, to: i32, count: i16) -> Option<i64>
    requires { pos 1 ≤ℤ count }
    ensures leads { IfSome result (λ step. (from +ℤ (count *ℤ step)) ≡ to) }
    ensures short { IfSome result (λ step. nat_abs step ≤ 2 ^ 32) }
    ensures none { IfNone result ((step : ℤ) → (from +ℤ (count *ℤ step)) ≡ to → ⊥) }
{
    part_of(i64::from(to) - i64::from(from), i64::from(count))
}

/// The step, across and up, if so many equal ones lead from one point to another.
fn step_between(from: Point, to: Point, count: i16) -> Option<(i64, i64)>
    requires { pos 1 ≤ℤ count }
    ensures leads { IfSome result (Leads count from to) }
    ensures short { IfSome result IsStep }
    ensures none { IfNone result ((step : ℤ × ℤ) → Leads count from to step → ⊥) }
{
    let across = step_along(from.x, to.x, count)?;
    let up = step_along(from.y, to.y, count)?;
    Some((across, up))
}

/// The steps of an array with so many columns and rows, if they are whole.
fn steps_of(own: &OwnRecords<'_>, columns: i16, rows: i16) -> Option<((i64, i64), (i64, i64))>
    requires points { length (points_of own.now) ≡ 3 }
    requires columns { columns ≡ columns_of own.now }
    requires rows { rows ≡ rows_of own.now }
    requires some_columns { pos 1 ≤ℤ columns }
    requires some_rows { pos 1 ≤ℤ rows }
    ensures steps { IfSome result (λ steps. HasSteps own.now steps.0 steps.1) }
    ensures short { IfSome result (λ steps. IsStep steps.0 × IsStep steps.1) }
    ensures none { IfNone result ((column_step row_step : ℤ × ℤ) → HasSteps own.now column_step row_step → ⊥) }
{
    let origin = point_of(own, 0);
    let column_step = step_between(origin, point_of(own, 1), columns)?;
    let row_step = step_between(origin, point_of(own, 2), rows)?;
    Some((column_step, row_step))
}

/// The columns and rows of an array and the steps between them, if it has at least one of each and its steps are whole.
pub fn lattice_of(at: u32, own: &OwnRecords<'_>) -> Result<Lattice, SyntaxFault>
    requires { length (points_of own.now) ≡ 3 }
    ensures passed { OnOk result (All (ElementHolds own.now) array_checks) }
    ensures lattice { IfOk result (IsLattice own.now) }
    ensures failed { IfErr result (IsFaultOfFirst at own.now array_checks) }
{
    let (columns, rows) = columns_and_rows(own);
    if columns < 1 || rows < 1 {
        return Err(SyntaxFault::EmptyArray { at });
    }
    match steps_of(own, columns, rows) {
        Some((column_step, row_step)) => Ok(Lattice {
            columns: columns.unsigned_abs(),
            rows: rows.unsigned_abs(),
            column_step,
            row_step,
        }),
        None => Err(SyntaxFault::UnevenArray { at }),
    }
}
