use super::offset::{both_shifts, lattice_offset};
use geo_core::{Turn, after, turn_point};
use library_model::{Lattice, Reference};

/// A motion of the plane: a turn, and then a shift to the right and up, in database units.
#[derive(Clone, Copy)]
pub struct Motion {
    pub turn: Turn,
    pub dx: i64,
    pub dy: i64,
}

impl Motion {
    ghost use Rattle.std.specs.Prelude.{ℕ, suc, [], ◌≡◌, ◌<◌, ◌^◌};
    ghost use Rattle.geo_core.specs.declared.plane.Point.{Point as PlanePoint};
    ghost use Rattle.flatten.specs.Steps.{moved_by};
    ghost use Rattle.flatten.specs.Motions.{MovesAlong, ShiftsAtMost, image_by};

    /// The motion that moves nothing.
    pub fn none() -> Motion
        ensures moves { MovesAlong result [] }
        ensures reach { ShiftsAtMost 0 result }
    {
        Motion {
            turn: Turn {
                reflect: false,
                quarters: 0,
            },
            dx: 0,
            dy: 0,
        }
    }

    /// The motion of one copy of those that a reference makes: that in this column and row.
    pub fn of_copy(reference: &Reference, column: u16, row: u16) -> Motion
        requires few_columns { column < 2 ^ 15 }
        requires few_rows { row < 2 ^ 15 }
        ensures moves { (p : PlanePoint) →
            image_by result p ≡ moved_by (record { reference = reference.now; column = column; row = row }) p }
        ensures reach { ShiftsAtMost 1 result }
    {
        let (across, up) = shift_in_lattice(&reference.lattice, column, row);
        Motion {
            turn: reference.turn,
            dx: both_shifts(i64::from(reference.origin.x), across),
            dy: both_shifts(i64::from(reference.origin.y), up),
        }
    }

    /// The motion that does `inner` first and then this.
    pub fn after(self, inner: Motion) -> Motion
        requires reach { ShiftsAtMost 256 self }
        requires inner_reach { ShiftsAtMost 1 inner }
        ensures moves { (p : PlanePoint) → image_by result p ≡ image_by self (image_by inner p) }
        ensures reach { (steps : ℕ) → ShiftsAtMost steps self → ShiftsAtMost (suc steps) result }
    {
        let (across, up) = turned(self.turn, inner.dx, inner.dy);
        Motion {
            turn: after(self.turn, inner.turn),
            dx: both_shifts(across, self.dx),
            dy: both_shifts(up, self.dy),
        }
    }
}

ghost use Rattle.std.specs.Prelude.{◌≡◌, ◌≤◌, ◌<◌, ◌^◌, nat_abs};
ghost use Rattle.geo_core.specs.Turns.{image_under};
ghost use Rattle.flatten.specs.Steps.{lattice_shift};

/// The point `(x, y)`, turned: a turn takes it no farther from the axes than it was from either.
pub fn turned(turn: Turn, x: i64, y: i64) -> (i64, i64)
    requires across { nat_abs x ≤ 2 ^ 49 }
    requires up { nat_abs y ≤ 2 ^ 49 }
    ensures across { result.0 ≡ (image_under turn (record { x = x; y = y })).x }
    ensures up { result.1 ≡ (image_under turn (record { x = x; y = y })).y }
    ensures across_amount { nat_abs result.0 ≤ 2 ^ 49 }
    ensures up_amount { nat_abs result.1 ≤ 2 ^ 49 }
{
    turn_point(turn, x, y)
}

/// How far the copy in this column and row lies from the first, across and up.
fn shift_in_lattice(lattice: &Option<Lattice>, column: u16, row: u16) -> (i64, i64)
    requires few_columns { column < 2 ^ 15 }
    requires few_rows { row < 2 ^ 15 }
    ensures across { result.0 ≡ (lattice_shift lattice.now column row).x }
    ensures up { result.1 ≡ (lattice_shift lattice.now column row).y }
    ensures across_amount { nat_abs result.0 ≤ 2 ^ 48 }
    ensures up_amount { nat_abs result.1 ≤ 2 ^ 48 }
{
    match lattice {
        None => (0, 0),
        Some(steps) => (
            lattice_offset(column, steps.column_step.0, row, steps.row_step.0),
            lattice_offset(column, steps.column_step.1, row, steps.row_step.1),
        ),
    }
}
