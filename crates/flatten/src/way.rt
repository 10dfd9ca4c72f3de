ghost use Rattle.std.specs.Prelude.{◌+◌, ◌*◌, ◌≤◌, ◌^◌, nat_abs};

use super::limits::MOST_STEPS;
use super::motion::Motion;
use library_model::Reference;

/// How far an expansion has come.
#[derive(Clone, Copy)]
pub struct Way {
    /// What the steps from the top to here do, all together.
    pub motion: Motion,
    /// How many more steps may follow.
    pub left: u32,
    // A step shifts by at most 2^49 in each direction, and there are at most 2^8.
    pub ghost across: { nat_abs motion.dx + left * 2 ^ 49 ≤ 2 ^ 57 },
    pub ghost up: { nat_abs motion.dy + left * 2 ^ 49 ≤ 2 ^ 57 },
}

impl Way {
    ghost use Rattle.std.specs.Prelude.{[], ◌∷◌, ◌++◌, ◌≡◌, ◌≤◌, ◌<◌, ◌-◌, ◌^◌, List};
    ghost use Rattle.flatten.specs.Steps.{Step};
    ghost use Rattle.flatten.specs.Motions.{MovesAlong};

    /// At the top, before any step.
    pub fn at_top() -> Way
        ensures moves { MovesAlong result.motion [] }
        ensures left { result.left ≡ 256 }
    {
        Way {
            motion: Motion::none(),
            left: MOST_STEPS,
        }
    }

    /// One step further, to the copy of the reference in this column and row.
    pub fn on(self, reference: &Reference, column: u16, row: u16) -> Way
        requires more { 1 ≤ self.left }
        requires few_columns { column < 2 ^ 15 }
        requires few_rows { row < 2 ^ 15 }
        ensures moves { (steps : List Step) → MovesAlong self.motion steps →
            MovesAlong result.motion (steps ++ (record { reference = reference.now; column = column; row = row }) ∷ []) }
        ensures left { result.left ≡ self.left - 1 }
    {
        Way {
            motion: self.motion.after(Motion::of_copy(reference, column, row)),
            left: self.left - 1,
        }
    }
}
