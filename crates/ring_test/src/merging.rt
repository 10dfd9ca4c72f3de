ghost use Rattle.std.specs.Prelude.{ℤ, pos, List, [], ◌∷◌, ◌++◌, ◌≡◌, ◌≤ℤ◌, ◌↔◌, All, IsTrue};
ghost use Rattle.std.specs.Int.{int_max};
ghost use Rattle.geo_core.specs.Intervals.{IsIn};
ghost use Rattle.ring_test.specs.Rings.{IsArc};
ghost use Rattle.ring_test.specs.declared.runs.Run.{Run as AnyRun};
ghost use Rattle.ring_test.specs.inside.NumberRuns.{AreByFirst, IsInRuns, IsMerged};

use super::runs::Run;

/// What runs of numbers come to where those that meet are joined.
#[derive(Clone, Copy)]
pub enum Merged {
    /// No number.
    Nothing,
    /// One run.
    One(Run),
    /// Two runs, the lower one first, with at least one number between them.
    Two(Run, Run),
    /// More than two runs with numbers between them.
    More,
}

impl Merged {
    /// With the numbers of one more run, which begins no earlier than any of those so far.
    fn with_run(self, run: Run) -> Merged
        ensures { (runs : List AnyRun) → All (λ earlier. earlier.from ≤ℤ run.from) runs →
            IsMerged runs self → IsMerged (runs ++ run ∷ []) result }
    {
        match self {
            Merged::Nothing => Merged::One(run),
            Merged::One(only) => {
                if run.from > only.to {
                    return Merged::Two(only, run);
                }
                Merged::One(extended(only, run))
            }
            Merged::Two(first, last) => {
                if run.from > last.to {
                    return Merged::More;
                }
                Merged::Two(first, extended(last, run))
            }
            Merged::More => Merged::More,
        }
    }

    /// Whether they are one arc of the numbers from 0 to before `length`, among which they are.
    pub fn is_arc(self, length: i64) -> bool
        ensures { (runs : List AnyRun) → IsMerged runs self → ((k : ℤ) → IsInRuns runs k → IsIn (pos 0) length k) →
            IsTrue result ↔ IsArc length (IsInRuns runs) }
    {
        match self {
            Merged::Nothing => true,
            Merged::One(_) => true,
            // two runs are one where the last number leads on to the first
            Merged::Two(first, last) => first.from == 0 && last.to == length,
            Merged::More => false,
        }
    }
}

/// The run, and on to the end of one that begins within it or at its end.
fn extended(run: Run, other: Run) -> Run
    ensures from { result.from ≡ run.from }
    ensures to { result.to ≡ int_max run.to other.to }
{
    Run {
        from: run.from,
        to: run.to.max(other.to),
    }
}

/// What the runs come to.
pub fn merge(runs: &[Run]) -> Merged
    requires { AreByFirst runs.now }
    ensures { IsMerged runs.now result }
{
    let mut merged = Merged::Nothing;
    for run in runs {
        merged = merged.with_run(*run);
    }
    merged
}
