ghost use Rattle.std.specs.Prelude.{ℕ, [], ◌∷◌, ◌+◌, ◌≡◌, ◌≤◌, ◌<◌, ◌*◌, ◌^◌, length};
ghost use Rattle.flatten.specs.inside.FollowedParts.{AreBelow};
ghost use Rattle.flatten.specs.Steps.{columns_of, rows_of};
ghost use Rattle.flatten.specs.inside.Weights.{Weight, IsKept, StandsFor, both_weights, kept_of, no_weight, weight_of, times_weight, weight_over};
ghost use Rattle.flatten.specs.inside.Surveys.{AreWeighed};

use super::limits::{MOST_POINTS, MOST_STEPS};
use super::part::Part;
use super::summary::{State, Summary};
use library_model::Reference;

/// How many copies a reference makes: one, unless it is an array.
pub fn copies(reference: &Reference) -> u64
    ensures value { result ≡ rows_of reference.now.lattice * columns_of reference.now.lattice }
    ensures few { result < 2 ^ 30 }
{
    match &reference.lattice {
        None => 1,
        Some(lattice) => u64::from(lattice.rows) * u64::from(lattice.columns),
    }
}

/// What is kept of a sum: of one count, and so many times another. It is the sum itself, up to the first number that is too
/// great for points and for shapes, and not more than that, whatever counts `sum` and `count` stand for.
fn kept_sum(sum: u64, copies: u64, count: u64) -> u64
    requires { copies < 2 ^ 30 }
    ensures { (one other : ℕ) → StandsFor sum one → StandsFor count other → result ≡ kept_of (one + copies * other) }
{
    let most = MOST_POINTS + 1;
    (sum.min(most) + copies * count.min(most)).min(most)
}

/// What is kept of a structure behind one shape more, which has so many points.
fn with_shape(summary: Summary, points: usize) -> Summary
    ensures { (weight : Weight) → IsKept weight summary →
        IsKept (both_weights weight (record { height = 0; shapes = 1; points = points })) result }
{
    Summary {
        height: summary.height,
        shapes: kept_sum(summary.shapes, 1, 1),
        points: kept_sum(summary.points, 1, points as u64),
    }
}

/// What is kept of a structure behind so many copies more of another.
fn with_copies(summary: Summary, other: Summary, copies: u64) -> Summary
    requires { copies < 2 ^ 30 }
    ensures { (weight another : Weight) → IsKept weight summary → IsKept another other →
        IsKept (both_weights weight (times_weight copies another)) result }
{
    Summary {
        height: summary.height.max(other.height.min(MOST_STEPS) + 1),
        shapes: kept_sum(summary.shapes, copies, other.shapes),
        points: kept_sum(summary.points, copies, other.points),
    }
}

/// What is kept of a structure behind one part more. A reference leads to a structure that is done.
fn with_part(summary: Summary, part: &Part<'_>, states: &[State]) -> Summary
    requires { AreBelow (length states.now) (part.now ∷ []) }
    ensures { (of : ℕ → Weight) (weight : Weight) → AreWeighed states.now of (part.now ∷ []) → IsKept weight summary →
        IsKept (both_weights weight (weight_of of part.now)) result }
{
    match part {
        Part::End { shape, .. } => with_shape(summary, shape.points.as_slice().len()),
        Part::Copies { reference, target } => match states[*target as usize] {
            State::Done(other) => with_copies(summary, other, copies(reference)),
            _ => summary,
        },
    }
}

/// What is kept of the parts of a structure, each reference leading to one that is done.
pub fn summary_of(parts: &[Part<'_>], states: &[State]) -> Summary
    requires { AreBelow (length states.now) parts.now }
    ensures { (of : ℕ → Weight) → AreWeighed states.now of parts.now → IsKept (weight_over of parts.now) result }
{
    let mut summary = Summary {
        height: 0,
        shapes: 0,
        points: 0,
    };
    for part in parts {
        summary = with_part(summary, part, states);
    }
    summary
}
