ghost use Rattle.std.specs.Prelude.{ℕ, ◌≡◌, ◌<◌, ◌^◌, length, IfOk};
ghost use Rattle.std.specs.Bool.{OnTrue, OnFalse};
ghost use Rattle.first_refusal.specs.Answers.{Answers};
ghost use Rattle.flatten.specs.inside.FollowedParts.{AreNodesBelow, Leads};
ghost use Rattle.flatten.specs.inside.Surveys.{AreSettled, KeepsDone, SurveysAll, state_of};
ghost use Rattle.flatten.specs.declared.summary.Summary.{Summary};
ghost use Rattle.flatten.specs.declared.summary.State.TheVariants.{Done};

use super::fault::PlaceFault;
use super::part::Part;
use super::search::search;
use super::summary::State;
use library_model::Structure;
use lists::NoMemory;
use std::alloc::Global;

/// Surveys the structure `root`, if it is not done. The answer is whether its references lead to an end.
fn survey_from(
    alloc: Global,
    nodes: &[Vec<Part<'_>>],
    states: &mut [State],
    root: u32,
) -> Result<bool, NoMemory>
    requires below { AreNodesBelow (length nodes.now) nodes.now }
    requires long { length states.old ≡ length nodes.now }
    requires root { root < length nodes.now }
    requires settled { AreSettled nodes.now states.old }
    ensures long { length states.new ≡ length states.old }
    ensures settled { IfOk result (λ ends. OnTrue ends (AreSettled nodes.now states.new)) }
    ensures done { IfOk result (λ ends. OnTrue ends ((summary : Summary) × (state_of states.new root ≡ Done summary))) }
    ensures cycle { IfOk result (λ ends. OnFalse ends ((n : ℕ) → Leads nodes.now n root)) }
    ensures kept { IfOk result (λ ends. OnTrue ends (KeepsDone states.old states.new)) }
{
    match states[root as usize] {
        State::New => {
            let mut stack = Vec::new(alloc);
            search(nodes, states, &mut stack, root)
        }
        _ => Ok(true),
    }
}

/// Surveys all structures: each is done in the end. The fault is that of the first structure that leads to a cycle.
pub fn survey(
    alloc: Global,
    structures: &[Structure],
    nodes: &[Vec<Part<'_>>],
) -> Result<Vec<State>, PlaceFault>
    requires below { AreNodesBelow (length nodes.now) nodes.now }
    requires long { length nodes.now ≡ length structures.now }
    requires few { length structures.now < 2 ^ 32 }
    ensures long { IfOk result (λ states. length states.items ≡ length nodes.now) }
    ensures answers { Answers PlaceFault.Memory (SurveysAll nodes.now structures.now) result }
{
    let mut states = vec![in alloc; State::New; nodes.len()]?;
    for root in 0..structures.len() {
        if !survey_from(alloc, nodes, &mut states, root as u32)? {
            return Err(PlaceFault::Cycle {
                at: structures[root].at,
            });
        }
    }
    Ok(states)
}
