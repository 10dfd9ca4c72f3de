ghost use Rattle.std.specs.Prelude.{ℕ, [], ◌∷◌, ◌++◌, ◌≡◌, ◌≢◌, ◌≤◌, ◌<◌, length, IfOk, IfSome, IfNone};
ghost use Rattle.std.specs.Bool.{OnTrue, OnFalse};
ghost use Rattle.flatten.specs.inside.FollowedParts.{AreBelow, AreNodesBelow, LeadsTo, Leads};
ghost use Rattle.flatten.specs.inside.Surveys.{AreSettled, KeepsDone, state_of};
ghost use Rattle.flatten.specs.inside.Searches.{IsDoneBefore, IsSearch, steps_left};
ghost use Rattle.flatten.specs.declared.summary.Summary.{Summary};
ghost use Rattle.flatten.specs.declared.summary.State.TheVariants.{New, Done};

use super::part::Part;
use super::summary::State;
use super::summing::summary_of;
use lists::NoMemory;

/// The first reference, from the part at `next` on, to a structure that is not done: its place, and the structure.
fn next_undone(parts: &[Part<'_>], states: &[State], next: usize) -> Option<(usize, u32)>
    requires below { AreBelow (length states.now) parts.now }
    requires before { IsDoneBefore states.now parts.now next }
    ensures none { IfNone result (IsDoneBefore states.now parts.now (length parts.now)) }
    ensures before { IfSome result (λ found. IsDoneBefore states.now parts.now found.0) }
    ensures leads { IfSome result (λ found. LeadsTo parts.now found.1) }
    ensures undone { IfSome result (λ found. (summary : Summary) → state_of states.now found.1 ≢ Done summary) }
{
    for place in next..parts.len() {
        if let Part::Copies { target, .. } = &parts[place] {
            match &states[*target as usize] {
                State::Done(_) => {}
                _ => return Some((place, *target)),
            }
        }
    }
    None
}

/// One step of a search at the structure `one`, which was last on the stack. The answer is whether the search goes on:
/// where it does not, there is a cycle.
#[tactic(auto, using(crate::proofs::SearchLaws::one_within, crate::proofs::SearchLaws::one_in_nodes))]
fn step(
    nodes: &[Vec<Part<'_>>],
    states: &mut [State],
    stack: &mut Vec<u32>,
    one: u32,
    root: u32,
) -> Result<bool, NoMemory>
    requires below { AreNodesBelow (length nodes.now) nodes.now }
    requires search { IsSearch nodes.now root states.old (stack.old.items ++ one ∷ []) }
    ensures search { IfOk result (λ goes_on. OnTrue goes_on (IsSearch nodes.now root states.new stack.new.items)) }
    ensures cycle { IfOk result (λ goes_on. OnFalse goes_on ((n : ℕ) → Leads nodes.now n root)) }
    ensures kept { KeepsDone states.old states.new }
    ensures less { IfOk result (λ goes_on. steps_left states.new stack.new.items ≤ steps_left states.old stack.old.items) }
{
    let State::Open(next) = states[one as usize] else {
        return Ok(true);
    };
    let parts = nodes[one as usize].as_slice();
    match next_undone(parts, states, next) {
        None => states[one as usize] = State::Done(summary_of(parts, states)),
        Some((place, other)) => {
            if let State::Open(_) = states[other as usize] {
                return Ok(false);
            }
            stack.push(one)?;
            stack.push(other)?;
            states[one as usize] = State::Open(place);
            states[other as usize] = State::Open(0);
        }
    }
    Ok(true)
}

/// Surveys the structure `root` and all that it leads to, by a stack that is empty yet. The answer is whether its references
/// lead to an end: where they do not, the states are of no more use.
pub fn search(
    nodes: &[Vec<Part<'_>>],
    states: &mut [State],
    stack: &mut Vec<u32>,
    root: u32,
) -> Result<bool, NoMemory>
    requires empty { stack.old.items ≡ [] }
    requires below { AreNodesBelow (length nodes.now) nodes.now }
    requires long { length states.old ≡ length nodes.now }
    requires root { root < length nodes.now }
    requires new { state_of states.old root ≡ New }
    requires settled { AreSettled nodes.now states.old }
    ensures long { length states.new ≡ length states.old }
    ensures settled { IfOk result (λ ends. OnTrue ends (AreSettled nodes.now states.new)) }
    ensures done { IfOk result (λ ends. OnTrue ends ((summary : Summary) × (state_of states.new root ≡ Done summary))) }
    ensures cycle { IfOk result (λ ends. OnFalse ends ((n : ℕ) → Leads nodes.now n root)) }
    ensures kept { IfOk result (λ ends. OnTrue ends (KeepsDone states.old states.new)) }
{
    states[root as usize] = State::Open(0);
    stack.push(root)?;
    while let Some(one) = stack.pop() {
        if !step(nodes, states, stack, one, root)? {
            return Ok(false);
        }
    }
    Ok(true)
}
