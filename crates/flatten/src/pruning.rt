//! What places nothing leaves the graph, so that an expansion walks only what it places.

ghost use Rattle.std.specs.Prelude.{◌≡◌};
ghost use Rattle.flatten.specs.inside.FollowedParts.{Nodes};
ghost use Rattle.flatten.specs.inside.Surveys.{AreDone, AreTrue, state_of};
ghost use Rattle.flatten.specs.inside.Prunings.{AreNodesDone, IsPruned, Prunes, TellsBarren};

use super::part::Part;
use super::summary::State;

/// How far the survey of the structure with this number has come.
fn state_at(states: &[State], one: u32) -> State
    ensures { result ≡ state_of states.now one }
{
    states.get(one as usize).copied().unwrap_or(State::New)
}

/// Whether a part places something: a reference to a structure that places no shape on a mapped layer places nothing.
fn is_fertile(part: &Part<'_>, states: &[State]) -> bool
    ensures { TellsBarren states.now part.now result }
{
    match part {
        Part::End { .. } => true,
        Part::Copies { target, .. } => match state_at(states, *target) {
            State::Done(summary) => summary.shapes > 0,
            _ => true,
        },
    }
}

/// Leaves the parts that place something.
fn prune_parts(parts: &mut Vec<Part<'_>>, states: &[State])
    ensures { (nodes : Nodes) → AreTrue nodes states.now → AreDone states.now parts.old.items →
        Prunes nodes parts.old.items parts.new.items }
{
    parts.retain(|part| is_fertile(part, states));
}

/// Leaves the parts that place something, of each structure.
pub fn prune(nodes: &mut [Vec<Part<'_>>], states: &[State])
    requires told { AreTrue nodes.old states.now }
    requires done { AreNodesDone states.now nodes.old }
    ensures { IsPruned nodes.old nodes.new }
{
    for node in nodes.iter_mut() {
        prune_parts(node, states);
    }
}
