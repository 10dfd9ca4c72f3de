ghost use Rattle.std.specs.Prelude.{[], ◌≡◌, ◌≢◌, ◌<◌, ◌^◌, All, IfOk, IfErr, length, option_copied};
ghost use Rattle.first_refusal.specs.Answers.{Answers};
ghost use Rattle.first_refusal.specs.Outcomes.{refused};
ghost use Rattle.lists.specs.Differing.{AreDifferent};
ghost use Rattle.library_model.specs.Names.{names_of};
ghost use Rattle.map_model.specs.MapView.{layer_map_of};
ghost use Rattle.flatten.specs.Placements.{Placing};
ghost use Rattle.flatten.specs.Placed.{ArePlaced};
ghost use Rattle.flatten.specs.inside.Ends.{node_routes};
ghost use Rattle.flatten.specs.inside.Expansions.{HasLibrary, HaveLayers, PlacesEach};
ghost use Rattle.flatten.specs.declared.fault.PlaceFault.TheVariants.{Memory};

use super::expansion::expand;
use super::fault::PlaceFault;
use super::placed::Placed;
use super::plan::{Plan, plan_of};
use super::pruning::prune;
use super::size::check_size;
use super::summary::State;
use super::way::Way;
use library_model::Library;
use map_model::Map;
use std::alloc::Global;

/// How many shapes the top places, to take memory for all of them at once.
fn shape_count(plan: &Plan<'_>) -> usize
    requires { HasLibrary plan.now }
{
    let states = plan.states.as_slice();
    match states[plan.top as usize] {
        State::Done(summary) => summary.shapes as usize,
        _ => 0,
    }
}

/// All that the top places. What places nothing leaves the plan.
fn expanded(alloc: Global, plan: &mut Plan<'_>) -> Result<Vec<Placed>, PlaceFault>
    requires { HasLibrary plan.old }
    ensures { Answers PlaceFault.Memory (PlacesEach (λ layer_map. HaveLayers layer_map plan.old.nodes.items)
        (node_routes plan.old.nodes.items 256 plan.old.top) [] (λ placed. placed.items)) result }
{
    let mut placed = Vec::with_capacity(alloc, shape_count(plan))?;
    prune(plan.nodes.as_mut_slice(), plan.states.as_slice());
    let nodes = plan.nodes.as_slice();
    expand(nodes, &mut placed, Way::at_top(), plan.top)?;
    Ok(placed)
}

/// All shapes that the top of a library places on layers of the map, in the order of their routes: elements in file
/// order, a reference standing for what its structure places, and an array going row by row. Without a wanted name the
/// top is the one structure that no reference names.
///
/// Each gets one turn and one shift, in database units, which do to its points what the references on its route do one
/// after the other: those of SREF and AREF, with STRANS, ANGLE and COLROW, in the GDSII Stream Format Manual, Release 6.0.
/// Shapes on other layers are neither placed nor counted, wherever they lie.
///
/// No two structures have one name, and there are fewer than 2^32 structures, each with fewer than 2^32 elements, as in each
/// library that was read.
///
/// The fault is that of the first check that fails; `PlaceFault` has their order. References, cycles and the choice of the
/// top are checked in the whole library, whether the top reaches them or not. How deep the top is and how much it places is
/// known before any array is walked.
pub fn place(
    alloc: Global,
    library: &Library,
    map: &Map,
    top: Option<&[u8]>,
) -> Result<Vec<Placed>, PlaceFault>
    requires differ { AreDifferent (names_of library.now.structures) }
    requires few_structures { length library.now.structures < 2 ^ 32 }
    requires few_elements { All (λ structure. length structure.elements < 2 ^ 32) library.now.structures }
    ensures placed { IfOk result (λ placed. ArePlaced library.now.structures (layer_map_of map.now) (option_copied top.entry) placed.items) }
    ensures refused { IfErr result (λ fault. fault ≢ Memory →
        Placing library.now.structures (layer_map_of map.now) (option_copied top.entry) (refused fault)) }
{
    let mut plan = plan_of(alloc, library, map, top)?;
    check_size(library.structures.as_slice(), &plan)?;
    expanded(alloc, &mut plan)
}
