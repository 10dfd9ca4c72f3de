ghost use Rattle.std.specs.Prelude.{[], ◌∷◌, All, IfOk, IfErr};
ghost use Rattle.map_model.specs.LayerMap.{LayerMap};
ghost use Rattle.first_refusal.specs.Outcomes.{refused};
ghost use Rattle.flatten.specs.Placements.{PlacingFrom, TopHolds, is_shallow, is_small, placed_routes};
ghost use Rattle.flatten.specs.inside.Plans.{IsPlanOf};

use super::fault::PlaceFault;
use super::limits::{MOST_POINTS, MOST_SHAPES, MOST_STEPS};
use super::plan::Plan;
use super::summary::State;
use library_model::Structure;

/// Checks how deep the top is, and how much it places, before anything is placed.
pub fn check_size(structures: &[Structure], plan: &Plan<'_>) -> Result<(), PlaceFault>
    requires { (layer_map : LayerMap) × IsPlanOf structures.now layer_map plan.now }
    ensures kept { (layer_map : LayerMap) → IsPlanOf structures.now layer_map plan.now → IfOk result (λ _.
        All (TopHolds structures.now plan.now.top (placed_routes structures.now layer_map plan.now.top)) (is_shallow ∷ is_small ∷ [])) }
    ensures refused { (layer_map : LayerMap) → IsPlanOf structures.now layer_map plan.now → IfErr result (λ fault.
        PlacingFrom structures.now plan.now.top (placed_routes structures.now layer_map plan.now.top) (refused fault)) }
{
    let at = structures[plan.top as usize].at;
    let states = plan.states.as_slice();
    match states[plan.top as usize] {
        State::Done(summary) => {
            if summary.height > MOST_STEPS {
                return Err(PlaceFault::TooDeep { at });
            }
            if summary.shapes > MOST_SHAPES {
                return Err(PlaceFault::TooManyShapes { at });
            }
            if summary.points > MOST_POINTS {
                return Err(PlaceFault::TooManyShapes { at });
            }
            Ok(())
        }
        _ => Ok(()),
    }
}
