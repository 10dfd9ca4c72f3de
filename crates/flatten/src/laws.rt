//! Laws: facts about the definitions, each the contract of a function that does nothing else. They go from names and layers
//! to the steps of an array, from steps to motions, from there to routes, and from routes to what is placed.

ghost use Rattle.std.specs.Prelude.{ℕ, List, Option, [], ◌∷◌, ◌≡◌, ◌+◌, ◌*◌, ◌<◌, ◌≤◌, ◌↔◌, All, IsTrue, Contains, Some, true, length, map, slice_get};
ghost use Rattle.geo_core.specs.declared.plane.Point.{Point as PlanePoint};
ghost use Rattle.first_refusal.specs.Outcomes.{refused, value};
ghost use Rattle.first_refusal.specs.Laws.{IsUnique, CannotLack};
ghost use Rattle.library_model.specs.Names.{StandsAt, names_of, place_of};
ghost use Rattle.library_model.specs.declared.element.Shape.{Shape};
ghost use Rattle.library_model.specs.declared.library.Structure.{Structure};
ghost use Rattle.library_model.specs.declared.element.Reference.{Reference};
ghost use Rattle.map_model.specs.LayerMap.{LayerMap, IsMappedTo, layers_of};
ghost use Rattle.map_model.specs.Layers.{pairs_of};
ghost use Rattle.lists.specs.Differing.{AreDifferent};
ghost use Rattle.flatten.specs.Structures.{is_mapped};
ghost use Rattle.flatten.specs.Steps.{Step, columns_of, lattice_shift, moved_along, moved_by, rows_of, shift_of, shifted, steps_of};
ghost use Rattle.flatten.specs.ArrayExample.{corner, mirrored_array, placed_corners, quarter_step, turned_corners};
ghost use Rattle.flatten.specs.Motions.{MovesAlong, image_by};
ghost use Rattle.flatten.specs.declared.motion.Motion.{Motion};
ghost use Rattle.flatten.specs.ReferenceChains.{StartsChain};
ghost use Rattle.flatten.specs.Routes.{Route, routes};
ghost use Rattle.flatten.specs.OneRoute.{IsRoute};
ghost use Rattle.flatten.specs.Placements.{Placing};
ghost use Rattle.flatten.specs.Causes.{Tells};
ghost use Rattle.flatten.specs.Placed.{ArePlaced};
ghost use Rattle.flatten.specs.declared.fault.PlaceFault.{PlaceFault};
ghost use Rattle.flatten.specs.declared.placed.Placed.{Placed};

/// Where names differ, the number that a name becomes is that of the structure at which the name stands.
pub fn a_name_stands_where_it_is_found()
    ensures { (structures : List Structure) (name : List ℕ) (one : ℕ) → AreDifferent (names_of structures) →
        (place_of (names_of structures) name ≡ Some one) ↔ StandsAt (names_of structures) name one }
{}

/// A shape is mapped exactly where it has a layer of the map.
pub fn a_mapped_shape_has_a_layer()
    ensures { (layer_map : LayerMap) (shape : Shape) →
        IsTrue (is_mapped layer_map shape) ↔ ((number : ℕ) × IsMappedTo layer_map (shape.layer, shape.datatype) number) }
{}

/// The copies of an array go row by row, and column by column in each row: the copy in this column and row stands behind
/// those of all rows before it and those of the columns before it. There are no other copies.
#[tactic(auto, using(crate::proofs::ArrayLaws::steps_long, crate::proofs::ArrayLaws::stands_there))]
pub fn arrays_go_row_by_row()
    ensures count { (reference : Reference) →
        length (steps_of reference) ≡ rows_of reference.lattice * columns_of reference.lattice }
    ensures order { (reference : Reference) (column row : ℕ) →
        column < columns_of reference.lattice → row < rows_of reference.lattice →
        slice_get (steps_of reference) (row * columns_of reference.lattice + column)
        ≡ Some (record { reference = reference; column = column; row = row }) }
{}

/// A step mirrors before it turns: one that mirrors and turns by a quarter exchanges x and y, and then shifts. The other way
/// round the signs would change, too.
#[tactic(auto, using(crate::proofs::StepLaws::mirrored_first))]
pub fn mirrors_come_before_turns()
    ensures { (step : Step) (p : PlanePoint) → step.reference.turn.reflect ≡ true → step.reference.turn.quarters ≡ 1 →
        moved_by step p ≡ shifted (shift_of step) (record { x = p.y; y = p.x }) }
{}

/// The columns and rows of an array are not turned with what it places: a copy moves a point as the first copy does, and
/// then by the array's own steps.
#[tactic(auto, using(crate::proofs::StepLaws::copies_are_shifted))]
pub fn columns_and_rows_are_not_turned()
    ensures { (reference : Reference) (column row : ℕ) (p : PlanePoint) →
        moved_by (record { reference = reference; column = column; row = row }) p
        ≡ shifted (lattice_shift reference.lattice column row) (moved_by (record { reference = reference; column = 0; row = 0 }) p) }
{}

/// An example, by computing: where an array that mirrors and turns places a point, and where a turned placement of this
/// array does, which turns its columns and rows.
pub fn the_example_places_its_corners()
    ensures array { map (λ step. moved_by step corner) (steps_of mirrored_array) ≡ placed_corners }
    ensures turned { map (λ step. moved_along (quarter_step ∷ step ∷ []) corner) (steps_of mirrored_array) ≡ turned_corners }
{}

/// Steps, one after the other, are one motion: a turn and then a shift, however the steps mirror, turn and repeat.
pub fn steps_are_one_motion()
    ensures { (steps : List Step) → (motion : Motion) × MovesAlong motion steps }
{}

/// What a motion does to points tells its turn and its shift.
#[tactic(auto, using(crate::proofs::OneMotion::motions_agree))]
pub fn motions_agree()
    ensures { (one other : Motion) → ((p : PlanePoint) → image_by one p ≡ image_by other p) → one ≡ other }
{}

/// No route has more steps than it may have.
#[tactic(auto, using(crate::proofs::laws::Routes::routes_are_short))]
pub fn no_route_is_longer_than_its_bound()
    ensures { (structures : List Structure) (most : ℕ) (start : ℕ) →
        All (λ route. length route.steps ≤ most) (routes structures most start) }
{}

/// The routes from a structure are the ways along which steps lead from it to a shape: a way with at most so many steps is
/// in their list, and nothing else is.
pub fn all_routes_are_listed()
    ensures { (structures : List Structure) (most : ℕ) (start : ℕ) (route : Route) →
        Contains (routes structures most start) route ↔ ((length route.steps ≤ most) × IsRoute structures start route) }
{}

/// A bound that no chain passes cuts no route off: a greater one gives the same routes.
#[tactic(auto, using(crate::proofs::RouteLaws::nothing_is_cut_off))]
pub fn bounds_beyond_all_chains_agree()
    ensures { (structures : List Structure) (most more : ℕ) (start : ℕ) →
        ((n : ℕ) → StartsChain structures n start → n ≤ most) →
        routes structures (most + more) start ≡ routes structures most start }
{}

/// A library's shapes are placed in one way at most, or refused with one fault.
pub fn placings_agree()
    ensures { (structures : List Structure) (layer_map : LayerMap) (wanted : Option (List ℕ)) →
        IsUnique (Placing structures layer_map wanted) }
{}

/// A library's shapes are placed or refused: it cannot be that they are neither.
pub fn placings_cannot_be_lacking()
    ensures { (structures : List Structure) (layer_map : LayerMap) (wanted : Option (List ℕ)) →
        CannotLack (Placing structures layer_map wanted) }
{}

/// A refusal tells its cause: which reference, structure or shape is at its offset, and what is wrong with it.
#[tactic(auto, using(crate::proofs::CauseLaws::refusal_tells))]
pub fn refusals_tell_their_causes()
    ensures { (structures : List Structure) (layer_map : LayerMap) (wanted : Option (List ℕ)) (fault : PlaceFault) →
        Placing structures layer_map wanted (refused fault) → Tells structures layer_map wanted fault }
{}

/// Where no two layers of the map share a pair of a layer and a datatype, as in each map that was read, the placed shapes
/// of a library are one list at most.
pub fn placed_shapes_agree()
    ensures { (structures : List Structure) (layer_map : LayerMap) (wanted : Option (List ℕ)) →
        AreDifferent (pairs_of (layers_of layer_map)) → IsUnique (ArePlaced structures layer_map wanted) }
{}

/// Where the shapes of a library are not refused, there is such a list: steps are one motion, and each route ends in a shape
/// of a mapped layer.
pub fn placed_shapes_exist()
    ensures { (structures : List Structure) (layer_map : LayerMap) (wanted : Option (List ℕ)) (routes : List Route) →
        Placing structures layer_map wanted (value routes) → (placed : List Placed) × ArePlaced structures layer_map wanted placed }
{}
