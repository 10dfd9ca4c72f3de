//! The expansion of structures: from the top, each part in turn, down to each shape.

ghost use Rattle.std.specs.Prelude.{[], ◌∷◌, ◌≡◌, ◌≤◌, ◌<◌, ◌-◌, ◌^◌, Contains, List, length};
ghost use Rattle.first_refusal.specs.Answers.{Answers};
ghost use Rattle.map_model.specs.LayerMap.{IsMappedTo};
ghost use Rattle.flatten.specs.Steps.{Step, columns_of, rows_of, steps_in_row, steps_of};
ghost use Rattle.flatten.specs.Motions.{MovesAlong};
ghost use Rattle.flatten.specs.inside.FollowedParts.{AreNodesBelow, parts_at};
ghost use Rattle.flatten.specs.inside.Ends.{node_routes, part_routes, route_to, routes_below};
ghost use Rattle.flatten.specs.inside.Expansions.{Expands, PlacesEach, copy_routes};

use super::fault::PlaceFault;
use super::part::Part;
use super::placed::Placed;
use super::ranges::are_in_range;
use super::way::Way;
use library_model::{Reference, Shape};

/// Places the shape that is this element of this structure. The way leads to the structure.
fn place_shape(
    placed: &mut Vec<Placed>,
    way: Way,
    structure: u32,
    element: u32,
    layer: u32,
    shape: &Shape,
) -> Result<(), PlaceFault>
    ensures { (steps : List Step) → MovesAlong way.motion steps → Answers PlaceFault.Memory (PlacesEach
        (λ layer_map. IsMappedTo layer_map (shape.now.layer, shape.now.datatype) layer)
        (route_to steps structure element shape.now ∷ []) placed.old.items (λ _. placed.new.items)) result }
{
    if !are_in_range(way.motion, shape.points.as_slice()) {
        return Err(PlaceFault::OutOfRange { at: shape.at });
    }
    placed.push(Placed {
        structure,
        element,
        at: shape.at,
        layer,
        turn: way.motion.turn,
        dx: way.motion.dx,
        dy: way.motion.dy,
    })?;
    Ok(())
}

/// How many columns of copies a reference makes: one, unless it is an array.
fn columns(reference: &Reference) -> u16
    ensures value { result ≡ columns_of reference.now.lattice }
    ensures few { result < 2 ^ 15 }
{
    match &reference.lattice {
        None => 1,
        Some(lattice) => lattice.columns,
    }
}

/// How many rows of copies a reference makes.
fn rows(reference: &Reference) -> u16
    ensures value { result ≡ rows_of reference.now.lattice }
    ensures few { result < 2 ^ 15 }
{
    match &reference.lattice {
        None => 1,
        Some(lattice) => lattice.rows,
    }
}

/// Places what the copies in one row of a reference place.
#[cycle(expansion)]
#[tactic(auto, using(crate::proofs::GrowthLaws::none_followed))]
fn expand_row(
    nodes: &[Vec<Part<'_>>],
    placed: &mut Vec<Placed>,
    way: Way,
    reference: &Reference,
    target: u32,
    row: u16,
) -> Result<(), PlaceFault>
    requires followed { AreNodesBelow (length nodes.now) nodes.now }
    requires there { target < length nodes.now }
    requires more { 1 ≤ way.left }
    requires few { row < 2 ^ 15 }
    ensures { (steps : List Step) → MovesAlong way.motion steps → Answers PlaceFault.Memory (Expands nodes.now steps
        (copy_routes nodes.now (way.left - 1) target (steps_in_row reference.now row)) placed.old.items placed.new.items) result }
{
    for column in 0..columns(reference) {
        expand(nodes, placed, way.on(reference, column, row), target)?;
    }
    Ok(())
}

/// Places what the copies of a reference place, row by row.
#[cycle(expansion)]
#[tactic(auto, using(crate::proofs::GrowthLaws::none_followed))]
fn expand_copies(
    nodes: &[Vec<Part<'_>>],
    placed: &mut Vec<Placed>,
    way: Way,
    reference: &Reference,
    target: u32,
) -> Result<(), PlaceFault>
    requires followed { AreNodesBelow (length nodes.now) nodes.now }
    requires there { target < length nodes.now }
    requires more { 1 ≤ way.left }
    ensures { (steps : List Step) → MovesAlong way.motion steps → Answers PlaceFault.Memory (Expands nodes.now steps
        (copy_routes nodes.now (way.left - 1) target (steps_of reference.now)) placed.old.items placed.new.items) result }
{
    for row in 0..rows(reference) {
        expand_row(nodes, placed, way, reference, target, row)?;
    }
    Ok(())
}

/// Places what a part of the structure with this number places.
#[cycle(expansion)]
fn expand_part(
    nodes: &[Vec<Part<'_>>],
    placed: &mut Vec<Placed>,
    way: Way,
    one: u32,
    part: &Part<'_>,
) -> Result<(), PlaceFault>
    requires followed { AreNodesBelow (length nodes.now) nodes.now }
    requires there { Contains (parts_at nodes.now one) part.now }
    ensures { (steps : List Step) → MovesAlong way.motion steps → Answers PlaceFault.Memory (Expands nodes.now steps
        (part_routes (routes_below nodes.now way.left) one part.now) placed.old.items placed.new.items) result }
{
    match part {
        Part::End {
            element,
            layer,
            shape,
        } => place_shape(placed, way, one, *element, *layer, shape),
        Part::Copies { reference, target } => {
            // Where chains are too long nothing is placed, so that a step is left whenever a reference comes. The test is what
            // ends the recursion.
            if way.left == 0 {
                return Ok(());
            }
            expand_copies(nodes, placed, way, reference, *target)
        }
    }
}

/// Places what the structure with this number places, part by part.
#[cycle(expansion)]
#[tactic(auto, using(crate::proofs::GrowthLaws::none_followed))]
pub fn expand(
    nodes: &[Vec<Part<'_>>],
    placed: &mut Vec<Placed>,
    way: Way,
    one: u32,
) -> Result<(), PlaceFault>
    requires followed { AreNodesBelow (length nodes.now) nodes.now }
    requires there { one < length nodes.now }
    ensures { (steps : List Step) → MovesAlong way.motion steps → Answers PlaceFault.Memory (Expands nodes.now steps
        (node_routes nodes.now way.left one) placed.old.items placed.new.items) result }
{
    for part in nodes[one as usize].as_slice() {
        expand_part(nodes, placed, way, one, part)?;
    }
    Ok(())
}
