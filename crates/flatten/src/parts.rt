ghost use Rattle.std.specs.Prelude.{List, ◌≡◌, ◌<◌, ◌^◌, IfOk, IfErr, All, [], ◌∷◌, ◌++◌, length, option_to_list};
ghost use Rattle.std.specs.List.{enumerate_from};
ghost use Rattle.first_refusal.specs.Answers.{Answers};
ghost use Rattle.first_refusal.specs.Checks.{IsRefusalOfFirst};
ghost use Rattle.map_model.specs.MapView.{layer_map_of};
ghost use Rattle.flatten.specs.Structures.{all_references, references_among, references_in};
ghost use Rattle.flatten.specs.inside.FollowedParts.{AreNodes, AreParts, IsKnown, MakesParts};
ghost use Rattle.flatten.specs.declared.fault.PlaceFault.TheVariants.{UnknownStructure};

use super::fault::PlaceFault;
use super::part::Part;
use library_model::{Element, NameIndex, Structure};
use map_model::Map;
use std::alloc::Global;

/// The part that the element with this number is, if it is one.
fn part_of<'a>(
    number: u32,
    element: &'a Element,
    map: &Map,
    index: &NameIndex<'_>,
) -> Result<Option<Part<'a>>, PlaceFault>
    ensures part { IfOk result (λ part. AreParts index.now (layer_map_of map.now) ((number, element.now) ∷ []) (option_to_list part)) }
    ensures known { IfOk result (λ part. All (IsKnown index.now) (references_in element.now)) }
    ensures unknown { IfErr result (λ fault.
        IsRefusalOfFirst (IsKnown index.now) (references_in element.now) (λ reference. UnknownStructure reference.at) fault) }
{
    match element {
        Element::Shape(shape) => Ok(match map.layer_of(shape.layer, shape.datatype) {
            None => None,
            Some(layer) => Some(Part::End {
                element: number,
                layer,
                shape,
            }),
        }),
        Element::Reference(reference) => match index.find(reference.target.as_slice()) {
            None => Err(PlaceFault::UnknownStructure { at: reference.at }),
            Some(target) => Ok(Some(Part::Copies { reference, target })),
        },
    }
}

/// Puts the part that the element at this place is, if it is one, behind the others.
fn push_part<'a>(
    parts: &mut Vec<Part<'a>>,
    place: usize,
    element: &'a Element,
    map: &Map,
    index: &NameIndex<'_>,
) -> Result<(), PlaceFault>
    requires { place < 2 ^ 32 }
    ensures { Answers PlaceFault.Memory (MakesParts index.now (references_in element.now)
        (λ _. (more : List Part) × (parts.new.items ≡ parts.old.items ++ more)
        × AreParts index.now (layer_map_of map.now) ((place, element.now) ∷ []) more)) result }
{
    if let Some(part) = part_of(place as u32, element, map, index)? {
        parts.push(part)?;
    }
    Ok(())
}

/// The parts of a structure.
pub fn parts_of<'a>(
    alloc: Global,
    structure: &'a Structure,
    map: &Map,
    index: &NameIndex<'_>,
) -> Result<Vec<Part<'a>>, PlaceFault>
    requires { length structure.now.elements < 2 ^ 32 }
    ensures { Answers PlaceFault.Memory (MakesParts index.now (references_among structure.now.elements)
        (λ parts. AreParts index.now (layer_map_of map.now) (enumerate_from 0 structure.now.elements) parts.items)) result }
{
    let elements = structure.elements.as_slice();
    let mut parts = Vec::with_capacity(alloc, elements.len())?;
    for (place, element) in elements.iter().enumerate() {
        push_part(&mut parts, place, element, map, index)?;
    }
    Ok(parts)
}

/// The parts of every structure.
pub fn nodes_of<'a>(
    alloc: Global,
    structures: &'a [Structure],
    map: &Map,
    index: &NameIndex<'_>,
) -> Result<Vec<Vec<Part<'a>>>, PlaceFault>
    requires { All (λ structure. length structure.elements < 2 ^ 32) structures.now }
    ensures { Answers PlaceFault.Memory (MakesParts index.now (all_references structures.now)
        (λ nodes. AreNodes index.now (layer_map_of map.now) structures.now nodes.items)) result }
{
    let mut nodes = Vec::new(alloc);
    for structure in structures {
        let parts = parts_of(alloc, structure, map, index)?;
        nodes.push(parts)?;
    }
    Ok(nodes)
}
