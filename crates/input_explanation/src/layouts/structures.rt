//! What is wrong with how the structures of a library refer to each other.

ghost use Rattle.std.specs.Prelude.{◌<◌, ◌^◌, length};
ghost use Rattle.lists.specs.Differing.{AreDifferent};
ghost use Rattle.library_model.specs.Names.{names_of};

use crate::layouts::faults::{Layout, tell_number};
use crate::layouts::graph::{Graph, graph_of, name_of};
use crate::layouts::places::{ElementTold, spot_up_to, tell_place, tell_place_at};
use crate::layouts::shapes::{Held, count_shape, nothing_held};
use crate::telling::Telling;
use flatten::{PlaceFault, tops_of};
use library_model::{Element, Library, Structure};
use map_model::Map;

/// The most structures of a circle, and the most tops of a kind, that are named.
const MOST_NAMED: usize = 50;

/// What the names of structures begin with that editors hide.
const HIDDEN: &[u8] = b"$$$";

/// The number of the structure that begins at this offset.
fn structure_at(structures: &[Structure], place: u64) -> Option<usize> {
    for (number, structure) in structures.iter().enumerate() {
        if u64::from(structure.at) == place {
            return Some(number);
        }
    }
    None
}

/// The numbers of the structures that no reference names.
pub fn found_tops(told: &mut Telling, library: &Library) -> Vec<u32>
    requires differ { AreDifferent (names_of library.now.structures) }
    requires few { length library.now.structures < 2 ^ 32 }
{
    match tops_of(told.alloc, library) {
        Ok(tops) => tops,
        Err(_) => {
            told.lose();
            Vec::new(told.alloc)
        }
    }
}

/// Tells a structure whose name differs from this in nothing but capital letters, where there is one.
fn tell_alike(told: &mut Telling, structures: &[Structure], name: &[u8]) {
    for structure in structures {
        let other = structure.name.as_slice();
        if other.eq_ignore_ascii_case(name) {
            told.name("  there is ", other, ", with other capital letters\n");
            return;
        }
    }
}

/// Tells which reference names no structure.
fn tell_unknown(told: &mut Telling, layout: &Layout<'_>, structures: &[Structure], place: u32) {
    let spot = spot_up_to(layout.bytes, place, true);
    tell_place(told, "  ", &spot, "\n");
    if let Some(
        ElementTold {
            target: Some(target),
            ..
        },
    ) = spot.element
    {
        told.name("  no structure is named ", target, "\n");
        tell_alike(told, structures, target);
    }
}

/// Tells the circle to which a structure leads: its structures in their order, and that it ends where it begins.
fn tell_circle(told: &mut Telling, graph: &Graph<'_>, one: usize) {
    let circle = graph.circle_from(told, one, MOST_NAMED);
    told.name(
        "  structure ",
        name_of(graph.structures, one),
        "; the circle:",
    );
    for number in circle.as_slice() {
        told.name(" ", name_of(graph.structures, *number), " ->");
    }
    match circle.first() {
        Some(first) if circle.len() < MOST_NAMED => {
            told.name(" ", name_of(graph.structures, *first), "\n");
        }
        _ => told.say(" ..\n"),
    }
}

/// Tells a longest chain from the top.
fn tell_chain(told: &mut Telling, graph: &Graph<'_>, top: usize) {
    if let Some(chain) = graph.chain_from(top) {
        told.number("  the longest chain has ", chain.length, " references");
        told.name(", from ", name_of(graph.structures, top), "");
        told.name(" to ", name_of(graph.structures, chain.end), "\n");
    }
}

/// Tells those of the tops that are hidden by editors, or those that are not, in a line behind these words.
fn tell_some_tops(
    told: &mut Telling,
    structures: &[Structure],
    tops: &[u32],
    hidden: bool,
    words: &str,
) {
    let mut count = 0usize;
    for top in tops {
        let name = name_of(structures, *top as usize);
        if name.starts_with(HIDDEN) != hidden {
            continue;
        }
        if count == 0 {
            told.say(words);
        }
        if count < MOST_NAMED {
            told.name(" ", name, "");
        }
        count = count.saturating_add(1);
    }
    if count > MOST_NAMED {
        told.numbers(", the first {} of {}", &[MOST_NAMED as u64, count as u64]);
    }
    if count > 0 {
        told.say("\n");
    }
}

/// Tells the structures with these numbers, which no reference names.
pub fn tell_tops(told: &mut Telling, structures: &[Structure], tops: &[u32]) {
    tell_some_tops(told, structures, tops, false, "  named by no reference:");
    tell_some_tops(
        told,
        structures,
        tops,
        true,
        "  named by no reference, and hidden by editors, which keep notes of their own in them:",
    );
}

/// Adds the shapes of a structure that is placed so often to what the layers of the map hold.
fn add_shapes(held: &mut [Held], map: &Map, structure: &Structure, times: u64) {
    for element in structure.elements.as_slice() {
        if let Element::Shape(shape) = element
            && let Some(layer) = map.layer_of(shape.layer, shape.datatype)
        {
            count_shape(held, layer, shape.points.as_slice().len(), times);
        }
    }
}

/// What the top places on each layer of the map, without the rectangles.
fn counts_of(told: &mut Telling, map: &Map, graph: &Graph<'_>, top: usize) -> Vec<Held> {
    let times = graph.times_placed(told, Some(top));
    let mut counts = nothing_held(told, map);
    for (number, structure) in graph.structures.iter().enumerate() {
        let times = times.get(number).copied().unwrap_or(0);
        if times > 0 {
            add_shapes(counts.as_mut_slice(), map, structure, times);
        }
    }
    counts
}

/// Tells how many shapes and points the top places on each layer of the map.
fn tell_counts(told: &mut Telling, map: &Map, graph: &Graph<'_>, top: usize) {
    told.name("  the top is ", name_of(graph.structures, top), "\n");
    let counts = counts_of(told, map, graph, top);
    for held in counts.as_slice() {
        held.tell_counts(told);
        told.say("\n");
    }
}

/// Tells that no structure has the wanted name, or that there is none. These are the numbers of those that no reference names.
pub fn tell_no_top(
    told: &mut Telling,
    layout: &Layout<'_>,
    structures: &[Structure],
    tops: &[u32],
) {
    told.refuse(4, 27, 0);
    layout.tell(told);
    if structures.is_empty() {
        told.say(": it has no structure\n");
        return;
    }
    let top = layout.top.unwrap_or(b"");
    told.name(": no structure has the name ", top, " that --top gives\n");
    tell_alike(told, structures, top);
    tell_tops(told, structures, tops);
}

/// Tells of the structure with which the fault begins.
fn tell_from(told: &mut Telling, map: &Map, library: &Library, fault: PlaceFault)
    requires differ { AreDifferent (names_of library.now.structures) }
    requires few { length library.now.structures < 2 ^ 32 }
{
    let Some(one) = structure_at(library.structures.as_slice(), fault.place()) else {
        return;
    };
    let graph = graph_of(told, library);
    match fault {
        PlaceFault::Cycle { .. } => tell_circle(told, &graph, one),
        PlaceFault::TooDeep { .. } => tell_chain(told, &graph, one),
        _ => tell_counts(told, map, &graph, one),
    }
}

/// Tells why the shapes of a library are not placed.
pub fn tell_place_fault(
    told: &mut Telling,
    map: &Map,
    layout: &Layout<'_>,
    library: &Library,
    fault: PlaceFault,
)
    requires differ { AreDifferent (names_of library.now.structures) }
    requires few { length library.now.structures < 2 ^ 32 }
{
    if matches!(fault, PlaceFault::Memory) {
        told.lose();
        return;
    }
    let structures = library.structures.as_slice();
    if matches!(fault, PlaceFault::NoTop) {
        let tops = found_tops(told, library);
        tell_no_top(told, layout, structures, tops.as_slice());
        return;
    }
    tell_number(told, layout, fault.number(), fault.place());
    match fault {
        PlaceFault::ManyTops { .. } => {
            let tops = found_tops(told, library);
            tell_tops(told, structures, tops.as_slice());
        }
        PlaceFault::UnknownStructure { at } => tell_unknown(told, layout, structures, at),
        PlaceFault::OutOfRange { at } => tell_place_at(told, "  ", layout.bytes, at, "\n"),
        _ => tell_from(told, map, library, fault),
    }
}
