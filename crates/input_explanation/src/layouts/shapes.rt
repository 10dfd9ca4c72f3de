//! The placed shapes of a layout: what they cover on each layer of the map, which of its terminals they cover, and those that
//! have no cover.

ghost use Rattle.std.specs.Prelude.{◌<◌, ◌^◌, length, All};
ghost use Rattle.lists.specs.Differing.{AreDifferent};
ghost use Rattle.library_model.specs.Names.{names_of};
ghost use Rattle.library_model.specs.Points.{AreWellPointed};
ghost use Rattle.rect_cover.specs.Coverings.{IsWellPlaced};

use crate::layouts::faults::Layout;
use crate::layouts::places::tell_place_at;
use crate::layouts::terminals::{Known, note_covered};
use crate::remedies::{SHORT_MEANINGS, short_meaning};
use crate::telling::Telling;
use flatten::{PlaceFault, Placed, place};
use geo_core::Rect;
use library_model::{Element, Library, Structure};
use map_model::{LayerName, Map};
use rect_cover::{CoverFault, cover};
use std::alloc::Global;

/// The most shapes, and the most terminals, that are told each in a line.
pub const MOST_LINES: usize = 20;

/// A placed shape that has no cover: its layer in the map, and why.
#[derive(Clone, Copy)]
pub struct Uncovered {
    pub layer: u32,
    pub fault: CoverFault,
}

/// What is placed on a layer of the map.
#[derive(Drop)]
pub struct Held {
    /// What the layer is, a metal or a cut, and a space.
    kind: &'static str,
    /// The name of the metal or the cut.
    pub name: LayerName,
    pub shapes: u64,
    pub points: u64,
    /// The rectangles that its shapes cover.
    pub rects: Vec<Rect>,
    /// For each of them the offset of its shape.
    pub offsets: Vec<u32>,
}

/// The placed shapes: what each layer holds, those that have no cover, and which terminals are covered.
#[derive(Drop)]
pub struct Shapes {
    pub held: Vec<Held>,
    pub uncovered: Vec<Uncovered>,
    pub terminals: Vec<Known>,
}

impl Held {
    /// Nothing on a layer of this kind and name.
    fn nothing(alloc: Global, kind: &'static str, name: LayerName) -> Held {
        Held {
            kind,
            name,
            shapes: 0,
            points: 0,
            rects: Vec::new(alloc),
            offsets: Vec::new(alloc),
        }
    }

    /// Tells behind some words which layer it is.
    pub fn tell_layer(&self, told: &mut Telling, before: &str) {
        told.say(before);
        told.name(self.kind, self.name.as_slice(), "");
    }

    /// Tells how many shapes and points are placed on it.
    pub fn tell_counts(&self, told: &mut Telling) {
        self.tell_layer(told, "  ");
        told.numbers(": {} shapes with {} points", &[self.shapes, self.points]);
    }
}

/// How many points the placed shape has.
fn point_count(structures: &[Structure], placed: &Placed) -> usize {
    let Some(structure) = structures.get(placed.structure as usize) else {
        return 0;
    };
    match structure.elements.as_slice().get(placed.element as usize) {
        Some(Element::Shape(shape)) => shape.points.as_slice().len(),
        _ => 0,
    }
}

/// Notes a rectangle that a shape of a layer covers.
fn note_rect(told: &mut Telling, shapes: &mut Shapes, one: &Placed, rect: Rect) {
    let layer = one.layer as usize;
    if let Some(held) = shapes.held.get_mut(layer) {
        let number = held.rects.len();
        note_covered(&mut shapes.terminals, layer, rect, number);
        told.keep(&mut held.rects, rect);
        told.keep(&mut held.offsets, one.at);
    }
}

/// Counts a shape of a layer that has so many points and is placed so often.
pub fn count_shape(layers: &mut [Held], layer: u32, points: usize, times: u64) {
    if let Some(held) = layers.get_mut(layer as usize) {
        held.shapes = held.shapes.saturating_add(times);
        let points = times.saturating_mul(points as u64);
        held.points = held.points.saturating_add(points);
    }
}

/// Notes a shape that has so many points, with its cover, or that it has none.
fn note(
    told: &mut Telling,
    shapes: &mut Shapes,
    one: &Placed,
    points: usize,
    answer: Result<Vec<Rect>, CoverFault>,
) {
    match answer {
        Ok(rects) => {
            count_shape(&mut shapes.held, one.layer, points, 1);
            for rect in rects.as_slice() {
                note_rect(told, shapes, one, *rect);
            }
        }
        Err(CoverFault::Memory) => told.lose(),
        Err(fault) => {
            let layer = one.layer;
            told.keep(&mut shapes.uncovered, Uncovered { layer, fault });
        }
    }
}

/// Nothing on each layer of the map: its metals, and then its cuts.
pub fn nothing_held(told: &mut Telling, map: &Map) -> Vec<Held> {
    let mut layers = Vec::new(told.alloc);
    for metal in map.metals.as_slice() {
        let held = Held::nothing(told.alloc, "metal ", metal.name);
        told.keep(&mut layers, held);
    }
    for cut in map.cuts.as_slice() {
        let held = Held::nothing(told.alloc, "cut ", cut.name);
        told.keep(&mut layers, held);
    }
    layers
}

/// Looks at all placed shapes. The terminals then come by their numbers.
fn shapes_of(
    told: &mut Telling,
    map: &Map,
    library: &Library,
    placed: &[Placed],
    terminals: &[Known],
) -> Shapes
    requires { All (IsWellPlaced library.now.structures) placed.now }
{
    let mut shapes = Shapes {
        held: nothing_held(told, map),
        uncovered: Vec::new(told.alloc),
        terminals: Vec::new(told.alloc),
    };
    if shapes.terminals.extend_from_slice(terminals).is_err() {
        told.lose();
    }
    shapes
        .terminals
        .sort_unstable_by_key(|one| (one.metal, one.cell.i, one.index));
    for one in placed {
        let answer = cover(told.alloc, library, one);
        let points = point_count(library.structures.as_slice(), one);
        note(told, &mut shapes, one, points, answer);
    }
    shapes
        .terminals
        .sort_unstable_by_key(|one| (one.index, one.metal));
    shapes
}

/// What the top places on the layers of the map, and which of these terminals it covers.
pub fn placed_shapes(
    told: &mut Telling,
    map: &Map,
    library: &Library,
    top: Option<&[u8]>,
    terminals: &[Known],
) -> Result<Shapes, PlaceFault>
    requires differ { AreDifferent (names_of library.now.structures) }
    requires few_structures { length library.now.structures < 2 ^ 32 }
    requires few_elements { All (λ structure. length structure.elements < 2 ^ 32) library.now.structures }
    requires pointed { AreWellPointed library.now.structures }
{
    match place(told.alloc, library, map, top) {
        Ok(placed) => Ok(shapes_of(told, map, library, placed.as_slice(), terminals)),
        Err(fault) => Err(fault),
    }
}

/// Tells how many shapes of the layer of this number, on which this is placed, have no cover for the reason with this number.
fn tell_count(told: &mut Telling, found: &[Uncovered], number: u8, layer: usize, held: &Held) {
    let mut count = 0u64;
    for one in found {
        if one.fault.number() == number && one.layer as usize == layer {
            count = count.saturating_add(1);
        }
    }
    if count > 0 {
        told.number("  ", count, " placed shapes of ");
        held.tell_layer(told, "");
        told.number(": ", u64::from(number), ", ");
        told.word("", short_meaning(number), "\n");
    }
}

/// Tells how many shapes of each layer have no cover.
fn tell_counts(told: &mut Telling, shapes: &Shapes) {
    for (number, _) in SHORT_MEANINGS {
        for (layer, held) in shapes.held.iter().enumerate() {
            tell_count(told, shapes.uncovered.as_slice(), *number, layer, held);
        }
    }
}

/// Tells of the placed shapes that have no cover: how many, and the first ones each in a line. One that is placed many times
/// has one line.
pub fn tell_uncovered(told: &mut Telling, layout: &Layout<'_>, shapes: &Shapes) {
    tell_counts(told, shapes);
    let mut lines = Vec::new(told.alloc);
    for one in shapes.uncovered.as_slice() {
        let place = one.fault.place();
        if lines.len() == MOST_LINES {
            told.say("  and others\n");
            return;
        }
        if !lines.as_slice().contains(&place) {
            told.keep(&mut lines, place);
            told.number("  byte ", place, ": ");
            let at = u32::try_from(place).unwrap_or(u32::MAX);
            tell_place_at(told, "", layout.bytes, at, ": ");
            told.word("", short_meaning(one.fault.number()), "\n");
        }
    }
}
