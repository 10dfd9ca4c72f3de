//! The pairs of a layer and a datatype that a layout has, as its structures have them, each shape and each text once.

ghost use Rattle.std.specs.Prelude.{All, ◌↔◌, IsTrue};
ghost use Rattle.library_model.specs.Points.{AreWellPointed, IsWellPointed, HasItsPoints};
ghost use Rattle.geo_core.specs.Bounds.{IsInRange};

use crate::layouts::texts::TextMark;
use crate::remedies::SHORT_MEANINGS;
use crate::telling::Telling;
use geo_core::{FARTHEST, Point, Rect};
use indexmap::IndexMap;
use library_model::{Element, Library, Shape, ShapeKind, Structure};
use rect_cover::{CoverFault, cover_shape};

/// The most pairs that are told in a line.
const MOST_NAMED: usize = 50;

/// What a pair has.
#[derive(Clone, Copy)]
pub struct PairHeld {
    /// The layer, and the datatype or the type of a box or of a text.
    pub pair: (u16, u16),
    pub boundaries: u64,
    pub boxes: u64,
    pub paths: u64,
    pub texts: u64,
    /// Those of all points.
    pub bounds: Option<Bounds>,
    /// How many shapes have no cover, for each reason of `SHORT_MEANINGS`.
    pub uncovered: [u64; 7],
    /// Whether the top places one of its shapes.
    pub is_placed: bool,
}

/// What the pairs of a layout have, by these.
type Pairs = IndexMap<(u16, u16), PairHeld>;

/// What a pair has so far.
fn held_of(pairs: &Pairs, pair: (u16, u16)) -> PairHeld {
    pairs.get(&pair).copied().unwrap_or(PairHeld {
        pair,
        boundaries: 0,
        boxes: 0,
        paths: 0,
        texts: 0,
        bounds: None,
        uncovered: [0; 7],
        is_placed: false,
    })
}

/// How many shapes the pair has.
pub fn shapes_of(held: &PairHeld) -> u64 {
    held.boundaries
        .saturating_add(held.boxes)
        .saturating_add(held.paths)
}

/// The bounds with these points more.
fn with_points(bounds: Option<Bounds>, points: &[Point]) -> Option<Bounds> {
    let mut bounds = bounds;
    for point in points {
        bounds = with_point(bounds, point.x, point.y);
    }
    bounds
}

/// Counts a shape without a cover, for the reason with this number.
fn count_uncovered(held: &mut PairHeld, number: u8) {
    for (place, (of, _)) in SHORT_MEANINGS.iter().enumerate() {
        if *of == number
            && let Some(count) = held.uncovered.get_mut(place)
        {
            *count = count.saturating_add(1);
        }
    }
}

/// Notes what a pair has.
fn note(told: &mut Telling, pairs: &mut Pairs, held: PairHeld) {
    if pairs.insert(held.pair, held).is_err() {
        told.lose();
    }
}

/// Notes a shape.
fn note_shape(told: &mut Telling, pairs: &mut Pairs, shape: &Shape, is_placed: bool)
    requires { HasItsPoints shape.now.kind shape.now.points }
{
    let mut held = held_of(pairs, (shape.layer, shape.datatype));
    match shape.kind {
        ShapeKind::Boundary => held.boundaries = held.boundaries.saturating_add(1),
        ShapeKind::BoxElement => held.boxes = held.boxes.saturating_add(1),
        ShapeKind::Path { .. } => held.paths = held.paths.saturating_add(1),
    }
    held.bounds = with_points(held.bounds, shape.points.as_slice());
    held.is_placed |= is_placed;
    if let Some(number) = cover_fault(told, shape) {
        count_uncovered(&mut held, number);
    }
    note(told, pairs, held);
}

/// Notes an element, if it is a shape.
fn note_element(told: &mut Telling, pairs: &mut Pairs, element: &Element, is_placed: bool)
    requires { IsWellPointed element.now }
{
    if let Element::Shape(shape) = element {
        note_shape(told, pairs, shape, is_placed);
    }
}

/// Notes the shapes of a structure.
fn note_structure(told: &mut Telling, pairs: &mut Pairs, structure: &Structure, is_placed: bool)
    requires { All IsWellPointed structure.now.elements }
{
    for element in structure.elements.as_slice() {
        note_element(told, pairs, element, is_placed);
    }
}

/// Notes the shapes of all structures, where each structure is placed so often.
fn note_structures(told: &mut Telling, pairs: &mut Pairs, library: &Library, times: &[u64])
    requires { AreWellPointed library.now.structures }
{
    for (number, structure) in library.structures.as_slice().iter().enumerate() {
        let is_placed = times.get(number).copied().unwrap_or(0) > 0;
        note_structure(told, pairs, structure, is_placed);
    }
}

/// Notes texts.
fn note_texts(told: &mut Telling, pairs: &mut Pairs, texts: &[TextMark<'_>]) {
    for one in texts {
        let mut held = held_of(pairs, (one.layer, one.texttype));
        held.texts = held.texts.saturating_add(1);
        held.bounds = with_point(held.bounds, one.point.x, one.point.y);
        note(told, pairs, held);
    }
}

/// The pairs in their order.
fn in_order(told: &mut Telling, pairs: &Pairs) -> Vec<PairHeld> {
    let mut held = Vec::new(told.alloc);
    for one in pairs.values() {
        told.keep(&mut held, *one);
    }
    held.sort_unstable_by_key(|one| one.pair);
    held
}

/// The pairs that the structures and these texts have, in their order, where each structure is placed so often.
pub fn all_pairs(
    told: &mut Telling,
    library: &Library,
    texts: &[TextMark<'_>],
    times: &[u64],
) -> Vec<PairHeld>
    requires { AreWellPointed library.now.structures }
{
    let mut pairs = IndexMap::new(told.alloc);
    note_structures(told, &mut pairs, library, times);
    note_texts(told, &mut pairs, texts);
    in_order(told, &pairs)
}

/// Tells why shapes of the pair have no cover, each reason in a line that begins with these words.
fn tell_reasons(told: &mut Telling, before: &str, held: &PairHeld) {
    for (place, (number, meaning)) in SHORT_MEANINGS.iter().enumerate() {
        let count = held.uncovered.get(place).copied().unwrap_or(0);
        if count > 0 {
            told.say(before);
            told.number("  ", count, " of its shapes have no cover: ");
            told.number("", u64::from(*number), ", ");
            told.word("", *meaning, "\n");
        }
    }
}

/// Tells what a pair has, in lines that begin with these words, and where a top is known, whether it places a shape of it.
pub fn tell_pair(told: &mut Telling, before: &str, held: &PairHeld, has_top: bool) {
    let (layer, datatype) = held.pair;
    told.say(before);
    told.numbers(
        "layer {}, datatype {}: boundaries {}, boxes {}, paths {}, texts {}",
        &[
            u64::from(layer),
            u64::from(datatype),
            held.boundaries,
            held.boxes,
            held.paths,
            held.texts,
        ],
    );
    if let Some(bounds) = held.bounds {
        tell_bounds(told, ", points from ", bounds);
    }
    if has_top && shapes_of(held) > 0 {
        told.say(if held.is_placed {
            "; the top places shapes of it"
        } else {
            "; the top places none of it"
        });
    }
    told.say("\n");
    tell_reasons(told, before, held);
}

/// Notes the pairs of the shapes of a structure.
fn note_pairs(told: &mut Telling, pairs: &mut Pairs, structure: &Structure) {
    for element in structure.elements.as_slice() {
        if let Element::Shape(shape) = element {
            let held = held_of(pairs, (shape.layer, shape.datatype));
            note(told, pairs, held);
        }
    }
}

/// Tells a pair as a map has it.
pub fn tell_as_in_map(told: &mut Telling, before: &str, (layer, datatype): (u16, u16)) {
    told.say(before);
    told.numbers("[{}, {}]", &[u64::from(layer), u64::from(datatype)]);
}

/// Tells that the layout has shapes of these pairs, as a map has them.
fn tell_all_as_in_map(told: &mut Telling, pairs: &[PairHeld]) {
    if pairs.is_empty() {
        told.say("  the layout has no shapes\n");
        return;
    }
    told.say("  the layout has shapes of these pairs:");
    for held in &pairs[..pairs.len().min(MOST_NAMED)] {
        tell_as_in_map(told, " ", held.pair);
    }
    if pairs.len() > MOST_NAMED {
        let counts = [MOST_NAMED as u64, pairs.len() as u64];
        told.numbers(", the first {} of {}", &counts);
    }
    told.say("\n");
}

/// Tells of which pairs of a layer and a datatype structures have shapes, as a map has them.
pub fn tell_pairs_of(told: &mut Telling, structures: &[Structure]) {
    let mut pairs = IndexMap::new(told.alloc);
    for structure in structures {
        note_pairs(told, &mut pairs, structure);
    }
    let held = in_order(told, &pairs);
    tell_all_as_in_map(told, held.as_slice());
}

/// The left, the bottom, the right and the top of what is there.
#[derive(Clone, Copy)]
pub struct Bounds {
    pub left: i32,
    pub bottom: i32,
    pub right: i32,
    pub top: i32,
}

/// The bounds with a point more.
fn with_point(bounds: Option<Bounds>, x: i32, y: i32) -> Option<Bounds> {
    let known = bounds.unwrap_or(Bounds {
        left: x,
        bottom: y,
        right: x,
        top: y,
    });
    Some(Bounds {
        left: known.left.min(x),
        bottom: known.bottom.min(y),
        right: known.right.max(x),
        top: known.top.max(y),
    })
}

/// The bounds of all rectangles, where there is one.
pub fn bounds_of(rects: &[Rect]) -> Option<Bounds> {
    let mut bounds = None;
    for rect in rects {
        bounds = with_point(bounds, rect.x0, rect.y0);
        bounds = with_point(bounds, rect.x1, rect.y1);
    }
    bounds
}

/// Tells the bounds behind some words.
pub fn tell_bounds(told: &mut Telling, before: &str, bounds: Bounds) {
    told.point(before, bounds.left, bounds.bottom, " to ");
    told.point("", bounds.right, bounds.top, "");
}

/// The number of a shape that is too far out.
const OUT_OF_RANGE: u8 = 30;

/// Whether the point is no farther out than a layout may be.
fn is_in_range(point: Point) -> bool
    ensures { IsTrue result ↔ IsInRange point }
{
    -FARTHEST <= point.x && point.x <= FARTHEST && -FARTHEST <= point.y && point.y <= FARTHEST
}

/// Whether all points are no farther out than a layout may be.
fn are_in_range(points: &[Point]) -> bool
    ensures { IsTrue result ↔ All IsInRange points.now }
{
    points.iter().all(|point| is_in_range(*point))
}

/// The number of the fault for which a shape has no cover where its structure has it, where it has none.
fn cover_fault(told: &mut Telling, shape: &Shape) -> Option<u8>
    requires { HasItsPoints shape.now.kind shape.now.points }
{
    let points = shape.points.as_slice();
    if !are_in_range(points) {
        return Some(OUT_OF_RANGE);
    }
    match cover_shape(told.alloc, shape.kind, points, shape.at) {
        Ok(_) => None,
        Err(CoverFault::Memory) => {
            told.lose();
            None
        }
        Err(fault) => Some(fault.number()),
    }
}
