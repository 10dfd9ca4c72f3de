//! The terminals of the map, and which of them lie on shapes of their metals.

use crate::layouts::faults::{Layout, REFUSED};
use crate::layouts::pairs::{tell_as_in_map, tell_pairs_of};
use crate::layouts::places::tell_place_at;
use crate::layouts::shapes::{MOST_LINES, Shapes};
use crate::maps::good_map::{GoodMap, MapFile};
use crate::telling::Telling;
use geo_core::{Cell, Rect};
use library_model::Library;
use map_model::{Map, Metal};

/// A terminal of the map, by its number, which is counted from 0.
#[derive(Clone, Copy)]
pub struct Known {
    pub index: usize,
    pub metal: usize,
    pub cell: Cell,
    /// The number of a rectangle among those of its metal that covers it, where one does.
    pub rect: Option<usize>,
}

/// The terminals of the map.
pub fn known_terminals(told: &mut Telling, map: &Map) -> Vec<Known> {
    let mut known = Vec::new(told.alloc);
    for (index, terminal) in map.terminals.as_slice().iter().enumerate() {
        let one = Known {
            index,
            metal: terminal.metal as usize,
            cell: terminal.cell,
            rect: None,
        };
        told.keep(&mut known, one);
    }
    known
}

/// Notes the terminals that the rectangle of this number among those of the metal covers. They come by their metals, and those
/// of one metal by their columns.
pub fn note_covered(known: &mut [Known], metal: usize, rect: Rect, number: usize) {
    let first = known.partition_point(|one| one.metal < metal
        || one.metal == metal && one.cell.i < rect.x0);
    for k in first..known.len() {
        let one = known[k];
        if one.metal != metal || one.cell.i >= rect.x1 {
            return;
        }
        if rect.y0 <= one.cell.j && one.cell.j < rect.y1 {
            known[k] = Known {
                rect: Some(number),
                ..one
            };
        }
    }
}

/// The first terminal that no shape of its metal covers, where there is one.
pub fn first_off(known: &[Known]) -> Option<Known> {
    for one in known {
        if one.rect.is_none() {
            return Some(*one);
        }
    }
    None
}

/// Tells behind some words which terminal is meant: its number and its line in the map, its metal and its cell.
fn tell_terminal(told: &mut Telling, before: &str, file: MapFile<'_>, shapes: &Shapes, one: Known) {
    told.word(before, "[[terminal]] number ", "");
    told.number("", (one.index as u64).saturating_add(1), ", counted from 1");
    file.tell_line(told, one.index);
    if let Some(held) = shapes.held.get(one.metal) {
        held.tell_layer(told, ", ");
    }
    told.point(", cell ", one.cell.i, one.cell.j, "");
}

/// A cell that a shape covers, how far it is to the right and up from another, and the offset of the shape.
#[derive(Clone, Copy)]
struct Near {
    cell: Cell,
    across: i64,
    up: i64,
    /// The square of its distance.
    square: i64,
    offset: u32,
}

/// The cell of a rectangle that is nearest to a cell.
fn near_in(rect: Rect, offset: u32, cell: Cell) -> Near {
    let i = cell.i.max(rect.x0).min(rect.x1.saturating_sub(1));
    let j = cell.j.max(rect.y0).min(rect.y1.saturating_sub(1));
    let across = i64::from(i).saturating_sub(i64::from(cell.i));
    let up = i64::from(j).saturating_sub(i64::from(cell.j));
    let square = across
        .saturating_mul(across)
        .saturating_add(up.saturating_mul(up));
    Near {
        cell: Cell { i, j },
        across,
        up,
        square,
        offset,
    }
}

/// A nearest cell to the terminal that its metal covers, where there is one.
fn nearest_to(shapes: &Shapes, one: Known) -> Option<Near> {
    let held = shapes.held.get(one.metal)?;
    let mut nearest: Option<Near> = None;
    for (number, rect) in held.rects.iter().enumerate() {
        let offset = held.offsets.get(number).copied().unwrap_or(0);
        let near = near_in(*rect, offset, one.cell);
        nearest = match nearest {
            Some(known) if known.square <= near.square => Some(known),
            _ => Some(near),
        };
    }
    nearest
}

/// Tells how far something is along an axis, where it is not at the same place.
fn tell_way(told: &mut Telling, way: i64, below: &str, above: &str) {
    if way != 0 {
        told.number(
            ", ",
            way.unsigned_abs(),
            if way < 0 { below } else { above },
        );
    }
}

/// Tells behind some words a terminal that is not covered, and the cell of its metal that is nearest, where there is one.
fn tell_off(told: &mut Telling, before: &str, file: MapFile<'_>, shapes: &Shapes, one: Known) {
    tell_terminal(told, before, file, shapes, one);
    match nearest_to(shapes, one) {
        Some(near) => {
            let Cell { i, j } = near.cell;
            told.point("; the nearest cell of the metal is ", i, j, "");
            tell_way(told, near.across, " to the left", " to the right");
            tell_way(told, near.up, " down", " up");
        }
        None => told.say("; its metal covers nothing"),
    }
    told.say("\n");
}

/// Tells that the metal of this number covers nothing, and its pairs.
fn tell_empty(told: &mut Telling, metals: &[Metal], shapes: &Shapes, number: usize) {
    if let Some(held) = shapes.held.get(number)
        && let Some(metal) = metals.get(number)
    {
        let before = if held.shapes > 0 {
            ": nothing is covered by the shapes of "
        } else {
            ": the top places no shapes of "
        };
        held.tell_layer(told, before);
        told.say(", whose pairs are");
        for pair in metal.pairs.as_slice() {
            tell_as_in_map(told, " ", *pair);
        }
        told.say("\n");
    }
}

/// Tells of the terminals behind the first that no shape of their metals covers either, each in a line.
fn tell_others(told: &mut Telling, file: MapFile<'_>, shapes: &Shapes, first: Known) {
    let mut count: usize = 0;
    for one in shapes.terminals.as_slice() {
        if one.rect.is_some() || one.index == first.index {
            continue;
        }
        if count >= MOST_LINES {
            told.say("  and others\n");
            return;
        }
        tell_off(told, "  nor does one cover ", file, shapes, *one);
        count = count.saturating_add(1);
    }
}

/// Tells of the terminals that no shape of their metals covers, of which this is the first.
pub fn tell_off_metal(
    told: &mut Telling,
    good: &GoodMap<'_>,
    layout: &Layout<'_>,
    library: &Library,
    shapes: &Shapes,
    first: Known,
) {
    let file = good.file();
    told.refuse(REFUSED, 50, first.index as u64);
    layout.tell(told);
    if let Some(near) = nearest_to(shapes, first) {
        tell_off(told, ": no shape of its metal covers ", file, shapes, first);
        told.number(
            "  the nearest shape begins at byte ",
            u64::from(near.offset),
            ": ",
        );
        tell_place_at(told, "", layout.bytes, near.offset, "\n");
        told.say(
            "  move the terminal onto a shape, leave it out, or see whether the metal has the right layers and datatypes\n",
        );
    } else {
        tell_empty(told, good.map.metals.as_slice(), shapes, first.metal);
        tell_pairs_of(told, library.structures.as_slice());
        tell_terminal(told, "  so nothing covers ", file, shapes, first);
        told.say("\n  give the metal the right layers and datatypes, or leave its terminals out\n");
    }
    tell_others(told, file, shapes, first);
}
