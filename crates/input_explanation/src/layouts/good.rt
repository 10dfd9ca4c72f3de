//! What is told of a good layout: first what makes areas of 0 that say nothing, and then what the layout has.

ghost use Rattle.std.specs.Prelude.{◌<◌, ◌^◌, length};
ghost use Rattle.lists.specs.Differing.{AreDifferent};
ghost use Rattle.library_model.specs.Names.{names_of};

use crate::layouts::faults::Layout;
use crate::layouts::graph::name_of;
use crate::layouts::metal_islands::{MetalIslands, metal_islands, tell_all_carried};
use crate::layouts::pairs::{bounds_of, tell_bounds, tell_pairs_of};
use crate::layouts::shapes::{Held, Shapes};
use crate::layouts::structures::found_tops;
use crate::telling::Telling;
use byteorder::{BigEndian, ByteOrder};
use library_model::{Library, Structure};
use map_model::Map;

/// Tells the layers without shapes, and on which pairs the layout has some.
fn tell_empty_layers(told: &mut Telling, structures: &[Structure], layers: &[Held]) {
    let mut is_some_empty = false;
    for held in layers {
        if held.shapes == 0 {
            is_some_empty = true;
            held.tell_layer(told, "  ");
            told.say(
                ": no shapes, so its areas are 0; are its layers and datatypes those of the layout?\n",
            );
        }
    }
    if is_some_empty {
        tell_pairs_of(told, structures);
    }
}

/// Tells of a metal on whose islands the map names few terminals whether via clusters are terminals, and else that it has no
/// opens, and why: no island of it has two terminals.
fn tell_few_terminals(told: &mut Telling, islands: &MetalIslands<'_>, contacts: bool) {
    islands.held.tell_layer(told, "  ");
    if contacts && islands.is_joined {
        told.say(
            ": each via cluster is a terminal of both its metals; islands with two terminals or more have opens\n",
        );
        return;
    }
    told.say(if islands.with_one > 0 {
        ": no island with two terminals"
    } else {
        ": no terminals"
    });
    if contacts {
        told.say(", nor a cut whose via clusters are terminals");
    }
    told.say(", so its opens are 0, which says nothing of its wires");
    if islands.is_joined {
        told.say(
            "; `contacts = true`, in a map of version 2, makes each via cluster a terminal, and needs no list",
        );
    }
    told.say("\n");
}

/// Tells the metals with shapes on which no island has two terminals that the map names, and whether they have opens.
fn tell_opens(told: &mut Telling, all: &[MetalIslands<'_>], contacts: bool) {
    for islands in all {
        if islands.held.shapes > 0 && islands.with_more == 0 {
            tell_few_terminals(told, islands, contacts);
        }
    }
}

/// Tells what is placed on the layers, and what it covers.
fn tell_covered(told: &mut Telling, layers: &[Held]) {
    for held in layers {
        if held.shapes > 0 {
            held.tell_counts(told);
            match bounds_of(held.rects.as_slice()) {
                Some(bounds) => tell_bounds(told, ", from ", bounds),
                None => told.say(", which cover nothing"),
            }
            told.say("\n");
        }
    }
}

/// Tells how many islands the metals with shapes have, and how many of them have terminals that the map names.
fn tell_island_counts(told: &mut Telling, all: &[MetalIslands<'_>], contacts: bool) {
    for islands in all {
        if islands.held.shapes == 0 {
            continue;
        }
        let carrying = islands.with_one.saturating_add(islands.with_more);
        islands.held.tell_layer(told, "  ");
        let bare = islands.count.saturating_sub(carrying);
        told.numbers(
            ": {} islands: {} with no terminal, {} with one, {} with more",
            &[islands.count, bare, islands.with_one, islands.with_more],
        );
        if contacts && islands.is_joined {
            told.say(
                ", by the terminals that the map names; via clusters, which are terminals too, are not counted",
            );
        }
        told.say("\n");
    }
}

/// Tells the name of the top, as the end of a line.
fn tell_top(told: &mut Telling, layout: &Layout<'_>, library: &Library)
    requires differ { AreDifferent (names_of library.now.structures) }
    requires few { length library.now.structures < 2 ^ 32 }
{
    if let Some(top) = layout.top {
        told.name(", top ", top, "\n");
        return;
    }
    let tops = found_tops(told, library);
    match tops.first() {
        Some(top) => told.name(
            ", top ",
            name_of(library.structures.as_slice(), *top as usize),
            "\n",
        ),
        None => told.say("\n"),
    }
}

/// Tells of the library: its name, its database unit and how many structures it has.
pub fn tell_library(told: &mut Telling, library: &Library) {
    told.name("  library ", library.name.as_slice(), ", ");
    tell_unit(told, library.units);
    let count = library.structures.as_slice().len();
    told.number(", ", count as u64, " structures");
}

/// Tells of a layout that is good.
pub fn tell_good(
    told: &mut Telling,
    map: &Map,
    layout: &Layout<'_>,
    library: &Library,
    shapes: &Shapes,
)
    requires differ { AreDifferent (names_of library.now.structures) }
    requires few { length library.now.structures < 2 ^ 32 }
{
    let layers = shapes.held.as_slice();
    let islands = metal_islands(told, map, shapes);
    layout.tell(told);
    told.word(
        ": nothing is wrong, and the run gives its ",
        layout.outcome,
        "",
    );
    tell_empty_layers(told, library.structures.as_slice(), layers);
    tell_opens(told, islands.as_slice(), map.contacts);
    tell_library(told, library);
    tell_top(told, layout, library);
    tell_covered(told, layers);
    tell_island_counts(told, islands.as_slice(), map.contacts);
    if !map.terminals.as_slice().is_empty() {
        tell_all_carried(told, islands.as_slice());
    }
}

/// So many millionths of a nanometre are a metre.
const METRE: u128 = 1_000_000_000_000_000;

/// The database unit in millionths of a nanometre, from the body of UNITS. None where it is below 0 or a metre and more.
///
/// The second of the two reals there has it in metres: a sign of one bit, seven bits of an exponent of 16, from which 64 are
/// taken, and a fraction of 56 bits (GDSII Stream Format Manual, Release 6.0, eight-byte reals).
fn unit_of(units: [u8; 16]) -> Option<u64> {
    let real = BigEndian::read_u64(&units[8..]);
    let lower = 64u32.checked_sub((real >> 56) as u32)?;
    let length = u128::from(real % (1 << 56)) * METRE;
    let length = length.checked_shr(4 * lower).unwrap_or(0);
    u64::try_from(length.saturating_add(1 << 55) >> 56).ok()
}

/// Tells the length of the database unit, with as many digits as it takes.
fn tell_unit(told: &mut Telling, units: [u8; 16]) {
    let Some(unit) = unit_of(units) else {
        told.say("a database unit that is no length below a metre");
        return;
    };
    told.number("a database unit of ", unit / 1_000_000, "");
    let mut rest = unit % 1_000_000;
    if rest > 0 {
        told.say(".");
    }
    for _ in 0..6 {
        if rest > 0 {
            told.number("", rest / 100_000, "");
        }
        rest = (rest % 100_000) * 10;
    }
    told.say(" nm");
}
