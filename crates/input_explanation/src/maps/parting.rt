//! The terminals of a map that has too many, by their islands, so that one can part them.

ghost use Rattle.std.specs.Prelude.{◌≤◌, ◌<◌, ◌^◌, length, All};
ghost use Rattle.lists.specs.Differing.{AreDifferent};
ghost use Rattle.library_model.specs.Names.{names_of};
ghost use Rattle.library_model.specs.Points.{AreWellPointed};
ghost use Rattle.input_explanation.specs.declared.inputs.TheConstants.{LONGEST_LAYOUT};

use crate::layouts::metal_islands::{metal_islands, tell_all_carried};
use crate::layouts::shapes::placed_shapes;
use crate::layouts::terminals::Known;
use crate::maps::faults::terminal_of;
use crate::maps::good_map::metal_place;
use crate::telling::Telling;
use flatten::PlaceFault;
use gds_syntax::{SyntaxFault, read_library};
use geo_core::Cell;
use layer_map::{MapFault, read_map};
use library_model::Library;
use map_model::Map;
use map_model::limits::MOST_TERMINALS;
use toml::{Table, Value};

/// A map without its terminals, and these.
#[derive(Drop)]
pub struct Parted {
    map: Map,
    terminals: Vec<Known>,
}

/// The terminal of this number, where it is one of the map.
fn known_of(map: &Map, index: usize, item: &Value) -> Option<Known> {
    let (name, x, y) = terminal_of(item)?;
    match (
        metal_place(map, name.as_bytes()),
        i32::try_from(x),
        i32::try_from(y),
    ) {
        (Some(metal), Ok(i), Ok(j)) => Some(Known {
            index,
            metal,
            cell: Cell { i, j },
            rect: None,
        }),
        _ => None,
    }
}

/// The terminals of the map that these values are.
fn all_known(told: &mut Telling, map: &Map, items: &[Value]) -> Vec<Known> {
    let mut known = Vec::new(told.alloc);
    for (index, item) in items.iter().enumerate() {
        if let Some(one) = known_of(map, index, item) {
            told.keep(&mut known, one);
        }
    }
    known
}

/// The map that this document is without the terminals that it had, where it is one, and these.
fn without_terminals(told: &mut Telling, document: &Table, items: &[Value]) -> Option<Parted> {
    let Ok(text) = toml::table_to_string(told.alloc, document) else {
        return None;
    };
    match read_map(told.alloc, text.as_str().as_bytes()) {
        Ok(map) => {
            let terminals = all_known(told, &map, items);
            Some(Parted { map, terminals })
        }
        Err(MapFault::Memory) => {
            told.lose();
            None
        }
        Err(_) => None,
    }
}

/// The map that the bytes say without its terminals, where it has too many and is good but for them.
pub fn parted_of(told: &mut Telling, bytes: &[u8]) -> Option<Parted> {
    let Ok(mut document) = toml::table_from_slice(told.alloc, bytes) else {
        return None;
    };
    let Some(Value::Array(items)) = document.remove("terminal") else {
        return None;
    };
    if items.len() <= MOST_TERMINALS {
        return None;
    }
    without_terminals(told, &document, items.as_slice())
}

/// Tells the terminals by their islands, where the layout is good.
fn tell_islands(told: &mut Telling, parted: &Parted, library: &Library, top: Option<&[u8]>)
    requires differ { AreDifferent (names_of library.now.structures) }
    requires few_structures { length library.now.structures < 2 ^ 32 }
    requires few_elements { All (λ structure. length structure.elements < 2 ^ 32) library.now.structures }
    requires pointed { AreWellPointed library.now.structures }
{
    let map = &parted.map;
    match placed_shapes(told, map, library, top, parted.terminals.as_slice()) {
        Ok(shapes) => {
            let islands = metal_islands(told, map, &shapes);
            tell_all_carried(told, islands.as_slice());
        }
        Err(PlaceFault::Memory) => told.lose(),
        Err(_) => {}
    }
}

/// Tells the terminals by their islands, where these bytes are a layout that is good.
pub fn tell_parted(told: &mut Telling, parted: &Parted, bytes: &[u8], top: Option<&[u8]>)
    requires { length bytes.now ≤ LONGEST_LAYOUT }
{
    match read_library(told.alloc, bytes) {
        Ok(library) => tell_islands(told, parted, &library, top),
        Err(SyntaxFault::Memory) => told.lose(),
        Err(_) => {}
    }
}
