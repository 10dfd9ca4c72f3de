//! The nets of the metals, each by its number and the cell with which it begins.

ghost use Rattle.std.specs.Prelude.{◌≡◌, ◌+◌, length};

use area_parts::{Parts, prepare};
use geo_core::Cell;
use input_explanation::Telling;
use map_model::{Layers, Map};
use net_extract::NetFault;
use net_numbers::first_cells;

/// The first cells of the nets of each metal, in the order of their numbers.
#[derive(Drop)]
pub struct NetStarts {
    metals: Vec<Vec<Cell>>,
}

impl NetStarts {
    /// Those of the pieces of each metal.
    fn of(told: &mut Telling, parts: &Parts) -> NetStarts {
        let mut metals = Vec::new(told.alloc);
        for pieces in parts.metals.as_slice() {
            match first_cells(told.alloc, pieces.as_slice()) {
                Ok(cells) => told.keep(&mut metals, cells),
                Err(_) => told.lose(),
            }
        }
        NetStarts { metals }
    }

    /// Tells a net of a metal by its number and its first cell.
    pub fn tell(&self, told: &mut Telling, before: &str, metal: usize, number: usize) {
        told.number(before, number as u64, "");
        if let Some(cells) = self.metals.get(metal)
            && let Some(cell) = cells.get(number)
        {
            told.point(" from ", cell.i, cell.j, " on");
        }
    }
}

/// What was found of nets, if all terminals of the map are on their metals and memory was left. Otherwise the text is not whole
/// if memory was not.
pub fn of_nets<T: Drop>(told: &mut Telling, found: Result<T, NetFault>) -> Option<T> {
    match found {
        Ok(found) => return Some(found),
        Err(NetFault::Memory) => told.lose(),
        Err(_) => {}
    }
    None
}

/// The first cells of the nets of what these layers cover, where all terminals of the map are on their metals.
pub fn net_starts(told: &mut Telling, map: &Map, layers: &Layers) -> Option<NetStarts>
    requires { length layers.now.lists.items ≡ length map.now.metals + length map.now.cuts }
{
    let found = prepare(told.alloc, map, layers);
    match of_nets(told, found) {
        Some(parts) => Some(NetStarts::of(told, &parts)),
        None => None,
    }
}
