//! A map that is good, with what its file says.

ghost use Rattle.std.specs.Prelude.{◌<◌, IfSome, length};

use crate::maps::lines::{Sought, line_of};
use crate::telling::Telling;
use layer_map::{ItemKind, Place};
use map_model::{Cut, Map, Measure, Metal};

/// A map that is good.
#[derive(Drop)]
pub struct GoodMap<'a> {
    pub map: Map,
    /// The name of its file, and nothing where it comes from none.
    pub name: &'a [u8],
    /// What the file contains.
    pub bytes: Vec<u8>,
}

impl GoodMap<'_> {
    /// Its file.
    pub(crate) fn file(&self) -> MapFile<'_> {
        MapFile {
            name: self.name,
            bytes: self.bytes.as_slice(),
            measure: self.map.measure,
        }
    }
}

/// The file of a map that is good.
#[derive(Clone, Copy)]
pub struct MapFile<'a> {
    pub name: &'a [u8],
    pub bytes: &'a [u8],
    /// What measures the sizes of the map.
    pub measure: Measure,
}

impl MapFile<'_> {
    /// Tells in which line the terminal of this number stands, where that is known.
    pub fn tell_line(self, told: &mut Telling, index: usize) {
        let sought = Sought {
            place: Place::Item(ItemKind::Terminal, index),
            is_unknown_key: false,
            measure: self.measure,
        };
        if let Some(line) = line_of(told.alloc, self.bytes, sought) {
            line.tell(told, ", ", " of map ");
            told.name("", self.name, "");
        }
    }
}

/// The place among the map's metals of the one with this name.
pub fn metal_place(map: &Map, name: &[u8]) -> Option<usize>
    ensures { IfSome result (λ place. place < length map.now.metals) }
{
    let metals = map.metals.as_slice();
    for place in 0..metals.len() {
        if metals[place].name.as_slice() == name {
            return Some(place);
        }
    }
    None
}

/// The place among the map's cuts of the one with this name.
pub fn cut_place(map: &Map, name: &[u8]) -> Option<usize>
    ensures { IfSome result (λ place. place < length map.now.cuts) }
{
    let cuts = map.cuts.as_slice();
    for place in 0..cuts.len() {
        if cuts[place].name.as_slice() == name {
            return Some(place);
        }
    }
    None
}

/// Tells the names of metals, in a line.
pub fn tell_metal_names(told: &mut Telling, metals: &[Metal]) {
    told.say("  metals:");
    for metal in metals {
        told.name(" ", metal.name.as_slice(), "");
    }
    told.say("\n");
}

/// Tells the names of cuts, in a line.
pub fn tell_cut_names(told: &mut Telling, cuts: &[Cut]) {
    told.say("  cuts:");
    for cut in cuts {
        told.name(" ", cut.name.as_slice(), "");
    }
    told.say(if cuts.is_empty() { " none\n" } else { "\n" });
}
