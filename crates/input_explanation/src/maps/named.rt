//! What a task names of a map: a size by its number, and a row of the report.

use crate::maps::faults::{place_of, tell_where};
use crate::maps::good_map::{
    GoodMap, MapFile, cut_place, metal_place, tell_cut_names, tell_metal_names,
};
use crate::maps::lines::Sought;
use crate::remedies::remedy_of;
use crate::telling::Telling;
use crate::words::inquiry::Inquiry;
use questions::Kind;

/// The status of a run that refuses a map.
const REFUSED: u8 = 3;

/// The number of a map that has no size of the number that is named.
const NO_SUCH_SIZE: u8 = 48;

/// The number of a map that has no layer of the kind and the name that are given.
const NO_SUCH_LAYER: u8 = 49;

/// The path of a map's sizes.
const SIZES: u64 = 3;

/// A row of a report.
#[derive(Clone, Copy)]
pub struct NamedRow<'a> {
    /// The kind of fault.
    pub kind: Kind,
    /// The name of the metal, or for via blocks of the cut.
    pub layer: &'a [u8],
    /// The number of the size among those of the map, counted from 1.
    pub size: u32,
}

impl NamedRow<'_> {
    /// The word for the kind of fault.
    pub fn kind_word(self) -> &'static str {
        match self.kind {
            Kind::Short => "short",
            Kind::Open => "open",
            Kind::Via => "via",
        }
    }

    /// Tells the option that names it.
    pub fn tell_option(self, told: &mut Telling) {
        told.word("`--regions ", self.kind_word(), ",");
        told.raw(self.layer);
        told.number(",", u64::from(self.size), "`");
    }

    /// Tells that the map has no layer for it where that is so, and the names of those that it has; whether it has one.
    fn has_layer(self, told: &mut Telling, good: &GoodMap<'_>) -> bool {
        let is_metal = metal_place(&good.map, self.layer).is_some();
        let is_cut = cut_place(&good.map, self.layer).is_some();
        let (is_there, asks, beside) = match self.kind {
            Kind::Short | Kind::Open => (
                is_metal,
                " asks for a metal, and none has the name ",
                ", which is that of a cut",
            ),
            Kind::Via => (
                is_cut,
                " asks for a cut, and none has the name ",
                ", which is that of a metal",
            ),
        };
        if is_there {
            return true;
        }
        told.refuse(REFUSED, NO_SUCH_LAYER, 0);
        told.name("map ", good.name, ": ");
        self.tell_option(told);
        told.name(
            asks,
            self.layer,
            if is_metal || is_cut { beside } else { "" },
        );
        told.word("; ", remedy_of(REFUSED, NO_SUCH_LAYER).remedy, "\n");
        match self.kind {
            Kind::Short | Kind::Open => tell_metal_names(told, good.map.metals.as_slice()),
            Kind::Via => tell_cut_names(told, good.map.cuts.as_slice()),
        }
        false
    }
}

/// Tells how many sizes there are.
pub fn tell_size_count(told: &mut Telling, count: u64) {
    told.number("", count, if count == 1 { " size" } else { " sizes" });
}

/// Tells numbers after some words, in one line.
pub fn tell_numbers(told: &mut Telling, before: &str, numbers: &[u32]) {
    let mut before = before;
    for number in numbers {
        told.number(before, u64::from(*number), "");
        before = ", ";
    }
}

/// Tells that the map has no size of the number that is asked for.
fn tell_missing(told: &mut Telling, file: MapFile<'_>, sizes: &[u32], inquiry: Inquiry<'_>) {
    told.refuse(REFUSED, NO_SUCH_SIZE, sizes.len() as u64);
    let sought = Sought {
        place: place_of(SIZES, file.measure),
        is_unknown_key: false,
        measure: file.measure,
    };
    tell_where(told, file.name, file.bytes, None, sought);
    inquiry.tell_option(told);
    let size = u64::from(inquiry.size());
    told.number(" names size ", size, ", but the map lists ");
    tell_size_count(told, sizes.len() as u64);
    tell_numbers(told, ": ", sizes);
    told.word("; ", remedy_of(REFUSED, NO_SUCH_SIZE).remedy, "\n");
}

/// Whether the map has the size and the layer that are asked for. Otherwise it is told which one it lacks.
pub fn has_what_is_named(told: &mut Telling, good: &GoodMap<'_>, inquiry: Inquiry<'_>) -> bool {
    let sizes = good.map.sizes.as_slice();
    if inquiry.size() as usize > sizes.len() {
        tell_missing(told, good.file(), sizes, inquiry);
        return false;
    }
    match inquiry {
        Inquiry::Regions(row) => row.has_layer(told, good),
        Inquiry::Report | Inquiry::Pairs(_) | Inquiry::Probe(_) => true,
    }
}
