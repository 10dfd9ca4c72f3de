//! The nets that are nearest to a cell, where they begin, and which defects at the cell make a short.

ghost use Rattle.std.specs.Prelude.{◌≡◌, ◌+◌, All, length};
ghost use Rattle.geo_core.specs.Cells.{IsInLayout};

use crate::net_starts::{NetStarts, net_starts, of_nets};
use geo_core::Cell;
use input_explanation::{Telling, tell_numbers};
use layout_probe::{MetalNear, probe};
use map_model::{Layers, Map, Measure};
use near_index::Near;

/// Tells which cell is asked for, and where a viewer shows it.
fn tell_cell(told: &mut Telling, cell: Cell) {
    let Cell { i, j } = cell;
    told.point(
        "  nets nearest to the cell ",
        i,
        j,
        ", which a viewer shows",
    );
    told.point(" from ", i, j, " to ");
    told.point(
        "",
        i.saturating_add(1),
        j.saturating_add(1),
        ": a point is in the cell of its coordinates in database units, each rounded down\n",
    );
}

/// Tells a net and how far away it is.
fn tell_near(told: &mut Telling, before: &str, starts: &NetStarts, metal: usize, near: Near) {
    starts.tell(told, before, metal, near.label);
    told.number(" is ", u64::from(near.distance), " away");
}

/// Tells from which size on a defect makes a short where the second net is so far away, and which sizes of the map do.
fn tell_shorts(told: &mut Telling, measure: Measure, sizes: &[u32], distance: u32) {
    let distance = u64::from(distance);
    // a defect of an odd side makes the shorts of the next lesser even one
    let (least, radius, radii) = match measure {
        Measure::Radius => (distance, "radius", "radii"),
        Measure::Side => (distance.saturating_mul(2), "side", "sides"),
    };
    told.word(
        "      a defect at this cell makes a short there exactly where its ",
        radius,
        "",
    );
    told.number(" is at least ", least, "; of the map's ");
    told.say(radii);
    let first = sizes.partition_point(|size| u64::from(*size) < least);
    match sizes.get(first..) {
        None | Some([]) => told.say(" none does"),
        Some(rest) => tell_numbers(told, " these do: ", rest),
    }
    told.say("\n");
}

/// Tells the nearest two nets of the metal of this number; how far away the second one is.
fn tell_nearest(
    told: &mut Telling,
    starts: &NetStarts,
    metal: usize,
    near: &MetalNear,
) -> Option<u32> {
    told.name("    metal ", near.layer.as_slice(), "");
    let Some(first) = near.nearest.first else {
        told.say(": no net\n");
        return None;
    };
    tell_near(told, ": net ", starts, metal, first);
    let Some(second) = near.nearest.second else {
        told.say(", and there is no other, so no defect makes a short there\n");
        return None;
    };
    tell_near(told, ", and net ", starts, metal, second);
    told.say("\n");
    Some(second.distance)
}

/// Tells the nearest two nets of each metal, and which defects make a short there.
fn tell_metals(told: &mut Telling, map: &Map, starts: &NetStarts, metals: &[MetalNear]) {
    let sizes = map.sizes.as_slice();
    for (metal, near) in metals.iter().enumerate() {
        if let Some(distance) = tell_nearest(told, starts, metal, near) {
            tell_shorts(told, map.measure, sizes, distance);
        }
    }
}

/// Tells for each metal the nearest two nets of what these layers cover.
pub fn tell_nearest_nets(told: &mut Telling, map: &Map, layers: &Layers, cell: Cell)
    requires one_each { length layers.now.lists.items ≡ length map.now.metals + length map.now.cuts }
    requires within { All (All IsInLayout) layers.now.lists.items }
{
    let found = probe(told.alloc, map, layers, cell);
    if let Some(metals) = of_nets(told, found)
        && let Some(starts) = net_starts(told, map, layers)
    {
        tell_cell(told, cell);
        tell_metals(told, map, &starts, metals.as_slice());
    }
}
