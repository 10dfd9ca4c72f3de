//! The pairs of nets with the greatest areas, and where their nets begin.

ghost use Rattle.std.specs.Prelude.{◌≡◌, ◌+◌, All, length};
ghost use Rattle.geo_core.specs.Cells.{IsInLayout};

use crate::net_starts::{NetStarts, net_starts, of_nets};
use input_explanation::Telling;
use layout_pairs::pair_tables;
use map_model::{LayerName, Layers, Map, Measure};
use pair_report::{MetalPairs, PairTables};

/// The most pairs that are told, each in a line.
const MOST_PAIRS: usize = 10;

/// Two nets of a metal, with its number and its name, by their numbers, and their area.
#[derive(Clone, Copy)]
struct Worst {
    metal: usize,
    name: LayerName,
    first: usize,
    second: usize,
    area: u64,
}

/// Keeps a pair among the worst, which are in order, if it is one of them. Of pairs with the same area the earlier is the worse.
fn keep(told: &mut Telling, worst: &mut Vec<Worst>, pair: Worst) {
    match worst.get(MOST_PAIRS - 1) {
        Some(least) if least.area >= pair.area => return,
        _ => told.keep(worst, pair),
    }
    worst.sort_unstable_by_key(|one| (u64::MAX - one.area, one.metal, one.first, one.second));
    worst.truncate(MOST_PAIRS);
}

/// Keeps the worst of a metal's pairs.
fn keep_of_metal(told: &mut Telling, worst: &mut Vec<Worst>, metal: usize, pairs: &MetalPairs) {
    for (first, second, area) in pairs.pairs.as_slice() {
        let pair = Worst {
            metal,
            name: pairs.layer,
            first: *first,
            second: *second,
            area: *area,
        };
        keep(told, worst, pair);
    }
}

/// The worst of all pairs, the worst first.
fn worst_of(told: &mut Telling, tables: &PairTables) -> Vec<Worst> {
    let mut worst = Vec::new(told.alloc);
    for (metal, pairs) in tables.metals.as_slice().iter().enumerate() {
        keep_of_metal(told, &mut worst, metal, pairs);
    }
    worst
}

/// Tells the worst pairs, each with the first cells of its nets.
fn tell_worst(told: &mut Telling, tables: &PairTables, starts: &NetStarts) {
    let before = match tables.measure {
        Measure::Radius => "  pairs of nets for the radius ",
        Measure::Side => "  pairs of nets for the side ",
    };
    told.number(before, u64::from(tables.size), ":");
    let worst = worst_of(told, tables);
    if worst.is_empty() {
        told.say(" none\n");
        return;
    }
    told.say(" the greatest areas, and the first cell of each net, row by row from below\n");
    for one in worst.as_slice() {
        told.name("    metal ", one.name.as_slice(), "");
        told.number(" area ", one.area, ": ");
        starts.tell(told, "net ", one.metal, one.first);
        starts.tell(told, " and net ", one.metal, one.second);
        told.say("\n");
    }
}

/// Tells the worst pairs of what these layers cover, for the map's size at this place.
pub fn tell_worst_pairs(told: &mut Telling, map: &Map, layers: &Layers, place: u32)
    requires one_each { length layers.now.lists.items ≡ length map.now.metals + length map.now.cuts }
    requires within { All (All IsInLayout) layers.now.lists.items }
{
    if place as usize >= map.sizes.as_slice().len() {
        return;
    }
    let found = pair_tables(told.alloc, map, layers, place);
    if let Some(tables) = of_nets(told, found)
        && let Some(starts) = net_starts(told, map, layers)
    {
        tell_worst(told, &tables, &starts);
    }
}
