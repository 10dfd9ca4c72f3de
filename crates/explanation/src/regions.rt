//! The critical cells of one row of a report: how many there are, where they begin, and how a run writes them.

ghost use Rattle.std.specs.Prelude.{◌≡◌, ◌+◌, All, IfSome, length};
ghost use Rattle.geo_core.specs.Cells.{IsInLayout};
ghost use Rattle.layout_regions.specs.Regions.{IsNumberFor};

use crate::net_starts::of_nets;
use geo_core::Rect;
use input_explanation::{NamedRow, Telling, cut_place, metal_place};
use layout_regions::regions;
use map_model::{Layers, Map, Measure};
use questions::Kind;

/// What is said of the output.
const OUTPUT: &str =
    "    standard output is a GDSII library that has each rectangle as a boundary on layer 1, datatype 0\n";

/// How many cells the rectangles have, which have none in common.
fn cell_count(rects: &[Rect]) -> u64 {
    let mut count = 0u64;
    for rect in rects {
        let columns = rect.x0.abs_diff(rect.x1);
        let rows = rect.y0.abs_diff(rect.y1);
        count = count.saturating_add(u64::from(columns).saturating_mul(u64::from(rows)));
    }
    count
}

/// The first of the rectangles, row by row from below, and of a row the one farthest to the left.
fn first_of(rects: &[Rect]) -> Option<Rect> {
    let mut first: Option<Rect> = None;
    for rect in rects {
        first = match first {
            Some(one) if (one.y0, one.x0) <= (rect.y0, rect.x0) => Some(one),
            _ => Some(*rect),
        };
    }
    first
}

/// Tells the row as the report has it in front of its area.
fn tell_row(told: &mut Telling, row: NamedRow<'_>, measure: Measure, size: u32) {
    told.word("  critical cells that the row `", row.kind_word(), " ");
    told.raw(row.layer);
    told.say(match measure {
        Measure::Radius => " r=",
        Measure::Side => " s=",
    });
    told.number("", u64::from(size), "` of the report counts: ");
}

/// Tells how many cells the rectangles have, how many they are, and where the first of them lies.
fn tell_rects(told: &mut Telling, rects: &[Rect]) {
    let count = rects.len() as u64;
    told.number("", cell_count(rects), " in ");
    told.number(
        "",
        count,
        if count == 1 {
            " rectangle"
        } else {
            " rectangles"
        },
    );
    if let Some(first) = first_of(rects) {
        told.point(
            ", the first of which, row by row from below, is from ",
            first.x0,
            first.y0,
            " to ",
        );
        told.point("", first.x1, first.y1, "");
    }
    told.say("\n");
}

/// Tells what a rectangle is.
fn tell_meaning(told: &mut Telling, kind: Kind, measure: Measure, size: u32) {
    told.say("    a rectangle is where the middle of a defect of ");
    told.say(match measure {
        Measure::Radius => "radius ",
        Measure::Side => "side ",
    });
    told.number("", u64::from(size), " may lie that ");
    told.say(match kind {
        Kind::Short => "makes a short",
        Kind::Open => "makes an open",
        Kind::Via => "blocks a via",
    });
    told.say(", and not where such a defect reaches\n");
}

/// The number of the row's layer as questions have it, if the map has it: that of a cut follows those of the metals.
fn layer_number(map: &Map, row: NamedRow<'_>) -> Option<u32>
    ensures { IfSome result (IsNumberFor row.entry.kind (length map.now.metals) (length map.now.cuts)) }
{
    match row.kind {
        Kind::Short | Kind::Open => Some(metal_place(map, row.layer)? as u32),
        Kind::Via => {
            let place = cut_place(map, row.layer)?;
            Some((map.metals.as_slice().len() + place) as u32)
        }
    }
}

/// Tells the critical cells of the row by what these layers cover.
pub fn tell_regions(told: &mut Telling, map: &Map, layers: &Layers, row: NamedRow<'_>)
    requires one_each { length layers.now.lists.items ≡ length map.now.metals + length map.now.cuts }
    requires within { All (All IsInLayout) layers.now.lists.items }
{
    let Some(number) = layer_number(map, row) else {
        return;
    };
    let place = row.size.saturating_sub(1);
    let sizes = map.sizes.as_slice();
    if place as usize >= sizes.len() {
        return;
    }
    let size = sizes[place as usize];
    let found = regions(told.alloc, map, layers, row.kind, number, place);
    if let Some(rects) = of_nets(told, found) {
        tell_row(told, row, map.measure, size);
        tell_rects(told, rects.as_slice());
        told.say(OUTPUT);
        tell_meaning(told, row.kind, map.measure, size);
    }
}
