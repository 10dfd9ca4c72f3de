//! Areas of unions, of boxes and of shorts.

ghost use Rattle.std.specs.Prelude.{◌≡◌, ◌<◌};

use crate::cells::count_all;
use crate::labelled::pieces;
use depth_sweep::{area_once, area_twice};
use geo_core::Steps;
use row_tables::Case;
use short_area::short_area;
use std::marker::Brand;
use std::sync::ledger::{Blank, Ledger};
use union_area::{union_area, union_rects};
use via_clusters::via_area;

/// How many cells of the window lie in a rectangle, counted and as rectangles without common cells.
pub fn union(case: &mut Case<'_>) {
    let window = case.rect("window");
    let rects = case.rects("rects");
    case.expect_done("area", union_area(case.alloc, rects.as_slice(), window));
    let found = case.list(union_rects(case.alloc, rects.as_slice(), window));
    case.expect("area", count_all(found.as_slice()));
}

/// How many cells of the window lie in one of the rectangles at least, and in two, by a count of steps of its own.
fn sweep<L: Ledger>(case: &mut Case<'_>, blank: Blank)
    requires name { blank.name ≡ L.name }
    requires parts { blank.parts ≡ L.parts }
    requires some { 0 < blank.parts }
{
    let window = case.rect("window");
    let rects = case.rects("rects");
    let mut steps = Steps::<L>::start(blank);
    case.expect_done(
        "once",
        area_once(case.alloc, rects.as_slice(), window, &mut steps),
    );
    case.expect_done(
        "twice",
        area_twice(case.alloc, rects.as_slice(), window, &mut steps),
    );
}

/// How many cells of the window lie in one of the rectangles at least, and in two.
pub fn sweeps(case: &mut Case<'_>) {
    sweep::<Brand>(case, Blank::new(1));
}

/// From how many cells of the window a defect covers one of the boxes.
pub fn vias(case: &mut Case<'_>) {
    let window = case.rect("window");
    let radius = case.radius();
    let boxes = case.rects("boxes");
    case.expect_done(
        "area",
        via_area(case.alloc, boxes.as_slice(), window, radius),
    );
}

/// From how many cells of the window a defect of each radius touches pieces of two labels.
pub fn shorts(case: &mut Case<'_>) {
    let window = case.rect("window");
    let pieces = pieces(case);
    let mut areas = Vec::new(case.alloc);
    for radius in case.numbers::<u32>("radii").as_slice() {
        if *radius > 0 && *radius <= 1_000_000 {
            let area = short_area(case.alloc, pieces.as_slice(), window, *radius);
            let area = case.done(area, 0);
            case.push(&mut areas, area);
        }
    }
    case.expect_list("areas", areas.as_slice());
}
