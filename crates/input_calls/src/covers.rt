//! What placed shapes cover.

ghost use Rattle.std.specs.Prelude.{All, length, ◌<◌, ◌^◌};
ghost use Rattle.lists.specs.Differing.{AreDifferent};
ghost use Rattle.library_model.specs.Names.{names_of};
ghost use Rattle.library_model.specs.Points.{AreWellPointed};

use crate::layouts::{read, stream};
use crate::texts::expect_fault;
use flatten::place;
use gds_syntax::Library;
use geo_core::{Rect, RectList};
use map_model::{Map, one_metal};
use rect_cover::{CoverFault, cover_all};
use row_tables::{Case, Text};
use std::alloc::Global;
use std::thread::Threads;

/// The covers of the shapes that the library's top places by this map.
fn covers_of(
    rt: &(impl Threads + Sync),
    alloc: Global,
    library: &Library,
    map: &Map,
) -> Result<Vec<RectList>, CoverFault>
    requires differ { AreDifferent (names_of library.now.structures) }
    requires pointed { AreWellPointed library.now.structures }
    requires few_structures { length library.now.structures < 2 ^ 32 }
    requires few_elements { All (λ structure. length structure.elements < 2 ^ 32) library.now.structures }
{
    match place(alloc, library, map, None) {
        Ok(placed) => cover_all(rt, alloc, library, placed.as_slice()),
        Err(_) => Err(CoverFault::Memory),
    }
}

/// `[[cover]]` and `[[covers]]`: the shapes' covers, of which there are so many as `shapes` says, or one. In a row `cover` each covers
/// just the `cells` of these rectangles, and in a row `covers` those of the rectangle at its place among them, within the `window` or
/// from -20 to 40. It has so many rectangles as `count` says. Or the covers `give` the number and the place of a fault.
pub fn covers(rt: &(impl Threads + Sync), case: &mut Case<'_>) {
    let Ok(library) = read(case.alloc, stream(case).as_slice()) else {
        return case.note("stream", "not a library");
    };
    let Ok(map) = one_metal(case.alloc, 1, 0, 1) else {
        return case.no_memory();
    };
    match covers_of(rt, case.alloc, &library, &map) {
        Ok(lists) => expect_covers(case, lists.as_slice()),
        Err(fault) => expect_fault(case, fault.number(), fault.place()),
    }
}

/// Compares each of the covers, and how many there are.
fn expect_covers(case: &mut Case<'_>, lists: &[RectList]) {
    let mut shapes = Text::new(case.alloc);
    shapes.print(lists.len());
    case.expect_or("shapes", "1", shapes.shown());
    let window = if case.has("window") {
        case.rect("window")
    } else {
        Rect::new(-20, -20, 40, 40)
    };
    let cells = case.rects("cells");
    for (place, list) in lists.iter().enumerate() {
        case.expect_if_wanted("count", list.as_slice().len());
        let mut wanted = Text::new(case.alloc);
        match cells.as_slice().get(place) {
            Some(rect) if case.kind == "covers" => draw(&mut wanted, &[*rect], window),
            _ => draw(&mut wanted, cells.as_slice(), window),
        }
        let mut came = Text::new(case.alloc);
        draw(&mut came, list.as_slice(), window);
        case.compare("cells", wanted.shown(), came.shown());
    }
}

/// Appends a picture of the window, with `#` at each cell that the rectangles cover. The lowest row comes first.
fn draw(text: &mut Text, rects: &[Rect], window: Rect) {
    for j in window.y0..window.y1 {
        for i in window.x0..window.x1 {
            text.say(if has(rects, i, j) { "#" } else { "." });
        }
        text.say("\n");
    }
}

/// Whether one of the rectangles has the cell in this column and row.
fn has(rects: &[Rect], i: i32, j: i32) -> bool {
    for rect in rects {
        if rect.x0 <= i && i < rect.x1 && rect.y0 <= j && j < rect.y1 {
            return true;
        }
    }
    false
}
