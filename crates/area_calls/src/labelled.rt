//! Pieces with labels: areas by pairs of labels, the two labels that are nearest to a cell, and numbers by first cells.

use crate::cells::distance;
use geo_core::{Cell, Labelled};
use near_index::{Near, NearIndex, Nearest};
use net_numbers::{first_cells, numbered};
use net_pairs::pair_areas;
use row_tables::{Case, rect_of};

/// The label that a row writes so: a number below 0 is counted back from the greatest label, which is -1.
fn label_of(number: i32) -> usize {
    if number < 0 {
        usize::MAX - (-1 - i64::from(number)) as usize
    } else {
        number as usize
    }
}

/// How a row writes the label.
fn number_of(label: usize) -> i64 {
    match i64::try_from(label) {
        Ok(number) => number,
        Err(_) => -1 - (usize::MAX - label) as i64,
    }
}

/// The piece with these numbers: its label and its sides.
fn piece_of(numbers: &[i32]) -> Option<Labelled> {
    let (label, sides) = numbers.split_first()?;
    let rect = rect_of(sides)?;
    let label = label_of(*label);
    Some(Labelled { rect, label })
}

/// The pieces of a row, or those of the shared table that it names, each as its label and its sides.
pub fn pieces(case: &mut Case<'_>) -> Vec<Labelled> {
    case.share("pieces_of");
    let mut pieces = Vec::new(case.alloc);
    for numbers in case.flat("pieces", 5).as_slice().chunks(5) {
        match piece_of(numbers) {
            Some(piece) => case.push(&mut pieces, piece),
            None => case.note("pieces", "not labels and rectangles"),
        }
    }
    pieces
}

/// Compares the areas one by one, or how many there are and their sum.
fn expect_areas(case: &mut Case<'_>, areas: &[(usize, usize, u64)]) {
    let mut lists = Vec::new(case.alloc);
    let mut sum: i64 = 0;
    for (one, other, cells) in areas {
        let cells = i64::try_from(*cells).unwrap_or(i64::MAX);
        sum = sum.saturating_add(cells);
        case.push(&mut lists, [number_of(*one), number_of(*other), cells]);
    }
    if case.has("sum") {
        case.expect("count", areas.len());
        case.expect("sum", sum);
    } else {
        case.expect_list("areas", lists.as_slice());
    }
}

/// For each two labels that a defect touches at some cells of the window, the lesser one, the greater one and the number of cells.
pub fn pair_list(case: &mut Case<'_>) {
    let window = case.rect("window");
    let radius = case.radius();
    let pieces = pieces(case);
    let areas = pair_areas(case.alloc, pieces.as_slice(), window, radius);
    let areas = case.list(areas);
    expect_areas(case, areas.as_slice());
}

/// Compares what is near: its distance and its label, if there is something.
fn expect_near<'a>(case: &mut Case<'a>, key: &'a str, near: Option<Near>) {
    match near {
        Some(near) => case.expect_list(key, &[i64::from(near.distance), number_of(near.label)]),
        None => case.expect_text(key, "[]"),
    }
}

/// The distances and the labels of the two labels that are nearest to the cell, which an index of the pieces finds.
pub fn nearest(case: &mut Case<'_>) {
    let cell = case.cell("cell");
    let pieces = pieces(case);
    let Ok(index) = NearIndex::new(case.alloc, pieces.as_slice()) else {
        return case.no_memory();
    };
    match index.two_nearest(cell) {
        Ok(nearest) => {
            expect_near(case, "first", nearest.first);
            expect_near(case, "second", nearest.second);
        }
        Err(_) => case.no_memory(),
    }
}

/// Whether a label at this distance comes before what is nearest so far: it is nearer, or as near and less.
fn comes_before(distance: u32, label: usize, nearest: Option<Near>) -> bool {
    match nearest {
        Some(near) => {
            distance < near.distance || distance == near.distance && label < near.label
        }
        None => true,
    }
}

/// The nearest of all labels but this one, by a look at each piece.
fn nearest_but(pieces: &[Labelled], cell: Cell, except: Option<usize>) -> Option<Near> {
    let mut nearest = None;
    for piece in pieces {
        let label = piece.label;
        let distance = distance(piece.rect, cell);
        if except != Some(label) && comes_before(distance, label, nearest) {
            nearest = Some(Near { distance, label });
        }
    }
    nearest
}

/// The two labels that are nearest to the cell, by a look at each piece.
pub fn nearest_by_looks(pieces: &[Labelled], cell: Cell) -> Nearest {
    let first = nearest_but(pieces, cell, None);
    let second = match first {
        Some(near) => nearest_but(pieces, cell, Some(near.label)),
        None => None,
    };
    Nearest { first, second }
}

/// Whether an index of the pieces finds the two that are nearest to each of the cells, which are two numbers each.
fn agrees_at_all(index: &NearIndex<Labelled>, pieces: &[Labelled], cells: &[i32]) -> bool {
    for cell in cells.chunks(2) {
        let [i, j] = cell else {
            return false;
        };
        let cell = Cell { i: *i, j: *j };
        match index.two_nearest(cell) {
            Ok(nearest) if nearest == nearest_by_looks(pieces, cell) => {}
            _ => return false,
        }
    }
    true
}

/// The two labels that are nearest to each of many cells.
pub fn nearest_at(case: &mut Case<'_>) {
    let pieces = pieces(case);
    case.share("cells_of");
    let cells = case.flat("cells", 2);
    match NearIndex::new(case.alloc, pieces.as_slice()) {
        Ok(index) => {
            let agree = agrees_at_all(&index, pieces.as_slice(), cells.as_slice());
            case.expect("agree", agree);
        }
        Err(_) => case.no_memory(),
    }
}

/// Compares the labels of the pieces.
pub fn expect_labels<'a>(case: &mut Case<'a>, key: &'a str, pieces: &[Labelled]) {
    let mut labels = Vec::new(case.alloc);
    for piece in pieces {
        case.push(&mut labels, piece.label);
    }
    case.expect_list(key, labels.as_slice());
}

/// Compares the first cells of labels.
fn expect_first_cells(case: &mut Case<'_>, cells: &[Cell]) {
    let mut places = Vec::new(case.alloc);
    for cell in cells {
        case.push(&mut places, [cell.i, cell.j]);
    }
    case.expect_list("first_cells", places.as_slice());
}

/// The number of each piece, by the first cells of labels, and these cells.
pub fn numbers(case: &mut Case<'_>) {
    let pieces = pieces(case);
    let found = case.list(numbered(case.alloc, pieces.as_slice()));
    for (found, piece) in found.as_slice().iter().zip(pieces.as_slice()) {
        if found.rect != piece.rect {
            case.note("numbers", "a rectangle is another");
        }
    }
    expect_labels(case, "numbers", found.as_slice());
    let cells = case.list(first_cells(case.alloc, pieces.as_slice()));
    expect_first_cells(case, cells.as_slice());
}
