//! The names of islands and nets: letters that are equal where they are the same.

use crate::cells::{expect_cells, has};
use geo_core::{Cell, Rect};
use net_extract::{ContactPiece, Piece};
use row_tables::{Case, Text};

/// The island and the net of the cell, if a piece has it.
pub fn numbers_at(pieces: &[Piece], cell: Cell) -> Option<(usize, usize)> {
    for piece in pieces {
        if has(piece.rect, cell) {
            return Some((piece.island, piece.net));
        }
    }
    None
}

/// The place of the first thing that is equal to this one.
fn first_equal(things: &[(usize, usize)], thing: (usize, usize)) -> usize {
    let mut place: usize = 0;
    for other in things {
        if *other == thing {
            return place;
        }
        place = place.saturating_add(1);
    }
    place
}

/// Compares the letters of the things: each has that of the first one that is equal.
pub fn expect_letters<'a>(case: &mut Case<'a>, key: &'a str, things: &[(usize, usize)]) {
    let mut letters = Text::new(case.alloc);
    let mut next = b'a';
    for thing in things {
        let first = first_equal(things, *thing);
        let letter = match letters.shown().as_bytes().get(first) {
            Some(letter) => *letter,
            None => next,
        };
        if letter == next {
            next = next.saturating_add(1);
        }
        letters.print(char::from(letter));
    }
    case.expect_text(key, letters.shown());
}

/// Appends a metal and the lower left cell of each of the rectangles on it.
fn add_corners<'a>(case: &mut Case<'a>, places: &mut Vec<i32>, metal: i32, key: &'a str) {
    for rect in case.rects(key).as_slice() {
        case.kept(places.extend_from_slice(&[metal, rect.x0, rect.y0]));
    }
}

/// The places that a row names, or else the lower left cells of the rectangles of both metals: the metal, the column and the row
/// of each.
fn places(case: &mut Case<'_>) -> Vec<i32> {
    if case.has("at") {
        return case.flat("at", 3);
    }
    let mut places = Vec::new(case.alloc);
    add_corners(case, &mut places, 0, "lower");
    add_corners(case, &mut places, 1, "upper");
    places
}

/// Compares the letters of the islands and of the nets at the places.
fn expect_names(case: &mut Case<'_>, metals: &[&[Piece]; 2], places: &[i32]) {
    let mut islands = Vec::new(case.alloc);
    let mut nets = Vec::new(case.alloc);
    for place in places.chunks(3) {
        if let [metal, i, j] = place {
            let metal = usize::from(*metal != 0);
            if let Some((island, net)) = numbers_at(metals[metal], Cell { i: *i, j: *j }) {
                case.push(&mut islands, (metal, island));
                case.push(&mut nets, (0, net));
            }
        }
    }
    expect_letters(case, "islands", islands.as_slice());
    expect_letters(case, "nets", nets.as_slice());
}

/// Compares the cells of the pieces.
fn expect_pieces<'a>(case: &mut Case<'a>, key: &'a str, pieces: &[Piece]) {
    let mut rects = Vec::new(case.alloc);
    for piece in pieces {
        case.push(&mut rects, piece.rect);
    }
    expect_cells(case, key, rects.as_slice());
}

/// Whether the contact piece carries the islands of both metals on which its lower left cell lies.
fn lies_on_its_islands(contact: &ContactPiece, metals: &[&[Piece]; 2]) -> bool {
    let Rect { x0: i, y0: j, .. } = contact.rect;
    let cell = Cell { i, j };
    match (numbers_at(metals[0], cell), numbers_at(metals[1], cell)) {
        (Some(lower), Some(upper)) => lower.0 == contact.lower && upper.0 == contact.upper,
        _ => false,
    }
}

/// Compares the cells of the contact pieces.
fn expect_contacts(case: &mut Case<'_>, contacts: &[ContactPiece], metals: &[&[Piece]; 2]) {
    let mut rects = Vec::new(case.alloc);
    for contact in contacts {
        if !lies_on_its_islands(contact, metals) {
            case.note("contacts", "one carries other islands than those under it");
        }
        case.push(&mut rects, contact.rect);
    }
    expect_cells(case, "contacts", rects.as_slice());
}

/// The islands, nets and contacts of two metals and a cut. How many pieces and contact pieces there are, in which order they come
/// and which numbers they have is not promised.
pub fn names(case: &mut Case<'_>, contacts: &[ContactPiece], metals: &[&[Piece]; 2]) {
    expect_contacts(case, contacts, metals);
    expect_pieces(case, "lower", metals[0]);
    expect_pieces(case, "upper", metals[1]);
    let places = places(case);
    expect_names(case, metals, places.as_slice());
}
