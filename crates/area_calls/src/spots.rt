//! Islands whose anchors are spots of several rectangles and cells, at each cell of a window and for each of eight sides.

ghost use Rattle.std.specs.Prelude.{All};
ghost use Rattle.geo_core.specs.Cells.{IsInLayout};

use crate::cells::covers;
use fault_model::Island;
use geo_core::{Cell, Rect};
use open_grid::{open_area, open_cells, parted};
use ring_test::{RingAnswer, ring};
use row_tables::{Case, Text};
use samples::sides::are_near;

/// The columns, and the rows, of the cells at which the defects are.
const FIRST: i32 = -4;

const PAST_LAST: i32 = 12;

/// The least side of a defect from which on something holds, or 9 if it holds at none, and nothing if it holds at a side and not at a
/// greater one: that side once it is known whether it holds at the next lesser one.
fn with_next(least: Option<u32>, side: u32, holds: bool) -> Option<u32> {
    match least {
        Some(above) if holds && above != side.saturating_add(1) => None,
        Some(_) if holds => Some(side),
        _ => least,
    }
}

/// Whether what the ring tells is so if two spots are parted or not.
fn agrees(told: RingAnswer, parted: bool) -> bool {
    match told {
        RingAnswer::Untouched => !parted,
        RingAnswer::OneArc { lost } => lost == parted,
        RingAnswer::Many => true,
    }
}

/// The digits of the least sides of defects at the cell from which on two spots are parted, and the metal is touched. For each side
/// there is a list of the cells at which two spots are parted. Nothing is told of what is touched if a list, or what the ring tells,
/// does not agree with what is parted.
fn least_sides(case: &mut Case<'_>, island: &Island, lists: &[Vec<Rect>], cell: Cell) -> [char; 2]
    requires { All IsInLayout island.now.pieces }
{
    let mut least_parted = Some(9);
    let mut least_touched = Some(9);
    let mut agree = true;
    for below in 0..8 {
        let side = 8 - below;
        let parted = case.done(parted(case.alloc, island, cell, side), false);
        let told = case.done(ring(case.alloc, island, cell, side), RingAnswer::Many);
        least_parted = with_next(least_parted, side, parted);
        least_touched = with_next(least_touched, side, told != RingAnswer::Untouched);
        let listed = match lists.get(side as usize - 1) {
            Some(list) => covers(list.as_slice(), cell),
            None => false,
        };
        agree = agree && listed == parted && agrees(told, parted);
    }
    if !agree {
        least_touched = None;
    }
    [digit(least_parted), digit(least_touched)]
}

/// The digit of a least side.
fn digit(least: Option<u32>) -> char {
    match least {
        Some(9) => '.',
        Some(side) => char::from_digit(side, 10).unwrap_or('!'),
        None => '!',
    }
}

/// Compares the picture of an island: each row of what is parted, and beside it what is touched.
fn expect_picture(case: &mut Case<'_>, island: &Island, lists: &[Vec<Rect>])
    requires { All IsInLayout island.now.pieces }
{
    let mut picture = Text::new(case.alloc);
    for j in (FIRST..PAST_LAST).rev() {
        let mut beside = Text::new(case.alloc);
        for i in FIRST..PAST_LAST {
            let [parted, touched] = least_sides(case, island, lists, Cell { i, j });
            picture.print(parted);
            beside.print(touched);
        }
        picture.say(" ");
        picture.say(beside.shown());
        picture.say("\n");
    }
    case.expect_text("least", picture.shown());
}

/// What defects part on an island with spots, at each cell of a window.
pub fn field(case: &mut Case<'_>, islands: &[Island]) {
    let [island] = islands else {
        return case.note("lower", "not one island");
    };
    if !are_near(island.pieces.as_slice()) {
        return case.note("lower", "not in a layout");
    }
    let window = Rect::new(FIRST, FIRST, PAST_LAST, PAST_LAST);
    let mut areas = Vec::new(case.alloc);
    let mut lists = Vec::new(case.alloc);
    for number in 0..8 {
        let side = number + 1;
        let area = case.done(open_area(case.alloc, islands, window, side), 0);
        case.push(&mut areas, area);
        let list = case.list(open_cells(case.alloc, islands, window, side));
        case.push(&mut lists, list);
    }
    case.expect_list("areas", areas.as_slice());
    expect_picture(case, island, lists.as_slice());
}
