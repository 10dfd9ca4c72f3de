//! What is handed out of nets: islands with their spots, anchors, and nets through chains of cuts.

ghost use Rattle.std.specs.Prelude.{◌≡◌, length};

use crate::cells::have_same_cells;
use crate::names::{expect_letters, numbers_at};
use fault_model::{Island, Spot};
use geo_core::{Cell, Rect};
use net_extract::{Anchor, Nets, Piece};
use row_tables::Case;

/// A letter for the net of each of so many metals, on which there is one island each.
pub fn chain(case: &mut Case<'_>, nets: &Nets, metals: u32)
    requires { length nets.now.pieces ≡ metals }
{
    let mut numbers = Vec::new(case.alloc);
    for metal in 0..metals {
        if let Some(piece) = nets.pieces(metal).first() {
            case.push(&mut numbers, (0, piece.net));
        }
    }
    expect_letters(case, "nets", numbers.as_slice());
}

/// Whether a spot that stands as the wanted one does has exactly its cells. Spots that begin with the same number may come in any
/// order.
fn is_there(case: &mut Case<'_>, spots: &[Spot], lists: &[Vec<i32>], wanted: &[i32]) -> bool {
    let rects = case.rects_in("spots", wanted.get(1..).unwrap_or_default());
    for (spot, list) in spots.iter().zip(lists) {
        if list.first() == wanted.first()
            && have_same_cells(spot.rects.as_slice(), rects.as_slice())
        {
            return true;
        }
    }
    false
}

/// Compares the spots of an island with those of these lists.
fn expect_spots(case: &mut Case<'_>, spots: &[Spot], lists: &[Vec<i32>]) {
    for wanted in lists {
        if !is_there(case, spots, lists, wanted.as_slice()) {
            case.note("spots", "one is not there");
        }
    }
    if spots.len() != lists.len() {
        case.note("spots", "too many or too few");
    }
}

/// Compares the spots of the island that has exactly the cells of the pieces of a row.
fn expect_island(case: &mut Case<'_>, islands: &[Island]) {
    let pieces = case.rects("pieces");
    let lists = case.number_lists("spots");
    for island in islands {
        if have_same_cells(island.pieces.as_slice(), pieces.as_slice()) {
            return expect_spots(case, island.anchors.as_slice(), lists.as_slice());
        }
    }
    case.note("pieces", "no island has these cells");
}

/// How many islands of each of so many metals are handed out, and one of those of a metal, if the row has one.
pub fn islands(case: &mut Case<'_>, nets: &Nets, metals: u32)
    requires { length nets.now.pieces ≡ metals }
{
    let wanted = if case.has("metal") {
        case.number("metal")
    } else {
        metals
    };
    let mut counts = Vec::new(case.alloc);
    for metal in 0..metals {
        let islands = case.list(nets.islands(case.alloc, metal));
        case.push(&mut counts, islands.len());
        if metal == wanted {
            expect_island(case, islands.as_slice());
        }
    }
    case.expect_list("counts", counts.as_slice());
}

/// How many islands are handed out, and of the first how many anchors it has, and how many pieces at least.
pub fn counts(case: &mut Case<'_>, islands: &[Island]) {
    case.expect("islands", islands.len());
    match islands.first() {
        Some(island) => {
            case.expect("anchors", island.anchors.as_slice().len());
            if case.has("least") {
                let least: usize = case.number("least");
                case.expect("least", island.pieces.as_slice().len().min(least));
            }
        }
        None => case.expect("anchors", 0),
    }
}

/// The anchors of the nets of two metals, each as its metal, its column and its row.
pub fn anchors(case: &mut Case<'_>, anchors: &[Anchor], lower: &[Piece], upper: &[Piece]) {
    let mut places = Vec::new(case.alloc);
    for anchor in anchors {
        let pieces = if anchor.metal == 0 { lower } else { upper };
        match numbers_at(pieces, anchor.cell) {
            Some((island, _)) if island == anchor.island => {}
            _ => case.note("anchors", "one carries another island"),
        }
        let Cell { i, j } = anchor.cell;
        case.push(
            &mut places,
            [i64::from(anchor.metal), i64::from(i), i64::from(j)],
        );
    }
    case.expect_list("anchors", places.as_slice());
}
