//! Islands with spots of any rectangles.

ghost use Rattle.std.specs.Prelude.{All, true, ◌≡◌};
ghost use Rattle.geo_core.specs.Cells.{Has};
ghost use Rattle.geo_core.specs.declared.plane.Cell.{Cell};
ghost use Rattle.area_calls.specs.OnPieces.{IsOnPieces, IsSpotOnPieces};

use fault_model::{Island, Spot, Spots};
use geo_core::{Rect, RectList, clip};
use row_tables::Case;

/// The spot that has what the rectangles have in common with the pieces, if that is one cell at least.
fn spot_on(case: &mut Case<'_>, rects: &[Rect], pieces: &[Rect]) -> Option<Spot> {
    let mut parts = Vec::new(case.alloc);
    for rect in rects {
        for piece in pieces {
            if let Some(part) = clip(*rect, *piece) {
                case.push(&mut parts, part);
            }
        }
    }
    if parts.is_empty() {
        return None;
    }
    Some(Spot {
        rects: RectList::from_vec(parts),
    })
}

/// The spots of a row, each with what it has of the pieces.
fn spots_of(case: &mut Case<'_>, pieces: &[Rect]) -> Vec<Spot> {
    let mut spots = Vec::new(case.alloc);
    for sides in case.number_lists("spots").as_slice() {
        let rects = case.rects_in("spots", sides.as_slice());
        match spot_on(case, rects.as_slice(), pieces) {
            Some(spot) => case.push(&mut spots, spot),
            None => case.note("spots", "one has nothing of the metal"),
        }
    }
    spots
}

/// Whether the one rectangle lies in the other.
fn is_within(rect: Rect, piece: Rect) -> bool
    ensures { result ≡ true → (c : Cell) → Has rect c → Has piece c }
{
    if rect.x0 < piece.x0 {
        return false;
    }
    if rect.x1 > piece.x1 {
        return false;
    }
    if rect.y0 < piece.y0 {
        return false;
    }
    if rect.y1 > piece.y1 {
        return false;
    }
    true
}

/// Whether the rectangle lies in one of the pieces.
fn is_on(rect: Rect, pieces: &[Rect]) -> bool
    ensures { result ≡ true → IsOnPieces pieces.now rect }
{
    for piece in pieces {
        if is_within(rect, *piece) {
            return true;
        }
    }
    false
}

/// Whether each rectangle of the spot lies in one.
fn is_spot_on(spot: &Spot, pieces: &[Rect]) -> bool
    ensures { result ≡ true → IsSpotOnPieces pieces.now spot.now }
{
    for rect in spot.rects.as_slice() {
        if !is_on(*rect, pieces) {
            return false;
        }
    }
    true
}

/// Whether that is so of each of the spots.
fn are_on(spots: &[Spot], pieces: &[Rect]) -> bool
    ensures { result ≡ true → All (IsSpotOnPieces pieces.now) spots.now }
{
    for spot in spots {
        if !is_spot_on(spot, pieces) {
            return false;
        }
    }
    true
}

/// The island with these spots in place of its own, if all of them lie on it.
fn with_spots(island: Island, spots: Vec<Spot>) -> Option<Island> {
    let Island {
        pieces,
        anchors: _anchors,
    } = island;
    if !are_on(spots.as_slice(), pieces.as_slice()) {
        return None;
    }
    Some(Island {
        pieces,
        anchors: Spots::from_vec(spots),
    })
}

/// Puts the spots of a row in place of those of the last island.
pub fn put_spots(case: &mut Case<'_>, islands: &mut Vec<Island>) {
    if let Some(island) = islands.pop() {
        let spots = spots_of(case, island.pieces.as_slice());
        match with_spots(island, spots) {
            Some(island) => case.push(islands, island),
            None => case.note("spots", "one does not lie on the island"),
        }
    }
}
