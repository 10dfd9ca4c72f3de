ghost use Rattle.std.specs.Int.{w64};
ghost use Rattle.std.specs.Prelude.{ℕ, ℤ, neg_ℤ, pos, take, length, cond, fold, vec_len, FitsSigned, IfOk, OnOk, IsTrue, ◌↔◌, slice_index_or, ◌≡◌, ◌+◌, ◌<◌, ◌≤◌, ◌≤ℤ◌, ◌<ℤ◌, ◌+ℤ◌};
ghost use Rattle.geo_core.specs.declared.bounds.TheConstants.{FARTHEST};
ghost use Rattle.outlines.specs.inside.Pieces.{AddsToPiece, AreRising, HasSameWindings, IsPlace, KeepsPlacesLeftOf, StandsFor};

use super::piece::Piece;
use std::alloc::AllocError;

/// Makes a piece begin at the column, and gives its number.
pub fn cut(pieces: &mut Vec<Piece>, column: i32) -> Result<usize, AllocError>
    requires left { neg_ℤ FARTHEST ≤ℤ column }
    requires right { column ≤ℤ FARTHEST }
    requires rising { AreRising pieces.old.items }
    ensures place { IfOk result (λ number. IsPlace pieces.new.items number column) }
    ensures same { OnOk result (HasSameWindings pieces.old.items pieces.new.items) }
    ensures kept { OnOk result (KeepsPlacesLeftOf column pieces.old.items pieces.new.items) }
{
    let number = pieces.partition_point(|piece| piece.column < column);
    if begins_at(pieces.as_slice(), number, column) {
        return Ok(number);
    }
    let winding = winding_before(pieces.as_slice(), number);
    pieces.insert(number, Piece { column, winding })?;
    Ok(number)
}

/// Takes out the piece of this number where the one before it has the same winding.
pub fn join(pieces: &mut Vec<Piece>, number: usize)
    requires number { number < vec_len pieces.old }
    requires rising { AreRising pieces.old.items }
    ensures same { HasSameWindings pieces.old.items pieces.new.items }
    ensures kept { (column : ℤ) → IsPlace pieces.old.items number column → KeepsPlacesLeftOf column pieces.old.items pieces.new.items }
{
    let before = winding_before(pieces.as_slice(), number);
    if pieces[number].winding != before {
        return;
    }
    pieces.remove(number);
}

/// Whether there is a piece of this number, and begins at the column.
fn begins_at(pieces: &[Piece], number: usize, column: i32) -> bool
    ensures { IsTrue result ↔ IsPlace pieces.now number column }
{
    match pieces.get(number) {
        Some(piece) => piece.column == column,
        None => false,
    }
}

/// The winding on the left of the piece of this number.
fn winding_before(pieces: &[Piece], number: usize) -> i64
    requires { number ≤ length pieces.now }
    ensures { StandsFor (take number pieces.now) result }
{
    if number == 0 {
        return 0;
    }
    pieces[number - 1].winding
}

/// Adds so much to the winding of the piece of this number.
pub fn add_to(pieces: &mut Vec<Piece>, number: usize, by: i64)
    requires number { number < vec_len pieces.old }
    requires rising { AreRising pieces.old.items }
    requires fits { (d : Piece) → FitsSigned w64 ((slice_index_or pieces.old.items number d).winding +ℤ by) }
    ensures { AddsToPiece number by pieces.old.items pieces.new.items }
{
    let piece = pieces[number];
    pieces[number] = Piece {
        column: piece.column,
        winding: piece.winding + by,
    };
}
