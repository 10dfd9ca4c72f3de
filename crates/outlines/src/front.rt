use super::filling::Filling;
use super::piece::Piece;
use super::pieces::{add_to, cut, join};
use geo_core::{Interval, Rect};
use std::alloc::{AllocError, Global};

/// What a sweep up the rows has come to: the windings in its row, and what is filled below it.
#[derive(Drop)]
pub struct Front {
    pub pieces: Vec<Piece>,
    pub filling: Filling,
}

impl Front {
    ghost use Rattle.std.specs.Int.{w64};
    ghost use Rattle.std.specs.Prelude.{ℤ, [], neg_ℤ, pos, vec_len, slice_index_or, FitsSigned, OnOk, ◌≡◌, ◌≢◌, ◌+◌, ◌<◌, ◌≤ℤ◌, ◌+ℤ◌};
    ghost use Rattle.geo_core.specs.declared.bounds.TheConstants.{FARTHEST};
    ghost use Rattle.geo_core.specs.declared.plane.Cell.{Cell};
    ghost use Rattle.outlines.specs.declared.piece.Piece.{Piece};
    ghost use Rattle.outlines.specs.inside.Pieces.{winding_at};
    ghost use Rattle.outlines.specs.inside.Fronts.{IsDrawn, ShiftsPiece, TurnsBetween};
    ghost use Rattle.outlines.specs.inside.FillingRuns.{filled_at};

    /// No windings, and no rectangles.
    pub fn new(alloc: Global) -> Front
        ensures pieces { result.pieces.items ≡ [] }
        ensures drawn { (row : ℤ) → IsDrawn row result }
        ensures filled { (c : Cell) (row : ℤ) → filled_at c row result.filling ≡ 0 }
    {
        Front {
            pieces: Vec::new(alloc),
            filling: Filling::new(alloc),
        }
    }

    /// From the row on, the outline winds so much more round the cells of the columns from `low` to before `high`, if
    /// there are any.
    pub fn turn(&mut self, low: i32, high: i32, by: i64, row: i32) -> Result<(), AllocError>
        requires left { neg_ℤ FARTHEST ≤ℤ low }
        requires right { high ≤ℤ FARTHEST }
        requires bottom { neg_ℤ FARTHEST ≤ℤ row }
        requires top { row ≤ℤ FARTHEST }
        requires drawn { IsDrawn row self.old }
        requires fits { (i : ℤ) → low ≤ℤ i → FitsSigned w64 (winding_at i self.old.pieces.items +ℤ by) }
        ensures { OnOk result (TurnsBetween low high by row self.old self.new) }
    {
        if by == 0 || low >= high {
            return Ok(());
        }
        let first = cut(&mut self.pieces, low)?;
        let last = cut(&mut self.pieces, high)?;
        for number in first..last {
            self.shift(number, by, row)?;
        }
        join(&mut self.pieces, last);
        join(&mut self.pieces, first);
        Ok(())
    }

    /// Winds so much more round the cells of the piece of this number, which is not the last.
    fn shift(&mut self, number: usize, by: i64, row: i32) -> Result<(), AllocError>
        requires number { number + 1 < vec_len self.old.pieces }
        requires bottom { neg_ℤ FARTHEST ≤ℤ row }
        requires top { row ≤ℤ FARTHEST }
        requires turning { by ≢ pos 0 }
        requires drawn { IsDrawn row self.old }
        requires fits { (d : Piece) → FitsSigned w64 ((slice_index_or self.old.pieces.items number d).winding +ℤ by) }
        ensures { OnOk result (ShiftsPiece number by row self.old self.new) }
    {
        let piece = self.pieces[number];
        let columns = Interval {
            low: piece.column,
            high: self.pieces[number + 1].column,
        };
        let winding = piece.winding + by;
        add_to(&mut self.pieces, number, by);
        if piece.winding == 0 {
            return self.filling.fill(columns, row);
        }
        if winding == 0 {
            return self.filling.clear(columns, row);
        }
        Ok(())
    }

    /// The finished rectangles.
    pub fn finish(self) -> Vec<Rect>
        ensures { result.items ≡ self.filling.done.items }
    {
        let Front { pieces: _, filling } = self;
        filling.finish()
    }
}
