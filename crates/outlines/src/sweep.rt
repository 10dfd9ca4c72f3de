ghost use Rattle.std.specs.Prelude.{pos, negsuc, cond, length, IfOk, ◌≡◌, ◌<◌, ◌^◌};
ghost use Rattle.outlines.specs.Fillings.{IsCover};
ghost use Rattle.outlines.specs.inside.OutlineTurns.{AreBalanced, AreByRow, IsWound};

use super::front::Front;
use super::turn::Turn;
use geo_core::{FARTHEST, Rect};
use std::alloc::{AllocError, Global};

/// Rectangles of the cells that are wound round: of those that have not as many turns that rise as turns that do not
/// below and to the left of them.
pub fn fill_turns(alloc: Global, mut turns: Vec<Turn>) -> Result<Vec<Rect>, AllocError>
    requires { AreBalanced turns.items }
    ensures { IfOk result (λ rects. IsCover (IsWound turns.items) rects.items) }
{
    turns.sort_unstable_by_key(|turn| (turn.row, turn.column));
    sweep_up(alloc, turns.as_slice())
}

/// The same for turns row by row, and each row from left to right. What changes between two turns of a row is changed,
/// and nothing else is touched.
fn sweep_up(alloc: Global, turns: &[Turn]) -> Result<Vec<Rect>, AllocError>
    requires few { length turns.now < 2 ^ 63 }
    requires by_row { AreByRow turns.now }
    requires balanced { AreBalanced turns.now }
    ensures { IfOk result (λ rects. IsCover (IsWound turns.now) rects.items) }
{
    let mut front = Front::new(alloc);
    let mut row = -FARTHEST;
    let mut column = -FARTHEST;
    let mut by: i64 = 0;
    for turn in turns {
        front.turn(column, turn.column, by, row)?;
        by += amount(*turn);
        row = turn.row;
        column = turn.column;
    }
    Ok(front.finish())
}

/// How much more the outline winds from the turn on.
fn amount(turn: Turn) -> i64
    ensures { result ≡ cond turn.rises (pos 1) (negsuc 0) }
{
    if turn.rises { 1 } else { -1 }
}
