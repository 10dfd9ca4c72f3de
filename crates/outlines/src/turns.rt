ghost use Rattle.std.specs.Prelude.{All, IfOk, OnOk};
ghost use Rattle.geo_core.specs.Bounds.{IsInRange};
ghost use Rattle.outlines.specs.Outlines.{edges_of};
ghost use Rattle.outlines.specs.inside.OutlineTurns.{AddsTurnsOf, AreTurnsOf};

use super::turn::Turn;
use geo_core::Point;
use std::alloc::{AllocError, Global};

/// The ends of the vertical edges of the outline through these points.
pub fn turns_of(alloc: Global, points: &[Point]) -> Result<Vec<Turn>, AllocError>
    requires { All (λ point. IsInRange point) points.now }
    ensures { IfOk result (λ turns. AreTurnsOf (edges_of points.now) turns.items) }
{
    let mut turns = Vec::with_capacity(alloc, points.len())?;
    let Some((_, others)) = points.split_first() else {
        return Ok(turns);
    };
    for (from, to) in points.iter().zip(others) {
        add_turns(&mut turns, *from, *to)?;
    }
    Ok(turns)
}

/// Adds the ends of the edge between these points, unless it is level. In whichever direction it goes, it winds one more
/// above the point that it comes from, and one less above the point that it goes to.
fn add_turns(turns: &mut Vec<Turn>, from: Point, to: Point) -> Result<(), AllocError>
    requires from { IsInRange from }
    requires to { IsInRange to }
    ensures { OnOk result (AddsTurnsOf (from, to) turns.old.items turns.new.items) }
{
    if from.y == to.y {
        return Ok(());
    }
    turns.push(Turn {
        row: from.y,
        column: from.x,
        rises: true,
    })?;
    turns.push(Turn {
        row: to.y,
        column: from.x,
        rises: false,
    })?;
    Ok(())
}
