ghost use Rattle.std.specs.Prelude.{IfOk, IfNone, IfSome, OnOk, ◌≡◌};
ghost use Rattle.geo_core.specs.Cells.{Has};
ghost use Rattle.geo_core.specs.declared.plane.Cell.{Cell};
ghost use Rattle.net_pairs.specs.inside.RowChanges.{AreChangesOf};
ghost use Rattle.net_pairs.specs.inside.ChangeCorners.{AreStretchesOf, Follows, GainsStretch, IsInRowPart, IsRowPart};

use super::corners::{Corner, corners_of};
use super::weighted::Weighted;
use geo_core::{Labelled, Rect};
use lists::NoMemory;
use std::alloc::Global;

/// Where labels are covered in a row of the window more often, or less, than in the row below: unbroken stretches of one row each,
/// with the difference in 64 bits as their weight. Those of one label are as wide as they can be, and have no cell in common.
/// Below the lowest row of the window nothing counts as covered.
pub fn changes_of(
    alloc: Global,
    rects: &[Labelled],
    window: Rect,
) -> Result<Vec<Weighted>, NoMemory>
    ensures { IfOk result (λ changes. AreChangesOf window rects.now changes.items) }
{
    let corners = corners_of(alloc, rects, window)?;
    stretches_of(alloc, corners.as_slice(), window)
}

/// The stretches from each corner to the next one of its row, or to the end of the window, with what was gained so far.
pub fn stretches_of(
    alloc: Global,
    corners: &[Corner],
    window: Rect,
) -> Result<Vec<Weighted>, NoMemory>
    ensures { IfOk result (λ changes. AreStretchesOf window corners.now changes.items) }
{
    let mut changes = Vec::new(alloc);
    let mut last = Corner {
        label: 0,
        row: 0,
        column: 0,
        gain: 0,
    };
    for corner in corners {
        last = follow(&mut changes, last, *corner, window)?;
    }
    push_stretch(&mut changes, last, window.x1, window)?;
    Ok(changes)
}

/// Adds the stretch from the last corner to this one, or to the end of the window where this one is not behind it in its row. Gives
/// this corner, with what was gained up to it.
fn follow(
    changes: &mut Vec<Weighted>,
    last: Corner,
    corner: Corner,
    window: Rect,
) -> Result<Corner, NoMemory>
    ensures { IfOk result (λ next. Follows window last corner next changes.old.items changes.new.items) }
{
    if last.label != corner.label || last.row != corner.row || corner.column < last.column {
        push_stretch(changes, last, window.x1, window)?;
        return Ok(corner);
    }
    push_stretch(changes, last, corner.column, window)?;
    let mut next = corner;
    next.gain = last.gain.wrapping_add(corner.gain);
    Ok(next)
}

/// Adds the stretch from the corner to the end, where the corner gains anything. At the end of a row all has been lost again that was
/// gained, so there is nothing to add.
fn push_stretch(
    changes: &mut Vec<Weighted>,
    corner: Corner,
    end: i32,
    window: Rect,
) -> Result<(), NoMemory>
    ensures { OnOk result (GainsStretch window corner end changes.old.items changes.new.items) }
{
    if corner.gain == 0 {
        return Ok(());
    }
    if let Some(rect) = row_part(window, corner, end) {
        changes.push(Weighted {
            rect,
            label: corner.label,
            weight: corner.gain,
        })?;
    }
    Ok(())
}

/// What the window has of the corner's row, from its column to before the end.
fn row_part(window: Rect, corner: Corner, end: i32) -> Option<Rect>
    ensures some { IfSome result (IsRowPart window corner.row corner.column end) }
    ensures none { IfNone result ((c : Cell) → IsInRowPart window corner.row corner.column end c → ⊥) }
{
    let first = corner.column.max(window.x0);
    let end = end.min(window.x1);
    if end <= first {
        return None;
    }
    if corner.row < window.y0 {
        return None;
    }
    if window.y1 <= corner.row {
        return None;
    }
    Some(Rect::new(first, corner.row, end, corner.row + 1))
}
