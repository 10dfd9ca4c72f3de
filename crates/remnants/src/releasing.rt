ghost use Rattle.std.specs.Prelude.{◌++◌, ◌≤◌, Contains, IfOk, IsTrue, length};
ghost use Rattle.half_boxes.specs.HalfBoxes.{LiesWithin};
ghost use Rattle.half_boxes.specs.declared.boxes.HalfBox.{HalfBox as AnyBox};
ghost use Rattle.remnants.specs.inside.Releasing.{AreReleased, IsReleased, plain};

use super::numbers::Numbers;
use super::parts::Loose;
use half_boxes::HalfBox;
use lists::NoMemory;
use std::alloc::Global;

/// In so many boxes of none along each axis it is looked whether a box lies in one of them.
const CANDIDATES: usize = 8;

/// Boxes of none, in the order of their first columns, and in that of their first rows.
#[derive(Drop)]
pub struct PlainBoxes {
    pub by_columns: Vec<HalfBox>,
    pub by_rows: Vec<HalfBox>,
}

/// The loose boxes, where those of terminals that are not listed become boxes of none. Some of these go, since they lie in
/// boxes that were of none before.
pub fn released(alloc: Global, loose: &[Loose], listed: &Numbers) -> Result<Vec<Loose>, NoMemory>
    ensures { IfOk result (λ released. AreReleased listed.now loose.now released.items) }
{
    let boxes = plain_boxes(alloc, loose)?;
    let mut released = Vec::with_capacity(alloc, loose.len())?;
    for one in loose {
        if let Some(it) = release(*one, listed, &boxes) {
            released.push(it)?;
        }
    }
    Ok(released)
}

/// The boxes of none among the loose ones.
fn plain_boxes(alloc: Global, loose: &[Loose]) -> Result<PlainBoxes, NoMemory>
    ensures { IfOk result (λ boxes. (one : AnyBox) →
        Contains (boxes.by_columns.items ++ boxes.by_rows.items) one → Contains loose.now (plain one)) }
{
    let mut by_columns = found_plain(alloc, loose)?;
    let mut by_rows = Vec::from_slice(alloc, &by_columns)?;
    by_columns.sort_unstable_by_key(|one| one.columns.low);
    by_rows.sort_unstable_by_key(|one| one.rows.low);
    Ok(PlainBoxes {
        by_columns,
        by_rows,
    })
}

/// The boxes of none among the loose ones, in no order.
fn found_plain(alloc: Global, loose: &[Loose]) -> Result<Vec<HalfBox>, NoMemory>
    ensures { IfOk result (λ boxes. (one : AnyBox) → Contains boxes.items one → Contains loose.now (plain one)) }
{
    let mut boxes = Vec::new(alloc);
    for one in loose {
        match one.terminal {
            None => boxes.push(one.part)?,
            Some(_) => {}
        }
    }
    Ok(boxes)
}

/// What becomes of a loose box.
fn release(one: Loose, listed: &Numbers, boxes: &PlainBoxes) -> Option<Loose>
    ensures { IsReleased listed.now (boxes.now.by_columns.items ++ boxes.now.by_rows.items) one result }
{
    let Some(terminal) = one.terminal else {
        return Some(one);
    };
    if listed.has(terminal) {
        return Some(one);
    }
    if lies_in_one(one.part, boxes) {
        return None;
    }
    Some(Loose {
        part: one.part,
        terminal: None,
    })
}

/// Whether the box is seen to lie in one of the others. Of these it is looked at the last ones of those that do not begin
/// behind it along one of the axes.
fn lies_in_one(part: HalfBox, boxes: &PlainBoxes) -> bool
    ensures { IsTrue result → (one : AnyBox) × Contains (boxes.now.by_columns.items ++ boxes.now.by_rows.items) one
        × LiesWithin part one }
{
    let by_columns = boxes.by_columns.as_slice();
    let columns = by_columns.partition_point(|one| one.columns.low <= part.columns.low);
    if lies_in_last(part, by_columns, columns) {
        return true;
    }
    let by_rows = boxes.by_rows.as_slice();
    let rows = by_rows.partition_point(|one| one.rows.low <= part.rows.low);
    lies_in_last(part, by_rows, rows)
}

/// Whether the box lies in one of the last ones before this place of the list.
fn lies_in_last(part: HalfBox, boxes: &[HalfBox], end: usize) -> bool
    requires { end ≤ length boxes.now }
    ensures { IsTrue result → (one : AnyBox) × Contains boxes.now one × LiesWithin part one }
{
    for number in end.saturating_sub(CANDIDATES)..end {
        let one = boxes[number];
        if part.is_within(one) {
            return true;
        }
    }
    false
}
