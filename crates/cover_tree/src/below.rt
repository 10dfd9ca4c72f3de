ghost use Rattle.std.specs.Prelude.{◌≡◌, ◌+◌, ◌*◌, ◌^◌, ◌<◌, ◌≤◌, ◌+ℤ◌, ◌⊎◌, ◌↔◌, pos, length, slice_set, FitsSigned, IsTrue};
ghost use Rattle.std.specs.Int.{w64};
ghost use Rattle.cover_tree.specs.Columns.{total, width_of};
ghost use Rattle.cover_tree.specs.TreeParts.{IsPart, IsKept, MayChange, IsChangedBy, MayChangeIn, IsHighest, IsPartChanged, AreWidths, AreLowerWidths, once_by, twice_by};

use super::columns::Columns;
use super::parts::{Change, Part, Widths};
use geo_core::{CountRow, Node, Steps};
use std::sync::ledger::Ledger;

/// A range of columns, from `low` to before `high`, and what is done to it.
#[derive(Clone, Copy)]
pub struct Edit {
    pub low: usize,
    pub high: usize,
    pub change: Change,
}

impl Edit {
    /// Whether the range has none of the columns from this one to before the end.
    fn misses(self, from: usize, end: usize) -> bool
        ensures { IsTrue result ↔ ((self.high ≤ from) ⊎ (end ≤ self.low)) }
    {
        self.high <= from || end <= self.low
    }

    /// Whether the range has all of the columns from this one to before the end.
    fn covers(self, from: usize, end: usize) -> bool
        ensures { IsTrue result ↔ ((self.low ≤ from) × (end ≤ self.high)) }
    {
        self.low <= from && end <= self.high
    }
}

/// The count of a node of the cut after a change.
fn changed(count: usize, change: Change) -> usize
    requires { MayChange change 1 count }
    ensures { IsChangedBy change 1 count result }
{
    match change {
        Change::Put => count + 1,
        Change::Take => count - 1,
    }
}

/// The widths that a node keeps.
fn widths_in(node: Node) -> Widths
    ensures once { result.once ≡ node.once }
    ensures twice { result.twice ≡ node.twice }
{
    Widths {
        once: node.once,
        twice: node.twice,
    }
}

/// The widths of a node from its count, the width of all its columns, and what its halves have together.
fn widths_of(count: usize, width: i64, halves: Widths) -> Widths
    ensures once { result.once ≡ once_by count width halves.once }
    ensures twice { result.twice ≡ twice_by count width halves.once halves.twice }
{
    match count {
        0 => halves,
        1 => Widths {
            once: width,
            twice: halves.once,
        },
        _ => Widths {
            once: width,
            twice: width,
        },
    }
}

/// The widths of two halves together.
fn both(left: Widths, right: Widths) -> Widths
    requires once { FitsSigned w64 (left.once +ℤ right.once) }
    requires twice { FitsSigned w64 (left.twice +ℤ right.twice) }
    ensures once { result.once ≡ left.once +ℤ right.once }
    ensures twice { result.twice ≡ left.twice +ℤ right.twice }
{
    Widths {
        once: left.once + right.once,
        twice: left.twice + right.twice,
    }
}

/// Writes the highest node of a part, by its count, the width of its columns and what its halves have together, and gives
/// its widths.
fn settle<L: Ledger>(
    row: &mut CountRow,
    columns: &Columns,
    part: Part,
    count: usize,
    width: i64,
    halves: Widths,
    steps: &mut Steps<L>,
) -> Widths
    requires row { length row.old ≡ 2 * 2 ^ columns.now.height }
    requires part { IsPart columns.now.height part }
    requires width { width ≡ pos (total (width_of columns.now.places.items) part.from part.size) }
    requires halves { AreLowerWidths columns.now.height columns.now.places.items row.old part halves }
    ensures row { row.new ≡ slice_set row.old part.number (record { count = count; once = result.once; twice = result.twice }) }
    ensures widths { AreWidths columns.now.height columns.now.places.items row.new part result }
    ensures step { steps.new ≡ steps.old + 1 }
{
    let widths = widths_of(count, width, halves);
    let node = Node {
        count,
        once: widths.once,
        twice: widths.twice,
    };
    row.set(part.number, node, steps);
    widths
}

/// Changes a part that lies in the range: the count of its highest node alone, since the cut has none of those below it.
fn change_whole<L: Ledger>(
    row: &mut CountRow,
    columns: &Columns,
    part: Part,
    edit: Edit,
    steps: &mut Steps<L>,
) -> Widths
    requires row { length row.old ≡ 2 * 2 ^ columns.now.height }
    requires part { IsPart columns.now.height part }
    requires kept { IsKept columns.now.height columns.now.places.items row.old part }
    requires may { MayChangeIn columns.now.height edit.change edit.low edit.high row.old part }
    requires highest { IsHighest columns.now.height edit.low edit.high part }
    requires begins { edit.low ≤ part.from }
    requires ends { part.from + part.size ≤ edit.high }
    ensures changed { IsPartChanged columns.now.height columns.now.places.items edit.change edit.low edit.high part row.old row.new }
    ensures widths { AreWidths columns.now.height columns.now.places.items row.new part result }
    ensures some { steps.old < steps.new }
    ensures few { steps.new ≤ steps.old + 4 }
{
    let node = row.get(part.number, steps);
    let count = changed(node.count, edit.change);
    let width = columns.width(part.from, part.size);
    if part.level == 0 {
        let nothing = Widths { once: 0, twice: 0 };
        return settle(row, columns, part, count, width, nothing, steps);
    }
    let left = part.left();
    let right = part.right();
    let left_node = row.get(left.number, steps);
    let right_node = row.get(right.number, steps);
    let left_widths = widths_in(left_node);
    let right_widths = widths_in(right_node);
    let halves = both(left_widths, right_widths);
    settle(row, columns, part, count, width, halves, steps)
}

/// Changes a part that the range meets.
#[cycle(below)]
#[inline(never)]
fn change_part<L: Ledger>(
    row: &mut CountRow,
    columns: &Columns,
    part: Part,
    edit: Edit,
    steps: &mut Steps<L>,
) -> Widths
    requires row { length row.old ≡ 2 * 2 ^ columns.now.height }
    requires part { IsPart columns.now.height part }
    requires kept { IsKept columns.now.height columns.now.places.items row.old part }
    requires may { MayChangeIn columns.now.height edit.change edit.low edit.high row.old part }
    requires highest { IsHighest columns.now.height edit.low edit.high part }
    requires before { part.from < edit.high }
    requires behind { edit.low < part.from + part.size }
    ensures changed { IsPartChanged columns.now.height columns.now.places.items edit.change edit.low edit.high part row.old row.new }
    ensures widths { AreWidths columns.now.height columns.now.places.items row.new part result }

    // The steps are as at `below`.
    ensures some { steps.old < steps.new }
    ensures covered { edit.low ≤ part.from → part.from + part.size ≤ edit.high → steps.new ≤ steps.old + 4 }
    ensures from_left { edit.low ≤ part.from → steps.new ≤ steps.old + 6 * part.level + 4 }
    ensures to_right { part.from + part.size ≤ edit.high → steps.new ≤ steps.old + 6 * part.level + 4 }
    ensures any { steps.new ≤ steps.old + 12 * part.level + 4 }
{
    let end = part.from + part.size;
    if edit.covers(part.from, end) {
        return change_whole(row, columns, part, edit, steps);
    }
    let node = row.get(part.number, steps);
    let left = part.left();
    let right = part.right();
    let left_widths = below(row, columns, left, edit, steps);
    let right_widths = below(row, columns, right, edit, steps);
    let width = columns.width(part.from, part.size);
    let halves = both(left_widths, right_widths);
    settle(row, columns, part, node.count, width, halves, steps)
}

/// Changes the nodes of a range's cut that belong to the part, and gives the part's widths as they are then.
///
/// Of the two halves of a part the range often misses one. So this test stands apart from the work, and is inlined: a half
/// that is missed costs one look at its node and no call.
#[cycle(below)]
#[inline(always)]
pub fn below<L: Ledger>(
    row: &mut CountRow,
    columns: &Columns,
    part: Part,
    edit: Edit,
    steps: &mut Steps<L>,
) -> Widths
    requires row { length row.old ≡ 2 * 2 ^ columns.now.height }
    requires part { IsPart columns.now.height part }
    requires kept { IsKept columns.now.height columns.now.places.items row.old part }
    requires may { MayChangeIn columns.now.height edit.change edit.low edit.high row.old part }
    requires highest { IsHighest columns.now.height edit.low edit.high part }
    ensures changed { IsPartChanged columns.now.height columns.now.places.items edit.change edit.low edit.high part row.old row.new }
    ensures widths { AreWidths columns.now.height columns.now.places.items row.new part result }

    // One look at a part that is not met, four steps at most at one that lies in the range, and two at any other. Where the
    // range begins before the part or ends behind it, at each level one part at most is none of the first two.
    ensures some { steps.old < steps.new }
    ensures apart { edit.high ≤ part.from → steps.new ≤ steps.old + 1 }
    ensures apart_behind { part.from + part.size ≤ edit.low → steps.new ≤ steps.old + 1 }
    ensures covered { edit.low ≤ part.from → part.from + part.size ≤ edit.high → steps.new ≤ steps.old + 4 }
    ensures from_left { edit.low ≤ part.from → steps.new ≤ steps.old + 6 * part.level + 4 }
    ensures to_right { part.from + part.size ≤ edit.high → steps.new ≤ steps.old + 6 * part.level + 4 }
    ensures any { steps.new ≤ steps.old + 12 * part.level + 4 }
{
    let end = part.from + part.size;
    if edit.misses(part.from, end) {
        let node = row.get(part.number, steps);
        return widths_in(node);
    }
    change_part(row, columns, part, edit, steps)
}
