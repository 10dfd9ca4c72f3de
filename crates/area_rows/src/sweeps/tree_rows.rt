//! Two ranges of three columns of different widths are put, and one is taken again.

ghost use Rattle.std.specs.Prelude.{◌≡◌, ◌<◌, ◌≤◌, ◌+◌, ◌*◌, IfOk, length};

use cover_tree::CoverTree;
use geo_core::{CountRow, Node, Steps};
use lists::NoMemory;
use std::alloc::Global;
use std::marker::Brand;
use std::sync::ledger::{Blank, Ledger};

/// The two widths of a tree.
fn widths(tree: &CoverTree) -> (i64, i64) {
    (tree.once(), tree.twice())
}

/// The widths over the columns from 0 to 2, 5 and 9, before and after a put of the first two, a put of the last two and a
/// take of the first two.
fn widths_in_turn<L: Ledger>(
    alloc: Global,
    steps: &mut Steps<L>,
) -> Result<[(i64, i64); 4], NoMemory>
    ensures { IfOk result (λ widths. steps.old < steps.new) }
{
    let mut tree = CoverTree::new(alloc, &[0, 2, 5, 9])?;
    let none = widths(&tree);
    tree.put(0, 2, steps);
    let first = widths(&tree);
    tree.put(1, 3, steps);
    let both = widths(&tree);
    tree.take(0, 2, steps);
    let second = widths(&tree);
    Ok([none, first, both, second])
}

/// The same, with a counter of its own.
fn counted_widths<L: Ledger>(alloc: Global, blank: Blank) -> Result<[(i64, i64); 4], NoMemory>
    requires name { blank.name ≡ L.name }
    requires parts { blank.parts ≡ L.parts }
    requires some { 0 < blank.parts }
{
    let mut steps = Steps::<L>::start(blank);
    widths_in_turn(alloc, &mut steps)
}

/// A node of the row. It takes one step.
fn node_at<L: Ledger>(row: &CountRow, number: usize, steps: &mut Steps<L>) -> Node
    requires { number < length row.now }
    ensures { steps.new ≡ steps.old + 1 }
{
    row.get(number, steps)
}

/// A node of a new row of two.
fn node_of_new_row<L: Ledger>(alloc: Global, blank: Blank) -> Result<Node, NoMemory>
    requires name { blank.name ≡ L.name }
    requires parts { blank.parts ≡ L.parts }
    requires some { 0 < blank.parts }
{
    let mut steps = Steps::<L>::start(blank);
    let row = CountRow::new(alloc, 2)?;
    Ok(node_at(&row, 1, &mut steps))
}

#[test]
fn widths_follow_puts_and_takes(rt: HostRuntime) -> Result<(), NoMemory> {
    let widths = counted_widths::<Brand>(rt.alloc(), Blank::new(1))?;
    assert!(rt; widths == [(0, 0), (5, 0), (9, 3), (7, 0)]);
    Ok(())
}

#[test]
fn new_row_has_zeros(rt: HostRuntime) -> Result<(), NoMemory> {
    let node = node_of_new_row::<Brand>(rt.alloc(), Blank::new(1))?;
    assert!(rt;
        node == Node {
            count: 0,
            once: 0,
            twice: 0
        }
    );
    Ok(())
}
