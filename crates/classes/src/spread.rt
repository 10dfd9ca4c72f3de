ghost use Rattle.std.specs.Prelude.{◌≡◌, ◌+◌, ◌<◌, ◌≤◌, length, sum, slice_index, OnOk};
ghost use Rattle.std.specs.VecDeque.{deque_len};
ghost use Rattle.classes.specs.inside.Spreading.{IsGraph, IsSettled, IsSpreading, IsMarked};

use std::alloc::{AllocError, Global};
use std::collections::VecDeque;

/// Gives the class `start` to that number and, breadth first, to every number that chains lead to from it.
///
/// An entry that is no number, since it is not below the count of numbers, says that its number has no class yet.
pub fn spread(
    alloc: Global,
    starts: &[usize],
    neighbours: &[usize],
    classes: &mut [usize],
    start: usize,
) -> Result<(), AllocError>
    requires graph { IsGraph (length classes.old) starts.now neighbours.now }
    requires start { start < length classes.old }
    requires fresh { length classes.old ≤ slice_index classes.old start }
    requires before { IsSettled starts.now neighbours.now classes.old start }
    ensures { OnOk result (IsSettled starts.now neighbours.now classes.new (start + 1)) }
{
    let mut todo = VecDeque::new(alloc);
    todo.push_back(start)?;
    classes[start] = start;
    while let Some(number) = todo.pop_front() {
        reach(starts, neighbours, classes, &mut todo, start, number)?;
    }
    Ok(())
}

/// Hands the class of a number on to those of its neighbours that have none.
///
/// Each number that joins the queue loses a larger entry, so the sum of all entries and the queue's length does not
/// rise.
fn reach(
    starts: &[usize],
    neighbours: &[usize],
    classes: &mut [usize],
    todo: &mut VecDeque<usize>,
    class: usize,
    number: usize,
) -> Result<(), AllocError>
    requires graph { IsGraph (length classes.old) starts.now neighbours.now }
    requires class { class < length classes.old }
    requires number { number < length classes.old }
    requires marked { slice_index classes.old number ≡ class }
    requires before { IsSpreading starts.now neighbours.now classes.old todo.old.items class number
        (slice_index starts.now number) }
    ensures after { OnOk result (IsSpreading starts.now neighbours.now classes.new todo.new.items class number
        (slice_index starts.now (number + 1))) }
    ensures fewer { OnOk result (sum classes.new + deque_len todo.new ≤ sum classes.old + deque_len todo.old) }
{
    for place in starts[number]..starts[number + 1] {
        mark(classes, todo, class, neighbours[place])?;
    }
    Ok(())
}

/// Gives the class to one number and puts it in the queue, unless it has a class already.
fn mark(
    classes: &mut [usize],
    todo: &mut VecDeque<usize>,
    class: usize,
    number: usize,
) -> Result<(), AllocError>
    requires { number < length classes.old }
    ensures { OnOk result
        (IsMarked classes.old todo.old.items class number classes.new todo.new.items) }
{
    if classes[number] < classes.len() {
        return Ok(());
    }
    todo.push_back(number)?;
    classes[number] = class;
    Ok(())
}
