ghost use Rattle.std.specs.Prelude.{ℕ, List, [], false, length, slice_index, IfOk, OnOk, ◌≡◌, ◌<◌, ◌≤◌};
ghost use Rattle.classes.specs.Classes.{IsPair};
ghost use Rattle.touch_sweep.specs.inside.Chains.{Links};
ghost use Rattle.touch_sweep.specs.inside.Trees.{AreJoinedUp, GoDown, JoinsStill, KeepsOne};

use std::alloc::{AllocError, Global};

/// Pairs are let go only where there are more than this many for each number.
const MANY: usize = 4;

/// Lets go of pairs of numbers that the others join, where there are many pairs. So many numbers need less than one pair
/// each.
pub fn thin(alloc: Global, count: usize, pairs: &mut Vec<(usize, usize)>) -> Result<(), AllocError>
    ensures joined { OnOk result (Links (λ p. ⊥) (λ p. ⊥) pairs.old.items pairs.new.items) }
    ensures few { OnOk result (length pairs.new.items ≤ length pairs.old.items) }
{
    if pairs.len() <= count.saturating_mul(MANY) {
        return Ok(());
    }
    let mut parents = numbers(alloc, count)?;
    *pairs = joining(alloc, &mut parents, pairs)?;
    Ok(())
}

/// The numbers below the count, each of which hangs on itself.
fn numbers(alloc: Global, count: usize) -> Result<Vec<usize>, AllocError>
    ensures down { IfOk result (λ parents. GoDown parents.items) }
    ensures joined { IfOk result (λ parents. AreJoinedUp [] parents.items) }
{
    let mut parents = Vec::with_capacity(alloc, count)?;
    for number in 0..count {
        parents.push(number)?;
    }
    Ok(parents)
}

/// Those of the pairs whose numbers the pairs before them do not join. Each number has a tree of its own at first.
fn joining(
    alloc: Global,
    parents: &mut [usize],
    pairs: &[(usize, usize)],
) -> Result<Vec<(usize, usize)>, AllocError>
    requires down { GoDown parents.old }
    requires joined { AreJoinedUp [] parents.old }
    ensures joined { IfOk result (λ kept. Links (λ p. ⊥) (λ p. ⊥) pairs.now kept.items) }
    ensures few { IfOk result (λ kept. length kept.items ≤ length pairs.now) }
{
    let mut kept = Vec::new(alloc);
    for &(a, b) in pairs {
        keep(parents, &mut kept, a, b)?;
    }
    Ok(kept)
}

/// Adds a pair to those that join the numbers of each tree, unless its numbers are of one tree.
fn keep(
    parents: &mut [usize],
    kept: &mut Vec<(usize, usize)>,
    a: usize,
    b: usize,
) -> Result<(), AllocError>
    requires down { GoDown parents.old }
    requires joined { AreJoinedUp kept.old.items parents.old }
    ensures { OnOk result (KeepsOne (a, b) kept.old.items kept.new.items parents.new) }
{
    if !unite(parents, a, b) {
        return Ok(());
    }
    kept.push((a, b))?;
    Ok(())
}

/// Makes one tree of those of two numbers, and tells whether they were not one before. Numbers without a tree are not.
fn unite(parents: &mut [usize], a: usize, b: usize) -> bool
    requires { GoDown parents.old }
    ensures down { GoDown parents.new }
    ensures united { (pairs : List (ℕ × ℕ)) → IsPair pairs a b → AreJoinedUp pairs parents.old →
        AreJoinedUp pairs parents.new }
    ensures one { result ≡ false → JoinsStill parents.old parents.new a b }
{
    if a >= parents.len() || b >= parents.len() {
        return true;
    }
    let first = root(parents, a);
    let second = root(parents, b);
    if first == second {
        return false;
    }
    parents[first.max(second)] = first.min(second);
    true
}

/// The least number of the tree of this one. On the way there numbers are hung nearer to it.
fn root(parents: &mut [usize], number: usize) -> usize
    requires down { GoDown parents.old }
    requires number { number < length parents.old }
    ensures down { GoDown parents.new }
    ensures below { result < length parents.old }
    ensures joined { JoinsStill parents.old parents.new number result }
{
    let mut here = number;
    while parents[here] < here {
        here = shorten(parents, here);
    }
    here
}

/// Hangs a number on the one on which its parent hangs, and gives that.
fn shorten(parents: &mut [usize], number: usize) -> usize
    requires down { GoDown parents.old }
    requires number { number < length parents.old }
    requires less { slice_index parents.old number < number }
    ensures down { GoDown parents.new }
    ensures less { result < number }
    ensures joined { JoinsStill parents.old parents.new number result }
{
    let next = parents[parents[number]];
    parents[number] = next;
    next
}
