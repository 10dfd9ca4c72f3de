//! Classes of numbers that pairs join, each by its least number.
//!
//! A walk begins at each number that none has reached, in rising order, and gives its number to all that it reaches.
#![tactic(auto)]

mod index;
mod spread;

ghost use Rattle.std.specs.Prelude.{ℕ, List, IfOk};
ghost use Rattle.classes.specs.Classes.{AreBelow, IsClasses};
ghost use Rattle.classes.specs.ClassConsequences.{ClassesAgree, EqualWhereJoined};

use index::index_of;
use spread::spread;
use std::alloc::{AllocError, Global};

/// The class of each number below `n`: the least number that a chain of pairs leads to from it.
///
/// Two numbers have the same class exactly where a chain leads from the one to the other. A chain takes a pair in
/// either direction, and may be empty. A pair may stand in the list more than once, and a number may be a pair with
/// itself. The only error is that no memory is left.
pub fn classes(alloc: Global, n: usize, pairs: &[(usize, usize)]) -> Result<Vec<usize>, AllocError>
    requires { AreBelow n pairs.now }
    ensures least { IfOk result (λ classes. IsClasses n pairs.now classes.items) }
    ensures equal { IfOk result (λ classes. EqualWhereJoined n pairs.now classes.items) }
{
    let index = index_of(alloc, n, pairs)?;
    let mut classes = vec![in alloc; n; n]?;
    for start in 0..n {
        if classes[start] >= n {
            spread(alloc, &index.starts, &index.neighbours, &mut classes, start)?;
        }
    }
    Ok(classes)
}

/// No two lists are both the classes of the same pairs.
pub fn classes_agree()
    ensures { (n : ℕ) (pairs : List (ℕ × ℕ)) → ClassesAgree n pairs }
{}
