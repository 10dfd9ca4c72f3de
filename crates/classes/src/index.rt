ghost use Rattle.std.specs.Prelude.{◌≡◌, ◌+◌, ◌<◌, ◌^◌, length, sum, replicate, slice_index, slice_set, IfOk};
ghost use Rattle.classes.specs.Classes.{AreBelow};
ghost use Rattle.classes.specs.inside.Degrees.{AreDegrees};
ghost use Rattle.classes.specs.inside.Index.{IsStarts, IsLaidOut, IsIndexOf};

use std::alloc::{AllocError, Global};

/// Who is a pair with whom: the neighbours of every number, laid end to end in one list.
#[derive(Drop)]
pub struct Index {
    /// For each number the place of its first neighbour, and after them all the place past the last neighbour.
    pub starts: Vec<usize>,
    /// The neighbours of 0, then those of 1, and so on.
    pub neighbours: Vec<usize>,
}

/// Makes the index of the numbers below `n`.
pub fn index_of(alloc: Global, n: usize, pairs: &[(usize, usize)]) -> Result<Index, AllocError>
    requires { AreBelow n pairs.now }
    ensures counted { IfOk result (λ index. length index.starts.items ≡ n + 1) }
    ensures index { IfOk result (λ index. IsIndexOf pairs.now index.starts.items index.neighbours.items) }
{
    let mut degrees = vec![in alloc; 0; n]?;
    count(&mut degrees, pairs);
    let starts = starts(alloc, &degrees)?;
    let mut next = starts.clone()?;
    let mut neighbours = vec![in alloc; 0; 2 * pairs.len()]?;
    fill(&mut next, &mut neighbours, pairs);
    Ok(Index { starts, neighbours })
}

/// Counts the degree of each number: how many of the pairs' ends it is.
fn count(degrees: &mut [usize], pairs: &[(usize, usize)])
    requires below { AreBelow (length degrees.old) pairs.now }
    requires fresh { degrees.old ≡ replicate (length degrees.old) 0 }
    ensures { AreDegrees (length degrees.old) pairs.now degrees.new }
{
    for &(a, b) in pairs {
        degrees[a] += 1;
        degrees[b] += 1;
    }
}

/// The places at which the neighbours of each number begin, from the degrees of those before it.
fn starts(alloc: Global, degrees: &[usize]) -> Result<Vec<usize>, AllocError>
    requires { sum degrees.now < 2 ^ 64 }
    ensures { IfOk result (λ starts. IsStarts degrees.now starts.items) }
{
    let mut starts = Vec::new(alloc);
    let mut total = 0;
    for degree in degrees {
        starts.push(total)?;
        total += *degree;
    }
    starts.push(total)?;
    Ok(starts)
}

/// Writes each end of each pair as a neighbour of the other. `next` holds the starts, and is used up.
fn fill(next: &mut [usize], neighbours: &mut [usize], pairs: &[(usize, usize)])
    requires { IsLaidOut pairs.now next.old (length neighbours.old) }
    ensures { IsIndexOf pairs.now next.old neighbours.new }
{
    for &(a, b) in pairs {
        put(next, neighbours, a, b);
        put(next, neighbours, b, a);
    }
}

/// Writes one neighbour at the first place of its number that is still free.
fn put(next: &mut [usize], neighbours: &mut [usize], number: usize, neighbour: usize)
    requires number { number < length next.old }
    requires place { slice_index next.old number < length neighbours.old }
    ensures next { next.new ≡ slice_set next.old number (slice_index next.old number + 1) }
    ensures put { neighbours.new ≡ slice_set neighbours.old (slice_index next.old number) neighbour }
{
    let place = next[number];
    neighbours[place] = neighbour;
    next[number] = place + 1;
}
