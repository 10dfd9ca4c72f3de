ghost use Rattle.std.specs.Prelude.{ℕ, ◌≡◌, ◌==◌, All, IfOk, filter};
ghost use Rattle.std.specs.List.Sorted.{IsNonDecreasingBy};

use super::metal_terminals::Standing;
use super::pieces::Piece;
use lists::NoMemory;
use std::alloc::Global;

/// The pieces in the order of their islands. Those of one island keep their order.
pub fn by_island(alloc: Global, pieces: &[Piece]) -> Result<Vec<Piece>, NoMemory>
    ensures rising { IfOk result (λ sorted. IsNonDecreasingBy (λ piece. piece.island) sorted.items) }
    ensures kept { IfOk result (λ sorted. (island : ℕ) →
        filter (λ piece. piece.island == island) sorted.items ≡ filter (λ piece. piece.island == island) pieces.now) }
{
    let mut sorted = Vec::from_slice(alloc, pieces)?;
    sorted.sort_by_key(|piece| piece.island)?;
    Ok(sorted)
}

/// The part of such a list in which the pieces of the island stand, and no others.
pub fn part_of(sorted: &[Piece], island: usize) -> &[Piece]
    requires { IsNonDecreasingBy (λ piece. piece.island) sorted.now }
    ensures all { filter (λ piece. piece.island == island) result.now ≡ filter (λ piece. piece.island == island) sorted.now }
    ensures alone { All (λ piece. piece.island ≡ island) result.now }
{
    let first = sorted.partition_point(|piece| piece.island < island);
    let rest = &sorted[first..];
    let count = rest.partition_point(|piece| piece.island <= island);
    &rest[..count]
}

/// The terminals in the order of their islands. Those of one island keep their order.
pub fn terminals_by_island(mut terminals: Vec<Standing>) -> Result<Vec<Standing>, NoMemory>
    ensures rising { IfOk result (λ sorted. IsNonDecreasingBy (λ standing. standing.island) sorted.items) }
    ensures kept { IfOk result (λ sorted. (island : ℕ) →
        filter (λ standing. standing.island == island) sorted.items
        ≡ filter (λ standing. standing.island == island) terminals.items) }
{
    terminals.sort_by_key(|standing| standing.island)?;
    Ok(terminals)
}

/// The part of such a list in which the terminals of the island stand, and no others.
pub fn terminals_at(sorted: &[Standing], island: usize) -> &[Standing]
    requires { IsNonDecreasingBy (λ standing. standing.island) sorted.now }
    ensures { result.now ≡ filter (λ standing. standing.island == island) sorted.now }
{
    let first = sorted.partition_point(|standing| standing.island < island);
    let rest = &sorted[first..];
    let count = rest.partition_point(|standing| standing.island <= island);
    &rest[..count]
}
