ghost use Rattle.std.specs.Prelude.{◌≡◌, ◌==◌, IfOk, map, filter};
ghost use Rattle.net_extract.specs.inside.Anchoring.{AreDifferentCarried};

use super::metal_terminals::Standing;
use super::pieces::Piece;
use geo_core::Rect;
use lists::NoMemory;
use std::alloc::Global;

/// The islands on which the terminals stand, each once.
pub fn islands_carried(alloc: Global, terminals: &[Standing]) -> Result<Vec<usize>, NoMemory>
    ensures { IfOk result (λ numbers. AreDifferentCarried terminals.now numbers.items) }
{
    let mut numbers = Vec::with_capacity(alloc, terminals.len())?;
    for standing in terminals {
        numbers.push(standing.island)?;
    }
    numbers.sort_unstable();
    numbers.dedup();
    Ok(numbers)
}

/// The rectangles of the pieces that carry the island.
pub fn rects_on(alloc: Global, pieces: &[Piece], island: usize) -> Result<Vec<Rect>, NoMemory>
    ensures { IfOk result (λ rects. rects.items ≡ map (λ piece. piece.rect)
        (filter (λ piece. piece.island == island) pieces.now)) }
{
    let mut rects = Vec::new(alloc);
    for piece in pieces {
        if piece.island == island {
            rects.push(piece.rect)?;
        }
    }
    Ok(rects)
}
