ghost use Rattle.std.specs.Prelude.{length, IfOk, ◌≡◌};
ghost use Rattle.touch_sweep.specs.inside.Entries.{AreNumbered, IsByRow};

use geo_core::Rect;
use std::alloc::{AllocError, Global};

/// A rectangle of a list, with its number there.
#[derive(Clone, Copy)]
pub struct Numbered {
    pub number: usize,
    pub rect: Rect,
}

/// The rectangles with their numbers, in the order of their lowest rows.
pub fn by_row(alloc: Global, rects: &[Rect]) -> Result<Vec<Numbered>, AllocError>
    ensures numbered { IfOk result (λ entries. AreNumbered rects.now entries.items) }
    ensures ordered { IfOk result (λ entries. IsByRow entries.items) }
    ensures as_many { IfOk result (λ entries. length entries.items ≡ length rects.now) }
{
    let mut entries = with_numbers(alloc, rects)?;
    entries.sort_unstable_by_key(|entry| entry.rect.y0);
    Ok(entries)
}

/// The rectangles with their numbers.
fn with_numbers(alloc: Global, rects: &[Rect]) -> Result<Vec<Numbered>, AllocError>
    ensures numbered { IfOk result (λ entries. AreNumbered rects.now entries.items) }
    ensures as_many { IfOk result (λ entries. length entries.items ≡ length rects.now) }
{
    let mut entries = Vec::with_capacity(alloc, rects.len())?;
    for (number, rect) in rects.iter().enumerate() {
        entries.push(Numbered {
            number,
            rect: *rect,
        })?;
    }
    Ok(entries)
}
