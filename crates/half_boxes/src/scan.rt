//! The pairs of boxes of a short list that touch: each box is compared with those that begin no earlier, up to the first
//! one that begins behind its end.

ghost use Rattle.std.specs.Prelude.{◌∷◌, [], length, IfOk, OnOk, ◌≡◌};
ghost use Rattle.half_boxes.specs.inside.Scans.{Adds, AreFound, AreNumbered, AreTouchingPairs, IsByColumn};

use super::boxes::HalfBox;
use lists::NoMemory;
use std::alloc::{AllocError, Global};

/// A box of a list, with its number there.
#[derive(Clone, Copy)]
pub struct Numbered {
    pub number: usize,
    pub one: HalfBox,
}

/// All pairs of boxes that touch, by their numbers, in no order. For n boxes it may take n times n steps.
pub fn touching_pairs(alloc: Global, boxes: &[HalfBox]) -> Result<Vec<(usize, usize)>, NoMemory>
    ensures { IfOk result (λ pairs. AreTouchingPairs boxes.now pairs.items) }
{
    let entries = by_column(alloc, boxes)?;
    let pairs = pairs_among(alloc, entries.as_slice())?;
    Ok(pairs)
}

/// The boxes with their numbers, in the order of their first columns.
fn by_column(alloc: Global, boxes: &[HalfBox]) -> Result<Vec<Numbered>, AllocError>
    ensures numbered { IfOk result (λ entries. AreNumbered boxes.now entries.items) }
    ensures ordered { IfOk result (λ entries. IsByColumn entries.items) }
    ensures as_many { IfOk result (λ entries. length entries.items ≡ length boxes.now) }
{
    let mut entries = with_numbers(alloc, boxes)?;
    entries.sort_unstable_by_key(|entry| entry.one.columns.low);
    Ok(entries)
}

/// The boxes with their numbers.
pub fn with_numbers(alloc: Global, boxes: &[HalfBox]) -> Result<Vec<Numbered>, AllocError>
    ensures numbered { IfOk result (λ entries. AreNumbered boxes.now entries.items) }
    ensures as_many { IfOk result (λ entries. length entries.items ≡ length boxes.now) }
{
    let mut entries = Vec::with_capacity(alloc, boxes.len())?;
    for (number, one) in boxes.iter().enumerate() {
        entries.push(Numbered { number, one: *one })?;
    }
    Ok(entries)
}

/// The numbers of any two of the entries that touch.
fn pairs_among(alloc: Global, entries: &[Numbered]) -> Result<Vec<(usize, usize)>, AllocError>
    requires { IsByColumn entries.now }
    ensures { IfOk result (λ pairs. AreFound entries.now [] pairs.items) }
{
    let mut pairs = Vec::new(alloc);
    let mut left = entries;
    while let Some((entry, later)) = left.split_first() {
        add_all(*entry, later, &mut pairs)?;
        left = later;
    }
    Ok(pairs)
}

/// Adds the numbers of the entry and of each of the others that it touches.
fn add_all(
    entry: Numbered,
    others: &[Numbered],
    pairs: &mut Vec<(usize, usize)>,
) -> Result<(), AllocError>
    requires { IsByColumn others.now }
    ensures { OnOk result (Adds entry others.now pairs.old.items pairs.new.items) }
{
    for other in others {
        if other.one.columns.low > entry.one.columns.high {
            return Ok(());
        }
        add(entry, *other, pairs)?;
    }
    Ok(())
}

/// Adds the numbers of the two entries where they touch.
fn add(entry: Numbered, other: Numbered, pairs: &mut Vec<(usize, usize)>) -> Result<(), AllocError>
    ensures { OnOk result (Adds entry (other ∷ []) pairs.old.items pairs.new.items) }
{
    if entry.one.touches(other.one) {
        pairs.push((entry.number, other.number))?;
    }
    Ok(())
}
