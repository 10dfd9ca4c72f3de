ghost use Rattle.std.specs.Prelude.{◌<◌, ◌↔◌, All, IfOk, IsTrue, length};
ghost use Rattle.remnants.specs.inside.Keeping.{AreKept, ArePlaces, Matters};

use super::parts::Fixed;
use half_boxes::HalfBox;
use lists::NoMemory;
use std::alloc::Global;

/// The numbers of the boxes that are kept, in order, and for each box how many kept ones come before it.
#[derive(Drop)]
pub struct Places {
    pub places: Vec<usize>,
    pub numbers: Vec<usize>,
}

/// The places of the boxes that matter: of those that touch `outer`, and of those that lead themselves.
pub fn places_of(alloc: Global, fixed: &[Fixed], outer: HalfBox) -> Result<Places, NoMemory>
    ensures { IfOk result (λ found. ArePlaces outer fixed.now found.places.items found.numbers.items) }
{
    let mut places = Vec::with_capacity(alloc, fixed.len())?;
    let mut numbers = Vec::with_capacity(alloc, fixed.len())?;
    for (number, one) in fixed.iter().enumerate() {
        numbers.push(places.len())?;
        if matters(outer, number, *one) {
            places.push(number)?;
        }
    }
    Ok(Places { places, numbers })
}

/// Whether the box leads itself or touches `outer`.
fn matters(outer: HalfBox, number: usize, one: Fixed) -> bool
    ensures { IsTrue result ↔ Matters outer number one }
{
    one.leader == number || one.part.touches(outer)
}

/// The boxes at the places, with the numbers that their leaders have now.
pub fn kept_at(
    alloc: Global,
    fixed: &[Fixed],
    places: &[usize],
    numbers: &[usize],
) -> Result<Vec<Fixed>, NoMemory>
    requires places { All (λ place. place < length fixed.now) places.now }
    requires leaders { All (λ one. one.leader < length numbers.now) fixed.now }
    ensures { IfOk result (λ kept. AreKept fixed.now places.now numbers.now kept.items) }
{
    let mut kept = Vec::with_capacity(alloc, places.len())?;
    for place in places {
        let one = fixed[*place];
        kept.push(Fixed {
            part: one.part,
            leader: numbers[one.leader],
        })?;
    }
    Ok(kept)
}
