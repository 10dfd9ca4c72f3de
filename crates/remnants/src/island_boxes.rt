ghost use Rattle.std.specs.Prelude.{ℕ, ◌<◌, ◌↔◌, Contains, IfOk};
ghost use Rattle.remnants.specs.inside.IslandBoxes.{GainsHalves, IsOfRects, IsOfSpots};

use super::parts::Loose;
use fault_model::Spot;
use geo_core::Rect;
use half_boxes::HalfBox;
use lists::NoMemory;
use std::alloc::Global;

/// With a loose box for each of the rectangles behind, all of the terminal with this number, or of none.
pub fn with_rects(
    boxes: Vec<Loose>,
    rects: &[Rect],
    terminal: Option<usize>,
) -> Result<Vec<Loose>, NoMemory>
    ensures { IfOk result (λ more. GainsHalves (IsOfRects rects.now terminal) boxes.items more.items) }
{
    let mut more = boxes;
    for rect in rects {
        more.push(Loose {
            part: HalfBox::of_rect(*rect),
            terminal,
        })?;
    }
    Ok(more)
}

/// With a loose box for each rectangle of each spot behind, of the terminal with the spot's number.
pub fn with_spots(boxes: Vec<Loose>, spots: &[Spot]) -> Result<Vec<Loose>, NoMemory>
    ensures { IfOk result (λ more. GainsHalves (IsOfSpots spots.now) boxes.items more.items) }
{
    let mut more = boxes;
    for (number, spot) in spots.iter().enumerate() {
        more = with_rects(more, spot.rects.as_slice(), Some(number))?;
    }
    Ok(more)
}

/// All numbers below the count.
pub fn numbers_below(alloc: Global, count: usize) -> Result<Vec<usize>, NoMemory>
    ensures { IfOk result (λ numbers. (k : ℕ) → Contains numbers.items k ↔ (k < count)) }
{
    let mut numbers = Vec::with_capacity(alloc, count)?;
    for number in 0..count {
        numbers.push(number)?;
    }
    Ok(numbers)
}
