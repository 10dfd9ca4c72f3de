ghost use Rattle.std.specs.Prelude.{◌↔◌, IfOk};
ghost use Rattle.geo_core.specs.Cells.{Has};
ghost use Rattle.geo_core.specs.Unions.{IsInUnion};
ghost use Rattle.geo_core.specs.declared.plane.Cell.{Cell};
ghost use Rattle.skyline_runs.specs.Runs.{AreApart};
ghost use Rattle.union_area.specs.PartRects.{GainsPart};

use super::part_case::{NONE_TRIED, PartCase, rest_of};
use geo_core::Rect;
use joined_rects::Gathered;
use lists::NoMemory;
use skyline_runs::union_runs;
use std::alloc::Global;

/// The cells of the window that lie in at least one rectangle of the list, as rectangles without common cells. Their order and
/// number are left open. The only error is that no memory is left.
pub fn union_rects(alloc: Global, rects: &[Rect], window: Rect) -> Result<Vec<Rect>, NoMemory>
    ensures cells { IfOk result (λ found. (c : Cell) →
        IsInUnion found.items c ↔ (IsInUnion rects.now c × Has window c)) }
    ensures apart { IfOk result (λ found. AreApart found.items) }
{
    let found = with_union(alloc, Gathered::new(alloc), rects, window, NONE_TRIED)?;
    found.finish(alloc)
}

/// What was gathered so far, with the cells that the rectangles have in the window. Of more than an eighth of `hopeless`
/// rectangles no runs are tried, since so many took too many looks.
fn with_union(
    alloc: Global,
    found: Gathered,
    rects: &[Rect],
    window: Rect,
    hopeless: usize,
) -> Result<Gathered, NoMemory>
    ensures { IfOk result (λ more. GainsPart (IsInUnion rects.now) window found more) }
{
    match rest_of(alloc, rects, window, hopeless)? {
        PartCase::Nothing => Ok(found),
        PartCase::All => found.with(alloc, &[window]),
        PartCase::Runs(runs) => found.with(alloc, runs.as_slice()),
        PartCase::Across(inside, halves) => match halves {
            None => {
                let runs = union_runs(alloc, inside.as_slice())?;
                found.with(alloc, runs.as_slice())
            }
            Some((first, second)) => {
                let hopeless = inside.len();
                let found = with_union(alloc, found, inside.as_slice(), first, hopeless)?;
                with_union(alloc, found, inside.as_slice(), second, hopeless)
            }
        },
        PartCase::Halves(inside, first, second) => {
            let found = with_union(alloc, found, inside.as_slice(), first, hopeless)?;
            with_union(alloc, found, inside.as_slice(), second, hopeless)
        }
    }
}
