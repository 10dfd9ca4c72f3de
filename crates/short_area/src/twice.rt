ghost use Rattle.std.specs.Prelude.{IfOk, IfSome};
ghost use Rattle.skyline_runs.specs.Runs.{IsInTwo};
ghost use Rattle.union_area.specs.PartRects.{AreClipped, AreRectsOf, GainsPart};
ghost use Rattle.union_area.specs.WindowParts.{AreParts};

use geo_core::Rect;
use joined_rects::{Gathered, joined};
use lists::NoMemory;
use skyline_runs::{twice_runs, twice_runs_within};
use std::alloc::Global;
use union_area::{Survey, clipped};

/// So many looks for each rectangle are few.
const LOOKS_EACH: usize = 32;

/// What was gathered so far, with the cells of the part that lie in two of the rectangles. Where it takes too many looks to tell
/// which these are, the part is halved, and what the rectangles have in a half is joined.
pub fn with_twice(
    alloc: Global,
    found: Gathered,
    rects: Vec<Rect>,
    part: Rect,
) -> Result<Gathered, NoMemory>
    ensures { IfOk result (λ more. GainsPart (IsInTwo rects.items) part found more) }
{
    if let Some(twice) = few_twice_in(alloc, rects.as_slice(), part)? {
        return found.with(alloc, twice.as_slice());
    }
    match halves_of(rects.as_slice(), part) {
        None => {
            let twice = twice_in(alloc, rects.as_slice(), part)?;
            found.with(alloc, twice.as_slice())
        }
        Some((first, second)) => {
            let before = joined_in(alloc, rects.as_slice(), first)?;
            let behind = joined_in(alloc, rects.as_slice(), second)?;
            let found = with_twice(alloc, found, before, first)?;
            with_twice(alloc, found, behind, second)
        }
    }
}

/// Rectangles without common cells that have the cells of the part that lie in two of the list.
fn twice_in(alloc: Global, rects: &[Rect], part: Rect) -> Result<Vec<Rect>, NoMemory>
    ensures { IfOk result (λ twice. AreRectsOf (IsInTwo rects.now) part twice.items) }
{
    let twice = twice_runs(alloc, rects)?;
    clipped(alloc, twice.as_slice(), part)
}

/// The same, where they are found with few looks.
fn few_twice_in(alloc: Global, rects: &[Rect], part: Rect) -> Result<Option<Vec<Rect>>, NoMemory>
    ensures { IfOk result (λ found. IfSome found (λ twice. AreRectsOf (IsInTwo rects.now) part twice.items)) }
{
    let mut looks = rects.len().saturating_mul(LOOKS_EACH);
    let Some(twice) = twice_runs_within(alloc, rects, &mut looks)? else {
        return Ok(None);
    };
    Ok(Some(clipped(alloc, twice.as_slice(), part)?))
}

/// Two parts of the part; a single cell has none.
fn halves_of(rects: &[Rect], part: Rect) -> Option<(Rect, Rect)>
    ensures { IfSome result (λ halves. AreParts part halves.0 halves.1) }
{
    let mut survey = Survey::of(part);
    for rect in rects {
        survey.add(*rect);
    }
    survey.halves()
}

/// What the rectangles have in the part, joined where they share a whole edge.
fn joined_in(alloc: Global, rects: &[Rect], part: Rect) -> Result<Vec<Rect>, NoMemory>
    ensures { IfOk result (λ inside. AreClipped rects.now part inside.items) }
{
    let inside = clipped(alloc, rects, part)?;
    joined(alloc, inside)
}
