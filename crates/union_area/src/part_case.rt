ghost use Rattle.std.specs.Prelude.{◌≡◌, IfOk};
ghost use Rattle.union_area.specs.inside.PartCases.{HasCellsIn, IsRestOf};

use super::spans::joined;
use super::survey::Survey;
use super::windows::{clipped, is_filled};
use geo_core::Rect;
use lists::NoMemory;
use skyline_runs::runs_within;
use std::alloc::Global;

/// What is left to do of a part of a window with the rectangles of a list.
#[derive(Drop)]
pub enum PartCase {
    /// No rectangle has a cell of the part.
    Nothing,
    /// They have all cells of the part.
    All,
    /// Their cells of the part are those of these rectangles, of which no two have a common cell.
    Runs(Vec<Rect>),
    /// Their cells of the part are those of these rectangles, which lie across one another: such runs took too many looks. Where
    /// they are many, the part may be halved to these two.
    Across(Vec<Rect>, Option<(Rect, Rect)>),
    /// Their cells of the part are those of these rectangles, and it is better halved to these two.
    Halves(Vec<Rect>, Rect, Rect),
}

/// How many rectangles are hopeless before runs were tried of any.
pub const NONE_TRIED: usize = usize::MAX;

/// Runs are tried again of so many times fewer rectangles.
const LESS: usize = 8;

/// So many looks for each rectangle are few.
const LOOKS_EACH: usize = 4;

/// What is left to do of a part of a window with these rectangles. Of more than an eighth of `hopeless` rectangles no runs are
/// tried, since so many took too many looks. The one error is that no memory is left.
pub fn rest_of(
    alloc: Global,
    rects: &[Rect],
    part: Rect,
    hopeless: usize,
) -> Result<PartCase, NoMemory>
    ensures { IfOk result (IsRestOf rects.now part) }
{
    let inside = within(alloc, rects, part)?;
    if inside.is_empty() {
        return Ok(PartCase::Nothing);
    }
    if is_filled(inside.as_slice(), part) {
        return Ok(PartCase::All);
    }
    let survey = survey_of(inside.as_slice(), part);
    let halves = survey.halves();
    if let Some((first, second)) = halves {
        if is_better_halved(&survey, inside.len(), hopeless) {
            return Ok(PartCase::Halves(inside, first, second));
        }
    }
    let mut left = inside.len().saturating_mul(LOOKS_EACH);
    match runs_within(alloc, inside.as_slice(), &mut left)? {
        Some(runs) => Ok(PartCase::Runs(runs)),
        None if survey.is_few() => Ok(PartCase::Across(inside, None)),
        None => Ok(PartCase::Across(inside, halves)),
    }
}

/// What the rectangles have in common with the part.
fn within(alloc: Global, rects: &[Rect], part: Rect) -> Result<Vec<Rect>, NoMemory>
    ensures { IfOk result (λ inside. HasCellsIn rects.now part inside.items) }
{
    let inside = clipped(alloc, rects, part)?;
    joined(alloc, inside, part)
}

/// How the rectangles lie in the part.
fn survey_of(rects: &[Rect], part: Rect) -> Survey
    ensures { result ≡ part }
{
    let mut survey = Survey::of(part);
    for rect in rects {
        survey.add(*rect);
    }
    survey
}

/// Whether so many rectangles are better halved than taken as they are.
fn is_better_halved(survey: &Survey, count: usize, hopeless: usize) -> bool {
    if survey.has_many_broad() {
        return true;
    }
    if survey.is_few() {
        return false;
    }
    survey.parts_well() || hopeless / LESS < count
}
