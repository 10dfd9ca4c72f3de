ghost use Rattle.std.specs.Prelude.{◌≡◌, IfOk, length};
ghost use Rattle.std.specs.List.{AllZip};
ghost use Rattle.std.specs.List.Sorted.{IsPermutation};
ghost use Rattle.questions.specs.Questions.{IsAskable};
ghost use Rattle.questions.specs.declared.kind.Kind.TheVariants.{Open};
ghost use Rattle.critical_areas.specs.inside.Indexes.{AreOpensIn, AreReordered, HasItsOpens};
ghost use Rattle.critical_areas.specs.inside.IslandsApart.{AreApart};

use super::apart::{Apart, cells_of_islands};
use super::tile_size::greatest_reach;
use area_parts::{Asked, Parts};
use geo_core::{Labelled, Rect};
use lists::{Items, NoMemory};
use questions::{Kind, Question};
use std::alloc::Global;
use tile_plan::{NearIndex, Rectangular};

/// An index for each of the lists.
pub fn indexes_of<T: Rectangular + Drop>(
    alloc: Global,
    lists: &[Items<T>],
) -> Result<Vec<NearIndex<T>>, NoMemory>
    ensures { IfOk result (λ indexes. AllZip IsPermutation lists.now indexes.items) }
{
    let mut indexes = Vec::with_capacity(alloc, lists.len())?;
    for list in lists {
        indexes.push(NearIndex::new(alloc, list.as_slice())?)?;
    }
    Ok(indexes)
}

/// An index of the pieces of each metal. Where no defect reaches beyond its own cell none is asked for what is near, and there is
/// none.
pub fn metals_of(alloc: Global, asked: Asked<'_>) -> Result<Vec<NearIndex<Labelled>>, NoMemory>
    ensures { IfOk result (λ metals. AreReordered asked.entry.parts.now.metals metals.items) }
{
    if greatest_reach(asked) == 0 {
        return Ok(Vec::new(alloc));
    }
    indexes_of(alloc, asked.parts.metals.as_slice())
}

/// For each question an index of the cells of the window at which there is an open of a large island, where it asks for opens, and
/// else of none.
pub fn opens_of(
    alloc: Global,
    asked: Asked<'_>,
    apart: &[Apart],
    window: Rect,
) -> Result<Vec<NearIndex<Rect>>, NoMemory>
    requires apart { AllZip AreApart asked.parts.now.islands apart.now }
    ensures { IfOk result (λ opens.
        AllZip (HasItsOpens asked.entry.parts.now apart.now window) asked.entry.questions.now opens.items) }
{
    let mut opens = Vec::with_capacity(alloc, asked.questions.len())?;
    for question in asked.questions {
        opens.push(opens_for(alloc, asked.parts, apart, question, window)?)?;
    }
    Ok(opens)
}

/// An index of the cells of the window at which there is an open of a large island, where the question asks for opens, and else of
/// none.
fn opens_for(
    alloc: Global,
    parts: &Parts,
    apart: &[Apart],
    question: &Question,
    window: Rect,
) -> Result<NearIndex<Rect>, NoMemory>
    requires apart { AllZip AreApart parts.now.islands apart.now }
    requires askable { IsAskable (length parts.now.metals) (length parts.now.cuts) question.now }
    ensures { question.now.kind ≡ Open → IfOk result (AreOpensIn parts.now apart.now window question.now) }
{
    match question.kind {
        Kind::Open => {
            let metal = question.number as usize;
            let islands = parts.islands.as_slice()[metal].as_slice();
            let large = apart[metal].large.as_slice();
            let side = question.side();
            let cells = cells_of_islands(alloc, islands, large, window, side)?;
            NearIndex::new(alloc, &cells)
        }
        Kind::Short | Kind::Via => NearIndex::new(alloc, &[]),
    }
}
