ghost use Rattle.std.specs.Prelude.{List, All, IfOk};
ghost use Rattle.lists.specs.Words.{AllZip};
ghost use Rattle.first_refusal.specs.Answers.{Answers};
ghost use Rattle.library_model.specs.declared.library.Structure.{Structure};
ghost use Rattle.flatten.specs.declared.placed.Placed.{Placed};
ghost use Rattle.rect_cover.specs.Coverings.{AllComeTo, IsWellPlaced, PlacedComesTo, with_items};
ghost use Rattle.rect_cover.specs.inside.ShapeAnswers.{IsAnswerFor};
ghost use Rattle.rect_cover.specs.declared.fault.CoverFault.TheVariants.{Memory};

use super::covering::cover;
use super::fault::CoverFault;
use flatten::Placed;
use geo_core::{Rect, RectList};
use library_model::Library;
use rayon::prelude::*;
use std::alloc::{AllocError, Global};
use std::thread::Threads;

/// What `cover` gives for each of the placed shapes, in their order. The fault is that of the first shape that has one.
///
/// The shapes go into pieces of one shape or more, about two for each processor, and each piece has a thread of its own.
/// So a few shapes of many points are covered side by side, too. No clause says so.
#[tactic(auto, using(first_refusal::proofs::AnswerLaws::out_of_memory))]
pub fn cover_all(
    rt: &(impl Threads + Sync),
    alloc: Global,
    library: &Library,
    placed: &[Placed],
) -> Result<Vec<RectList>, CoverFault>
    requires placed { All (IsWellPlaced library.now.structures) placed.now }
    ensures { Answers Memory (λ outcome. AllComeTo library.now.structures placed.now (with_items outcome)) result }
{
    let answers = cover_each(rt, alloc, library, placed)?;
    all_or_first_fault(alloc, answers)
}

/// What `cover` gives for each of the placed shapes, in their order.
fn cover_each(
    rt: &(impl Threads + Sync),
    alloc: Global,
    library: &Library,
    placed: &[Placed],
) -> Result<Vec<Result<Vec<Rect>, CoverFault>>, AllocError>
    requires placed { All (IsWellPlaced library.now.structures) placed.now }
    ensures { IfOk result (λ answers. AllZip (IsAnswerFor library.now.structures) placed.now answers.items) }
{
    placed
        .par_iter()
        .with_min_len(1)
        .map(
            |one: &Placed| -> Result<Vec<Rect>, CoverFault>
                requires { IsWellPlaced library.now.structures one.now }
                ensures { Answers Memory (λ outcome. PlacedComesTo library.entry.now.structures one.now (with_items outcome)) result }
            { cover(alloc, library, one) },
        )
        .collect(rt, alloc)
}

/// The rectangles of all answers, in their order, or the fault of the first that has one.
fn all_or_first_fault(
    alloc: Global,
    answers: Vec<Result<Vec<Rect>, CoverFault>>,
) -> Result<Vec<RectList>, CoverFault>
    ensures { (structures : List Structure) (placed : List Placed) → AllZip (IsAnswerFor structures) placed answers.items →
        Answers Memory (λ outcome. AllComeTo structures placed (with_items outcome)) result }
{
    let mut lists = Vec::with_capacity(alloc, answers.len())?;
    for answer in answers {
        lists.push(RectList::from_vec(answer?))?;
    }
    Ok(lists)
}
