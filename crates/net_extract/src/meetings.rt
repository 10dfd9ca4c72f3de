ghost use Rattle.std.specs.Prelude.{ℕ, ◌≡◌, ◌↔◌, Contains, IfOk, map};
ghost use Rattle.std.specs.Option.{option_to_list};
ghost use Rattle.lists.specs.Differing.{AreDifferent};
ghost use Rattle.geo_core.specs.declared.plane.Cell.{Cell};
ghost use Rattle.net_extract.specs.inside.LabelledCells.{AreMeetings, HasContact, AreAt};
ghost use Rattle.net_extract.specs.declared.pieces.ContactPiece.{ContactPiece as AnyContact};

use super::pieces::ContactPiece;
use geo_core::{Labelled, Rect, clip};
use lists::NoMemory;
use std::alloc::Global;

/// Contact pieces where rectangles of both lists have cells in common, with the labels of the two. No two are the same.
pub fn meetings(
    alloc: Global,
    lower: &[Labelled],
    upper: &[Labelled],
) -> Result<Vec<ContactPiece>, NoMemory>
    ensures exact { IfOk result (λ contacts. AreMeetings lower.now upper.now contacts.items) }
    ensures once { IfOk result (λ contacts. AreDifferent contacts.items) }
{
    let lower_rects = rects_of(alloc, lower)?;
    let upper_rects = rects_of(alloc, upper)?;
    let pairs = touch_sweep::meetings(alloc, &lower_rects, &upper_rects)?;
    let mut contacts = Vec::with_capacity(alloc, pairs.len())?;
    for (a, b) in &pairs {
        if let Some(contact) = meeting(lower[*a], upper[*b]) {
            contacts.push(contact)?;
        }
    }
    Ok(each_once(contacts))
}

/// The same contact pieces in some order. Of equal ones one stays: without it, equal and nested rectangles of a cut and of both
/// its metals would come to as many pieces as there are triples of them.
fn each_once(mut contacts: Vec<ContactPiece>) -> Vec<ContactPiece>
    ensures same { (contact : AnyContact) → Contains result.items contact ↔ Contains contacts.items contact }
    ensures once { AreDifferent result.items }
{
    contacts.sort_unstable_by_key(|contact| {
        let ContactPiece { rect, lower, upper } = *contact;
        (lower, upper, (rect.x0, rect.y0, rect.x1, rect.y1))
    });
    contacts.dedup();
    contacts
}

/// The rectangles without their labels.
pub fn rects_of(alloc: Global, labelled: &[Labelled]) -> Result<Vec<Rect>, NoMemory>
    ensures { IfOk result (λ rects. rects.items ≡ map (λ one. one.rect) labelled.now) }
{
    let mut rects = Vec::with_capacity(alloc, labelled.len())?;
    for one in labelled {
        rects.push(one.rect)?;
    }
    Ok(rects)
}

/// What the two rectangles have in common, with their labels.
fn meeting(one: Labelled, other: Labelled) -> Option<ContactPiece>
    ensures { (i k : ℕ) (c : Cell) → HasContact (option_to_list result) i k c ↔ AreAt one other i k c }
{
    let rect = clip(one.rect, other.rect)?;
    Some(ContactPiece {
        rect,
        lower: one.label,
        upper: other.label,
    })
}
