ghost use Rattle.std.specs.Prelude.{◌≡◌, ◌+◌, ◌≤◌, All, IfOk, length, map};
ghost use Rattle.lists.specs.Differing.{AreDifferent};
ghost use Rattle.map_model.specs.Layers.{JoinsMetals};
ghost use Rattle.net_extract.specs.inside.LabelledCells.{AreContactsOf, ArePartsIn};
ghost use Rattle.net_extract.specs.inside.Numbering.{AreContactLists};

use super::meetings::meetings;
use super::merging::slim;
use super::metals::IslandList;
use super::pieces::ContactList;
use geo_core::{Labelled, Rect, RectList};
use lists::{Items, NoMemory};
use map_model::Cut;
use std::alloc::Global;

/// The contact pieces of each cut, whose rectangles are in the lists behind those of the metals.
pub fn contact_lists(
    alloc: Global,
    cuts: &[Cut],
    lists: &[RectList],
    islands: &[IslandList],
) -> Result<Items<ContactList>, NoMemory>
    requires one_each { length islands.now + length cuts.now ≤ length lists.now }
    requires cuts_join { All (JoinsMetals (length islands.now)) cuts.now }
    ensures { IfOk result (λ contacts. AreContactLists lists.now islands.now cuts.now contacts) }
{
    let mut contacts = Vec::new(alloc);
    for (k, cut) in cuts.iter().enumerate() {
        let rects = lists[islands.len() + k].as_slice();
        let lower = islands[cut.lower as usize].as_slice();
        let upper = islands[cut.upper as usize].as_slice();
        contacts.push(contacts_in(alloc, rects, lower, upper)?)?;
    }
    Ok(Items::from_vec(contacts))
}

/// The contact pieces of a cut with these rectangles: where one of them, one of the lower metal and one of the upper
/// metal have cells in common. No two are the same.
fn contacts_in(
    alloc: Global,
    cut: &[Rect],
    lower: &[Labelled],
    upper: &[Labelled],
) -> Result<ContactList, NoMemory>
    ensures exact { IfOk result (λ contacts. AreContactsOf cut.now lower.now upper.now contacts) }
    ensures once { IfOk result (λ contacts. AreDifferent contacts) }
{
    let parts = slim(alloc, parts_in(alloc, cut, lower)?)?;
    Ok(ContactList::from_vec(meetings(alloc, &parts, upper)?))
}

/// The parts of the rectangles that lie in the cut's rectangles, with their labels.
fn parts_in(alloc: Global, cut: &[Rect], rects: &[Labelled]) -> Result<Vec<Labelled>, NoMemory>
    ensures { IfOk result (λ parts. ArePartsIn cut.now rects.now parts.items) }
{
    let cut = labelled_alike(alloc, cut)?;
    let met = meetings(alloc, &cut, rects)?;
    let mut parts = Vec::with_capacity(alloc, met.len())?;
    for part in &met {
        parts.push(Labelled {
            rect: part.rect,
            label: part.upper,
        })?;
    }
    Ok(parts)
}

/// The rectangles, all with the label 0.
fn labelled_alike(alloc: Global, rects: &[Rect]) -> Result<Vec<Labelled>, NoMemory>
    ensures { IfOk result (λ alike. alike.items ≡ map (λ rect. record { rect = rect; label = 0 }) rects.now) }
{
    let mut alike = Vec::new(alloc);
    for rect in rects {
        alike.push(Labelled {
            rect: *rect,
            label: 0,
        })?;
    }
    Ok(alike)
}
