ghost use Rattle.std.specs.Prelude.{ℕ, Some, ◌≡◌, ◌<◌, IfOk, length, map, slice_get};
ghost use Rattle.std.specs.List.{AllZip};
ghost use Rattle.std.specs.List.Sorted.{IsPermutation};
ghost use Rattle.net_extract.specs.ContactGroups.{AreGroupsOf, carries_both, rects_between};
ghost use Rattle.net_extract.specs.inside.GroupSteps.{AreByIslands, IsFrontOf};

use super::pieces::{ContactGroup, ContactList, ContactPiece, GroupList};
use geo_core::{Rect, RectList};
use lists::{Items, NoMemory};
use std::alloc::Global;

/// The groups of the contact pieces of each cut.
pub fn group_lists(alloc: Global, contacts: &[ContactList]) -> Result<Items<GroupList>, NoMemory>
    ensures { IfOk result (λ groups. AllZip AreGroupsOf contacts.now groups) }
{
    let mut groups = Vec::with_capacity(alloc, contacts.len())?;
    for list in contacts {
        groups.push(GroupList::from_vec(group_contacts(alloc, list.as_slice())?))?;
    }
    Ok(Items::from_vec(groups))
}

/// The groups of the contact pieces, each once.
fn group_contacts(alloc: Global, contacts: &[ContactPiece]) -> Result<Vec<ContactGroup>, NoMemory>
    ensures { IfOk result (λ groups. AreGroupsOf contacts.now groups.items) }
{
    let sorted = by_islands(alloc, contacts)?;
    groups_in(alloc, &sorted)
}

/// The contact pieces in the order of their lower islands, and those of one lower island in the order of their upper
/// ones.
fn by_islands(alloc: Global, contacts: &[ContactPiece]) -> Result<Vec<ContactPiece>, NoMemory>
    ensures ordered { IfOk result (λ sorted. AreByIslands sorted.items) }
    ensures same { IfOk result (λ sorted. IsPermutation contacts.now sorted.items) }
    ensures kept { IfOk result (λ sorted. (lower upper : ℕ) →
        rects_between sorted.items lower upper ≡ rects_between contacts.now lower upper) }
{
    let mut sorted = Vec::from_slice(alloc, contacts)?;
    sorted.sort_by_key(|contact| (contact.lower, contact.upper))?;
    Ok(sorted)
}

/// The groups of contact pieces in this order.
fn groups_in(alloc: Global, sorted: &[ContactPiece]) -> Result<Vec<ContactGroup>, NoMemory>
    requires { AreByIslands sorted.now }
    ensures { IfOk result (λ groups. AreGroupsOf sorted.now groups.items) }
{
    let mut groups = Vec::new(alloc);
    let mut start: usize = 0;
    while start < sorted.len() {
        let rest = &sorted[start..];
        let first = rest[0];
        let count = front_of(rest, first);
        groups.push(ContactGroup {
            lower: first.lower,
            upper: first.upper,
            rects: RectList::from_vec(rects_of(alloc, &rest[..count])?),
        })?;
        start += count;
    }
    Ok(groups)
}

/// How many of the contact pieces carry the islands of the first: they stand at the front.
fn front_of(sorted: &[ContactPiece], first: ContactPiece) -> usize
    requires first { slice_get sorted.now 0 ≡ Some first }
    requires ordered { AreByIslands sorted.now }
    ensures { IsFrontOf sorted.now first.lower first.upper result }
{
    for (k, contact) in sorted.iter().enumerate() {
        if !carry_alike(contact, &first) {
            return k;
        }
    }
    sorted.len()
}

/// Whether the two carry the same islands.
fn carry_alike(one: &ContactPiece, other: &ContactPiece) -> bool
    ensures { result ≡ carries_both other.now.lower other.now.upper one.now }
{
    one.lower == other.lower && one.upper == other.upper
}

/// The rectangles of the contact pieces.
fn rects_of(alloc: Global, contacts: &[ContactPiece]) -> Result<Vec<Rect>, NoMemory>
    ensures { IfOk result (λ rects. rects.items ≡ map (λ contact. contact.rect) contacts.now) }
{
    let mut rects = Vec::with_capacity(alloc, contacts.len())?;
    for contact in contacts {
        rects.push(contact.rect)?;
    }
    Ok(rects)
}
