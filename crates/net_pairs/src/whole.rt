ghost use Rattle.std.specs.Prelude.{◌≡◌, IfOk, IfSome, IsTrue, OnOk, Some};
ghost use Rattle.std.specs.List.Sorted.{IsPermutation};
ghost use Rattle.short_area.specs.Zones.{AreAlikeIn};
ghost use Rattle.net_pairs.specs.inside.Whole.{HasWhole, KeepsOne};

use geo_core::{Labelled, Rect};
use lists::NoMemory;
use short_area::zones_in;
use std::alloc::Global;
use union_area::fills;

/// Whether one of the zones has all of the part.
fn has_whole(zones: &[Labelled], part: Rect) -> bool {
    for zone in zones {
        if fills(zone.rect, part) {
            return true;
        }
    }
    false
}

/// The zones with those that have all of the part before others of their label.
fn whole_first(alloc: Global, zones: &[Labelled], part: Rect) -> Result<Vec<Labelled>, NoMemory>
    ensures { IfOk result (λ sorted. IsPermutation zones.now sorted.items) }
{
    let mut sorted = Vec::from_slice(alloc, zones)?;
    sorted.sort_unstable_by_key(|zone| (zone.label, !fills(zone.rect, part)));
    Ok(sorted)
}

/// Whether this label was found last.
fn is_found(found: Option<usize>, label: usize) -> bool
    ensures { IsTrue result → found ≡ Some label }
{
    match found {
        None => false,
        Some(last) => last == label,
    }
}

/// Keeps the zone, unless the zone that was kept last with all of the part has its label. It gives the label of the one that was kept
/// last then.
fn keep_one(
    kept: &mut Vec<Labelled>,
    found: Option<usize>,
    zone: Labelled,
    part: Rect,
) -> Result<Option<usize>, NoMemory>
    requires { IfSome found (HasWhole part kept.old.items) }
    ensures kept { OnOk result (KeepsOne part zone kept.old.items kept.new.items) }
    ensures found { IfOk result (λ last. IfSome last (HasWhole part kept.new.items)) }
{
    if is_found(found, zone.label) {
        return Ok(found);
    }
    kept.push(zone)?;
    if fills(zone.rect, part) {
        return Ok(Some(zone.label));
    }
    Ok(found)
}

/// What the zones have in a part. Of a label with a zone that has all of the part this one alone is left.
pub fn zones_of_part(
    alloc: Global,
    zones: &[Labelled],
    part: Rect,
) -> Result<Vec<Labelled>, NoMemory>
    ensures { IfOk result (λ kept. AreAlikeIn part zones.now kept.items) }
{
    let inside = zones_in(alloc, zones, part)?;
    lean(alloc, inside, part)
}

/// The zones, but of a label with one that has all of the part this one alone.
fn lean(alloc: Global, zones: Vec<Labelled>, part: Rect) -> Result<Vec<Labelled>, NoMemory>
    ensures { IfOk result (λ kept. AreAlikeIn part zones.items kept.items) }
{
    if !has_whole(zones.as_slice(), part) {
        return Ok(zones);
    }
    let sorted = whole_first(alloc, zones.as_slice(), part)?;
    ones(alloc, sorted.as_slice(), part)
}

/// The zones, but behind one that has all of the part none of its label.
fn ones(alloc: Global, zones: &[Labelled], part: Rect) -> Result<Vec<Labelled>, NoMemory>
    ensures { IfOk result (λ kept. AreAlikeIn part zones.now kept.items) }
{
    let mut kept = Vec::new(alloc);
    let mut found = None;
    for zone in zones {
        found = keep_one(&mut kept, found, *zone, part)?;
    }
    Ok(kept)
}
