ghost use Rattle.std.specs.Prelude.{ℕ, ◌≡◌, ◌≢◌, ◌↔◌, All, Contains, IfNone, IfOk, IfSome, IsTrue};
ghost use Rattle.geo_core.specs.declared.plane.Cell.{Cell};
ghost use Rattle.geo_core.specs.declared.plane.Labelled.{Labelled};
ghost use Rattle.union_area.specs.WindowParts.{HasAllOf};
ghost use Rattle.short_area.specs.Zones.{IsInTwoLabels};
ghost use Rattle.short_area.specs.inside.ZonesNearCells.{AreSplit, HaveNoThird, IsWholeIn};

use geo_core::{Labelled, Rect};
use lists::NoMemory;
use std::alloc::Global;
use union_area::fills;

/// The label of the first zone that has another one than this.
fn other_label(zones: &[Labelled], label: usize) -> Option<usize>
    ensures some { IfSome result (λ other. other ≢ label) }
    ensures none { IfNone result (All (λ zone. zone.label ≡ label) zones.now) }
{
    for zone in zones {
        if zone.label != label {
            return Some(zone.label);
        }
    }
    None
}

/// Two of the labels, where there are two.
pub fn two_labels(zones: &[Labelled]) -> Option<(usize, usize)>
    ensures some { IfSome result (λ labels. labels.0 ≢ labels.1) }
    ensures none { IfNone result ((c : Cell) → IsInTwoLabels zones.now c → ⊥) }
{
    let label = match zones.first() {
        None => 0,
        Some(zone) => zone.label,
    };
    match other_label(zones, label) {
        None => None,
        Some(other) => Some((label, other)),
    }
}

/// Whether each zone has one of these two labels.
pub fn have_no_third(zones: &[Labelled], one: usize, other: usize) -> bool
    ensures { IsTrue result ↔ HaveNoThird zones.now one other }
{
    for zone in zones {
        if zone.label != one && zone.label != other {
            return false;
        }
    }
    true
}

/// The label of a zone that has all cells of the window.
pub fn whole_label(zones: &[Labelled], window: Rect) -> Option<usize>
    ensures some { IfSome result (λ label. IsWholeIn window zones.now label) }

    // Without this one no zone might ever count as whole, and each window be halved down to its cells.
    ensures none { IfNone result (All (λ zone. HasAllOf window zone.rect → ⊥) zones.now) }
{
    for zone in zones {
        if fills(zone.rect, window) {
            return Some(zone.label);
        }
    }
    None
}

/// Whether a zone of another label has all cells of the window.
pub fn is_other_whole(zones: &[Labelled], window: Rect, label: usize) -> bool
    ensures whole { IsTrue result → (other : ℕ) × (label ≢ other) × IsWholeIn window zones.now other }
    ensures by_one { (zone : Labelled) → Contains zones.now zone → zone.label ≢ label → HasAllOf window zone.rect
        → IsTrue result }
{
    for zone in zones {
        if zone.label != label && fills(zone.rect, window) {
            return true;
        }
    }
    false
}

/// The rectangles of the zones with this label, and those of the others.
pub fn split(
    alloc: Global,
    zones: &[Labelled],
    label: usize,
) -> Result<(Vec<Rect>, Vec<Rect>), NoMemory>
    ensures { IfOk result (λ both. AreSplit zones.now label both.0.items both.1.items) }
{
    let mut own = Vec::new(alloc);
    let mut others = Vec::new(alloc);
    for zone in zones {
        if zone.label == label {
            own.push(zone.rect)?;
        } else {
            others.push(zone.rect)?;
        }
    }
    Ok((own, others))
}
