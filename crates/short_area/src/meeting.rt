ghost use Rattle.std.specs.Prelude.{IfOk, IsTrue};
ghost use Rattle.short_area.specs.inside.ZonesNearCells.{HaveSameTwo, MeetsOther};

use geo_core::{Labelled, overlaps};
use lists::NoMemory;
use std::alloc::Global;

/// Whether a zone of another label has a cell in common with this one.
fn meets_other(zones: &[Labelled], zone: Labelled) -> bool
    ensures { MeetsOther zones.now zone → IsTrue result }
{
    for other in zones {
        if other.label != zone.label && overlaps(other.rect, zone.rect) {
            return true;
        }
    }
    false
}

/// The zones that have a cell in common with one of another label: no other zone has a cell of two labels.
pub fn beside_others(alloc: Global, zones: &[Labelled]) -> Result<Vec<Labelled>, NoMemory>
    ensures { IfOk result (λ kept. HaveSameTwo zones.now kept.items) }
{
    let mut kept = Vec::with_capacity(alloc, zones.len())?;
    for zone in zones {
        if meets_other(zones, *zone) {
            kept.push(*zone)?;
        }
    }
    Ok(kept)
}
