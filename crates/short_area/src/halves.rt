ghost use Rattle.std.specs.Prelude.{IfOk};
ghost use Rattle.short_area.specs.Zones.{AreAlikeIn};

use super::zones::zones_in;
use geo_core::{Labelled, Rect};
use lists::NoMemory;
use std::alloc::Global;

/// What the zones have in the one part and in the other. The zones themselves are kept no longer.
pub fn halves(
    alloc: Global,
    zones: Vec<Labelled>,
    first: Rect,
    second: Rect,
) -> Result<(Vec<Labelled>, Vec<Labelled>), NoMemory>
    ensures first { IfOk result (λ both. AreAlikeIn first zones.items both.0.items) }
    ensures second { IfOk result (λ both. AreAlikeIn second zones.items both.1.items) }
{
    let before = zones_in(alloc, zones.as_slice(), first)?;
    let behind = zones_in(alloc, zones.as_slice(), second)?;
    Ok((before, behind))
}
