ghost use Rattle.std.specs.Prelude.{◌≡◌, IfOk, IsTrue, OnOk, false};
ghost use Rattle.geo_core.specs.Cells.{Overlap};
ghost use Rattle.net_pairs.specs.inside.Beside.{HaveSameBoth, IsAlone, KeepsBeside};
ghost use Rattle.net_pairs.specs.inside.PairGains.{GainsCells, IsInBoth};

use super::meetings::add_meetings;
use super::runs::label_runs;
use super::sums::PairSums;
use geo_core::{Labelled, Rect, overlaps};
use lists::NoMemory;
use std::alloc::Global;

/// Whether the two have different labels and a cell in common.
fn meets_other(one: Labelled, other: Labelled) -> bool
    ensures { result ≡ false → Overlap one.rect other.rect → one.label ≡ other.label }
{
    if one.label == other.label {
        return false;
    }
    overlaps(one.rect, other.rect)
}

/// Whether no zone of another label has a cell of this one.
fn is_alone(zones: &[Labelled], zone: Labelled) -> bool
    ensures { IsTrue result → IsAlone zones.now zone }
{
    for other in zones {
        if meets_other(*other, zone) {
            return false;
        }
    }
    true
}

/// Keeps the zone where one of another label has a cell of it.
fn keep_beside(kept: &mut Vec<Labelled>, zones: &[Labelled], zone: Labelled) -> Result<(), NoMemory>
    ensures { OnOk result (KeepsBeside zones.now zone kept.old.items kept.new.items) }
{
    if is_alone(zones, zone) {
        return Ok(());
    }
    kept.push(zone)?;
    Ok(())
}

/// Those of the zones that have a cell in common with a zone of another label.
fn beside_others(alloc: Global, zones: &[Labelled]) -> Result<Vec<Labelled>, NoMemory>
    ensures { IfOk result (λ kept. HaveSameBoth zones.now kept.items) }
{
    let mut kept = Vec::new(alloc);
    for zone in zones {
        keep_beside(&mut kept, zones, *zone)?;
    }
    Ok(kept)
}

/// Adds for each two labels the cells of the window in zones of both, where there are so few zones that each may be looked at with
/// each. No runs are made of zones that meet none of another label.
pub fn add_few(
    alloc: Global,
    zones: &[Labelled],
    window: Rect,
    sums: &mut PairSums,
) -> Result<(), NoMemory>
    ensures { OnOk result (GainsCells (IsInBoth zones.now) window sums.old.items.items sums.new.items.items) }
{
    let kept = beside_others(alloc, zones)?;
    let runs = label_runs(alloc, kept.as_slice())?;
    add_meetings(alloc, runs.as_slice(), window, sums)
}
