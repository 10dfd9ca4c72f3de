ghost use Rattle.std.specs.Prelude.{◌<◌, ◌^◌, IfOk, IfSome, OnOk, length};
ghost use Rattle.fault_model.specs.Areas.{IsBoundsOf, Tally, cells_of};
ghost use Rattle.short_area.specs.inside.LabelRuns.{IsInZone};
ghost use Rattle.short_area.specs.inside.Leaders.{AreOthers, ArePartsIn, GainsPart, IsBesideRun};
ghost use Rattle.short_area.specs.Zones.{IsCountOf};

use super::leads::{Lead, lead_of};
use super::part_case::LOOKS_EACH;
use super::runs::label_runs_within;
use super::sweeps::area_of_two;
use geo_core::{Labelled, Rect, clip, join};
use lists::NoMemory;
use std::alloc::Global;
use union_area::{count_of, union_area};

/// So few zones of other labels are soon parted.
const FEW: usize = 64;

/// The count where one label has most of the zones, if those of the others are many and their runs are found with few
/// looks. Its own zones need no runs, of which a mesh has as many as holes. They matter where the others lie, and nowhere
/// else.
pub fn counted_by_leader(
    alloc: Global,
    zones: &[Labelled],
    window: Rect,
) -> Result<Option<u64>, NoMemory>
    ensures { IfOk result (λ found. IfSome found (λ n. IsCountOf zones.now window n)) }
{
    let lead = lead_of(zones);
    if !leaves_holes(zones, lead, window) {
        return Ok(None);
    }
    counted_beside(alloc, zones, window, lead.label)
}

/// Whether the label leads by half of the zones, and these leave holes. Where bars in both directions close them, parts of the
/// window soon lie in one zone.
fn leaves_holes(zones: &[Labelled], lead: Lead, window: Rect) -> bool {
    if zones.len() - zones.len() / 2 > lead.zones {
        return false;
    }
    cells_of_label(zones, lead.label) / 2 < count_of(window)
}

/// How many cells the zones with this label have, each counted by itself.
fn cells_of_label(zones: &[Labelled], label: usize) -> u64 {
    let mut cells: u64 = 0;
    for zone in zones {
        if zone.label == label {
            cells = cells.saturating_add(count_of(zone.rect));
        }
    }
    cells
}

/// The count by runs of the labels but this one, if their zones are many and the runs are found with few looks.
fn counted_beside(
    alloc: Global,
    zones: &[Labelled],
    window: Rect,
    leader: usize,
) -> Result<Option<u64>, NoMemory>
    ensures { IfOk result (λ found. IfSome found (λ n. IsCountOf zones.now window n)) }
{
    let others = others_of(alloc, zones, leader)?;
    let others = others.as_slice();
    if others.len() < FEW {
        return Ok(None);
    }
    let most = others.len().saturating_mul(LOOKS_EACH);
    let Some(runs) = label_runs_within(alloc, others, most)? else {
        return Ok(None);
    };
    let own = parts_in(alloc, zones, leader, bounds_of(others))?;
    let count = area_beside_runs(alloc, own.as_slice(), runs.as_slice(), window)?;
    Ok(Some(count))
}

/// The zones of the other labels.
fn others_of(alloc: Global, zones: &[Labelled], leader: usize) -> Result<Vec<Labelled>, NoMemory>
    ensures { IfOk result (λ others. AreOthers zones.now leader others.items) }
{
    let mut others = Vec::new(alloc);
    for zone in zones {
        if zone.label != leader {
            others.push(*zone)?;
        }
    }
    Ok(others)
}

/// The least rectangle that has the cells of all zones, of which there has to be one.
fn bounds_of(zones: &[Labelled]) -> Rect
    requires { 0 < length zones.now }
    ensures { IsBoundsOf (IsInZone zones.now) result }
{
    let mut bounds = zones[0].rect;
    for zone in zones {
        bounds = join(bounds, zone.rect);
    }
    bounds
}

/// What the zones with this label have within the bounds.
fn parts_in(
    alloc: Global,
    zones: &[Labelled],
    label: usize,
    bounds: Rect,
) -> Result<Vec<Rect>, NoMemory>
    ensures { IfOk result (λ parts. ArePartsIn zones.now label bounds parts.items) }
{
    let mut parts = Vec::new(alloc);
    for zone in zones {
        add_part(&mut parts, *zone, label, bounds)?;
    }
    Ok(parts)
}

/// Adds what the zone has within the bounds, where it has this label.
fn add_part(
    parts: &mut Vec<Rect>,
    zone: Labelled,
    label: usize,
    bounds: Rect,
) -> Result<(), NoMemory>
    ensures { OnOk result (GainsPart parts.old.items parts.new.items zone label bounds) }
{
    if zone.label != label {
        return Ok(());
    }
    if let Some(part) = clip(zone.rect, bounds) {
        parts.push(part)?;
    }
    Ok(())
}

/// How many cells of the window lie in a run, and beside it in one of the leader's rectangles or in another run.
///
/// With the leader's rectangles twice and each run once, the cells of the leader and those of two runs lie in two
/// rectangles. These are all that are asked for, and those of the leader that have no run: as many as all cells that have
/// a run or a rectangle of the leader, less those that have a run.
fn area_beside_runs(
    alloc: Global,
    own: &[Rect],
    runs: &[Rect],
    window: Rect,
) -> Result<u64, NoMemory>
    ensures tally { IfOk result (λ n. Tally (IsBesideRun own.now runs.now) (cells_of window) n) }
    ensures small { IfOk result (λ n. n < 2 ^ 63) }
{
    let mut rects = Vec::from_slice(alloc, own)?;
    rects.extend_from_slice(runs)?;
    let in_either = union_area(alloc, rects.as_slice(), window)?;
    rects.extend_from_slice(own)?;
    let in_two = area_of_two(alloc, rects.as_slice(), window)?;
    let in_runs = union_area(alloc, runs, window)?;
    Ok(in_two + in_runs - in_either)
}
