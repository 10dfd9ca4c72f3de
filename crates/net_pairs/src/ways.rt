ghost use Rattle.std.specs.Prelude.{◌≡◌, ◌⊎◌, All, IfOk, IfSome, IsTrue};
ghost use Rattle.net_pairs.specs.inside.PairSteps.{HaveOneLabel, HaveTwoLabels, IsStepOf};

use super::part_case::PartCase;
use super::places::{Spread, place_to_halve, spread_of};
use super::runs::{label_runs, label_runs_within};
use geo_core::{Labelled, Rect};
use lists::NoMemory;
use std::alloc::Global;

/// So many looks for each zone are few.
const LOOKS_EACH: usize = 4;

/// Runs are tried again of so many times fewer zones.
const LESS: usize = 8;

/// How many zones are hopeless before runs were tried of any.
pub const NONE_TRIED: usize = usize::MAX;

/// Whether each zone has the same label.
fn have_one_label(zones: &[Labelled]) -> bool
    ensures { IsTrue result → HaveOneLabel zones.now }
{
    let label = match zones.first() {
        None => 0,
        Some(zone) => zone.label,
    };
    for zone in zones {
        if zone.label != label {
            return false;
        }
    }
    true
}

/// The least label and the greatest one.
fn outer_labels(zones: &[Labelled]) -> (usize, usize) {
    let mut least = usize::MAX;
    let mut greatest = 0;
    for zone in zones {
        least = least.min(zone.label);
        greatest = greatest.max(zone.label);
    }
    (least, greatest)
}

/// Whether each zone has one of these two labels.
fn have_no_third(zones: &[Labelled], one: usize, other: usize) -> bool
    ensures { IsTrue result → All (λ zone. (zone.label ≡ one) ⊎ (zone.label ≡ other)) zones.now }
{
    for zone in zones {
        if zone.label != one && zone.label != other {
            return false;
        }
    }
    true
}

/// The two labels, the lesser one first, where there are two and no third.
fn only_two(zones: &[Labelled]) -> Option<(usize, usize)>
    ensures { IfSome result (λ labels. HaveTwoLabels zones.now labels.0 labels.1) }
{
    let (one, other) = outer_labels(zones);
    if one >= other || !have_no_third(zones, one, other) {
        return None;
    }
    Some((one, other))
}

/// What comes next of a window with these zones: nothing, few zones, two labels alone, runs that meet, or a place at which to halve it.
pub fn next_step(
    alloc: Global,
    zones: &[Labelled],
    window: Rect,
    hopeless: usize,
) -> Result<PartCase, NoMemory>
    ensures { IfOk result (λ step. IsStepOf zones.now window step) }
{
    if have_one_label(zones) {
        return Ok(PartCase::Nothing);
    }
    let spread = spread_of(zones, window);
    if spread.is_few() {
        return Ok(PartCase::Few);
    }
    if let Some((one, other)) = only_two(zones) {
        return Ok(PartCase::Two(one, other));
    }
    if spread.is_parted() {
        return halved(alloc, zones, window, spread, hopeless);
    }
    met_or_halved(alloc, zones, window, spread, hopeless)
}

/// The place at which to halve the window. Where there is none, the runs.
fn halved(
    alloc: Global,
    zones: &[Labelled],
    window: Rect,
    spread: Spread,
    hopeless: usize,
) -> Result<PartCase, NoMemory>
    ensures { IfOk result (λ step. IsStepOf zones.now window step) }
{
    match place_to_halve(window, spread) {
        Some((axis, place)) => Ok(PartCase::Halve(axis, place, hopeless)),
        None => Ok(PartCase::Meet(label_runs(alloc, zones)?)),
    }
}

/// The runs of many zones that lie across one another, where these are found with few looks. Runs are tried of no more than an
/// eighth of the zones of which they took too many. Else the window is halved.
fn met_or_halved(
    alloc: Global,
    zones: &[Labelled],
    window: Rect,
    spread: Spread,
    hopeless: usize,
) -> Result<PartCase, NoMemory>
    ensures { IfOk result (λ step. IsStepOf zones.now window step) }
{
    if hopeless / LESS < zones.len() {
        return halved(alloc, zones, window, spread, hopeless);
    }
    let most = zones.len().saturating_mul(LOOKS_EACH);
    match label_runs_within(alloc, zones, most)? {
        Some(runs) => Ok(PartCase::Meet(runs)),
        None => halved(alloc, zones, window, spread, zones.len()),
    }
}
