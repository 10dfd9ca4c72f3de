ghost use Rattle.std.specs.Prelude.{◌++◌, ◌≡◌, IfOk, IfSome, IsTrue, OnOk, map};
ghost use Rattle.net_pairs.specs.inside.RunsOfLabels.{AreRunsOf, GainsRuns, with_label};

use geo_core::{Labelled, Rect};
use lists::NoMemory;
use short_area::by_label;
use skyline_runs::{runs_within, union_runs};
use std::alloc::Global;

/// Rectangles without common cells for each label, which together have the cells of its zones.
pub fn label_runs(alloc: Global, zones: &[Labelled]) -> Result<Vec<Labelled>, NoMemory>
    ensures { IfOk result (λ runs. AreRunsOf zones.now runs.items) }
{
    let sorted = by_label(alloc, zones)?;
    let mut runs = Vec::new(alloc);
    let mut listed = Vec::new(alloc);
    let mut label: usize = 0;
    for zone in sorted.as_slice() {
        if zone.label != label {
            add_runs(alloc, &mut runs, listed.as_slice(), label)?;
            listed.clear();
            label = zone.label;
        }
        listed.push(zone.rect)?;
    }
    add_runs(alloc, &mut runs, listed.as_slice(), label)?;
    Ok(runs)
}

/// Adds rectangles with this label, without common cells, that have the cells of these together.
fn add_runs(
    alloc: Global,
    runs: &mut Vec<Labelled>,
    rects: &[Rect],
    label: usize,
) -> Result<(), NoMemory>
    ensures { OnOk result (GainsRuns runs.old.items runs.new.items rects.now label) }
{
    let gained = union_runs(alloc, rects)?;
    add_labelled(runs, gained.as_slice(), label)
}

/// The same as `label_runs`, where they are found with no more looks than these, all labels together.
pub fn label_runs_within(
    alloc: Global,
    zones: &[Labelled],
    most: usize,
) -> Result<Option<Vec<Labelled>>, NoMemory>
    ensures { IfOk result (λ found. IfSome found (λ runs. AreRunsOf zones.now runs.items)) }
{
    let sorted = by_label(alloc, zones)?;
    let mut left = most;
    let mut runs = Vec::new(alloc);
    let mut listed = Vec::new(alloc);
    let mut label: usize = 0;
    for zone in sorted.as_slice() {
        if zone.label != label {
            if !add_runs_within(alloc, &mut runs, listed.as_slice(), label, &mut left)? {
                return Ok(None);
            }
            listed.clear();
            label = zone.label;
        }
        listed.push(zone.rect)?;
    }
    if !add_runs_within(alloc, &mut runs, listed.as_slice(), label, &mut left)? {
        return Ok(None);
    }
    Ok(Some(runs))
}

/// The same as `add_runs`, where they are found with no more looks than are left. It tells whether they were.
fn add_runs_within(
    alloc: Global,
    runs: &mut Vec<Labelled>,
    rects: &[Rect],
    label: usize,
    left: &mut usize,
) -> Result<bool, NoMemory>
    ensures { IfOk result (λ found. IsTrue found → GainsRuns runs.old.items runs.new.items rects.now label) }
{
    let Some(gained) = runs_within(alloc, rects, left)? else {
        return Ok(false);
    };
    add_labelled(runs, gained.as_slice(), label)?;
    Ok(true)
}

/// Adds each rectangle with this label.
fn add_labelled(runs: &mut Vec<Labelled>, rects: &[Rect], label: usize) -> Result<(), NoMemory>
    ensures { OnOk result (runs.new.items ≡ runs.old.items ++ map (with_label label) rects.now) }
{
    for rect in rects {
        runs.push(Labelled { rect: *rect, label })?;
    }
    Ok(())
}
