ghost use Rattle.std.specs.Prelude.{◌≡◌, AllPairs, IfOk, OnOk, map};
ghost use Rattle.std.specs.List.Sorted.{IsPermutation};
ghost use Rattle.net_pairs.specs.inside.PairGains.{GainsCells, IsInBoth};
ghost use Rattle.net_pairs.specs.inside.RunsOfLabels.{IsApart};
ghost use Rattle.net_pairs.specs.inside.Meetings.{AreByRow, counted_once};

use super::search::{MOST_HALVINGS, search};
use super::sums::PairSums;
use super::weighted::{Lesser, Weighted};
use geo_core::{Labelled, Rect};
use lists::NoMemory;
use std::alloc::Global;

/// The run, of which each cell counts once.
pub fn counted_once(run: Labelled) -> Weighted
    ensures { result ≡ counted_once run }
{
    Weighted {
        rect: run.rect,
        label: run.label,
        weight: 1,
    }
}

/// The runs in the order of their lowest rows, of which each cell counts once.
pub fn by_row(alloc: Global, runs: &[Labelled]) -> Result<Vec<Weighted>, NoMemory>
    ensures same { IfOk result (λ sorted. IsPermutation (map counted_once runs.now) sorted.items) }
    ensures ordered { IfOk result (λ sorted. AreByRow sorted.items) }
{
    let mut sorted = once_each(alloc, runs)?;
    sort_by_row(&mut sorted);
    Ok(sorted)
}

/// Puts the rectangles in the order of their lowest rows.
pub fn sort_by_row(rects: &mut Vec<Weighted>)
    ensures same { IsPermutation rects.old.items rects.new.items }
    ensures ordered { AreByRow rects.new.items }
{
    rects.sort_unstable_by_key(|rect| rect.rect.y0);
}

/// The runs in their order, of which each cell counts once.
fn once_each(alloc: Global, runs: &[Labelled]) -> Result<Vec<Weighted>, NoMemory>
    ensures { IfOk result (λ once. once.items ≡ map counted_once runs.now) }
{
    let mut once = Vec::new(alloc);
    for run in runs {
        once.push(counted_once(*run))?;
    }
    Ok(once)
}

/// Adds for each two labels the cells of the window in runs of both: those that each two have in common that meet.
pub fn add_meetings(
    alloc: Global,
    runs: &[Labelled],
    window: Rect,
    sums: &mut PairSums,
) -> Result<(), NoMemory>
    requires { AllPairs IsApart runs.now }
    ensures { OnOk result (GainsCells (IsInBoth runs.now) window sums.old.items.items sums.new.items.items) }
{
    let sorted = by_row(alloc, runs)?;
    let sorted = sorted.as_slice();
    search(
        alloc,
        sorted,
        sorted,
        window,
        Lesser::Either,
        MOST_HALVINGS,
        sums,
    )
}
