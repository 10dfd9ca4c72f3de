ghost use Rattle.std.specs.Prelude.{All, AllPairs, IfOk, OnOk, pos, ◌+ℤ◌, ◌<ℤ◌, ◌≡◌};
ghost use Rattle.net_pairs.specs.inside.RowChanges.{IsChangeIn};
ghost use Rattle.net_pairs.specs.inside.Dense.{AreLowered, AreSlabsOf, AreWeighed, AreWeighedChangesOf, GainsByChanges, GainsLower, common_weight, weighed_in};
ghost use Rattle.net_pairs.specs.inside.PairGains.{GainsCells, IsInBoth};
ghost use Rattle.net_pairs.specs.inside.RunsOfLabels.{IsApart};
ghost use Rattle.net_pairs.specs.inside.Meetings.{AreByRow, GainsSum};

use super::changes::changes_of;
use super::meetings::{by_row, sort_by_row};
use super::search::{MOST_HALVINGS, search};
use super::slabs::slabs_of;
use super::sums::PairSums;
use super::weighted::{Lesser, Weighted};
use geo_core::{Interval, Labelled, Rect};
use lists::NoMemory;
use std::alloc::Global;

/// Adds for each two labels the cells of the window in runs of both. Row by row, what two labels have in common changes where the one
/// begins or ends within the other: so changes of the lesser label meet slabs of the greater one in their row, and changes of the
/// greater one meet slabs of the lesser one in the row below.
pub fn add_dense(
    alloc: Global,
    runs: &[Labelled],
    window: Rect,
    sums: &mut PairSums,
) -> Result<(), NoMemory>
    requires { AllPairs IsApart runs.now }
    ensures { OnOk result (GainsCells (IsInBoth runs.now) window sums.old.items.items sums.new.items.items) }
{
    let slabs = slabs_by_row(alloc, runs, window)?;
    let changes = changes_by_row(alloc, runs, window)?;
    add_changes(alloc, changes, slabs.as_slice(), window, sums)
}

/// Adds what changes have in common with slabs of greater labels, and then, one row lower, what they have with slabs of lesser
/// labels. Both lists are in the order of their lowest rows.
fn add_changes(
    alloc: Global,
    changes: Vec<Weighted>,
    slabs: &[Weighted],
    window: Rect,
    sums: &mut PairSums,
) -> Result<(), NoMemory>
    requires within { All (IsChangeIn window) changes.items }
    requires changes { AreByRow changes.items }
    requires slabs { AreByRow slabs.now }
    ensures { OnOk result (GainsByChanges window changes.items slabs.now sums.old.items.items sums.new.items.items) }
{
    add_common(alloc, changes.as_slice(), slabs, window, sums)?;
    let lower = lowered_by_row(alloc, changes, window)?;
    add_common(alloc, slabs, lower.as_slice(), window, sums)
}

/// Adds what rectangles of the first list have in common with those of the second one that have greater labels.
fn add_common(
    alloc: Global,
    lessers: &[Weighted],
    greaters: &[Weighted],
    window: Rect,
    sums: &mut PairSums,
) -> Result<(), NoMemory>
    requires lessers { AreByRow lessers.now }
    requires greaters { AreByRow greaters.now }
    ensures { OnOk result (GainsSum (common_weight window lessers.now greaters.now) sums.old.items.items sums.new.items.items) }
{
    search(
        alloc,
        lessers,
        greaters,
        window,
        Lesser::Point,
        MOST_HALVINGS,
        sums,
    )?;
    search(
        alloc,
        greaters,
        lessers,
        window,
        Lesser::Span,
        MOST_HALVINGS,
        sums,
    )
}

/// Few rectangles that cover of each label what the runs cover, in the order of their lowest rows.
fn slabs_by_row(alloc: Global, runs: &[Labelled], window: Rect) -> Result<Vec<Weighted>, NoMemory>
    ensures slabs { IfOk result (λ slabs. AreSlabsOf window runs.now slabs.items) }
    ensures ordered { IfOk result (λ slabs. AreByRow slabs.items) }
{
    let slabs = slabs_of(alloc, runs, window)?;
    by_row(alloc, slabs.as_slice())
}

/// The change with its weight times the rows from its own to the top of the window, in 64 bits.
fn weighed(change: Weighted, window: Rect) -> Weighted
    ensures { result ≡ weighed_in window change }
{
    let rows = u64::from(window.y1.abs_diff(change.rect.y0));
    Weighted {
        weight: change.weight.wrapping_mul(rows),
        ..change
    }
}

/// Lets each change count as often as there are rows from its own to the top of the window: so far up it lasts.
fn weigh(changes: &mut Vec<Weighted>, window: Rect)
    requires { All (IsChangeIn window) changes.old.items }
    ensures { AreWeighed window changes.old.items changes.new.items }
{
    for change in changes.iter_mut() {
        *change = weighed(*change, window);
    }
}

/// The changes of the runs from row to row of the window, each as often as it lasts, in the order of their lowest rows.
fn changes_by_row(alloc: Global, runs: &[Labelled], window: Rect) -> Result<Vec<Weighted>, NoMemory>
    ensures changes { IfOk result (λ changes. AreWeighedChangesOf window runs.now changes.items) }
    ensures ordered { IfOk result (λ changes. AreByRow changes.items) }
{
    let mut changes = changes_of(alloc, runs, window)?;
    weigh(&mut changes, window);
    sort_by_row(&mut changes);
    Ok(changes)
}

/// The rows below these, each by one. There is one in the window below all of them.
fn lower_rows(rows: Interval, window: Interval) -> Interval
    requires { window.low <ℤ rows.low }
    ensures low { result.low +ℤ pos 1 ≡ rows.low }
    ensures high { result.high +ℤ pos 1 ≡ rows.high }
{
    Interval {
        low: rows.low - 1,
        high: rows.high - 1,
    }
}

/// Adds the change one row lower, unless it lies in the window's lowest row.
fn push_lower(lowered: &mut Vec<Weighted>, change: Weighted, window: Rect) -> Result<(), NoMemory>
    ensures { OnOk result (GainsLower window change lowered.old.items lowered.new.items) }
{
    let rows = change.rect.rows();
    let all = window.rows();
    if rows.low <= all.low {
        return Ok(());
    }
    let rect = Rect::of(change.rect.columns(), lower_rows(rows, all));
    lowered.push(Weighted { rect, ..change })?;
    Ok(())
}

/// The changes one row lower each, without those of the window's lowest row.
fn lowered(alloc: Global, changes: &[Weighted], window: Rect) -> Result<Vec<Weighted>, NoMemory>
    requires { All (IsChangeIn window) changes.now }
    ensures { IfOk result (λ lowered. AreLowered window changes.now lowered.items) }
{
    let mut lowered = Vec::new(alloc);
    for change in changes {
        push_lower(&mut lowered, *change, window)?;
    }
    Ok(lowered)
}

/// The same in the order of their lowest rows. The changes themselves are kept no longer.
fn lowered_by_row(
    alloc: Global,
    changes: Vec<Weighted>,
    window: Rect,
) -> Result<Vec<Weighted>, NoMemory>
    requires { All (IsChangeIn window) changes.items }
    ensures lowered { IfOk result (λ lower. AreLowered window changes.items lower.items) }
    ensures ordered { IfOk result (λ lower. AreByRow lower.items) }
{
    let mut lower = lowered(alloc, changes.as_slice(), window)?;
    sort_by_row(&mut lower);
    Ok(lower)
}
