ghost use Rattle.std.specs.Prelude.{[], length, IfNone, IfSome, OnOk, ◌+◌, ◌*◌, ◌≤◌, ◌≡◌};
ghost use Rattle.touch_sweep.specs.inside.Chains.{AreInRow, ChainsOne, ChainsRest, IsFarthestOf, KeepsFarthest, Links};
ghost use Rattle.touch_sweep.specs.inside.Entries.{IsByRow};
ghost use Rattle.touch_sweep.specs.inside.Matches.{IsMatchOf, IsMatchWith, Gains};

use super::numbered::Numbered;
use super::sweep::add;
use std::alloc::{AllocError, Global};

/// Adds pairs of numbers by which each point and each span that touch are joined, where their rows alone tell whether
/// they touch. Both lists are in the order of their lowest rows.
///
/// Some of the points so far are open, and some of the spans. An entry of the one list is paired with those open ones of
/// the other list that it touches. These are joined by way of it from then on, so that of them only the one that reaches
/// farthest up stays open. For n entries there are at most 2 n pairs.
pub fn chain(
    alloc: Global,
    mut points: &[Numbered],
    mut spans: &[Numbered],
    pairs: &mut Vec<(usize, usize)>,
) -> Result<(), AllocError>
    requires points { IsByRow points.now }
    requires spans { IsByRow spans.now }
    requires rows { AreInRow points.now spans.now }
    ensures joined { OnOk result (let found = IsMatchOf points.entry.now spans.entry.now in
        Links found found pairs.old.items pairs.new.items) }
    ensures few { OnOk result (length pairs.new.items ≤
        length pairs.old.items + 2 * (length points.entry.now + length spans.entry.now)) }
{
    if spans.is_empty() {
        return Ok(());
    }
    let mut open_points = Vec::new(alloc);
    let mut open_spans = Vec::new(alloc);
    while let Some((point, later_points)) = points.split_first() {
        let Some((span, later_spans)) = spans.split_first() else {
            return chain_rest(points, &mut open_points, &mut open_spans, pairs);
        };
        if point.rect.y0 <= span.rect.y0 {
            chain_one(*point, &mut open_points, &mut open_spans, pairs)?;
            points = later_points;
        } else {
            chain_one(*span, &mut open_spans, &mut open_points, pairs)?;
            spans = later_spans;
        }
    }
    chain_rest(spans, &mut open_spans, &mut open_points, pairs)
}

/// Takes the rest of the one list, where the other list has none left.
fn chain_rest(
    mut rest: &[Numbered],
    own: &mut Vec<Numbered>,
    others: &mut Vec<Numbered>,
    pairs: &mut Vec<(usize, usize)>,
) -> Result<(), AllocError>
    ensures joined { OnOk result (ChainsRest rest.entry.now own.old.items others.old.items pairs.old.items pairs.new.items) }
    ensures few { OnOk result (length pairs.new.items ≤
        length pairs.old.items + length own.old.items + length others.old.items + 2 * length rest.entry.now) }
{
    while let Some((first, later)) = rest.split_first() {
        chain_one(*first, own, others, pairs)?;
        rest = later;
    }
    Ok(())
}

/// Pairs an entry with those open ones of the other list that it touches. Of all of these the one that reaches farthest
/// up stays open, and the entry is open in its own list.
fn chain_one(
    one: Numbered,
    own: &mut Vec<Numbered>,
    others: &mut Vec<Numbered>,
    pairs: &mut Vec<(usize, usize)>,
) -> Result<(), AllocError>
    ensures chained { OnOk result (ChainsOne one own.old.items others.old.items own.new.items others.new.items
        pairs.old.items pairs.new.items) }
    ensures few { OnOk result (length pairs.new.items + length own.new.items + length others.new.items ≤
        length pairs.old.items + length own.old.items + length others.old.items + 2) }
{
    add_each(one, others, pairs)?;
    keep_farthest(others)?;
    own.push(one)?;
    Ok(())
}

/// Adds the numbers of this entry and each of the others that it touches.
fn add_each(
    one: Numbered,
    others: &[Numbered],
    pairs: &mut Vec<(usize, usize)>,
) -> Result<(), AllocError>
    ensures found { OnOk result (let found = IsMatchWith one others.now in
        Gains found found pairs.old.items pairs.new.items) }
    ensures few { OnOk result (length pairs.new.items ≤ length pairs.old.items + length others.now) }
{
    for other in others {
        add(one, *other, pairs)?;
    }
    Ok(())
}

/// Keeps the one entry, if there is any, that reaches farthest up.
fn keep_farthest(entries: &mut Vec<Numbered>) -> Result<(), AllocError>
    ensures farthest { OnOk result (KeepsFarthest entries.old.items entries.new.items) }
    ensures few { OnOk result (length entries.new.items ≤ 1) }
{
    let Some(farthest) = farthest(entries) else {
        return Ok(());
    };
    entries.clear();
    entries.push(farthest)?;
    Ok(())
}

/// The entry that reaches farthest up.
fn farthest(entries: &[Numbered]) -> Option<Numbered>
    ensures some { IfSome result (IsFarthestOf entries.now) }
    ensures none { IfNone result (entries.now ≡ []) }
{
    let (first, later) = entries.split_first()?;
    let mut farthest = *first;
    for entry in later {
        if farthest.rect.y1 < entry.rect.y1 {
            farthest = *entry;
        }
    }
    Some(farthest)
}
