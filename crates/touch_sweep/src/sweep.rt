ghost use Rattle.std.specs.Prelude.{true, length, IfOk, OnOk, ◌+◌, ◌*◌, ◌≤◌, ◌≡◌};
ghost use Rattle.touch_sweep.specs.inside.Entries.{IsByRow};
ghost use Rattle.touch_sweep.specs.inside.Matches.{IsMatch, IsMatchWith, IsMatchOf, Gains};

use super::numbered::Numbered;
use geo_core::touches;
use std::alloc::AllocError;

/// Adds the numbers of each point and each span that touch. Both lists are in the order of their lowest rows: a step
/// takes the lower one of their first entries, and looks at those of the other list that begin no higher than it ends.
pub fn sweep(
    mut points: &[Numbered],
    mut spans: &[Numbered],
    pairs: &mut Vec<(usize, usize)>,
) -> Result<(), AllocError>
    requires points { IsByRow points.now }
    requires spans { IsByRow spans.now }
    ensures found { OnOk result (let found = IsMatchOf points.entry.now spans.entry.now in
        Gains found found pairs.old.items pairs.new.items) }
    ensures few { OnOk result (length pairs.new.items ≤
        length pairs.old.items + length points.entry.now * length spans.entry.now) }
{
    while let Some((point, later_points)) = points.split_first() {
        let Some((span, later_spans)) = spans.split_first() else {
            return Ok(());
        };
        if point.rect.y0 <= span.rect.y0 {
            add_all(*point, spans, pairs)?;
            points = later_points;
        } else {
            add_all(*span, points, pairs)?;
            spans = later_spans;
        }
    }
    Ok(())
}

/// Does the same, or ends early where there are more than so many new pairs, and tells whether it came to the end.
pub fn sweep_some(
    mut points: &[Numbered],
    mut spans: &[Numbered],
    enough: usize,
    pairs: &mut Vec<(usize, usize)>,
) -> Result<bool, AllocError>
    requires points { IsByRow points.now }
    requires spans { IsByRow spans.now }
    ensures some { OnOk result (Gains (λ p. ⊥) (IsMatchOf points.entry.now spans.entry.now)
        pairs.old.items pairs.new.items) }
    ensures all { IfOk result (λ is_whole. is_whole ≡ true →
        let found = IsMatchOf points.entry.now spans.entry.now in
        Gains found found pairs.old.items pairs.new.items) }
    ensures few { OnOk result (length pairs.new.items ≤
        length pairs.old.items + enough + length points.entry.now + length spans.entry.now) }
{
    let most = pairs.len().saturating_add(enough);
    while let Some((point, later_points)) = points.split_first() {
        let Some((span, later_spans)) = spans.split_first() else {
            return Ok(true);
        };
        if pairs.len() > most {
            return Ok(false);
        }
        if point.rect.y0 <= span.rect.y0 {
            add_all(*point, spans, pairs)?;
            points = later_points;
        } else {
            add_all(*span, points, pairs)?;
            spans = later_spans;
        }
    }
    Ok(true)
}

/// Adds the numbers of this entry and each of the others that it touches. The others are in the order of their lowest
/// rows, and those that begin above it are not looked at.
fn add_all(
    one: Numbered,
    others: &[Numbered],
    pairs: &mut Vec<(usize, usize)>,
) -> Result<(), AllocError>
    requires { IsByRow others.now }
    ensures found { OnOk result (let found = IsMatchWith one others.now in
        Gains found found pairs.old.items pairs.new.items) }
    ensures few { OnOk result (length pairs.new.items ≤ length pairs.old.items + length others.now) }
{
    for other in others {
        if other.rect.y0 > one.rect.y1 {
            return Ok(());
        }
        add(one, *other, pairs)?;
    }
    Ok(())
}

/// Adds the numbers of the two entries, the lesser one first, where they touch and are not the same.
pub fn add(
    one: Numbered,
    other: Numbered,
    pairs: &mut Vec<(usize, usize)>,
) -> Result<(), AllocError>
    ensures found { OnOk result (let found = IsMatch one other in
        Gains found found pairs.old.items pairs.new.items) }
    ensures few { OnOk result (length pairs.new.items ≤ length pairs.old.items + 1) }
{
    if !touches(one.rect, other.rect) {
        return Ok(());
    }
    if one.number < other.number {
        pairs.push((one.number, other.number))?;
    } else if other.number < one.number {
        pairs.push((other.number, one.number))?;
    }
    Ok(())
}
