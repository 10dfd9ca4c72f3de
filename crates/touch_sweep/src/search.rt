ghost use Rattle.std.specs.Prelude.{filter, IfOk, OnOk, ◌≡◌};
ghost use Rattle.touch_sweep.specs.inside.Entries.{IsByRow};
ghost use Rattle.touch_sweep.specs.inside.Matches.{IsMatchOf, IsMatchFrom, Gains};
ghost use Rattle.touch_sweep.specs.inside.Strips.{crosses, meets_partly};

use super::numbered::Numbered;
use super::strip::{Met, Strip};
use super::sweep::sweep;
use std::alloc::{AllocError, Global};

/// Columns in which no more than this many rectangles begin are not split further.
const FEW: usize = 16;

/// Adds the numbers of each point and each span that touch, where the point begins in the strip and the span begins no
/// later than the point. Both lists are in the order of their lowest rows.
pub fn search(
    alloc: Global,
    points: &[Numbered],
    spans: &[Numbered],
    strip: Strip<'_>,
    pairs: &mut Vec<(usize, usize)>,
) -> Result<(), AllocError>
    requires points { IsByRow points.now }
    requires spans { IsByRow spans.now }
    ensures { OnOk result (Gains
        (IsMatchFrom strip.entry.low strip.entry.high points.now spans.now) (IsMatchOf points.now spans.now)
        pairs.old.items pairs.new.items) }
{
    let points = strip.beginning(alloc, points)?;
    let points = points.as_slice();
    if points.is_empty() {
        return Ok(());
    }
    let spans = pair_across(alloc, points, spans, strip, pairs)?;
    let spans = spans.as_slice();
    if points.len() <= FEW || strip.splits.len() <= 1 {
        return sweep(points, spans, pairs);
    }
    let (left, right) = strip.halves();
    search(alloc, points, spans, left, pairs)?;
    search(alloc, points, spans, right, pairs)
}

/// Adds the numbers of each point and each span that touch, where the span reaches over all columns of the strip, and
/// gives the spans that meet some of them only. All lists are in the order of their lowest rows.
fn pair_across(
    alloc: Global,
    points: &[Numbered],
    spans: &[Numbered],
    strip: Strip<'_>,
    pairs: &mut Vec<(usize, usize)>,
) -> Result<Vec<Numbered>, AllocError>
    requires points { IsByRow points.now }
    requires spans { IsByRow spans.now }
    ensures across { OnOk result (
        let found = IsMatchOf points.now (filter (crosses strip.entry.low strip.entry.high) spans.now) in
        Gains found found pairs.old.items pairs.new.items) }
    ensures partly { IfOk result (λ partly.
        partly.items ≡ filter (meets_partly strip.entry.low strip.entry.high) spans.now) }
{
    let Met { across, partly } = strip.met(alloc, spans)?;
    sweep(points, across.as_slice(), pairs)?;
    Ok(partly)
}
