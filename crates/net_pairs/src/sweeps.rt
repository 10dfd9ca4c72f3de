ghost use Rattle.std.specs.Prelude.{◌≡◌, ◌↔◌, IfNone, IfSome, OnOk};
ghost use Rattle.geo_core.specs.Cells.{Has};
ghost use Rattle.geo_core.specs.declared.plane.Cell.{Cell};
ghost use Rattle.net_pairs.specs.inside.Meetings.{AreByRow, GainsSum, admits, is_earlier, meeting, meetings_of, meetings_with, meetings_with_span};

use super::sums::PairSums;
use super::weighted::{Lesser, Weighted};
use geo_core::{Rect, clip};
use lists::NoMemory;
use std::alloc::Global;
use union_area::count_of;

/// Adds what each point has in common with each span that begins earlier, where `lesser` admits both. Both lists are in the order of their lowest rows: a
/// step takes the lower one of their first items, and looks at those of the other list that begin below its end.
pub fn sweep(
    alloc: Global,
    mut points: &[Weighted],
    mut spans: &[Weighted],
    window: Rect,
    lesser: Lesser,
    sums: &mut PairSums,
) -> Result<(), NoMemory>
    requires points { AreByRow points.now }
    requires spans { AreByRow spans.now }
    ensures { OnOk result (GainsSum (meetings_of window lesser points.entry.now spans.entry.now) sums.old.items.items sums.new.items.items) }
{
    while let Some((point, later_points)) = points.split_first() {
        let Some((span, later_spans)) = spans.split_first() else {
            return Ok(());
        };
        if point.rect.y0 <= span.rect.y0 {
            add_spans(*point, spans, window, lesser, sums)?;
            points = later_points;
        } else {
            add_points(*span, points, window, lesser, sums)?;
            spans = later_spans;
        }
        sums.shrink(alloc)?;
    }
    Ok(())
}

/// Adds what the point has in common with each span that begins earlier. The spans are in the order of their lowest rows, and
/// those that begin above the point are not looked at.
fn add_spans(
    point: Weighted,
    spans: &[Weighted],
    window: Rect,
    lesser: Lesser,
    sums: &mut PairSums,
) -> Result<(), NoMemory>
    requires { AreByRow spans.now }
    ensures { OnOk result (GainsSum (meetings_with window lesser point spans.now) sums.old.items.items sums.new.items.items) }
{
    for span in spans {
        if span.rect.y0 >= point.rect.y1 {
            return Ok(());
        }
        add_meeting(point, *span, window, lesser, sums)?;
    }
    Ok(())
}

/// The same of a span and points.
fn add_points(
    span: Weighted,
    points: &[Weighted],
    window: Rect,
    lesser: Lesser,
    sums: &mut PairSums,
) -> Result<(), NoMemory>
    requires { AreByRow points.now }
    ensures { OnOk result (GainsSum (meetings_with_span window lesser span points.now) sums.old.items.items sums.new.items.items) }
{
    for point in points {
        if point.rect.y0 >= span.rect.y1 {
            return Ok(());
        }
        add_meeting(*point, span, window, lesser, sums)?;
    }
    Ok(())
}

/// Whether the labels of the point and the span are such that both add something.
fn admits(lesser: Lesser, point: Weighted, span: Weighted) -> bool
    ensures { result ≡ admits lesser point span }
{
    match lesser {
        Lesser::Either => span.label != point.label,
        Lesser::Point => point.label < span.label,
        Lesser::Span => span.label < point.label,
    }
}

/// Whether the span begins in an earlier column than the point, or in the same one with the lesser label.
fn is_earlier(span: Weighted, point: Weighted) -> bool
    ensures { result ≡ is_earlier span point }
{
    span.rect.x0 < point.rect.x0 || span.rect.x0 <= point.rect.x0 && span.label < point.label
}

/// The cells of the window that both rectangles have.
fn common_in(one: Rect, other: Rect, window: Rect) -> Option<Rect>
    ensures some { IfSome result (λ common. (c : Cell) → Has common c ↔ (Has one c × Has other c × Has window c)) }
    ensures none { IfNone result ((c : Cell) → Has one c → Has other c → Has window c → ⊥) }
{
    let both = clip(one, other)?;
    clip(both, window)
}

/// Adds the cells of the window that the point and the span have in common, each as often as both weights tell, where the labels
/// are such that both add something and the span begins earlier.
fn add_meeting(
    point: Weighted,
    span: Weighted,
    window: Rect,
    lesser: Lesser,
    sums: &mut PairSums,
) -> Result<(), NoMemory>
    ensures { OnOk result (GainsSum (meeting window lesser point span) sums.old.items.items sums.new.items.items) }
{
    if !admits(lesser, point, span) {
        return Ok(());
    }
    if !is_earlier(span, point) {
        return Ok(());
    }
    let Some(common) = common_in(point.rect, span.rect, window) else {
        return Ok(());
    };
    let each = point.weight.wrapping_mul(span.weight);
    let cells = each.wrapping_mul(count_of(common));
    if span.label < point.label {
        sums.add(span.label, point.label, cells)
    } else {
        sums.add(point.label, span.label, cells)
    }
}
