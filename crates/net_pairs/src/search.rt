ghost use Rattle.std.specs.Prelude.{[], ◌≡◌, ◌≤ℤ◌, All, IfNone, IfOk, IfSome, OnOk, filter, not};
ghost use Rattle.net_pairs.specs.inside.Meetings.{AreByRow, GainsSum, begins_before, crosses, meetings_of, meets_partly};

use super::sums::PairSums;
use super::sweeps::sweep;
use super::weighted::{Lesser, Weighted};
use geo_core::Rect;
use lists::NoMemory;
use std::alloc::Global;

/// Of so few points the spans are not parted further.
const FEW: usize = 16;

/// No columns are halved more often.
pub const MOST_HALVINGS: u32 = 32;

/// The first column in which one of the points begins, and the last one.
#[derive(Clone, Copy)]
struct Begins {
    first: i32,
    last: i32,
}

/// The column before which points are parted from the others.
#[derive(Clone, Copy)]
struct Column {
    at: i32,
}

/// Spans that reach over all columns in which points begin, and spans that meet some of them only.
#[derive(Drop)]
struct Met {
    across: Vec<Weighted>,
    partly: Vec<Weighted>,
}

/// Points that begin before a column, and the others.
#[derive(Drop)]
struct Parts {
    before: Vec<Weighted>,
    behind: Vec<Weighted>,
}

impl Begins {
    /// Those of the points, where there are points.
    fn of(points: &[Weighted]) -> Option<Begins>
        ensures some { IfSome result (λ begins. All (λ point. (begins.first ≤ℤ point.rect.x0) × (point.rect.x0 ≤ℤ begins.last)) points.now) }
        ensures none { IfNone result (points.now ≡ []) }
    {
        let (first, _) = points.split_first()?;
        let mut begins = Begins {
            first: first.rect.x0,
            last: first.rect.x0,
        };
        for point in points {
            begins = begins.and(point);
        }
        Some(begins)
    }

    /// The same with this point too.
    fn and(self, point: &Weighted) -> Begins
        ensures first { (result.first ≤ℤ self.first) × (result.first ≤ℤ point.now.rect.x0) }
        ensures last { (self.last ≤ℤ result.last) × (point.now.rect.x0 ≤ℤ result.last) }
    {
        Begins {
            first: self.first.min(point.rect.x0),
            last: self.last.max(point.rect.x0),
        }
    }

    /// A column half way between, where there are several.
    fn middle(self) -> Column {
        let half = (self.last.abs_diff(self.first) / 2) as i32;
        let at = self.first.saturating_add(half).saturating_add(1);
        Column { at }
    }

    /// Whether the span begins no later than each point, and reaches over the column in which the last one begins.
    fn is_crossed_by(self, span: &Weighted) -> bool
        ensures { result ≡ crosses self.first self.last span.now }
    {
        span.rect.x0 <= self.first && self.last < span.rect.x1
    }

    /// Whether the span lies in some of the columns, but does not reach over all of them.
    fn is_partly_met_by(self, span: &Weighted) -> bool
        ensures { result ≡ meets_partly self.first self.last span.now }
    {
        !self.is_crossed_by(span) && span.rect.x0 <= self.last && self.first < span.rect.x1
    }

    /// Those of the spans that reach over all of these columns, and those that meet some only, in their order.
    fn met(self, alloc: Global, spans: &[Weighted]) -> Result<Met, NoMemory>
        ensures across { IfOk result (λ met. met.across.items ≡ filter (crosses self.first self.last) spans.now) }
        ensures partly { IfOk result (λ met. met.partly.items ≡ filter (meets_partly self.first self.last) spans.now) }
    {
        let mut across = Vec::new(alloc);
        let mut partly = Vec::new(alloc);
        for span in spans {
            if self.is_crossed_by(span) {
                across.push(*span)?;
            } else if self.is_partly_met_by(span) {
                partly.push(*span)?;
            }
        }
        Ok(Met { across, partly })
    }
}

/// The points that begin before the column and the others, both in their order.
fn parted(alloc: Global, points: &[Weighted], column: Column) -> Result<Parts, NoMemory>
    ensures before { IfOk result (λ parts. parts.before.items ≡ filter (begins_before column.at) points.now) }
    ensures behind { IfOk result (λ parts. parts.behind.items ≡ filter (λ point. not (begins_before column.at point)) points.now) }
{
    let mut before = Vec::new(alloc);
    let mut behind = Vec::new(alloc);
    for point in points {
        if point.rect.x0 < column.at {
            before.push(*point)?;
        } else {
            behind.push(*point)?;
        }
    }
    Ok(Parts { before, behind })
}

/// Adds what each point and each span that begins no later have in common, each cell as often as both weights tell, where the labels
/// are as `lesser` tells. It is a streamed segment tree: the columns in which points begin are halved again and again. Both lists
/// are in the order of their lowest rows.
pub fn search(
    alloc: Global,
    points: &[Weighted],
    spans: &[Weighted],
    window: Rect,
    lesser: Lesser,
    halvings: u32,
    sums: &mut PairSums,
) -> Result<(), NoMemory>
    requires points { AreByRow points.now }
    requires spans { AreByRow spans.now }
    ensures { OnOk result (GainsSum (meetings_of window lesser points.now spans.now) sums.old.items.items sums.new.items.items) }
{
    let Some(begins) = Begins::of(points) else {
        return Ok(());
    };
    let spans = add_across(alloc, points, spans, window, lesser, begins, sums)?;
    let spans = spans.as_slice();
    if points.len() <= FEW || halvings == 0 {
        return sweep(alloc, points, spans, window, lesser, sums);
    }
    let Parts { before, behind } = parted(alloc, points, begins.middle())?;
    search(
        alloc,
        before.as_slice(),
        spans,
        window,
        lesser,
        halvings - 1,
        sums,
    )?;
    search(
        alloc,
        behind.as_slice(),
        spans,
        window,
        lesser,
        halvings - 1,
        sums,
    )
}

/// Adds what each point has in common with each span that reaches over all columns in which points begin, and gives the spans
/// that meet some of them only.
fn add_across(
    alloc: Global,
    points: &[Weighted],
    spans: &[Weighted],
    window: Rect,
    lesser: Lesser,
    begins: Begins,
    sums: &mut PairSums,
) -> Result<Vec<Weighted>, NoMemory>
    requires points { AreByRow points.now }
    requires spans { AreByRow spans.now }
    ensures across { OnOk result (GainsSum (meetings_of window lesser points.now (filter (crosses begins.first begins.last) spans.now)) sums.old.items.items sums.new.items.items) }
    ensures partly { IfOk result (λ partly. partly.items ≡ filter (meets_partly begins.first begins.last) spans.now) }
{
    let Met { across, partly } = begins.met(alloc, spans)?;
    sweep(alloc, points, across.as_slice(), window, lesser, sums)?;
    Ok(partly)
}
