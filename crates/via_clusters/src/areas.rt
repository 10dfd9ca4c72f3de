ghost use Rattle.std.specs.Prelude.{ℤ, ◌<◌, ◌^◌, ◌↔◌, IfNone, IfOk, IfSome};
ghost use Rattle.geo_core.specs.Bounds.{IsRadius};
ghost use Rattle.geo_core.specs.Cells.{Has};
ghost use Rattle.geo_core.specs.Intervals.{IsIn};
ghost use Rattle.geo_core.specs.Unions.{IsInUnion};
ghost use Rattle.geo_core.specs.declared.plane.Cell.{Cell};
ghost use Rattle.fault_model.specs.Areas.{Tally, cells_of};
ghost use Rattle.skyline_runs.specs.Runs.{AreApart};
ghost use Rattle.via_clusters.specs.Blocks.{CoversBox, CoversSomeBox};
ghost use Rattle.via_clusters.specs.inside.Centres.{AreCovered};

use geo_core::{Interval, Rect};
use lists::NoMemory;
use std::alloc::Global;
use union_area::{union_area, union_rects};

/// How many cells of the window are the centre of a defect that covers all of at least one of the boxes. The defect is
/// the square of side `2r` round the cell's centre, in database units. A cell counts once, however many boxes are
/// covered from there. With the least rectangle of each cluster of a cut these are the cells at which a via is blocked.
///
/// The one error is that no memory is left.
pub fn via_area(alloc: Global, boxes: &[Rect], window: Rect, r: u32) -> Result<u64, NoMemory>
    requires { IsRadius r }
    ensures tally { IfOk result (λ n. Tally (CoversSomeBox boxes.now r) (cells_of window) n) }

    // No edge of a window is further than 1,001,000,000 from 0.
    ensures small { IfOk result (λ n. n < 2 ^ 63) }
{
    let centres = centres_of(alloc, boxes, window, r)?;
    union_area(alloc, centres.as_slice(), window)
}

/// The cells of the window that are the centre of a defect that covers all of at least one of the boxes, as rectangles without
/// common cells. The defect is the square of side `2r` round the cell's centre, in database units, where `r` is 1 to 1,000,000. With
/// the least rectangle of each cluster of a cut these are the cells at which a via is blocked. The order and the number of the
/// rectangles are left open.
///
/// The one error is that no memory is left.
pub fn via_rects(alloc: Global, boxes: &[Rect], window: Rect, r: u32) -> Result<Vec<Rect>, NoMemory>
    requires { IsRadius r }
    ensures cells { IfOk result (λ found. (c : Cell) →
        IsInUnion found.items c ↔ (CoversSomeBox boxes.now r c × Has window c)) }
    ensures apart { IfOk result (λ found. AreApart found.items) }
{
    let centres = centres_of(alloc, boxes, window, r)?;
    union_rects(alloc, centres.as_slice(), window)
}

/// The cells of the window from which a defect covers one of the boxes, as rectangles.
fn centres_of(alloc: Global, boxes: &[Rect], window: Rect, r: u32) -> Result<Vec<Rect>, NoMemory>
    requires { IsRadius r }
    ensures { IfOk result (λ centres. (c : Cell) →
        IsInUnion centres.items c ↔ (CoversSomeBox boxes.now r c × Has window c)) }
{
    let mut centres = Vec::new(alloc);
    for covered in boxes {
        match centres_round(*covered, window, r) {
            None => {}
            Some(cells) => centres.push(cells)?,
        }
    }
    Ok(centres)
}

/// The cells of the window from which a defect covers the box. In a large window these are `2r - w` columns and `2r - h`
/// rows for a box of `w` by `h` cells, and none where one of these numbers is not positive.
fn centres_round(covered: Rect, window: Rect, r: u32) -> Option<Rect>
    requires { IsRadius r }
    ensures some { IfSome result (λ cells. (c : Cell) → Has cells c ↔ (CoversBox covered r c × Has window c)) }
    ensures none { IfNone result ((c : Cell) → CoversBox covered r c → Has window c → ⊥) }
{
    let columns = centres_along(covered.columns(), window.columns(), r)?;
    let rows = centres_along(covered.rows(), window.rows(), r)?;
    Some(Rect::of(columns, rows))
}

/// The places of the window along an axis from which a defect covers all of these.
fn centres_along(covered: Interval, window: Interval, r: u32) -> Option<Interval>
    requires { IsRadius r }
    ensures some { IfSome result (λ places. (x : ℤ) → IsIn places.low places.high x
        ↔ (AreCovered covered.low covered.high r x × IsIn window.low window.high x)) }
    ensures none { IfNone result ((x : ℤ) →
        AreCovered covered.low covered.high r x → IsIn window.low window.high x → ⊥) }
{
    // A defect of radius r has all of the cells up to r - 1 away, and of those r away one half. So it has the last of
    // these from `high - r` on, and the first of them up to `low + r - 1`.
    let reach = r as i32;
    let low = (covered.high - reach).max(window.low);
    let high = (covered.low + reach).min(window.high);
    if low >= high {
        return None;
    }
    Some(Interval { low, high })
}
