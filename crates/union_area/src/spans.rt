ghost use Rattle.std.specs.Prelude.{◌⊎◌, ◌↔◌, IfOk, IfSome};
ghost use Rattle.geo_core.specs.Cells.{Has};
ghost use Rattle.geo_core.specs.Unions.{IsInUnion};
ghost use Rattle.geo_core.specs.declared.plane.Cell.{Cell};
ghost use Rattle.skyline_runs.specs.Runs.{HaveSameCells};

use geo_core::Rect;
use lists::NoMemory;
use std::alloc::Global;

/// Fewer rectangles than these are not joined.
const MANY: usize = 64;

/// How a rectangle lies in a window. Those that may be joined come next to each other in this order.
#[derive(Clone, Copy, PartialEq, Eq, PartialOrd, Ord)]
enum Span {
    /// It has all rows of the window, from this column on.
    AllRows(i32),
    /// It has all columns, from this row on.
    AllColumns(i32),
    /// It has neither.
    Neither,
}

/// How the rectangle lies in the window.
fn span_of(rect: Rect, window: Rect) -> Span {
    if rect.y0 == window.y0 && rect.y1 == window.y1 {
        return Span::AllRows(rect.x0);
    }
    if rect.x0 == window.x0 && rect.x1 == window.x1 {
        return Span::AllColumns(rect.y0);
    }
    Span::Neither
}

/// Whether many of the rectangles have all rows of the window, or all columns.
fn many_span(rects: &[Rect], window: Rect) -> bool {
    let spanning = rects
        .iter()
        .filter(|rect| span_of(**rect, window) != Span::Neither);
    MANY <= spanning.count()
}

/// Rectangles with the same cells, and no more: where many have all rows of the window, or all columns, those that touch are one.
/// Else large rectangles that lie one over the other, and are equal within a part of the window, go down into each part of that.
pub fn joined(alloc: Global, rects: Vec<Rect>, window: Rect) -> Result<Vec<Rect>, NoMemory>
    ensures { IfOk result (λ joined. HaveSameCells rects.items joined.items) }
{
    if !many_span(rects.as_slice(), window) {
        return Ok(rects);
    }
    let mut sorted = rects;
    sorted.sort_unstable_by_key(|rect| span_of(*rect, window));
    joined_neighbours(alloc, sorted.as_slice())
}

/// Rectangles with the same cells: neighbours in the list that make one rectangle are one.
fn joined_neighbours(alloc: Global, rects: &[Rect]) -> Result<Vec<Rect>, NoMemory>
    ensures { IfOk result (λ joined. HaveSameCells rects.now joined.items) }
{
    let mut joined = Vec::new(alloc);
    for rect in rects {
        add(&mut joined, *rect)?;
    }
    Ok(joined)
}

/// Adds a rectangle to the list, to its last one where the two make one rectangle.
fn add(joined: &mut Vec<Rect>, rect: Rect) -> Result<(), NoMemory>
    ensures { IfOk result (λ _. (c : Cell) → IsInUnion joined.new.items c ↔ (IsInUnion joined.old.items c ⊎ Has rect c)) }
{
    let Some(last) = joined.pop() else {
        joined.push(rect)?;
        return Ok(());
    };
    match both_of(last, rect) {
        Some(both) => joined.push(both)?,
        None => {
            joined.push(last)?;
            joined.push(rect)?;
        }
    }
    Ok(())
}

/// The rectangle that has the cells of both, where they lie side by side or one above the other.
fn both_of(one: Rect, other: Rect) -> Option<Rect>
    ensures { IfSome result (λ both. (c : Cell) → Has both c ↔ (Has one c ⊎ Has other c)) }
{
    match beside(one, other) {
        Some(both) => Some(both),
        None => above(one, other),
    }
}

/// The rectangle that has the cells of both, where their rows are equal and their columns touch.
fn beside(one: Rect, other: Rect) -> Option<Rect>
    ensures { IfSome result (λ both. (c : Cell) → Has both c ↔ (Has one c ⊎ Has other c)) }
{
    if one.y0 != other.y0 || one.y1 != other.y1 || one.x0 > other.x1 || other.x0 > one.x1 {
        return None;
    }
    Some(Rect::of(one.columns().join(other.columns()), one.rows()))
}

/// The rectangle that has the cells of both, where their columns are equal and their rows touch.
fn above(one: Rect, other: Rect) -> Option<Rect>
    ensures { IfSome result (λ both. (c : Cell) → Has both c ↔ (Has one c ⊎ Has other c)) }
{
    if one.x0 != other.x0 || one.x1 != other.x1 || one.y0 > other.y1 || other.y0 > one.y1 {
        return None;
    }
    Some(Rect::of(one.columns(), one.rows().join(other.rows())))
}
