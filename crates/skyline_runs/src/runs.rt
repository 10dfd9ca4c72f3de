ghost use Rattle.std.specs.Prelude.{ℤ, List, Contains, ◌<◌, ◌≤◌, ◌+◌, ◌*◌, ◌≡◌, ◌⊎◌, ◌↔◌, IsTrue, IsFalse, IfNone, IfOk, IfSome, OnOk, length};
ghost use Rattle.std.specs.List.Sorted.{IsPermutation};
ghost use Rattle.geo_core.specs.Cells.{Has};
ghost use Rattle.geo_core.specs.declared.plane.Cell.{Cell};
ghost use Rattle.skyline_runs.specs.Runs.{AreApart, AreByRow, HaveCellsOfTwo, HaveSameCells};
ghost use Rattle.skyline_runs.specs.inside.Skylines.{HasSides, IsBelow, IsSkyline, IsUnder};

use super::skyline::Skyline;
use geo_core::Rect;
use lists::NoMemory;
use std::alloc::{AllocError, Global};

/// Rectangles without common cells that have the cells of the list together. Their order and number are left open. The
/// only error is that no memory is left.
pub fn union_runs(alloc: Global, rects: &[Rect]) -> Result<Vec<Rect>, NoMemory>
    ensures same { IfOk result (λ runs. HaveSameCells rects.now runs.items) }
    ensures apart { IfOk result (λ runs. AreApart runs.items) }
{
    let sorted = by_row(alloc, rects)?;
    let mut skyline = Skyline::new(alloc);
    for rect in sorted.as_slice() {
        skyline.add(*rect)?;
    }
    skyline.finish()
}

/// Rectangles without common cells that have the cells of the list together, where they are found with no more looks at
/// rectangles than are left. Each rectangle of the list takes one look at least. All n of them take at most n (2 n + 1):
/// where so many are left the rectangles are found.
///
/// Each look is taken off those left. None is the answer where they do not suffice, and then none is left: so many lists
/// share one number of looks. The only error is that no memory is left.
pub fn runs_within(
    alloc: Global,
    rects: &[Rect],
    left: &mut usize,
) -> Result<Option<Vec<Rect>>, NoMemory>
    ensures same { IfOk result (λ found. IfSome found (λ runs. HaveSameCells rects.now runs.items)) }
    ensures apart { IfOk result (λ found. IfSome found (λ runs. AreApart runs.items)) }
    ensures taken { IfOk result (λ found. IfSome found (λ runs. left.new + length rects.now ≤ left.old)) }
    ensures none { IfOk result (λ found. IfNone found (left.new ≡ 0)) }
    ensures enough { IfOk result (λ found. IfNone found (left.old < length rects.now * (2 * length rects.now + 1))) }
{
    let sorted = by_row(alloc, rects)?;
    let mut skyline = Skyline::new(alloc);
    for rect in sorted.as_slice() {
        let looks = skyline.add(*rect)?;
        if !take_looks(left, looks) {
            return Ok(None);
        }
    }
    Ok(Some(skyline.finish()?))
}

/// Rectangles without common cells that together have the cells that lie in two rectangles of the list or more. Equal
/// rectangles are two. Their order and number are left open. The only error is that no memory is left.
pub fn twice_runs(alloc: Global, rects: &[Rect]) -> Result<Vec<Rect>, NoMemory>
    ensures twice { IfOk result (λ runs. HaveCellsOfTwo rects.now runs.items) }
    ensures apart { IfOk result (λ runs. AreApart runs.items) }
{
    let sorted = by_row(alloc, rects)?;
    let mut once = Skyline::new(alloc);
    let mut twice = Skyline::new(alloc);
    for rect in sorted.as_slice() {
        add_to_both(alloc, &mut once, &mut twice, *rect)?;
    }
    twice.finish()
}

/// Rectangles without common cells that together have the cells that lie in two rectangles of the list or more, where
/// they are found with no more looks at rectangles than are left. Each rectangle of the list takes one look at least. All
/// n of them take at most n (2 n + 1) (2 n + 2): where so many are left the rectangles are found.
///
/// Each look is taken off those left. None is the answer where they do not suffice, and then none is left. The only error
/// is that no memory is left.
pub fn twice_runs_within(
    alloc: Global,
    rects: &[Rect],
    left: &mut usize,
) -> Result<Option<Vec<Rect>>, NoMemory>
    ensures twice { IfOk result (λ found. IfSome found (λ runs. HaveCellsOfTwo rects.now runs.items)) }
    ensures apart { IfOk result (λ found. IfSome found (λ runs. AreApart runs.items)) }
    ensures taken { IfOk result (λ found. IfSome found (λ runs. left.new + length rects.now ≤ left.old)) }
    ensures none { IfOk result (λ found. IfNone found (left.new ≡ 0)) }
    ensures enough { IfOk result (λ found. IfNone found
        (left.old < length rects.now * ((2 * length rects.now + 1) * (2 * length rects.now + 2)))) }
{
    let sorted = by_row(alloc, rects)?;
    let mut once = Skyline::new(alloc);
    let mut twice = Skyline::new(alloc);
    for rect in sorted.as_slice() {
        let looks = add_to_both(alloc, &mut once, &mut twice, *rect)?;
        if !take_looks(left, looks) {
            return Ok(None);
        }
    }
    Ok(Some(twice.finish()?))
}

/// Adds to the second skyline what a rectangle has in common with the first one, and then the rectangle to the first one.
/// Tells how many looks at active rectangles this took.
///
/// What a rectangle has in common with those that begin no higher begins where it begins itself: so these parts come in
/// the order of their lowest rows, too, and the second skyline can take them.
fn add_to_both(
    alloc: Global,
    once: &mut Skyline,
    twice: &mut Skyline,
    rect: Rect,
) -> Result<usize, NoMemory>
    requires once_sound { IsSkyline once.old }
    requires once_below { IsBelow rect.y0 once.old }
    requires twice_sound { IsSkyline twice.old }
    requires twice_below { IsBelow rect.y0 twice.old }
    ensures once_sound { OnOk result (IsSkyline once.new) }
    ensures once_below { OnOk result (IsBelow rect.y0 once.new) }
    ensures once_cells { OnOk result ((c : Cell) → IsUnder once.new c ↔ (IsUnder once.old c ⊎ Has rect c)) }
    ensures twice_sound { OnOk result (IsSkyline twice.new) }
    ensures twice_below { OnOk result (IsBelow rect.y0 twice.new) }
    ensures twice_cells { OnOk result ((c : Cell) →
        IsUnder twice.new c ↔ (IsUnder twice.old c ⊎ (IsUnder once.old c × Has rect c))) }
    ensures looks { IfOk result (λ looks. 0 < looks) }
    ensures once_sides { OnOk result ((xs : List ℤ) → HasSides xs once.old → Contains xs rect.x0 → Contains xs rect.x1 →
        HasSides xs once.new) }
    ensures twice_sides { OnOk result ((xs : List ℤ) → HasSides xs once.old → HasSides xs twice.old →
        Contains xs rect.x0 → Contains xs rect.x1 → HasSides xs twice.new) }
    ensures few { IfOk result (λ looks. (xs : List ℤ) → HasSides xs once.old → HasSides xs twice.old →
        Contains xs rect.x0 → Contains xs rect.x1 → looks ≤ (length xs + 1) * (length xs + 2)) }
{
    let (parts, met) = once.common(alloc, rect)?;
    let over = twice.add_all(parts.as_slice(), rect)?;
    let looks = once.add(rect)?;
    Ok(looks.saturating_add(met).saturating_add(over))
}

/// Takes looks off those that are left. Tells whether they suffice: where they do not, none is left.
fn take_looks(left: &mut usize, looks: usize) -> bool
    ensures taken { IsTrue result → left.new + looks ≡ left.old }
    ensures none { IsFalse result → left.new ≡ 0 }
    ensures over { IsFalse result → left.old < looks }
{
    if looks > *left {
        *left = 0;
        return false;
    }
    *left -= looks;
    true
}

/// The rectangles in the order of their lowest rows.
fn by_row(alloc: Global, rects: &[Rect]) -> Result<Vec<Rect>, AllocError>
    ensures same { IfOk result (λ sorted. IsPermutation rects.now sorted.items) }
    ensures ordered { IfOk result (λ sorted. AreByRow sorted.items) }
{
    let mut sorted = Vec::from_slice(alloc, rects)?;
    sorted.sort_unstable_by_key(|rect| rect.y0);
    Ok(sorted)
}

/// How many looks at active rectangles are taken for each rectangle before its list is left as it is.
const LOOKS_EACH: usize = 8;

/// Rectangles that together have the cells of these, and are no more.
///
/// They are rectangles without common cells where these are no more and are found with few looks, and else those of the
/// list: no clause says which of the two. So equal and nested rectangles become one, and a mesh, which falls into as many
/// rectangles as it has holes, stays as it is. Their order is left open. The only error is that no memory is left.
pub fn merge_rects(alloc: Global, rects: &[Rect]) -> Result<Vec<Rect>, NoMemory>
    ensures same { IfOk result (λ merged. HaveSameCells rects.now merged.items) }
    ensures few { IfOk result (λ merged. length merged.items ≤ length rects.now) }
{
    let mut left = rects.len().saturating_mul(LOOKS_EACH);
    if let Some(runs) = runs_within(alloc, rects, &mut left)? {
        if runs.len() <= rects.len() {
            return Ok(runs);
        }
    }
    Ok(Vec::from_slice(alloc, rects)?)
}
