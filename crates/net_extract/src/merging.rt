ghost use Rattle.std.specs.Prelude.{ℕ, ◌≡◌, ◌<◌, ◌≤◌, ◌⊎◌, ◌↔◌, ◌++◌, All, IfOk, OnOk, Some, length, map, slice_get, take};
ghost use Rattle.geo_core.specs.declared.plane.Cell.{Cell};
ghost use Rattle.net_extract.specs.inside.LabelledCells.{HasLabelled, HaveSameLabelled};

use super::meetings::rects_of;
use geo_core::{Labelled, Rect};
use lists::NoMemory;
use skyline_runs::merge_rects;
use std::alloc::Global;

/// Rectangles that have the same cells under each label. Where those of one label overlap, and others without common cells
/// are no more and quickly found, these stand in their place, which no clause says. Without this, what rectangles of a cut
/// and of both its metals have in common would be as many pieces as there are triples of rectangles that overlap.
pub fn slim(alloc: Global, mut rects: Vec<Labelled>) -> Result<Vec<Labelled>, NoMemory>
    ensures { IfOk result (λ slim. HaveSameLabelled rects.items slim.items) }
{
    rects.sort_by_key(|one| one.label)?;
    slim_in_order(alloc, &rects)
}

/// The same for rectangles of which those of one label stand together.
fn slim_in_order(alloc: Global, rects: &[Labelled]) -> Result<Vec<Labelled>, NoMemory>
    ensures { IfOk result (λ slim. HaveSameLabelled rects.now slim.items) }
{
    let mut slim = Vec::with_capacity(alloc, rects.len())?;
    let mut start: usize = 0;
    while start < rects.len() {
        let rest = &rects[start..];
        let first = rest[0];
        let count = front_of(rest, first);
        add_merged(alloc, &rest[..count], first.label, &mut slim)?;
        start += count;
    }
    Ok(slim)
}

/// How many rectangles at the front have the label of the first.
fn front_of(rects: &[Labelled], first: Labelled) -> usize
    requires { slice_get rects.now 0 ≡ Some first }
    ensures some { 0 < result }
    ensures within { result ≤ length rects.now }
    ensures alike { All (λ one. one.label ≡ first.label) (take result rects.now) }
{
    for (k, one) in rects.iter().enumerate() {
        if one.label != first.label {
            return k;
        }
    }
    rects.len()
}

/// Adds rectangles that have the same cells as these, all of which have this label.
fn add_merged(
    alloc: Global,
    part: &[Labelled],
    label: usize,
    slim: &mut Vec<Labelled>,
) -> Result<(), NoMemory>
    requires { All (λ one. one.label ≡ label) part.now }
    ensures { OnOk result ((i : ℕ) (c : Cell) →
        HasLabelled slim.new.items i c ↔ (HasLabelled slim.old.items i c ⊎ HasLabelled part.now i c)) }
{
    if part.len() < 2 {
        slim.extend_from_slice(part)?;
        return Ok(());
    }
    let rects = rects_of(alloc, part)?;
    let merged = merge_rects(alloc, &rects)?;
    add_all(&merged, label, slim)
}

/// Adds the rectangles with this label.
fn add_all(rects: &[Rect], label: usize, slim: &mut Vec<Labelled>) -> Result<(), NoMemory>
    ensures { OnOk result
        (slim.new.items ≡ slim.old.items ++ map (λ rect. record { rect = rect; label = label }) rects.now) }
{
    for rect in rects {
        slim.push(Labelled { rect: *rect, label })?;
    }
    Ok(())
}
