ghost use Rattle.std.specs.Prelude.{◌≡◌, ◌↔◌, Contains, IfOk, IfSome, IfNone, OnOk};
ghost use Rattle.fault_model.specs.IslandLists.{IsAnchoredIsland};
ghost use Rattle.geo_core.specs.Cells.{Has};
ghost use Rattle.geo_core.specs.declared.plane.Cell.{Cell as AnyCell};
ghost use Rattle.geo_core.specs.declared.plane.Rect.{Rect as AnyRect};
ghost use Rattle.open_grid.specs.inside.ZoneNeeds.{HaveAnchorBoxes, IsHullOf};
ghost use Rattle.open_grid.specs.inside.ZoneSteps.{GainsBoxes, HaveBoxesOf, IsOfSpots, IsSingle};

use fault_model::{Island, Spot};
use geo_core::{Cell, FARTHEST_GROWN, Rect};
use half_boxes::HalfBox;
use lists::{Items, NoMemory};
use std::alloc::Global;

/// The boxes of the island's rectangles and of those of its spots.
pub fn boxes_of(alloc: Global, island: &Island) -> Result<Items<HalfBox>, NoMemory>
    ensures boxes { IfOk result (HaveBoxesOf island.now) }
    ensures sound { IsAnchoredIsland island.now }
{
    let pieces = island.pieces.as_slice();
    let mut boxes = Vec::with_capacity(alloc, pieces.len())?;
    add_rects(pieces, &mut boxes)?;
    add_spots(island.anchors.as_slice(), &mut boxes)?;
    Ok(Items::from_vec(boxes))
}

/// Adds the boxes of the rectangles.
fn add_rects(rects: &[Rect], boxes: &mut Vec<HalfBox>) -> Result<(), NoMemory>
    ensures { OnOk result (GainsBoxes (Contains rects.now) boxes.old.items boxes.new.items) }
{
    for rect in rects {
        boxes.push(HalfBox::of_rect(*rect))?;
    }
    Ok(())
}

/// Adds the boxes of all rectangles of the spots.
fn add_spots(spots: &[Spot], boxes: &mut Vec<HalfBox>) -> Result<(), NoMemory>
    ensures { OnOk result (GainsBoxes (IsOfSpots spots.now) boxes.old.items boxes.new.items) }
{
    for spot in spots {
        add_rects(spot.rects.as_slice(), boxes)?;
    }
    Ok(())
}

/// One box for each anchor of the island: the hull of its spot. A defect, which is a box too, covers all of the spot exactly
/// where it covers the hull.
pub fn anchor_boxes(alloc: Global, island: &Island) -> Result<Items<HalfBox>, NoMemory>
    ensures { IfOk result (HaveAnchorBoxes island.now) }
{
    let spots = island.anchors.as_slice();
    let mut hulls = Vec::with_capacity(alloc, spots.len())?;
    for spot in spots {
        hulls.push(hull_of(spot))?;
    }
    Ok(Items::from_vec(hulls))
}

/// The least box that has all of the spot.
fn hull_of(spot: &Spot) -> HalfBox
    ensures { IsHullOf spot.now.rects result }
{
    let rects = spot.rects.as_slice();
    let mut hull = HalfBox::of_rect(rects[0]);
    for rect in rects {
        hull = hull.join(HalfBox::of_rect(*rect));
    }
    hull
}

/// The rectangle of the cell alone. Beyond where rectangles may lie there is none.
pub fn zone_at(cell: Cell) -> Option<Rect>
    ensures some { IfSome result (λ zone. (c : AnyCell) → Has zone c ↔ (c ≡ cell)) }
    ensures single { IfSome result IsSingle }
    ensures none { IfNone result ((rect : AnyRect) → Has rect cell → ⊥) }
{
    if cell.i < -FARTHEST_GROWN {
        return None;
    }
    if cell.i >= FARTHEST_GROWN {
        return None;
    }
    if cell.j < -FARTHEST_GROWN {
        return None;
    }
    if cell.j >= FARTHEST_GROWN {
        return None;
    }
    Some(Rect::new(cell.i, cell.j, cell.i + 1, cell.j + 1))
}
