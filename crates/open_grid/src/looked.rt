ghost use Rattle.std.specs.Prelude.{ℕ, ◌≤◌, IfOk, IsTrue, ◌⊎◌};
ghost use Rattle.geo_core.specs.declared.plane.Rect.{Rect as AnyRect};
ghost use Rattle.fault_model.specs.IslandLists.{IslandLists, IsAnchoredIsland};
ghost use Rattle.geo_core.specs.declared.bounds.TheConstants.{GREATEST_SIDE};
ghost use Rattle.open_grid.specs.inside.ZoneNeeds.{StandsFor};
ghost use Rattle.open_grid.specs.inside.ZoneSteps.{IsSplitWithout, IsToldAtOnce, IsToldOf, KeepsNear, KeepsWithin};
ghost use Rattle.open_grid.specs.inside.ZoneSteps.{AreOf, MayNotMatter};

use super::boxes::{anchor_boxes, boxes_of};
use super::steps::is_single;
use fault_model::Island;
use geo_core::Rect;
use half_boxes::{HalfBox, core_of, reach_of};
use lists::{Items, NoMemory};
use remnants::Remnant;
use severing::boxes_and_defects_sever;
use std::alloc::Global;

/// What a zone of centres needs of an island: what is left of it round the zone's defects, the boxes of the island and of its
/// spots whose ends an end of a defect may meet in the zone, and one box for each anchor that a defect of the zone may
/// cover: the hull of its spot, which a defect covers exactly where it covers the spot.
#[derive(Drop)]
pub struct Looked {
    pub remnant: Remnant,
    pub near: Items<HalfBox>,
    pub anchors: Items<HalfBox>,
}

/// What an island says of a zone.
#[derive(Drop)]
pub enum Told {
    /// No defect of the zone parts two of its anchors.
    Never,
    /// Each defect of the zone does.
    Always,
    /// Smaller zones have to look at this.
    Open(Looked),
}

/// The whole island, to be looked at for any zone.
pub fn look(alloc: Global, island: &Island) -> Result<Looked, NoMemory>
    ensures stands { IfOk result (λ looked. (zone : AnyRect) (side : ℕ) → StandsFor zone side looked island.now) }
    ensures sound { IsAnchoredIsland island.now }
{
    let near = boxes_of(alloc, island)?;
    let anchors = anchor_boxes(alloc, island)?;
    let remnant = Remnant::whole(alloc, island)?;
    Ok(Looked {
        remnant,
        near,
        anchors,
    })
}

/// Looks at an island for a zone: what lies outside of all defects of the zone stays, and what lies within each of them is
/// gone. The only error is that no memory is left.
pub fn look_at(alloc: Global, looked: &Looked, zone: Rect, side: u32) -> Result<Told, NoMemory>
    requires some { 1 ≤ side }
    requires few { side ≤ GREATEST_SIDE }
    ensures told { (island : IslandLists) → StandsFor zone side looked.now island → IfOk result (IsToldOf zone side island) }
    ensures at_once { IfOk result (IsToldAtOnce zone) }
{
    boxes_and_defects_sever();
    let outer = reach_of(zone, side);
    if is_single(zone) {
        let split = looked.remnant.is_split_by(alloc, outer)?;
        if split {
            return Ok(Told::Always);
        }
        return Ok(Told::Never);
    }
    let inner = core_of(zone, side);
    let narrowed = looked.remnant.narrow(alloc, inner, outer)?;
    let Some(remnant) = narrowed else {
        return Ok(Told::Never);
    };
    if is_split_without(alloc, &remnant, inner)? {
        return Ok(Told::Always);
    }
    let near = near_in(alloc, looked.near.as_slice(), inner, outer)?;
    let anchors = boxes_within(alloc, looked.anchors.as_slice(), outer)?;
    Ok(Told::Open(Looked {
        remnant,
        near,
        anchors,
    }))
}

/// Whether the removal of the core, if there is one, parts two terminals.
fn is_split_without(
    alloc: Global,
    remnant: &Remnant,
    core: Option<HalfBox>,
) -> Result<bool, NoMemory>
    ensures { IfOk result (λ answer. IsTrue answer → IsSplitWithout remnant.now core) }
{
    let Some(core) = core else {
        return Ok(false);
    };
    remnant.is_split_by(alloc, core)
}

/// The boxes of the list that may matter to a zone whose defects reach so far and have all of this core.
fn near_in(
    alloc: Global,
    near: &[HalfBox],
    core: Option<HalfBox>,
    reach: HalfBox,
) -> Result<Items<HalfBox>, NoMemory>
    ensures near { IfOk result (λ kept. KeepsNear core reach near.now kept) }
    ensures of_near { IfOk result (λ kept. AreOf near.now kept) }
{
    let mut kept = Vec::new(alloc);
    for one in near {
        if may_matter(*one, core, reach) {
            kept.push(*one)?;
        }
    }
    Ok(Items::from_vec(kept))
}

/// The boxes of the list that lie in the reach of a zone's defects, so that one of them may cover them.
fn boxes_within(
    alloc: Global,
    boxes: &[HalfBox],
    reach: HalfBox,
) -> Result<Items<HalfBox>, NoMemory>
    ensures { IfOk result (λ kept. KeepsWithin reach boxes.now kept) }
{
    let mut kept = Vec::new(alloc);
    for one in boxes {
        if one.is_within(reach) {
            kept.push(*one)?;
        }
    }
    Ok(Items::from_vec(kept))
}

/// Whether an end of a defect may meet one of the box: it comes near the reach, and does not lie in the core.
fn may_matter(one: HalfBox, core: Option<HalfBox>, reach: HalfBox) -> bool
    ensures { IsTrue result ⊎ MayNotMatter core reach one }
{
    if !one.columns.touches(reach.columns) {
        return false;
    }
    if !one.rows.touches(reach.rows) {
        return false;
    }
    match core {
        None => true,
        Some(core) => !one.is_within(core),
    }
}
