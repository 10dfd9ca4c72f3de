ghost use Rattle.std.specs.Prelude.{All, IfOk, IsTrue, OnErr, OnOk, ◌+◌, ◌<◌, ◌≡◌, ◌≤◌, ◌↔◌, ◌⊎◌};
ghost use Rattle.geo_core.specs.Cells.{IsInLayout};
ghost use Rattle.fault_model.specs.IslandLists.{IsIslandOpen};
ghost use Rattle.geo_core.specs.declared.bounds.TheConstants.{GREATEST_SIDE};
ghost use Rattle.ring_test.specs.Rings.{hole_at};
ghost use Rattle.ring_test.specs.RingAnswers.{IsRingAnswer};

use super::boxes::zone_at;
use super::looked::{Told, look, look_at};
use fault_model::Island;
use geo_core::Cell;
use lists::NoMemory;
use ring_test::{RingAnswer, ring};
use severing::defects_sever_islands;
use std::alloc::Global;

/// Whether the defect of this side at the cell parts two anchors of the island: on what it spares of the island's
/// rectangles no walk leads from a half square of the one anchor's spot to one of the other's. The defect is the square of
/// this side, 1 to 2,000,000 database units, round the cell's centre. An anchor whose spot it covers is parted from each
/// other one.
///
/// The one error is that no memory is left.
pub fn parted(alloc: Global, island: &Island, cell: Cell, side: u32) -> Result<bool, NoMemory>
    requires some { 1 ≤ side }
    requires few { side ≤ GREATEST_SIDE }
    requires within { All IsInLayout island.now.pieces }
    ensures { IfOk result (λ answer. IsTrue answer ↔ IsIslandOpen island.now side cell) }
{
    let mut searches = 0;
    parted_counted(alloc, island, cell, side, &mut searches)
}

/// What `parted` answers. Only where the ring round the defect is `Many` does it search the island, and count that.
///
/// Where no memory is left, the search that failed may have been counted.
pub fn parted_counted(
    alloc: Global,
    island: &Island,
    cell: Cell,
    side: u32,
    searches: &mut u64,
) -> Result<bool, NoMemory>
    requires some { 1 ≤ side }
    requires few { side ≤ GREATEST_SIDE }
    requires within { All IsInLayout island.now.pieces }
    requires room { searches.old < u64.MAX }
    ensures answer { IfOk result (λ answer. IsTrue answer ↔ IsIslandOpen island.now side cell) }
    ensures counted { OnOk result (IsRingAnswer island.now (hole_at cell side) RingAnswer.Many →
        searches.new ≡ searches.old + 1) }
    ensures spared { (IsRingAnswer island.now (hole_at cell side) RingAnswer.Many → ⊥) → searches.new ≡ searches.old }
    ensures counted_so_far { OnErr result ((searches.new ≡ searches.old) ⊎ (searches.new ≡ searches.old + 1)) }
{
    match ring(alloc, island, cell, side)? {
        RingAnswer::Untouched => Ok(false),
        // One anchor alone is parted from none, even where it is lost.
        RingAnswer::OneArc { lost } => Ok(lost && island.anchors.as_slice().len() > 1),
        RingAnswer::Many => {
            *searches += 1;
            parted_by_search(alloc, island, cell, side)
        }
    }
}

/// Whether the defect parts two anchors, by what is left of the island round it.
fn parted_by_search(alloc: Global, island: &Island, cell: Cell, side: u32) -> Result<bool, NoMemory>
    requires some { 1 ≤ side }
    requires few { side ≤ GREATEST_SIDE }
    requires within { All IsInLayout island.now.pieces }
    ensures { IfOk result (λ answer. IsTrue answer ↔ IsIslandOpen island.now side cell) }
{
    // Beyond where rectangles may lie a defect has nothing of a layout.
    let Some(zone) = zone_at(cell) else {
        return Ok(false);
    };
    let looked = look(alloc, island)?;
    defects_sever_islands();
    match look_at(alloc, &looked, zone, side)? {
        Told::Never => Ok(false),
        Told::Always => Ok(true),
        // One cell leaves nothing to look at.
        Told::Open(_) => unreachable!(),
    }
}
