ghost use Rattle.std.specs.Prelude.{List, ◌<◌, ◌≤◌, IfOk, IsTrue};
ghost use Rattle.fault_model.specs.IslandLists.{IslandLists};
ghost use Rattle.geo_core.specs.declared.bounds.TheConstants.{GREATEST_SIDE};
ghost use Rattle.open_grid.specs.inside.ZoneCounts.{CountsMany};
ghost use Rattle.open_grid.specs.inside.ZoneNeeds.{HaveOpenCells, StandForAll};
ghost use Rattle.open_grid.specs.inside.ZoneSteps.{IsDoneAtOnce, IsLeftOf};

use super::arcs::look_at_ring_first;
use super::covering::covers_none_at_a_corner;
use super::looked::{Looked, Told};
use super::steps::{Step, next_step};
use super::stretching::stretched;
use geo_core::Rect;
use lists::{Items, NoMemory};
use ring_test::one_arc_parts_no_more;
use severing::{steady_columns_sever_alike, steady_rows_sever_alike};
use std::alloc::Global;
use union_area::{first_line, parts_at};

/// What is left of islands in a zone.
#[derive(Drop)]
pub enum Left {
    /// Each defect of the zone parts two anchors of some island.
    Everywhere {
        /// Whether one of them covers none of its anchors: there the ring has more than one arc of it.
        many: bool,
    },
    /// Smaller zones have to look at these.
    Of(Items<Looked>),
}

/// Looks at islands for a zone. The only error is that no memory is left.
fn look_closer(alloc: Global, looked: &[Looked], zone: Rect, side: u32) -> Result<Left, NoMemory>
    requires some { 1 ≤ side }
    requires few { side ≤ GREATEST_SIDE }
    ensures left { (islands : List IslandLists) → StandForAll zone side looked.now islands →
        IfOk result (IsLeftOf zone side islands) }
    ensures at_once { IfOk result (IsDoneAtOnce zone) }
{
    one_arc_parts_no_more();
    let mut left = Vec::new(alloc);
    for one in looked {
        match look_at_ring_first(alloc, one, zone, side)? {
            Told::Never => {}
            Told::Always => {
                let many = covers_none_at_a_corner(one.anchors.as_slice(), zone, side);
                return Ok(Left::Everywhere { many });
            }
            Told::Open(closer) => left.push(closer)?,
        }
    }
    Ok(Left::Of(Items::from_vec(left)))
}

/// Counts one more, if so, unless the count is the greatest `u64` already.
fn count_if(many: bool, searches: &mut u64)
    ensures never_falls { searches.old ≤ searches.new }
    ensures rises { searches.old < searches.new → IsTrue many }
{
    if many {
        *searches = searches.saturating_add(1);
    }
}

/// The cells of the zone that are the centre of a defect that parts two anchors of one of the islands, for which these are
/// looked at. One is counted for each zone that is found to have a ring with more than one arc of an island. The only error
/// is that no memory is left.
pub fn open_parts(
    alloc: Global,
    looked: &[Looked],
    zone: Rect,
    side: u32,
    searches: &mut u64,
) -> Result<Vec<Rect>, NoMemory>
    requires some { 1 ≤ side }
    requires few { side ≤ GREATEST_SIDE }
    ensures cells { (islands : List IslandLists) → StandForAll zone side looked.now islands →
        IfOk result (λ rects. HaveOpenCells islands side zone rects.items) }
    ensures counts { (islands : List IslandLists) → StandForAll zone side looked.now islands →
        CountsMany islands zone side searches.old searches.new }
{
    let mut rects = Vec::new(alloc);
    let left = match look_closer(alloc, looked, zone, side)? {
        Left::Everywhere { many } => {
            count_if(many, searches);
            rects.push(zone)?;
            return Ok(rects);
        }
        Left::Of(left) => left,
    };
    if left.as_slice().is_empty() {
        return Ok(rects);
    }
    match next_step(alloc, left.as_slice(), zone, side)? {
        Step::Repeat(axis) => {
            steady_columns_sever_alike();
            steady_rows_sever_alike();
            let line = first_line(zone, axis);
            let lines = open_parts(alloc, left.as_slice(), line, side, searches)?;
            stretched(alloc, &lines, zone, axis)
        }
        Step::Halve(axis, place) => {
            let (first, second) = parts_at(zone, axis, place);
            let mut both = open_parts(alloc, left.as_slice(), first, side, searches)?;
            let others = open_parts(alloc, left.as_slice(), second, side, searches)?;
            both.extend_from_slice(&others)?;
            Ok(both)
        }
    }
}
