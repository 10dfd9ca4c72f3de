ghost use Rattle.std.specs.Prelude.{◌<◌, IfOk, length};
ghost use Rattle.fault_model.specs.Areas.{IsBoundsOf};
ghost use Rattle.geo_core.specs.Unions.{IsInUnion};
ghost use Rattle.via_clusters.specs.Clusters.{AreClusterBoxes};

use geo_core::{Rect, join};
use lists::NoMemory;
use net_extract::Nets;
use std::alloc::Global;

/// For each cluster of the cut with this number, counted from 0 among the cuts, the least rectangle that has all of its
/// contacts.
///
/// A cluster is what contact pieces make that carry the same two islands, of the lower and of the upper metal. In nets that
/// `extract` makes these are the via clusters of what the layers cover (`groups_are_clusters`). Two clusters may have the
/// same rectangle, which is then given twice. The order is left open. The only error is that no memory is left.
pub fn clusters(alloc: Global, nets: &Nets, cut: u32) -> Result<Vec<Rect>, NoMemory>
    requires { cut < length nets.now.contacts }
    ensures { IfOk result (λ boxes. AreClusterBoxes nets.now cut boxes.items) }
{
    let groups = nets.contact_groups(cut);
    let mut boxes = Vec::with_capacity(alloc, groups.len())?;
    for group in groups {
        boxes.push(bounds(group.rects.as_slice()))?;
    }
    Ok(boxes)
}

/// The least rectangle that has the cells of all of these.
fn bounds(rects: &[Rect]) -> Rect
    requires { 0 < length rects.now }
    ensures { IsBoundsOf (IsInUnion rects.now) result }
{
    let mut bounds = rects[0];
    for rect in rects {
        bounds = join(bounds, *rect);
    }
    bounds
}
