ghost use Rattle.std.specs.Prelude.{◌+◌, ◌^◌, ◌<◌, ◌≤◌, IfOk, length};
ghost use Rattle.map_model.specs.declared.limits.TheConstants.{MOST_METALS};
ghost use Rattle.net_extract.specs.inside.Numbering.{AreIslandsFrom, AreIslandsOf};

use super::merging::slim;
use geo_core::{Labelled, Rect, RectList, join};
use islands::label;
use lists::{Items, NoMemory};
use skyline_runs::merge_rects;
use std::alloc::Global;

/// Rectangles lie on one another where they have more than so many times the cells of the least rectangle round them.
const OFTEN: u64 = 2;

/// Rectangles of a metal, labelled by their islands.
pub type IslandList = Items<Labelled>;

/// The rectangles of each metal with their islands. The islands of all metals are numbered together, below `count`.
#[derive(Drop)]
pub struct MetalIslands {
    pub islands: Items<IslandList>,
    pub count: usize,
}

/// The rectangles of the first `metals` lists, which are those of the metals, with their islands.
pub fn metal_islands(
    alloc: Global,
    lists: &[RectList],
    metals: usize,
) -> Result<MetalIslands, NoMemory>
    requires listed { metals ≤ length lists.now }
    requires few { metals ≤ MOST_METALS }
    ensures { IfOk result (λ made. AreIslandsOf lists.now metals made.count made.islands) }
{
    let mut islands = Vec::new(alloc);
    let mut count: usize = 0;
    for metal in 0..metals {
        let rects = lists[metal].as_slice();
        // No list holds 2^59 rectangles, which take 16 bytes each, and there are at most 16 lists. So the sum fits.
        let next = count + rects.len();
        islands.push(islands_from(alloc, rects, count)?)?;
        count = next;
    }
    Ok(MetalIslands {
        islands: Items::from_vec(islands),
        count,
    })
}

/// How many cells the rectangle has.
fn area_of(rect: Rect) -> u64 {
    let width = u64::from(rect.x1.abs_diff(rect.x0));
    let height = u64::from(rect.y1.abs_diff(rect.y0));
    width.saturating_mul(height)
}

/// Whether the rectangles lie on one another, by how many cells each of them has. It serves to choose among ways that all lead
/// to the answer.
fn lie_on_one_another(rects: &[Rect]) -> bool {
    let Some((first, others)) = rects.split_first() else {
        return false;
    };
    let mut around = *first;
    let mut cells = area_of(*first);
    for rect in others {
        around = join(around, *rect);
        cells = cells.saturating_add(area_of(*rect));
    }
    area_of(around) < cells / OFTEN
}

/// The cells of the rectangles with their islands, which are numbered from `first` on. Rectangles that lie on one another are
/// replaced by others with the same cells before islands are looked for, so that few of them touch.
fn islands_from(alloc: Global, rects: &[Rect], first: usize) -> Result<IslandList, NoMemory>
    requires { first + length rects.now < 2 ^ 64 }
    ensures { IfOk result (λ islands. AreIslandsFrom rects.now first (first + length rects.now) islands) }
{
    if lie_on_one_another(rects) {
        let merged = merge_rects(alloc, rects)?;
        return islands_among(alloc, &merged, first);
    }
    islands_among(alloc, rects, first)
}

/// The cells of the rectangles with their islands, which are numbered from `first` on. Rectangles of one island that
/// overlap are replaced by others with the same cells where these are no more.
fn islands_among(alloc: Global, rects: &[Rect], first: usize) -> Result<IslandList, NoMemory>
    requires { first + length rects.now < 2 ^ 64 }
    ensures { IfOk result (λ islands. AreIslandsFrom rects.now first (first + length rects.now) islands) }
{
    let labels = label(alloc, rects)?;
    let mut islands = Vec::with_capacity(alloc, rects.len())?;
    for (k, rect) in rects.iter().enumerate() {
        islands.push(Labelled {
            rect: *rect,
            label: first + labels[k],
        })?;
    }
    Ok(IslandList::from_vec(slim(alloc, islands)?))
}
