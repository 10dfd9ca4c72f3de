//! Islands apart by how their opens are looked for. A small island is looked at in each tile that it comes near, so that the threads
//! of the tiles share the work and its open cells are kept for one tile at a time. A large one is looked at once a size over the
//! whole window, since each tile would begin with all of it again. Where several workers share the tiles it takes more of them to
//! make an island large.

ghost use Rattle.std.specs.Prelude.{ℕ, ◌≡◌, ◌≤◌, ◌<◌, ◌↔◌, IfOk, All, length, map};
ghost use Rattle.std.specs.List.{AllZip};
ghost use Rattle.std.specs.Option.{ForSome};
ghost use Rattle.geo_core.specs.Bounds.{IsSide};
ghost use Rattle.geo_core.specs.Cells.{Has};
ghost use Rattle.geo_core.specs.Unions.{IsInUnion};
ghost use Rattle.geo_core.specs.declared.plane.Cell.{Cell};
ghost use Rattle.critical_areas.specs.RoundPieces.{IsRound};
ghost use Rattle.critical_areas.specs.inside.IslandsApart.{AreApart, IsOneOpen};

use super::tile_size::further_tiles;
use area_parts::MetalIslands;
use fault_model::Island;
use geo_core::{Labelled, Rect, join};
use lists::{Items, NoMemory};
use open_grid::open_cells_of;
use std::alloc::Global;
use tile_plan::NearIndex;

/// For one worker a small island has at most so many rectangles, with those of its spots. Each look at an island takes as long as
/// these are many, before anything is known of a zone.
const FEW_BOXES: usize = 64;

/// For one worker it comes near about so many tiles at most, beside the first, so that few looks are taken again.
const FEW_TILES: u64 = 16;

/// For several workers it comes near about so many at most, whatever its rectangles are: looks that are taken again then cost less
/// than the others wait for one.
const SHARED_TILES: u64 = 35;

/// The islands of a metal, small ones apart from large ones.
#[derive(Drop)]
pub struct Apart {
    /// A rectangle round each small one, with the island's number as its label.
    pub small: NearIndex<Labelled>,
    /// The numbers of the large ones.
    pub large: Items<usize>,
}

/// The islands of each metal, apart for tiles with this edge, defects that reach so far and so many workers.
pub fn all_apart(
    alloc: Global,
    metals: &[MetalIslands],
    reach: u32,
    edge: u32,
    workers: u32,
) -> Result<Vec<Apart>, NoMemory>
    requires { 1 ≤ edge }
    ensures { IfOk result (λ apart. AllZip AreApart metals.now apart.items) }
{
    let mut apart = Vec::with_capacity(alloc, metals.len())?;
    for islands in metals {
        apart.push(set_apart(alloc, islands.as_slice(), reach, edge, workers)?)?;
    }
    Ok(apart)
}

/// The islands of a metal, apart.
fn set_apart(
    alloc: Global,
    islands: &[Island],
    reach: u32,
    edge: u32,
    workers: u32,
) -> Result<Apart, NoMemory>
    requires { 1 ≤ edge }
    ensures { IfOk result (AreApart islands.now) }
{
    let mut small = Vec::new(alloc);
    let mut large = Vec::new(alloc);
    for (number, island) in islands.iter().enumerate() {
        match small_hull(island, reach, edge, workers) {
            Some(rect) => small.push(Labelled {
                rect,
                label: number,
            })?,
            None => large.push(number)?,
        }
    }
    let small = NearIndex::new(alloc, &small)?;
    Ok(Apart {
        small,
        large: Items::from_vec(large),
    })
}

/// The rectangle round an island, where it is small.
fn small_hull(island: &Island, reach: u32, edge: u32, workers: u32) -> Option<Rect>
    requires { 1 ≤ edge }
    ensures { ForSome result (λ hull. IsRound hull island.now.pieces) }
{
    let hull = hull_of(island.pieces.as_slice())?;
    if !is_small(boxes_of(island), further_tiles(hull, reach, edge), workers) {
        return None;
    }
    Some(hull)
}

/// Whether an island of so many rectangles that comes near so many tiles, beside the first, is small for so many workers.
fn is_small(boxes: usize, tiles: u64, workers: u32) -> bool {
    if workers > 1 {
        return tiles <= SHARED_TILES;
    }
    boxes <= FEW_BOXES && tiles <= FEW_TILES
}

/// The rectangle round the pieces, where there is one. It is the least, which saves looks and is promised nowhere.
fn hull_of(pieces: &[Rect]) -> Option<Rect>
    ensures { ForSome result (λ hull. IsRound hull pieces.now) }
{
    let mut hull = *pieces.first()?;
    for piece in pieces {
        hull = join(hull, *piece);
    }
    Some(hull)
}

/// How many rectangles the island and its spots have.
pub fn boxes_of(island: &Island) -> usize {
    let mut boxes = island.pieces.as_slice().len();
    for spot in island.anchors.as_slice() {
        boxes = boxes.saturating_add(spot.rects.as_slice().len());
    }
    boxes
}

/// The numbers of the islands that the rectangles are round.
pub fn numbers_of(alloc: Global, hulls: &[Labelled]) -> Result<Vec<usize>, NoMemory>
    ensures { IfOk result (λ numbers. numbers.items ≡ map (λ hull. hull.label) hulls.now) }
{
    let mut numbers = Vec::with_capacity(alloc, hulls.len())?;
    for hull in hulls {
        numbers.push(hull.label)?;
    }
    Ok(numbers)
}

/// The cells of the window at which a defect of this side parts two anchors of one of the islands with these numbers.
pub fn cells_of_islands(
    alloc: Global,
    islands: &[Island],
    numbers: &[usize],
    window: Rect,
    side: u32,
) -> Result<Vec<Rect>, NoMemory>
    requires is_side { IsSide side }
    requires within { All (λ number. number < length islands.now) numbers.now }
    ensures { IfOk result (λ rects. (c : Cell) →
        IsInUnion rects.items c ↔ (Has window c × IsOneOpen islands.now numbers.now side c)) }
{
    let mut cells = Vec::new(alloc);
    for number in numbers {
        let found = open_cells_of(alloc, &islands[*number], window, side)?;
        cells.extend_from_slice(&found)?;
    }
    Ok(cells)
}
