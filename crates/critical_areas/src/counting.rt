ghost use Rattle.std.specs.Prelude.{◌≤◌, ◌<◌, ◌^◌, IfOk, All, length};
ghost use Rattle.fault_model.specs.Areas.{cells_of, cells_of_window};
ghost use Rattle.area_parts.specs.AskedCounts.{AreCounted};

use super::sharing::Sharing;
use super::tile_size::{sensible_plan, shared_edge};
use super::tiles::Tiles;
use area_parts::Asked;
use geo_core::Rect;
use lists::NoMemory;
use std::alloc::Global;
use std::thread::Threads;
use tile_board::Board;
use tile_work::{Gate, close_sums, run_tiles};

/// For each question, in order, at how many cells of the window, where there is one, a defect of its size touches pieces of two
/// labels of its metal, parts two anchors of an island of its metal, or covers a box of its cut, by the question's kind. At side 1,
/// whose defect has one cell, which no two nets share, no cell is counted for two labels.
///
/// They are counted over tiles, which workers share. The only error is that no memory is left.
pub fn amounts<G: Gate + Sync>(
    rt: &(impl Threads + Sync),
    alloc: Global,
    asked: Asked<'_>,
    window: Option<Rect>,
    sharing: Sharing<'_, G>,
) -> Result<Vec<u64>, NoMemory>
    ensures counted { IfOk result (λ amounts.
        AreCounted asked.entry.parts.now (cells_of_window window) asked.entry.questions.now amounts.items) }
    ensures small { IfOk result (λ amounts. All (λ amount. amount < 2 ^ 63) amounts.items) }
{
    let Some(window) = window else {
        return Ok(vec![in alloc; 0; asked.questions.len()]?);
    };
    if asked.questions.is_empty() {
        return Ok(Vec::new(alloc));
    }
    amounts_over(rt, alloc, asked, window, sharing)
}

/// What is counted over a window, where something is asked.
fn amounts_over<G: Gate + Sync>(
    rt: &(impl Threads + Sync),
    alloc: Global,
    asked: Asked<'_>,
    window: Rect,
    sharing: Sharing<'_, G>,
) -> Result<Vec<u64>, NoMemory>
    requires some { 1 ≤ length asked.questions.now }
    ensures { IfOk result (λ amounts.
        AreCounted asked.entry.parts.now (cells_of window) asked.entry.questions.now amounts.items) }
{
    let edge = shared_edge(asked.parts, window, sharing.edge, sharing.workers);
    let plan = sensible_plan(asked, window, edge);
    let tiles = Tiles::new(alloc, asked, plan, sharing.workers)?;
    let slots = asked.questions.len() as u32;
    let draws = u64::from(sharing.workers) * (plan.count() + 1);
    let (board, mut hand) = Board::new(alloc, plan.count(), slots, plan.cap(), draws)?;
    run_tiles(
        rt,
        alloc,
        &tiles,
        sharing.gate,
        &board,
        &mut hand,
        sharing.workers,
    )?;
    close_sums(alloc, &tiles, board, hand)
}
