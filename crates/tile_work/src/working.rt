//! One worker: it draws tickets until none are left, and credits the amounts of each.

ghost use Rattle.std.specs.Prelude.{ℕ, ◌+◌, ◌≡◌, ◌<◌, OnOk, length, slice_index};
ghost use Rattle.tile_board.specs.Hands.{limits_of, view_of, BelongsTo};
ghost use Rattle.tile_board.specs.Machine.{fresh};
ghost use Rattle.tile_work.specs.Crediting.{IsMadeFor};
ghost use Rattle.tile_work.specs.inside.Working.{HasWorked, IsCrediting, IsWorking};

use super::gate::Gate;
use super::job::TileJob;
use lists::NoMemory;
use std::alloc::Global;
use tile_board::{Board, Hand};

// Draws until no ticket is left, and credits each ticket that it draws.
pub fn work<J: TileJob, G: Gate>(
    alloc: Global,
    job: &J,
    gate: &G,
    board: &Board,
    hand: &mut Hand,
) -> Result<(), NoMemory>
    requires made_for { IsMadeFor (limits_of board.now) (J.tickets job.now) (J.slots job.now) (J.is_amount job.now) }
    requires belongs { BelongsTo board.now hand.old }
    requires unused { view_of hand.old ≡ fresh (J.tickets job.now + 1) }
    ensures belongs { BelongsTo board.now hand.new }
    ensures draws { (view_of hand.new).made + (view_of hand.new).left ≡ J.tickets job.now + 1 }
    ensures worked { OnOk result (HasWorked (J.slots job.now) (J.is_amount job.now) (view_of hand.new)) }
{
    let mut amounts = Vec::new(alloc);
    while let Some(ticket) = board.draw(hand) {
        gate.pass(ticket);
        job.amounts(alloc, ticket, &mut amounts)?;
        credit_all(job, board, hand, ticket, amounts.as_slice());
    }
    Ok(())
}

// Credits the amounts of a ticket, the first to slot 0.
fn credit_all<J: TileJob>(job: &J, board: &Board, hand: &mut Hand, ticket: u64, amounts: &[u64])
    requires made_for { IsMadeFor (limits_of board.now) (J.tickets job.now) (J.slots job.now) (J.is_amount job.now) }
    requires belongs { BelongsTo board.now hand.old }
    requires small { ticket < J.tickets job.now }
    requires one_each { length amounts.now ≡ J.slots job.now }
    requires in_order { (slot : ℕ) → slot < J.slots job.now → J.is_amount job.now ticket slot (slice_index amounts.now slot) }
    requires drawn { IsCrediting (J.tickets job.now) (J.slots job.now) (J.is_amount job.now) ticket 0 (view_of hand.old) }
    ensures belongs { BelongsTo board.now hand.new }
    ensures left { (view_of hand.new).left ≡ (view_of hand.old).left }
    ensures credited { IsWorking (J.tickets job.now) (J.slots job.now) (J.is_amount job.now) (view_of hand.new) }
{
    for slot in 0..amounts.len() {
        board.credit(hand, ticket, slot as u32, amounts[slot]);
    }
}
