//! Boards of two tickets and one slot, whose credits are at most 5, with four draws.

ghost use Rattle.std.specs.Prelude.{◌+◌, ◌≡◌, ◌≤◌, ◌<◌};
ghost use Rattle.tile_board.specs.Hands.{limits_of, view_of, BelongsTo};

use lists::NoMemory;
use std::alloc::Global;
use tile_board::{Board, Hand};

/// Whether there are totals, and they are these.
pub fn are_totals(totals: Result<Vec<u64>, NoMemory>, wanted: &[u64]) -> bool {
    match totals {
        Ok(totals) => totals.as_slice() == wanted,
        Err(_) => false,
    }
}

/// Draws once and adds the amount to the total if that gives a ticket, which is the answer.
fn draw_for(board: &Board, hand: &mut Hand, amount: u64) -> Option<u64>
    requires belongs { BelongsTo board.now hand.old }
    requires draw_left { 0 < (view_of hand.old).left }
    requires slot { 0 < (limits_of board.now).slots }
    requires amount { amount ≤ (limits_of board.now).cap }
    ensures belongs { BelongsTo board.now hand.new }
    ensures one_less { (view_of hand.new).left + 1 ≡ (view_of hand.old).left }
{
    let ticket = board.draw(hand)?;
    board.credit(hand, ticket, 0, amount);
    Some(ticket)
}

/// One hand draws both tickets, learns that there is no other, and credits 3 and 5.
fn one_hand(alloc: Global) -> bool {
    let Ok((board, mut hand)) = Board::new(alloc, 2, 1, 5, 4) else {
        return false;
    };
    let first = draw_for(&board, &mut hand, 3);
    let second = draw_for(&board, &mut hand, 5);
    let third = board.draw(&mut hand);
    let left = hand.left();
    let sums = are_totals(board.close(alloc, hand), &[8]);
    sums && (first, second, third, left) == (Some(0), Some(1), None, 1)
}

/// Two hands of two draws each draw one ticket each.
fn two_hands(alloc: Global) -> bool {
    let Ok((board, mut hand)) = Board::new(alloc, 2, 1, 5, 4) else {
        return false;
    };
    let mut other = board.split(&mut hand, 2);
    let first = draw_for(&board, &mut hand, 3);
    let second = draw_for(&board, &mut other, 5);
    board.join(&mut hand, other);
    let left = hand.left();
    let sums = are_totals(board.close(alloc, hand), &[8]);
    sums && (first, second, left) == (Some(0), Some(1), 2)
}

/// A hand is dropped before it draws. The other's credit stands.
fn idle_hand_dropped(alloc: Global) -> bool {
    let Ok((board, mut hand)) = Board::new(alloc, 2, 1, 5, 4) else {
        return false;
    };
    drop(board.split(&mut hand, 2));
    let ticket = draw_for(&board, &mut hand, 5);
    are_totals(board.close(alloc, hand), &[5]) && ticket == Some(0)
}

/// A hand is dropped that has credited. Its credit stands, too.
fn busy_hand_dropped(alloc: Global) -> bool {
    let Ok((board, mut hand)) = Board::new(alloc, 2, 1, 5, 4) else {
        return false;
    };
    let mut other = board.split(&mut hand, 2);
    let first = draw_for(&board, &mut other, 3);
    drop(other);
    let second = draw_for(&board, &mut hand, 5);
    let sums = are_totals(board.close(alloc, hand), &[8]);
    sums && (first, second) == (Some(0), Some(1))
}

#[test]
fn tickets_and_totals(rt: HostRuntime) {
    let rows = one_hand(rt.alloc()) && two_hands(rt.alloc());
    assert!(rt; rows);
}

#[test]
fn hands_are_dropped(rt: HostRuntime) {
    let rows = idle_hand_dropped(rt.alloc()) && busy_hand_dropped(rt.alloc());
    assert!(rt; rows);
}
