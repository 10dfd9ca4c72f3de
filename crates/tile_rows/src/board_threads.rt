//! Hands in threads of their own, made by fork and join.

ghost use Rattle.std.specs.Prelude.{◌≤◌, ◌<◌};
ghost use Rattle.std.specs.Thread.{IsSync};
ghost use Rattle.tile_board.specs.Hands.{limits_of, BelongsTo};

use super::boards::are_totals;
use std::alloc::Global;
use std::thread;
use std::thread::Threads;
use tile_board::{Board, Hand};

/// Draws until the hand has no draw left or there is no ticket left. Each ticket adds its remainder by 8 to the total of
/// slot 0, and 7 to that of slot 1.
pub fn work(board: &Board, mut hand: Hand) -> Hand
    requires belongs { BelongsTo board.now hand }
    requires slots { 1 < (limits_of board.now).slots }
    requires cap { 7 ≤ (limits_of board.now).cap }
    ensures { BelongsTo board.now result }
{
    while hand.left() > 0 {
        let Some(ticket) = board.draw(&mut hand) else {
            return hand;
        };
        board.credit(&mut hand, ticket, 0, ticket % 8);
        board.credit(&mut hand, ticket, 1, 7);
    }
    hand
}

/// Halves the hand's draws so many times, lets each part work in a thread of its own, and joins all again.
fn work_in_parts<R: Threads + Sync>(rt: &R, board: &Board, mut hand: Hand, halvings: u32) -> Hand
    requires belongs { BelongsTo board.now hand }
    requires slots { 1 < (limits_of board.now).slots }
    requires cap { 7 ≤ (limits_of board.now).cap }
    ensures { BelongsTo board.now result }
{
    if halvings == 0 {
        return work(board, hand);
    }
    let half = hand.left() / 2;
    let other = board.split(&mut hand, half);
    let (mut hand, other) = thread::join(
        rt,
        || -> Hand
            requires sync { IsSync R.row }
            requires some { 0 < halvings }
            requires belongs { BelongsTo board.now hand }
            requires slots { 1 < (limits_of board.now).slots }
            requires cap { 7 ≤ (limits_of board.now).cap }
            ensures { BelongsTo board.entry.now result }
        { work_in_parts(rt, board, hand, halvings - 1) },
        || -> Hand
            requires sync { IsSync R.row }
            requires some { 0 < halvings }
            requires belongs { BelongsTo board.now other }
            requires slots { 1 < (limits_of board.now).slots }
            requires cap { 7 ≤ (limits_of board.now).cap }
            ensures { BelongsTo board.entry.now result }
        { work_in_parts(rt, board, other, halvings - 1) },
    );
    board.join(&mut hand, other);
    hand
}

/// How many tickets and draws there are, how often the draws are halved, and what the totals come to.
type Row = (u64, u64, u32, [u64; 2]);

const ROWS: &[Row] = &[
    // of the numbers below 100 twelve groups of eight give 28 each, and 96 to 99 give 0, 1, 2 and 3
    (100, 204, 1, [342, 700]),
    // no tickets
    (0, 4, 1, [0, 0]),
    // fewer draws than tickets: the tickets are 0 to 7, whoever drew them
    (100, 8, 2, [28, 56]),
    // 64 hands, and 125 groups of eight
    (1000, 64_064, 6, [3500, 7000]),
];

/// Whether the totals of a row come out.
fn is_right(rt: &(impl Threads + Sync), alloc: Global, row: &Row) -> bool {
    let (tickets, draws, halvings, wanted) = *row;
    if tickets > 1_000_000 || draws < 1 || draws > 1_000_000 {
        return false;
    }
    let Ok((board, hand)) = Board::new(alloc, tickets, 2, 7, draws) else {
        return false;
    };
    let hand = work_in_parts(rt, &board, hand, halvings);
    are_totals(board.close(alloc, hand), wanted.as_slice())
}

#[test]
fn totals_are_exact_whatever_the_order(rt: HostRuntime) {
    for row in ROWS {
        assert!(rt; is_right(&rt, rt.alloc(), row));
    }
}
