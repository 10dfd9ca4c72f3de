//! Workers that share a board's tickets: the totals for several numbers of workers, want of memory at one ticket, that the workers are
//! at work at once, and that each ticket passes the gate before its amounts are asked for.

use super::jobs::SumJob;
use samples::{FEW_TURNS, HoldFirst, USUAL_TURNS};
use std::alloc::Global;
use std::thread::Threads;
use tile_board::Board;
use tile_work::{Gate, NoGate, close_sums, run_tiles};

/// What so many workers come to: whether all found memory, how many draws are left, and the totals.
#[derive(Drop)]
struct Outcome {
    found_memory: bool,
    left: u64,
    totals: Vec<u64>,
}

/// What so many workers come to by this gate. A credit adds at most `cap`, and each worker has one draw more than there are tickets.
fn outcome_of(
    rt: &(impl Threads + Sync),
    alloc: Global,
    job: &SumJob<'_>,
    gate: &(impl Gate + Sync),
    cap: u64,
    workers: u32,
) -> Option<Outcome> {
    let tickets = u64::from(job.tickets);
    if workers < 1 || workers > 64 || job.slots < 1 || job.slots > 2000 {
        return None;
    }
    if cap > 102_000 || tickets > 100_000 || tickets + u64::from(job.slots) > cap + 2 {
        return None;
    }
    let draws = u64::from(workers) * (tickets + 1);
    let Ok((board, mut hand)) = Board::new(alloc, tickets, job.slots, cap, draws) else {
        return None;
    };
    let ran = run_tiles(rt, alloc, job, gate, &board, &mut hand, workers);
    let left = hand.left();
    let found_memory = ran.is_ok();
    let totals = match ran {
        Ok(()) => close_sums(alloc, job, board, hand).ok()?,
        Err(_) => board.close(alloc, hand).ok()?,
    };
    Some(Outcome {
        found_memory,
        left,
        totals,
    })
}

/// How many tickets there are, the most that one credit may add, how many workers there are, the ticket for whose amounts there is no
/// memory, how many draws are left after it, and what the totals of two slots come to.
type Row = (u32, u64, u32, Option<u64>, u64, [u64; 2]);

/// Of the draws, one more for each worker than there are tickets, one is made for each ticket, and one by each worker that starts,
/// which gives none. No more start than there are tickets, but one does. The worker that finds no memory makes no draw more.
const ROWS: &[Row] = &[
    // 0 and 1 and 2, and one more each
    (3, 4, 2, None, 3, [3, 6]),
    // the same for one worker, and for more workers than tickets
    (3, 3, 1, None, 0, [3, 6]),
    (3, 3, 3, None, 6, [3, 6]),
    (3, 3, 64, None, 250, [3, 6]),
    // no tickets
    (0, 4, 1, None, 0, [0, 0]),
    (0, 4, 64, None, 63, [0, 0]),
    // one ticket is one worker's
    (1, 1, 64, None, 126, [0, 1]),
    (2, 2, 64, None, 188, [1, 3]),
    // the numbers below 1000 come to 999 times 500
    (1000, 1000, 1, None, 0, [499_500, 500_500]),
    (1000, 1000, 2, None, 1000, [499_500, 500_500]),
    (1000, 1000, 3, None, 2000, [499_500, 500_500]),
    (1000, 1000, 64, None, 63_000, [499_500, 500_500]),
    // of 4 draws one worker makes those of 0 and 1, and credits 0
    (3, 3, 1, Some(1), 2, [0, 1]),
    (3, 3, 1, Some(0), 3, [0, 0]),
    // of 8 draws two workers make those of all tickets, and one that gives none
    (3, 3, 2, Some(0), 4, [3, 5]),
    (3, 3, 2, Some(1), 4, [2, 4]),
    (3, 3, 2, Some(2), 4, [1, 3]),
    // of 12 draws three make one more that gives none
    (3, 3, 3, Some(2), 7, [1, 3]),
];

/// Whether a row comes out.
fn is_right(rt: &(impl Threads + Sync), alloc: Global, row: &Row) -> bool {
    let (tickets, cap, workers, refused, left, wanted) = *row;
    let job = SumJob {
        tickets,
        slots: 2,
        refused,
        gate: None,
    };
    match outcome_of(rt, alloc, &job, &NoGate, cap, workers) {
        Some(outcome) => {
            outcome.found_memory == refused.is_none()
                && outcome.left == left
                && outcome.totals.as_slice() == wanted.as_slice()
        }
        None => false,
    }
}

#[test]
fn totals_are_the_same_for_any_number_of_workers(rt: HostRuntime) {
    for (number, row) in ROWS.iter().enumerate() {
        assert!(rt; is_right(&rt, rt.alloc(), row), "row {number}");
    }
}

/// How many workers there are, how many tickets, at most 64, how many of these the gate holds and for how many turns, whether it
/// is content, and what the totals of two slots come to.
type HeldRow = (u32, u32, u64, u64, bool, [u64; 2]);

const HELD_ROWS: &[HeldRow] = &[
    // one worker goes on with three tickets while the other is held
    (2, 4, 1, USUAL_TURNS, true, [6, 10]),
    // three are held until the fourth comes, which takes a worker for each
    (4, 4, 3, USUAL_TURNS, true, [6, 10]),
    // seven until the eighth, and of more workers than tickets there is one for each
    (8, 8, 7, USUAL_TURNS, true, [28, 36]),
    (64, 8, 7, USUAL_TURNS, true, [28, 36]),
    // as many as may be: the numbers below 64 come to 63 times 32
    (64, 64, 63, USUAL_TURNS, true, [2016, 2080]),
    // one worker is held in vain, and then counts as ever
    (1, 2, 1, FEW_TURNS, false, [1, 3]),
];

/// Whether a row with a gate comes out.
fn is_held(rt: &(impl Threads + Sync), alloc: Global, row: &HeldRow) -> bool {
    let (workers, tickets, held, turns, content, wanted) = *row;
    let gate = HoldFirst::holding(u64::from(tickets), held, turns);
    let job = SumJob {
        tickets,
        slots: 2,
        refused: None,
        gate: Some(&gate),
    };
    match outcome_of(rt, alloc, &job, &gate, 64, workers) {
        Some(outcome) => {
            outcome.found_memory
                && outcome.totals.as_slice() == wanted.as_slice()
                && gate.is_content() == content
        }
        None => false,
    }
}

#[test]
fn workers_go_on_while_others_are_held(rt: HostRuntime) {
    for (number, row) in HELD_ROWS.iter().enumerate() {
        assert!(rt; is_held(&rt, rt.alloc(), row), "row {number}");
    }
}

/// Whether each total is the sum over the tickets of the ticket's number and the slot's: the numbers below n come to
/// n * (n - 1) / 2, and n times the slot's number are added.
fn are_sums(totals: &[u64], tickets: u32) -> bool {
    let tickets = u128::from(tickets);
    for (slot, total) in totals.iter().enumerate() {
        if 2 * u128::from(*total) + tickets != tickets * tickets + 2 * tickets * slot as u128 {
            return false;
        }
    }
    true
}

/// Whether two workers come to the sums.
fn comes_to_sums(rt: &(impl Threads + Sync), alloc: Global, tickets: u32, slots: u32) -> bool {
    let job = SumJob {
        tickets,
        slots,
        refused: None,
        gate: None,
    };
    match outcome_of(rt, alloc, &job, &NoGate, 102_000, 2) {
        Some(outcome) => {
            let totals = outcome.totals.as_slice();
            outcome.found_memory && totals.len() == slots as usize && are_sums(totals, tickets)
        }
        None => false,
    }
}

/// More tickets than 16 bits number, and as many slots as a board may have.
#[test]
fn many_tickets_and_slots_have_their_totals(rt: HostRuntime) {
    assert!(rt; comes_to_sums(&rt, rt.alloc(), 70_000, 1));
    assert!(rt; comes_to_sums(&rt, rt.alloc(), 3, 2000));
}
