ghost use Rattle.std.specs.Prelude.{◌+◌, ◌*◌, ◌≡◌, ◌≤◌, ◌<◌, OnOk, length, max, min};
ghost use Rattle.std.specs.Thread.{IsSync};
ghost use Rattle.tile_board.specs.Closing.{HasAllDraws};
ghost use Rattle.tile_board.specs.Hands.{limits_of, view_of, BelongsTo};
ghost use Rattle.tile_work.specs.Crediting.{HasCredits, IsMadeFor};
ghost use Rattle.tile_work.specs.inside.Working.{IsHanded, IsHandedBack};

use super::gate::Gate;
use super::job::TileJob;
use super::working::work;
use lists::NoMemory;
use std::alloc::Global;
use std::thread;
use std::thread::Threads;
use tile_board::{Board, Hand};

/// The most workers that may share a board's tickets.
pub const MOST_WORKERS: u32 = 64;

const _: () = prove!(MOST_WORKERS == 64);

/// Draws all tickets of the board and credits the amounts of the job, by so many workers at once, or by one for each ticket where
/// there are fewer tickets. The caller is one of them, and the others are in threads of their own where these can be started:
/// where one cannot be, the thread that was to start it does its part too. All of them have ended when it answers, and the hand
/// has all that they drew and credited. A worker draws until it is told that no ticket is left, and lets each ticket pass the
/// gate before it asks for its amounts.
///
/// The only error is that no memory is left. The worker that finds none stops, and the others go on to their end. Then
/// some tickets may be without credits.
pub fn run_tiles<R: Threads + Sync, J: TileJob + Sync, G: Gate + Sync>(
    rt: &R,
    alloc: Global,
    job: &J,
    gate: &G,
    board: &Board,
    hand: &mut Hand,
    workers: u32,
) -> Result<(), NoMemory>
    requires some_workers { 1 ≤ workers }
    requires few_workers { workers ≤ MOST_WORKERS }
    requires made_for { IsMadeFor (limits_of board.now) (J.tickets job.now) (J.slots job.now) (J.is_amount job.now) }
    requires all_draws { (limits_of board.now).draws ≡ workers * (J.tickets job.now + 1) }
    requires belongs { BelongsTo board.now hand.old }
    requires none_made { (view_of hand.old).made ≡ 0 }
    requires all_left { (view_of hand.old).left ≡ (limits_of board.now).draws }
    ensures belongs { BelongsTo board.now hand.new }
    ensures draws { HasAllDraws (limits_of board.now) (view_of hand.new) }
    // More draws than tickets: a worker was told that none are left.
    ensures none_left { OnOk result (length (view_of hand.new).tickets < (view_of hand.new).made) }
    ensures credits { OnOk result (HasCredits (J.slots job.now) (J.is_amount job.now) (view_of hand.new)) }
{
    // One draw more than there are tickets. The draws of workers who do not start stay with the hand.
    let each = hand.left() / u64::from(workers);
    let starting = starting_workers(workers, each - 1);
    let own = board.split(hand, u64::from(starting) * each);
    let (own, outcome) = work_in_halves(rt, alloc, job, gate, board, own, starting);
    board.join(hand, own);
    outcome
}

// How many of the workers start: no more than there are tickets, but one where there are none.
fn starting_workers(workers: u32, tickets: u64) -> u32
    ensures { result ≡ max 1 (min workers tickets) }
{
    u64::from(workers).min(tickets).max(1) as u32
}

// Halves the workers until there is one, and lets both halves work at once, each with draws for its own.
fn work_in_halves<R: Threads + Sync, J: TileJob + Sync, G: Gate + Sync>(
    rt: &R,
    alloc: Global,
    job: &J,
    gate: &G,
    board: &Board,
    mut hand: Hand,
    workers: u32,
) -> (Hand, Result<(), NoMemory>)
    requires { IsHanded (J.tickets job.now) (J.slots job.now) (J.is_amount job.now) workers board.now hand }
    ensures { IsHandedBack (J.tickets job.now) (J.slots job.now) (J.is_amount job.now) workers board.now result.0 result.1 }
{
    if workers == 1 {
        let outcome = work(alloc, job, gate, board, &mut hand);
        return (hand, outcome);
    }
    let half = workers / 2;
    let rest = workers - half;
    let draws = hand.left() / u64::from(workers) * u64::from(half);
    let other = board.split(&mut hand, draws);
    let ((mut hand, outcome), (other, other_outcome)) = thread::join(
        rt,
        || -> (Hand, Result<(), NoMemory>)
            requires sync { IsSync R.row × IsSync J.row × IsSync G.row }
            requires handed { IsHanded (J.tickets job.now) (J.slots job.now) (J.is_amount job.now) rest board.now hand }
            ensures { IsHandedBack (J.tickets job.entry.now) (J.slots job.entry.now) (J.is_amount job.entry.now)
                rest board.entry.now result.0 result.1 }
        { work_in_halves(rt, alloc, job, gate, board, hand, rest) },
        || -> (Hand, Result<(), NoMemory>)
            requires sync { IsSync R.row × IsSync J.row × IsSync G.row }
            requires handed { IsHanded (J.tickets job.now) (J.slots job.now) (J.is_amount job.now) half board.now other }
            ensures { IsHandedBack (J.tickets job.entry.now) (J.slots job.entry.now) (J.is_amount job.entry.now)
                half board.entry.now result.0 result.1 }
        { work_in_halves(rt, alloc, job, gate, board, other, half) },
    );
    board.join(&mut hand, other);
    (hand, outcome.and(other_outcome))
}
