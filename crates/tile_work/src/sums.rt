ghost use Rattle.std.specs.Prelude.{ℕ, ◌≡◌, ◌<◌, IfOk, length, slice_index};
ghost use Rattle.tile_board.specs.Closing.{HasAllDraws};
ghost use Rattle.tile_board.specs.Hands.{limits_of, view_of, BelongsTo};
ghost use Rattle.tile_work.specs.Crediting.{HasCredits, IsMadeFor, IsSumOfAmounts};

use super::job::TileJob;
use lists::NoMemory;
use std::alloc::Global;
use tile_board::laws::all_tickets_are_summed;
use tile_board::{Board, Hand};

/// Closes the board of a job after `run_tiles`. Each total is the sum over all tickets of the job's amounts. The only error
/// is that no memory is left.
pub fn close_sums<J: TileJob>(
    alloc: Global,
    job: &J,
    board: Board,
    hand: Hand,
) -> Result<Vec<u64>, NoMemory>
    requires made_for { IsMadeFor (limits_of board) (J.tickets job.now) (J.slots job.now) (J.is_amount job.now) }
    requires belongs { BelongsTo board hand }
    requires draws { HasAllDraws (limits_of board) (view_of hand) }
    requires none_left { length (view_of hand).tickets < (view_of hand).made }
    requires credits { HasCredits (J.slots job.now) (J.is_amount job.now) (view_of hand) }
    ensures one_each { IfOk result (λ totals. length totals.items ≡ J.slots job.now) }
    ensures sums { IfOk result (λ totals. (slot : ℕ) → slot < J.slots job.now →
        IsSumOfAmounts (J.tickets job.now) (J.is_amount job.now) slot (slice_index totals.items slot)) }
{
    all_tickets_are_summed();
    board.close(alloc, hand)
}
