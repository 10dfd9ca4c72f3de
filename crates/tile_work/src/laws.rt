//! Laws of what workers come to.

ghost use Rattle.std.specs.Prelude.{ℕ, ◌<◌, ◌≡◌};
ghost use Rattle.tile_work.specs.Crediting.{IsSumOfAmounts};

use super::job::TileJob;

/// Where each ticket of a job has one amount at most for a slot, the slot has one total at most. So the totals of `close_sums`
/// are then the same for any number of workers and any order of their steps.
pub fn sums_agree<J: TileJob>()
    ensures { (job : J) (slot : ℕ) →
        ((ticket one other : ℕ) → ticket < J.tickets job →
        J.is_amount job ticket slot one → J.is_amount job ticket slot other → one ≡ other) →
        (one other : ℕ) → IsSumOfAmounts (J.tickets job) (J.is_amount job) slot one →
        IsSumOfAmounts (J.tickets job) (J.is_amount job) slot other → one ≡ other }
{}
