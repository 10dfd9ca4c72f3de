//! Laws of the machine.

ghost use Rattle.std.specs.Prelude.{ℕ, List, All, sum_by, ◌*◌, ◌≤◌, ◌≡◌};
ghost use Rattle.tile_board.specs.declared.views.Limits.{Limits};
ghost use Rattle.tile_board.specs.declared.views.View.{View};
ghost use Rattle.tile_board.specs.Closing.{DrewAll, CreditsEach, sum_below};
ghost use Rattle.tile_board.specs.Counts.{times_credited, credited};
ghost use Rattle.tile_board.specs.HandFacts.{IsHandView};
ghost use Rattle.tile_board.specs.Machine.{BoardState, Event, AreAllowed, opening, after_events};
ghost use Rattle.tile_board.specs.Sound.{IsSound};

/// Events that happen one after another from the opening state, each allowed at its turn, leave a sound state.
pub fn board_runs()
    ensures { (limits : Limits) (events : List Event) →
        AreAllowed limits (opening limits) events → IsSound limits (after_events limits (opening limits) events) }
{}

/// In a sound state no ticket and slot is credited twice, over all hands together.
pub fn credits_are_single()
    ensures { (limits : Limits) (s : BoardState) → IsSound limits s →
        (ticket slot : ℕ) → sum_by (λ v. times_credited v ticket slot) s.views ≤ 1 }
{}

/// In a sound state each total is at most the number of tickets times the cap.
pub fn totals_are_bounded()
    ensures { (limits : Limits) (s : BoardState) → IsSound limits s →
        All (λ total. total ≤ limits.tickets * limits.cap) s.totals }
{}

/// What a hand added to a slot that drew all tickets and credited each of them once: the sum over all tickets.
pub fn all_tickets_are_summed()
    ensures { (limits : Limits) (v : View) (slot : ℕ) (amount : ℕ → ℕ) → IsHandView v → DrewAll limits v →
        CreditsEach v slot amount → credited v slot ≡ sum_below limits.tickets amount }
{}
