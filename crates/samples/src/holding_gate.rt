//! A gate for tests of workers. It holds the tickets that come first until all others have come, so that a run passes it only
//! where enough workers draw tickets at once.

use std::sync::atomic::{AtomicU64, Ordering};
use tile_work::Gate;

/// How often a held ticket looks for the others, where no other number is asked for: for longer than workers take to come.
pub const USUAL_TURNS: u64 = 1_000_000_000;

/// Mostly enough for another worker to come, if there is one. It is for tickets that are held in vain.
pub const FEW_TURNS: u64 = 100_000_000;

/// How many tickets the gate can tell apart: the numbers below this.
const MOST_TICKETS: usize = 64;

/// A gate that holds the tickets that come first, whichever they are, until all have come, and counts how often each of them
/// comes. Of more than `MOST_TICKETS` tickets it counts the others together, and cannot see where one of those comes twice in
/// place of another.
#[derive(Drop)]
pub struct HoldFirst {
    /// How many tickets there are.
    tickets: u64,
    /// How many of those that come are held: the first so many.
    held: u64,
    /// How often a held ticket looks for the others.
    turns: u64,
    /// How many have come.
    come: AtomicU64,
    /// Which have come of those that can be told apart: a bit for each.
    seen: AtomicU64,
    /// How often one of these came that had come before.
    again: AtomicU64,
    /// How many held tickets looked in vain.
    given_up: AtomicU64,
}

impl Gate for HoldFirst {
    fn pass(&self, ticket: u64) {
        self.note(ticket);
        if self.come.fetch_add(1, Ordering::SeqCst) < self.held {
            self.hold();
        }
    }
}

impl HoldFirst {
    /// A gate for so many tickets, which holds the one that comes first.
    pub fn new(tickets: u64) -> HoldFirst {
        HoldFirst::holding(tickets, 1, USUAL_TURNS)
    }

    /// A gate for so many tickets, which holds the first so many that come, each until all have come. It lets a ticket go that
    /// has looked so often for the others in vain.
    pub fn holding(tickets: u64, held: u64, turns: u64) -> HoldFirst {
        HoldFirst {
            tickets,
            held,
            turns,
            come: AtomicU64::new(0),
            seen: AtomicU64::new(0),
            again: AtomicU64::new(0),
            given_up: AtomicU64::new(0),
        }
    }

    /// Keeps in mind that the ticket has come, if it can be told apart.
    fn note(&self, ticket: u64) {
        if ticket >= MOST_TICKETS as u64 {
            return;
        }
        let bit = 1 << ticket;
        if self.seen.fetch_or(bit, Ordering::SeqCst) & bit != 0 {
            self.again.fetch_add(1, Ordering::SeqCst);
        }
    }

    /// Holds a ticket until all have come, or it has looked in vain.
    fn hold(&self) {
        for _ in 0..self.turns {
            if self.come.load(Ordering::SeqCst) >= self.tickets {
                return;
            }
        }
        self.given_up.fetch_add(1, Ordering::SeqCst);
    }

    /// Whether the ticket has come. It answers no for one that it cannot tell from others.
    pub fn has_come(&self, ticket: u64) -> bool {
        ticket < MOST_TICKETS as u64 && self.seen.load(Ordering::SeqCst) & (1 << ticket) != 0
    }

    /// Whether each ticket has come once and nothing else has, and each that was held saw the others come.
    pub fn is_content(&self) -> bool {
        let all = if self.tickets < MOST_TICKETS as u64 {
            !(u64::MAX << self.tickets)
        } else {
            u64::MAX
        };
        self.come.load(Ordering::SeqCst) == self.tickets
            && self.seen.load(Ordering::SeqCst) == all
            && self.again.load(Ordering::SeqCst) == 0
            && self.given_up.load(Ordering::SeqCst) == 0
    }
}
