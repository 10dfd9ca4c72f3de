//! The job of the workers.

use lists::NoMemory;
use samples::HoldFirst;
use std::alloc::Global;
use tile_work::TileJob;

/// A job of so many tickets and slots. The amount of a ticket and a slot is their sum. It finds no memory for the amounts of a ticket
/// that has not passed the gate, if it has one.
#[derive(Clone, Copy)]
pub struct SumJob<'a> {
    pub tickets: u32,
    pub slots: u32,
    /// The ticket for whose amounts there is no memory, if any.
    pub refused: Option<u64>,
    pub gate: Option<&'a HoldFirst>,
}

impl SumJob<'_> {
    /// Whether there is memory for the ticket's amounts.
    fn has_memory_for(&self, ticket: u64) -> bool {
        let has_passed = match self.gate {
            Some(gate) => gate.has_come(ticket),
            None => true,
        };
        has_passed && self.refused != Some(ticket)
    }
}

impl TileJob for SumJob<'_> {
    ghost use Rattle.std.specs.Prelude.{◌+◌, ◌≡◌};

    ghost tickets = { λ job. job.tickets };

    ghost slots = { λ job. job.slots };

    ghost is_amount = { λ job ticket slot n. n ≡ ticket + slot };

    fn amounts(&self, _alloc: Global, ticket: u64, into: &mut Vec<u64>) -> Result<(), NoMemory> {
        if !self.has_memory_for(ticket) {
            return Err(NoMemory);
        }
        into.clear();
        for slot in 0..self.slots {
            into.push(ticket + u64::from(slot))?;
        }
        Ok(())
    }
}
