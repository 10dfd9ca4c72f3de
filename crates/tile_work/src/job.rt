ghost use Rattle.std.specs.Prelude.{ℕ, ◌≡◌, ◌<◌, OnOk, length, slice_index};

use lists::NoMemory;
use std::alloc::Global;

/// Work that is cut into tickets. Each ticket has an amount for each slot, which is added to the slot's total.
pub trait TileJob {
    /// How many tickets there are: the numbers below this.
    ghost tickets: { Self → ℕ };

    /// How many slots there are: the numbers below this.
    ghost slots: { Self → ℕ };

    /// The number, which comes last, is the amount of a ticket, which comes first, and a slot.
    ghost is_amount: { Self → ℕ → ℕ → ℕ → Type 0 };

    /// Writes the amounts of all slots for the ticket, in order, into the list, whatever it held before. Where it refuses,
    /// as for want of memory, the list may hold anything.
    fn amounts(&self, alloc: Global, ticket: u64, into: &mut Vec<u64>) -> Result<(), NoMemory>
        requires { ticket < tickets self.now }
        ensures one_each { OnOk result (length into.new.items ≡ slots self.now) }
        ensures in_order { OnOk result ((slot : ℕ) → slot < slots self.now →
            is_amount self.now ticket slot (slice_index into.new.items slot)) };
}
