ghost use Rattle.std.specs.Prelude.{◌≡◌, ◌≤◌, ◌<◌, ◌+◌, List, ℕ, Option, length, take, OnOk, OnErr, IfOk};
ghost use Rattle.edge_io.specs.Bytes.{Appends};
ghost use Rattle.edge_io.specs.FailureCounts.{Rose};

use super::files::Failed;

/// An output, which takes bytes.
pub trait Sink {
    /// What was written to the sink, in order, if it is one that tells.
    ghost written: { Self → Option (List ℕ) };

    /// How many bytes more the sink is sure to take, in whatever pieces they come.
    ghost sure: { Self → ℕ };

    /// How many calls failed. The count never falls: a call that answers `Ok` leaves it as it was, and at a failure it
    /// rises, or stands still where it stood at the last value of `u64`.
    ghost faults: { Self → ℕ };

    /// Takes bytes from the front of `piece`, and answers how many. A sink that takes none has failed. A failure
    /// leaves what was written.
    fn write(&mut self, piece: &[u8]) -> Result<usize, Failed>
        requires { 0 < length piece.now }
        ensures some { IfOk result (λ count. 1 ≤ count) }
        ensures within { IfOk result (λ count. count ≤ length piece.now) }
        ensures written { IfOk result (λ count. Appends (written self.old) (written self.new) (take count piece.now)) }
        ensures sure { IfOk result (λ count. sure self.old ≤ sure self.new + count) }
        ensures not_sure { OnErr result (sure self.old < length piece.now) }
        ensures calm { OnOk result (faults self.new ≡ faults self.old) }
        ensures rose { OnErr result (Rose (faults self.old) (faults self.new)) }
        ensures unchanged { OnErr result (written self.new ≡ written self.old) };
}
