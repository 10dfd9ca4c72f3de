ghost use Rattle.std.specs.Prelude.{◌≡◌, ◌≤◌, ◌<◌, ◌↔◌, List, [], ◌∷◌, ℕ, Option, length, take, OnOk, OnErr, IfOk};
ghost use Rattle.edge_io.specs.Bytes.{Appends, Gives};
ghost use Rattle.edge_io.specs.ReadAnswers.{HasFailed};

use thiserror::Error;

/// A source of files or a sink did not do what it was asked.
#[derive(Clone, Copy, Debug, PartialEq, Eq, Error)]
#[error("a file or an output failed")]
pub struct Failed;

/// A source of files, which are read one at a time, each from its start.
pub trait Files {
    /// What the file of a name contains, where the source tells it. No call changes it.
    ghost holds: { Self → List ℕ → Option (List ℕ) };

    /// What is unread of the started file, where the source tells it.
    ghost rest: { Self → Option (List ℕ) };

    /// True from a good start to the next failure: only then may a call read.
    ghost started: { Self → Type 0 };

    /// The names whose start was asked for, in order and whatever was answered, where the source tells them. No source
    /// of this crate does, since such a list takes memory. A caller is proved for every source, so what it says of the
    /// names that it starts holds as if they were told.
    ghost starts: { Self → Option (List (List ℕ)) };

    /// Whether the source is sure of a name: neither its start nor a read of its file can fail. No call changes it.
    ghost sure: { Self → List ℕ → Type 0 };

    /// Whether no read of the started file can fail.
    ghost steady: { Self → Type 0 };

    /// How many calls failed. The count never falls: a call that answers `Ok` leaves it as it was, and at a failure it
    /// rises, or stands still where it stood at the last value of `u64`.
    ghost faults: { Self → ℕ };

    /// Starts the file of this name, which is unread then. A name that is not there is a failure. After a failure no
    /// file is started.
    fn start(&mut self, name: &[u8]) -> Result<(), Failed>
        ensures holds { (n : List ℕ) → holds self.new n ≡ holds self.old n }
        ensures starts { Appends (starts self.old) (starts self.new) (name.now ∷ []) }
        ensures sure { (n : List ℕ) → sure self.new n ↔ sure self.old n }
        ensures steady { OnOk result (sure self.old name.now → steady self.new) }
        ensures not_sure { OnErr result (sure self.old name.now → ⊥) }
        ensures started { OnOk result (started self.new) }
        ensures rest { OnOk result (rest self.new ≡ holds self.old name.now) }
        ensures calm { OnOk result (faults self.new ≡ faults self.old) }
        ensures failed { OnErr result
            (HasFailed (faults self.old) (faults self.new) (started self.new) (rest self.new)) };

    /// Reads the next bytes of the started file into the front of `buf`, and answers how many: 0 only at the end.
    /// After a failure no file is started.
    fn read(&mut self, buf: &mut [u8]) -> Result<usize, Failed>
        requires started { started self.old }
        requires room { 0 < length buf.old }
        ensures holds { (n : List ℕ) → holds self.new n ≡ holds self.old n }
        ensures starts { starts self.new ≡ starts self.old }
        ensures sure { (n : List ℕ) → sure self.new n ↔ sure self.old n }
        ensures steady { OnOk result (steady self.new ↔ steady self.old) }
        ensures not_steady { OnErr result (steady self.old → ⊥) }
        ensures started { OnOk result (started self.new) }
        ensures within { IfOk result (λ count. count ≤ length buf.new) }
        ensures gives { IfOk result (λ count. Gives (rest self.old) (rest self.new) (take count buf.new)) }
        ensures calm { OnOk result (faults self.new ≡ faults self.old) }
        ensures failed { OnErr result
            (HasFailed (faults self.old) (faults self.new) (started self.new) (rest self.new)) };
}
