ghost use Rattle.std.specs.Prelude.{◌≡◌, ◌≤◌, ◌<◌, ◌↔◌, ℕ, List, None, IsSome, OnSome, IfSome, IfOk, OnOk, OnErr, IsUtf8, length, take};
ghost use Rattle.std.specs.Io.KnownBytes.{Consumes, IsAtEnd};
ghost use Rattle.edge_io.specs.Bytes.{Gives};
ghost use Rattle.edge_io.specs.ReadAnswers.{HasFailed, ReadsFrom};

use super::counts::failure;
use super::files::{Failed, Files};
use std::io::Read;
use std::{fs, rt};

/// Files of the operating system. What they contain is not told. Each refusal of the system is a failure, and so is a
/// name that is no UTF-8 text.
#[derive(Drop)]
pub struct OsFiles<'a, R: rt::Files> {
    rt: &'a R,
    /// The file that is started, where one is.
    pub started: Option<R::File>,
    faults: u64,
}

impl<'a, R: rt::Files> OsFiles<'a, R> {
    /// The files that the runtime reaches. None is started, and no call has failed.
    pub fn new(rt: &'a R) -> OsFiles<'a, R>
        ensures faults { ⟦<OsFiles<'a, R> as Files>⟧.faults result ≡ 0 }
        ensures none_started { ⟦<OsFiles<'a, R> as Files>⟧.started result → ⊥ }
    {
        OsFiles {
            rt,
            started: None,
            faults: 0,
        }
    }
}

/// Opens the file of this name, where the name is a text and the system lets it.
fn open<R: rt::Files>(rt: &R, name: &[u8]) -> Option<R::File>
    ensures { OnSome result (IsUtf8 name.now) }
{
    match str::from_utf8(name) {
        Ok(path) => fs::open(rt, path).ok(),
        Err(_) => None,
    }
}

/// Reads the next bytes into the front of `buf`, and answers how many: 0 only at the end. `None` where it is refused.
fn read_next<T: Read>(reader: &mut T, buf: &mut [u8]) -> Option<usize>
    requires { 0 < length buf.old }
    ensures within { IfSome result (λ count. count ≤ length buf.new) }
    ensures given { IfSome result (λ count.
        Consumes (T.remaining reader.old) (T.remaining reader.new) (take count buf.new)) }
    ensures at_end { IfSome result (λ count. count ≡ 0 → IsAtEnd (T.remaining reader.new)) }
{
    reader.read(buf).ok()
}

impl<'a, R: rt::Files> Files for OsFiles<'a, R> {
    ghost holds = { λ _ _. None };

    ghost rest = { λ _. None };

    ghost started = { λ s. IsSome s.started };

    ghost starts = { λ _. None };

    ghost sure = { λ _ _. ⊥ };

    ghost steady = { λ _. ⊥ };

    ghost faults = { λ s. s.faults };

    fn start(&mut self, name: &[u8]) -> Result<(), Failed>
        ensures text { OnOk result (IsUtf8 name.now) }
        ensures sure { (n : List ℕ) → ⟦<Self as Files>⟧.sure self.new n ↔ ⟦<Self as Files>⟧.sure self.old n }
        ensures steady { OnOk result (⟦<Self as Files>⟧.sure self.old name.now → ⟦<Self as Files>⟧.steady self.new) }
        ensures not_sure { OnErr result (⟦<Self as Files>⟧.sure self.old name.now → ⊥) }
        ensures started { OnOk result (⟦<Self as Files>⟧.started self.new) }
        ensures rest { OnOk result
            (⟦<Self as Files>⟧.rest self.new ≡ ⟦<Self as Files>⟧.holds self.old name.now) }
        ensures calm { OnOk result
            (⟦<Self as Files>⟧.faults self.new ≡ ⟦<Self as Files>⟧.faults self.old) }
        ensures failed { OnErr result
            (HasFailed (⟦<Self as Files>⟧.faults self.old) (⟦<Self as Files>⟧.faults self.new)
            (⟦<Self as Files>⟧.started self.new) (⟦<Self as Files>⟧.rest self.new)) }
    {
        // The file before is closed first.
        self.started = None;
        self.started = open(self.rt, name);
        if self.started.is_none() {
            return Err(failure(&mut self.faults));
        }
        Ok(())
    }

    fn read(&mut self, buf: &mut [u8]) -> Result<usize, Failed>
        requires started { ⟦<Self as Files>⟧.started self.old }
        requires room { 0 < length buf.old }
        ensures sure { (n : List ℕ) → ⟦<Self as Files>⟧.sure self.new n ↔ ⟦<Self as Files>⟧.sure self.old n }
        ensures steady { OnOk result (⟦<Self as Files>⟧.steady self.new ↔ ⟦<Self as Files>⟧.steady self.old) }
        ensures not_steady { OnErr result (⟦<Self as Files>⟧.steady self.old → ⊥) }
        ensures started { OnOk result (⟦<Self as Files>⟧.started self.new) }
        ensures within { IfOk result (λ count. count ≤ length buf.new) }
        ensures gives { IfOk result (λ count.
            Gives (⟦<Self as Files>⟧.rest self.old) (⟦<Self as Files>⟧.rest self.new) (take count buf.new)) }
        // Where the file tells what is unread of it, these are its next bytes, and none only at its end.
        ensures unread { IfOk result (λ count.
            ReadsFrom ⟦<R::File as Read>⟧.remaining self.old.started self.new.started (take count buf.new)) }
        ensures calm { OnOk result
            (⟦<Self as Files>⟧.faults self.new ≡ ⟦<Self as Files>⟧.faults self.old) }
        ensures failed { OnErr result
            (HasFailed (⟦<Self as Files>⟧.faults self.old) (⟦<Self as Files>⟧.faults self.new)
            (⟦<Self as Files>⟧.started self.new) (⟦<Self as Files>⟧.rest self.new)) }
    {
        let Some(file) = &mut self.started else {
            unreachable!()
        };
        let Some(count) = read_next(file, buf) else {
            self.started = None;
            return Err(failure(&mut self.faults));
        };
        Ok(count)
    }
}
