ghost use Rattle.std.specs.Prelude.{◌≡◌, ◌≤◌, ◌<◌, ◌↔◌, ◌+◌, ◌^◌, Err, length, List, [], ◌∷◌, ℕ, OnOk, OnErr};
ghost use Rattle.lists.specs.ByteLists.{AreBytes};
ghost use Rattle.edge_io.specs.Bytes.{Appends, AppendsPrefix};
ghost use Rattle.edge_io.specs.FailureCounts.{Rose};
ghost use Rattle.edge_io.specs.ReadAnswers.{ReadsWhole};
ghost use Rattle.edge_io.specs.declared.whole.ReadError.TheVariants.{Fault, Memory};

use super::files::{Failed, Files};
use super::sink::Sink;
use std::alloc::{AllocError, Global};
use thiserror::Error;

/// Why a file was not read.
#[derive(Clone, Copy, Debug, PartialEq, Eq, Error)]
pub enum ReadError {
    /// The source failed, or the name is not there.
    #[error("the file could not be read")]
    Fault,
    /// The file has more bytes than the limit.
    #[error("the file is too long")]
    TooLong,
    /// No memory is left.
    #[error("no memory is left")]
    Memory,
}

impl From<AllocError> for ReadError {
    ghost from_gives = { λ _ error. error ≡ Memory };

    fn from(_error: AllocError) -> ReadError {
        ReadError::Memory
    }
}

impl From<Failed> for ReadError {
    ghost from_gives = { λ _ error. error ≡ Fault };

    fn from(_failed: Failed) -> ReadError {
        ReadError::Fault
    }
}

/// Reads the file of this name to its end, where it has at most `limit` bytes. Of a longer file it reads one byte
/// past the limit, to see that it is longer.
pub fn read_whole<F: Files>(
    alloc: Global,
    files: &mut F,
    name: &[u8],
    limit: usize,
) -> Result<Vec<u8>, ReadError>
    requires { limit ≤ 2 ^ 30 }
    ensures answer { ReadsWhole (F.holds files.old name.now) limit (F.faults files.old) (F.faults files.new)
        (F.started files.new) (F.rest files.new) result }
    ensures holds { (n : List ℕ) → F.holds files.new n ≡ F.holds files.old n }
    ensures starts { Appends (F.starts files.old) (F.starts files.new) (name.now ∷ []) }
    ensures sure { (n : List ℕ) → F.sure files.new n ↔ F.sure files.old n }
    ensures not_sure { result ≡ Err Fault → F.sure files.old name.now → ⊥ }
{
    let mut whole = Vec::new(alloc);
    let mut buf = [0u8; 4096];
    files.start(name)?;
    while whole.len() <= limit {
        let room = buf.len().min(limit + 1 - whole.len());
        let count = files.read(&mut buf[..room])?;
        if count == 0 {
            tell_bytes(whole.as_slice());
            return Ok(whole);
        }
        whole.extend_from_slice(&buf[..count])?;
    }
    Err(ReadError::TooLong)
}

/// Tells of items that they are bytes: contracts see a `u8` as a number without a bound.
fn tell_bytes(bytes: &[u8])
    ensures { AreBytes bytes.now }
{
    let _bytes = bytes;
}

/// Writes all bytes, and takes no memory.
#[tactic(auto, using(crate::proofs::ByteLaws::written_more))]
pub fn write_all<S: Sink>(sink: &mut S, bytes: &[u8]) -> Result<(), Failed>
    ensures written { OnOk result (Appends (S.written sink.old) (S.written sink.new) bytes.now) }
    ensures sure { OnOk result (S.sure sink.old ≤ S.sure sink.new + length bytes.now) }
    ensures not_sure { OnErr result (S.sure sink.old < length bytes.now) }
    ensures calm { OnOk result (S.faults sink.new ≡ S.faults sink.old) }
    ensures rose { OnErr result (Rose (S.faults sink.old) (S.faults sink.new)) }
    ensures prefix { OnErr result (AppendsPrefix (S.written sink.old) (S.written sink.new) bytes.now) }
    ensures untouched { bytes.now ≡ [] → sink.new ≡ sink.old }
{
    let mut at = 0;
    while at < bytes.len() {
        at += sink.write(&bytes[at..])?;
    }
    Ok(())
}
